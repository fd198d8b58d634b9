//! The outcome of a commit.

/// The outcome of a commit, with the number of appended entries. `Done`: the process's deed was done (1 to 3).
/// `Parked`: it could not continue and was parked (0, or 2 for a growth and a put). `LaidBack`: the run had
/// ended, and the process is ready again.
#[derive(Clone, Copy, Debug, PartialEq, Eq)]
pub enum Outcome {
    Done(usize),
    Parked(usize),
    LaidBack,
}
