//! The verdict on a network after a run.

/// The verdict. `Finished`: all processes have stopped. `RanDry`: a deadlock without a cycle of waits: each
/// waiting process waits, directly or indirectly, for a stopped one, as usual in a network fed with a stream.
/// `Cycle`: a deadlock with a cycle of waits, and the process with the lowest number on one. `Cut`: the budget
/// was spent. `Full`: the channel due to grow is at the ceiling. `Memory`: out of memory for a growth.
#[derive(Clone, Copy, Debug, PartialEq, Eq)]
pub enum Verdict {
    Finished,
    RanDry,
    Cycle(usize),
    Cut,
    Full,
    Memory,
}
