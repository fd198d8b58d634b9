//! Why a flow returned to its caller.
use kpn_model::End;

/// Why `advance` returned.
///
/// - `Cut`: fewer than two of the allowed entries were left.
/// - `Starved`: no process can continue, and one waits for a token in an input.
/// - `Blocked`: otherwise, if no process can continue, and one waits for room in an output.
/// - `Over`: otherwise, if no growth can help; with the cause, as of a run. It is `Memory` if a growth ran
///   out of memory; the next `advance` tries again.
#[derive(Clone, Copy, Debug, PartialEq, Eq)]
pub enum Pause {
    Cut,
    Starved,
    Blocked,
    Over(End),
}
