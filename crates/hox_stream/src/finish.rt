//! Why a stream ends.
ghost use Rattle.std.specs.Prelude.{◌≡◌};
ghost use Rattle.hox_stream.specs.Finishes.{status_of};

use crate::cutting::Refusal;
use kpn_front::ExitStatus;
use kpn_model::{End, Verdict};

/// Why a stream ended. Sources and sinks are numbered from 0; sinks of several channels follow those of one.
#[derive(Clone, Copy, Debug, PartialEq, Eq)]
pub enum StreamFinish {
    /// No process can continue, and no token or room would help. `Memory` if a growth got no memory.
    Over(End),
    /// The next record of this source is rejected. All tokens before it were fed.
    Refused(usize, Refusal),
    /// A read of this source failed.
    Unread(usize),
    /// The sorts of this source and its channel differ. `serve` never ends so: it gives each source its
    /// channel's sort.
    OtherSort(usize),
    /// A write to this sink failed.
    Unwritten(usize),
    /// The next token for this sink does not fit its layout, and is not clipped. Those before it were written.
    Misfit(usize),
    /// More than 1,000,000 tokens of a channel of this sink wait for another channel's. All it had was written.
    Apart(usize),
    /// A process waits for a token of an input without a source.
    Idle,
    /// Out of memory while reading or writing.
    Memory,
    /// The stream took 2^64 - 1 turns.
    Cut,
}

impl StreamFinish {
    /// Returns the program's exit status. `verdict` is that on the network.
    pub fn status(self, verdict: Verdict) -> ExitStatus
        ensures { result ≡ status_of self verdict }
    {
        match self {
            StreamFinish::Over(_) | StreamFinish::Idle => match verdict {
                Verdict::Finished | Verdict::RanDry => ExitStatus::Success,
                Verdict::Cycle(_) => ExitStatus::Deadlocked,
                Verdict::Cut => ExitStatus::BudgetSpent,
                Verdict::Full => ExitStatus::AtCeiling,
                Verdict::Memory => ExitStatus::MemoryRefused,
            },
            StreamFinish::Refused(..)
            | StreamFinish::Unread(_)
            | StreamFinish::OtherSort(_)
            | StreamFinish::Misfit(_)
            | StreamFinish::Apart(_) => ExitStatus::Refused,
            StreamFinish::Unwritten(_) => ExitStatus::WriteFailed,
            StreamFinish::Memory => ExitStatus::MemoryRefused,
            StreamFinish::Cut => ExitStatus::BudgetSpent,
        }
    }
}
