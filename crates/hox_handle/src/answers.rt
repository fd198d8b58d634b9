//! Answers of calls, and their numbers.
ghost use Rattle.std.specs.Prelude.{◌≡◌};
ghost use Rattle.hox_handle.specs.Answers.{answer_number, end_number, pause_number};

use kpn_flow::Pause;
use kpn_model::End;
use kpn_net::NetFault;

/// The answer to a call: success, or why it failed.
#[derive(Clone, Copy, Debug, PartialEq, Eq)]
pub enum ReturnCode {
    Done,
    /// The description has this fault; `NetFault::Memory` means out of memory.
    Description(NetFault),
    /// The flow is closed.
    Closed,
    /// The flow is already open.
    Open,
    /// No input or no output has this place or name.
    NoChannel,
    /// The input has ended.
    Ended,
    /// A word for an input of flags is neither 0 nor 1.
    NoFlag,
    /// The names are not UTF-8.
    NoText,
    /// A channel to feed does not exist, or its writer does more than stop.
    NoInput,
    /// A channel to drain does not exist, or its reader does more than read it.
    NoOutput,
    /// A channel is named twice.
    Twice,
}

impl ReturnCode {
    /// Returns the number of an answer: 0 for success, 1 to 17 for a fault of the description, else 32 to 40.
    pub fn number(self) -> u32
        ensures { result ≡ answer_number self }
    {
        match self {
            ReturnCode::Done => 0,
            ReturnCode::Description(fault) => u32::from(fault.number()),
            ReturnCode::Closed => 32,
            ReturnCode::Open => 33,
            ReturnCode::NoChannel => 34,
            ReturnCode::Ended => 35,
            ReturnCode::NoFlag => 36,
            ReturnCode::NoText => 37,
            ReturnCode::NoInput => 38,
            ReturnCode::NoOutput => 39,
            ReturnCode::Twice => 40,
        }
    }
}

/// Returns the number of a pause: 0 to 2, or that of its end.
pub fn pause_number(pause: Pause) -> u32
    ensures { result ≡ pause_number pause }
{
    match pause {
        Pause::Cut => 0,
        Pause::Starved => 1,
        Pause::Blocked => 2,
        Pause::Over(end) => end_number(end),
    }
}

/// Returns the number of an end, 64 to 68.
pub fn end_number(end: End) -> u32
    ensures { result ≡ end_number end }
{
    match end {
        End::Terminated => 64,
        End::Deadlock => 65,
        End::Ceiling => 66,
        End::Budget => 67,
        End::Memory => 68,
    }
}
