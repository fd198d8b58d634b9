//! What a run does, and where it leaves the processes.

use crate::kinds::Local;
use crate::token::Token;

/// A process is live, with its local state and last token (`None` unless its last act was a read), or done.
#[derive(Clone, Copy, Debug, PartialEq, Eq)]
pub enum Status {
    Live { local: Local, last: Option<Token> },
    Done,
}

/// A process took a channel's first token, put a token at the end of one, or stopped. Channels are given by
/// their numbers in the network.
#[derive(Clone, Copy, Debug, PartialEq, Eq)]
pub enum Deed {
    Took { channel: usize, token: Token },
    Put { channel: usize, token: Token },
    Stopped,
}

/// A process did a deed, or a channel grew to a new capacity, in tokens.
#[derive(Clone, Copy, Debug, PartialEq, Eq)]
pub enum Entry {
    Did { process: usize, deed: Deed },
    Grew { channel: usize, to: usize },
}

/// Why a run ended. `Terminated`: all processes have stopped. `Deadlock`: some process is live, none is
/// enabled, and none is blocked on a write (Parks 1995's real deadlock). `Ceiling`: the channel due to grow is
/// at the ceiling. `Budget`: there are at least as many entries as the budget. `Memory`: out of memory for a
/// growth.
#[derive(Clone, Copy, Debug, PartialEq, Eq)]
pub enum End {
    Terminated,
    Deadlock,
    Ceiling,
    Budget,
    Memory,
}

/// Where a run left a process: stopped, or waiting to read or write the channel of this number.
#[derive(Clone, Copy, Debug, PartialEq, Eq)]
pub enum Place {
    Stopped,
    Reads(usize),
    Writes(usize),
}
