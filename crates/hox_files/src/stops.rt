//! Why a command is not carried out.
ghost use Rattle.std.specs.Prelude.{◌≡◌, Some};
ghost use Rattle.hox_network.specs.Preparing.{refusal};
ghost use Rattle.hox_files.specs.Statuses.{status_of_format, status_of_stop, status_of_unread};

use crate::formats::FormatStop;
use crate::reading::{Asked, ReadError};
use crate::uses::Use;
use hox_args::WordsFault;
use hox_network::Fault;
use kpn_front::{ExitStatus, Refused};
use kpn_net::NetFault;
use std::alloc::Global;
use std::io;

/// Why a command is not carried out. Nothing is written then.
#[derive(Drop)]
pub enum Stop<'a> {
    /// The arguments are wrong, or ask for help or the version.
    Words(WordsFault),
    /// A text of this option, which takes `CHANNEL=FILE`, has no `=`.
    NoPair { option: &'a str, text: &'a str },
    /// Standard input is named more than once.
    InputTwice,
    /// Two uses of files clash, in the order description, files read, files written, report. The tokens of
    /// one channel are read from two files; or both uses write to standard output; or they share a file that
    /// is written, or a source that gives its bytes once.
    Clash { one: Use<'a>, other: Use<'a> },
    /// The format of a file is rejected.
    Format(FormatStop<'a>),
    /// The file for a channel's tokens can't be read.
    Unread { file: &'a str, error: ReadError },
    /// The request failed.
    Refused(RefusedRequest<'a>),
    /// Out of memory.
    Memory,
}

/// The description's file, the request, and why it failed; and the system's reason, if the file can't be
/// read. The fault `Input` without such a reason means that the file is too long.
#[derive(Drop)]
pub struct RefusedRequest<'a> {
    pub file: &'a str,
    pub asked: Asked<'a>,
    pub fault: Fault,
    pub error: Option<io::Error>,
}

/// Why a description was not served, and the system's reason, if its file can't be read.
#[derive(Drop)]
pub struct Unserved {
    pub fault: Fault,
    pub error: Option<io::Error>,
}

impl<'a> Stop<'a> {
    /// Returns the program's exit status.
    pub fn status(&self) -> ExitStatus
        ensures { result ≡ status_of_stop self.now }
    {
        match self {
            Stop::Words(fault) => fault.status(),
            Stop::NoPair { .. } | Stop::InputTwice | Stop::Clash { .. } =>
                ExitStatus::WrongArguments,
            Stop::Format(stop) => status_of_format(*stop),
            Stop::Unread { error, .. } => status_of_unread(*error),
            Stop::Refused(refusal) => refusal.fault.status(),
            Stop::Memory => ExitStatus::MemoryRefused,
        }
    }
}

fn status_of_format(stop: FormatStop<'_>) -> ExitStatus
    ensures { result ≡ status_of_format stop.entry }
{
    match stop {
        FormatStop::Unknown(_)
        | FormatStop::NoUse(_)
        | FormatStop::Twice(_)
        | FormatStop::Alone { .. }
        | FormatStop::Unlike { .. } => ExitStatus::WrongArguments,
        FormatStop::Head { .. } => ExitStatus::Refused,
    }
}

fn status_of_unread(error: ReadError) -> ExitStatus
    ensures { result ≡ status_of_unread error }
{
    match error {
        ReadError::Memory => ExitStatus::MemoryRefused,
        ReadError::Failed(_) | ReadError::TooLong => ExitStatus::Refused,
    }
}

/// Returns the fault of a description that can't be opened, for this reason.
pub fn unopened(alloc: Global, error: io::Error) -> Unserved
    ensures { refusal result.fault ≡ Some NetFault.Input }
{
    Unserved {
        fault: Fault::Description(Refused::unread(alloc, NetFault::Input)),
        error: Some(error),
    }
}
