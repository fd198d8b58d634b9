//! Requests, and why they fail.
ghost use Rattle.std.specs.Prelude.{◌≡◌};
ghost use Rattle.hox_network.specs.Statuses.{status_of_file, status_of_fault};

use crate::presets::{FileFault, PresetFault};
use kpn_front::{ExitStatus, Refused};
use kpn_model::{Listed, Text};
use kpn_sketch::NetFault;
use kpn_tokens::{Decimals, Layout};
use std::alloc::AllocError;

/// The tokens of a file for the channel of this name: their bytes and layout, and the samples per second if
/// the file states them.
#[derive(Drop)]
pub struct TokenFile {
    pub channel: Text,
    pub layout: Layout,
    pub bytes: Listed<u8>,
    pub rate: Option<u32>,
}

/// A channel whose stream is wanted, and the format of its tokens.
#[derive(Drop)]
pub struct StreamAs<W> {
    pub channel: Text,
    pub written: W,
}

/// How to run a described network: with so many workers, 0 as 1 and more than 16 as 16; with this budget, in entries,
/// instead of the description's; with start tokens from these files; with the streams of `show` in the report, and
/// those of `outputs` as files.
#[derive(Drop)]
pub struct Request {
    pub workers: usize,
    pub budget: Option<u64>,
    pub tokens: Listed<TokenFile>,
    pub show: Listed<StreamAs<Decimals>>,
    pub outputs: Listed<StreamAs<Layout>>,
}

/// Why a request fails.
#[derive(Drop)]
pub enum Fault {
    /// The description is faulty.
    Description(Refused),
    /// A token file is faulty, other than by naming no channel.
    Tokens(PresetFault),
    /// The budget is not from 1 to this number.
    Budget(u64),
    /// No channel has this token file's name (numbered from 0). The names of all channels follow, in order.
    NoHolder(usize, Listed<Text>),
    /// No channel has this name to show (numbered from 0). The names of all channels follow, in order.
    NoShown(usize, Listed<Text>),
    /// No channel has this output's name (numbered from 0). The names of all channels follow, in order.
    NoOutput(usize, Listed<Text>),
    /// Out of memory.
    Memory,
    /// The machine rejected an answer of one of several workers.
    Lost,
}

/// Why a run has no result: out of memory, before the run or while writing its report; or the machine
/// rejected an answer of one of several workers.
#[derive(Clone, Copy, Debug, PartialEq, Eq)]
pub enum NoResult {
    Memory,
    Lost,
}

impl From<AllocError> for Fault {
    ghost use Rattle.hox_network.specs.declared.request.Fault.{Fault};

    ghost from_gives = { λ _ fault. fault ≡ Fault.Memory };

    fn from(_error: AllocError) -> Fault {
        Fault::Memory
    }
}

impl Fault {
    /// Returns the program's exit status.
    pub fn status(&self) -> ExitStatus
        ensures { result ≡ status_of_fault self.now }
    {
        match self {
            Fault::Description(refused) => match refused.fault {
                NetFault::Memory => ExitStatus::MemoryRefused,
                _ => ExitStatus::Refused,
            },
            Fault::Tokens(stop) => status_of_file(stop.fault),
            Fault::NoHolder(..) | Fault::NoShown(..) | Fault::NoOutput(..) =>
                ExitStatus::WrongArguments,
            Fault::Budget(_) => ExitStatus::WrongArguments,
            Fault::Memory => ExitStatus::MemoryRefused,
            Fault::Lost => ExitStatus::Lost,
        }
    }
}

fn status_of_file(fault: FileFault) -> ExitStatus
    ensures { result ≡ status_of_file fault }
{
    match fault {
        FileFault::NoChannel => ExitStatus::WrongArguments,
        FileFault::Memory => ExitStatus::MemoryRefused,
        FileFault::Record { .. } | FileFault::TooMany { .. } => ExitStatus::Refused,
    }
}
