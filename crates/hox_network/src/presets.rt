//! Sets start tokens from files.
ghost use Rattle.std.specs.Prelude.{◌≡◌, ◌<◌, false, OnOk, IfErr, IfSome, IsTrue, length};
ghost use Rattle.kpn_model.specs.Network.{channel_of, number_of_channel};
ghost use Rattle.kpn_network.specs.Parts.{network_of};
ghost use Rattle.hox_network.specs.Presets.{IsFileFault, PresetAll, PresetsOne, RefusesBudget, SetsBudget, Stops, greatest_budget, with_tokens};

use crate::request::TokenFile;
use kpn_model::limits::{CEILING, GREATEST_BUDGET, GREATEST_HIGH_BUDGET};
use kpn_model::{Listed, Sort, Token};
use kpn_network::Parts;
use kpn_tokens::{MOST_TOKENS, RecordFault, TokensFault, read_tokens};
use std::alloc::Global;

/// Why a token file is rejected.
#[derive(Clone, Copy, Debug, PartialEq, Eq)]
pub enum FileFault {
    /// No channel has the name.
    NoChannel,
    /// A record (a line or a frame) is faulty. Numbers start at 1.
    Record { number: usize, fault: RecordFault },
    /// There are more than `most` tokens, the limit of a channel.
    TooMany { most: usize },
    /// Out of memory.
    Memory,
}

/// Why one of several token files is rejected. Files are numbered from 0.
#[derive(Clone, Copy, Debug, PartialEq, Eq)]
pub struct PresetFault {
    pub file: usize,
    pub fault: FileFault,
}

/// Replaces the start tokens of the channels that the files name, one file after the other. A channel's
/// capacity becomes at least their number. Errors: the first faulty file, see [`FileFault`]. The files before
/// it have taken effect.
pub(crate) fn preset(
    alloc: Global,
    parts: &mut Parts,
    files: &[TokenFile],
) -> Result<(), PresetFault>
    ensures ok { OnOk result (PresetAll files.now (network_of parts.old) (network_of parts.new)) }
    ensures fault { IfErr result (λ e. Stops files.now (network_of parts.old) e.file e.fault) }
{
    for file in 0..files.len() {
        match preset_one(alloc, parts, &files[file]) {
            Ok(()) => {}
            Err(fault) => return Err(PresetFault { file, fault }),
        }
    }
    Ok(())
}

fn preset_one(alloc: Global, parts: &mut Parts, file: &TokenFile) -> Result<(), FileFault>
    ensures ok { OnOk result (PresetsOne (network_of parts.old) file.now (network_of parts.new)) }
    ensures fault { IfErr result (IsFileFault (network_of parts.old) file.now) }
{
    let Some(channel) = find_channel(parts, file.channel.as_str()) else {
        return Err(FileFault::NoChannel);
    };
    let most = parts.ceiling.min(MOST_TOKENS);
    let sort = sort_of(parts, channel);
    match read_tokens(alloc, file.layout, sort, file.bytes.as_slice()) {
        Ok(tokens) => {
            if tokens.len() > most {
                return Err(FileFault::TooMany { most });
            }
            hold(parts, channel, tokens);
            Ok(())
        }
        Err(TokensFault::TooMany) => Err(FileFault::TooMany { most }),
        Err(TokensFault::Record { number, fault }) => Err(FileFault::Record { number, fault }),
        Err(TokensFault::Memory) => Err(FileFault::Memory),
    }
}

fn find_channel(parts: &Parts, name: &str) -> Option<usize>
    ensures is { result ≡ number_of_channel (network_of parts.now) name.now }
    ensures within { IfSome result (λ c. c < length parts.now.channels.items) }
{
    parts.channels.iter().position(|c| c.name.as_str() == name)
}

fn sort_of(parts: &Parts, channel: usize) -> Sort
    requires { channel < length parts.now.channels.items }
    ensures { result ≡ (channel_of (network_of parts.now) channel).sort }
{
    parts.channels[channel].sort
}

/// Sets the start tokens of a channel, and makes room for them.
fn hold(parts: &mut Parts, channel: usize, tokens: Vec<Token>)
    requires { channel < length parts.old.channels.items }
    ensures { network_of parts.new ≡ with_tokens (network_of parts.old) channel tokens.items }
{
    let count = tokens.len();
    let held = &mut parts.channels[channel];
    held.capacity = held.capacity.max(count);
    held.tokens = Listed::new(tokens);
}

/// Sets the budget, in entries, and returns true if it is from 1 to [`greatest_budget`]; else returns false
/// and changes nothing.
pub(crate) fn set_budget(parts: &mut Parts, budget: u64) -> bool
    ensures yes { IsTrue result → SetsBudget parts.old.ceiling budget (network_of parts.old) (network_of parts.new) }
    ensures no { result ≡ false → RefusesBudget parts.old.ceiling budget (network_of parts.old) (network_of parts.new) }
{
    if budget < 1 || budget > greatest_budget(parts.ceiling) {
        return false;
    }
    parts.budget = budget;
    true
}

/// Returns the greatest budget of a network with this ceiling.
pub(crate) fn greatest_budget(ceiling: usize) -> u64
    ensures { result ≡ greatest_budget ceiling }
{
    if ceiling <= CEILING as usize {
        u64::from(GREATEST_BUDGET)
    } else {
        u64::from(GREATEST_HIGH_BUDGET)
    }
}
