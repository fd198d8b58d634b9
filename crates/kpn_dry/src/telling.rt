//! Which processes are dry.
ghost use Rattle.std.specs.Prelude.{◌≡◌, ◌↔◌, true};
ghost use Rattle.kpn_model.specs.Network.{channel_of};
ghost use Rattle.kpn_state.specs.Standings.{standing, has_stopped};
ghost use Rattle.kpn_dry.specs.Told.{IsToldDry, awaited, is_told_dry, writer_read, IsDryIfTold, IsNotDryIfTold, IsCompleteIfTold, IsIncompleteIfTold};

use kpn_model::{Act, Kinds};
use kpn_network::Net;
use kpn_state::Standing;
use kpn_state::standing::parked;

/// Returns whether a process is dry, as the standings tell: it has stopped, or waits to read from a dry process.
/// Then it does nothing more in any longer run. A dry process is told otherwise only while some process is ready
/// or out. A number that is no process's counts as stopped.
pub fn is_dry<K: Kinds>(net: &Net<K>, standings: &[Standing], process: usize) -> bool
    ensures is { result ≡ is_told_dry net.now standings.now process }
    ensures told { (result ≡ true) ↔ IsToldDry net.now standings.now process }
    ensures dry { IsDryIfTold net.now standings.now process result }
    ensures not_dry { IsNotDryIfTold net.now standings.now process result }
{
    is_told_dry(net, standings, process)
}

fn is_told_dry<K: Kinds>(net: &Net<K>, standings: &[Standing], process: usize) -> bool
    ensures { result ≡ is_told_dry net.now standings.now process }
{
    let mut at = process;
    for _wait in 0..standings.len() {
        match awaited(net, standings, at) {
            Some(writer) => at = writer,
            None => return has_stopped(standings, at),
        }
    }
    has_stopped(standings, at)
}

/// Returns whether the writer of a channel is dry, as by [`is_dry`]: then its stream is whole. A number that is no
/// channel's is taken for a channel of process 0.
pub fn is_complete<K: Kinds>(net: &Net<K>, standings: &[Standing], channel: usize) -> bool
    ensures is { result ≡ is_told_dry net.now standings.now (channel_of net.now channel).writer }
    ensures complete { IsCompleteIfTold net.now standings.now channel result }
    ensures not_complete { IsIncompleteIfTold net.now standings.now channel result }
{
    is_dry(net, standings, writer_of(net, channel))
}

fn writer_of<K: Kinds>(net: &Net<K>, channel: usize) -> usize
    ensures { result ≡ (channel_of net.now channel).writer }
{
    if channel < net.channels() {
        net.ends(channel).writer
    } else {
        0
    }
}

/// Returns the writer of the channel at which a process is parked to read.
fn awaited<K: Kinds>(net: &Net<K>, standings: &[Standing], process: usize) -> Option<usize>
    ensures { result ≡ awaited net.now standings.now process }
{
    match parked(standings, process) {
        Some(answer) => writer_read(net, process, answer.act),
        None => None,
    }
}

fn writer_read<K: Kinds>(net: &Net<K>, process: usize, act: Act) -> Option<usize>
    ensures { result ≡ writer_read net.now process act }
{
    match act {
        Act::Read(port) => {
            let channel = net.in_of(process, usize::from(port))?;
            Some(writer_of(net, channel))
        }
        Act::Write(..) | Act::Stop => None,
    }
}

fn has_stopped(standings: &[Standing], process: usize) -> bool
    ensures { result ≡ has_stopped (standing standings.now process) }
{
    match standings.get(process) {
        Some(Standing::Stopped) | None => true,
        Some(Standing::Ready | Standing::Out | Standing::Parked(_)) => false,
    }
}
