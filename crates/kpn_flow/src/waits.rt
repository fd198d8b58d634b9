//! Processes that wait at the ends of a flow.
ghost use Rattle.std.specs.Prelude.{◌≡◌};
ghost use Rattle.std.specs.List.{list_any, list_all};
ghost use Rattle.kpn_flow.specs.Waits.{reads_from, writes_to, starves, holds_up, waits_to_read};

use kpn_model::{Act, Kinds};
use kpn_network::Net;
use kpn_state::Standing;
use kpn_state::standing::parked;

fn reads_from<K: Kinds>(net: &Net<K>, channel: usize, process: usize, act: Act) -> bool
    ensures { result ≡ reads_from net.now channel process act }
{
    match act {
        Act::Read(port) => match net.in_of(process, usize::from(port)) {
            Some(found) => found == channel,
            None => false,
        },
        Act::Write(..) | Act::Stop => false,
    }
}

fn writes_to<K: Kinds>(net: &Net<K>, channel: usize, process: usize, act: Act) -> bool
    ensures { result ≡ writes_to net.now channel process act }
{
    match act {
        Act::Write(port, _) => match net.out_of(process, usize::from(port)) {
            Some(found) => found == channel,
            None => false,
        },
        Act::Read(_) | Act::Stop => false,
    }
}

/// Whether the reader of a channel is parked with a read from it.
pub(crate) fn starves<K: Kinds>(net: &Net<K>, standings: &[Standing], channel: usize) -> bool
    ensures { result ≡ starves net.now standings.now channel }
{
    if channel >= net.channels() {
        return false;
    }
    let reader = net.ends(channel).reader;
    match parked(standings, reader) {
        Some(answer) => reads_from(net, channel, reader, answer.act),
        None => false,
    }
}

/// Whether the writer of a channel is parked with a write to it.
pub(crate) fn holds_up<K: Kinds>(net: &Net<K>, standings: &[Standing], channel: usize) -> bool
    ensures { result ≡ holds_up net.now standings.now channel }
{
    if channel >= net.channels() {
        return false;
    }
    let writer = net.ends(channel).writer;
    match parked(standings, writer) {
        Some(answer) => writes_to(net, channel, writer, answer.act),
        None => false,
    }
}

pub(crate) fn any_starves<K: Kinds>(
    net: &Net<K>,
    standings: &[Standing],
    channels: &[usize],
) -> bool
    ensures { result ≡ list_any (starves net.now standings.now) channels.now }
{
    channels.iter().any(|c| starves(net, standings, *c))
}

pub(crate) fn any_holds_up<K: Kinds>(
    net: &Net<K>,
    standings: &[Standing],
    channels: &[usize],
) -> bool
    ensures { result ≡ list_any (holds_up net.now standings.now) channels.now }
{
    channels.iter().any(|c| holds_up(net, standings, *c))
}

/// Whether a process has stopped or waits for a token.
fn waits_to_read(standing: &Standing) -> bool
    ensures { result ≡ waits_to_read standing.now }
{
    match standing {
        Standing::Parked(answer) => matches!(answer.act, Act::Read(_)),
        Standing::Stopped => true,
        Standing::Ready | Standing::Out => false,
    }
}

pub(crate) fn all_wait_to_read(standings: &[Standing]) -> bool
    ensures { result ≡ list_all waits_to_read standings.now }
{
    standings.iter().all(|standing| waits_to_read(standing))
}
