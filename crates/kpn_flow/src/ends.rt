//! Which channels of a network may be fed, and which drained.
ghost use Rattle.std.specs.Prelude.{◌≡◌, ◌<◌, length, map, None, IfSome, IfNone};
ghost use Rattle.std.specs.List.{list_any};
ghost use Rattle.kpn_model.specs.Families.{family};
ghost use Rattle.kpn_machine.specs.Opening.{cards_of};
ghost use Rattle.kpn_flow.specs.Ends.{stops_at_once, is_no_channel, has_twice, any_live_writer, any_live_reader, fault_at, IsFaultOf};
ghost use Rattle.kpn_flow.specs.Flows.{is_among, without};

use kpn_body::Body;
use kpn_machine::OpenFault;
use kpn_machine::opening::bodies_fault;
use kpn_model::{Act, Kinds};
use kpn_network::Net;

/// Why a flow was not opened: the number of bodies is not that of processes (`Bodies`); a body does not have
/// its process's card (`Card`); an input or output is no channel (`Channel`), or listed twice (`Twice`); the
/// writer of an input (`Writer`) or the reader of an output (`Reader`) does not stop at once; out of memory
/// (`Memory`).
#[derive(Clone, Copy, Debug, PartialEq, Eq)]
pub enum FlowFault {
    Bodies,
    Card,
    Channel,
    Twice,
    Writer,
    Reader,
    Memory,
}

pub(crate) fn is_among(channels: &[usize], channel: usize) -> bool
    ensures { result ≡ is_among channels.now channel }
{
    channels.iter().any(|c| *c == channel)
}

pub(crate) fn remove(channels: &mut Vec<usize>, channel: usize)
    ensures { channels.new.items ≡ without channels.old.items channel }
{
    channels.retain(|c| *c != channel);
}

fn has_twice(channels: &[usize]) -> bool
    ensures { result ≡ has_twice channels.now }
{
    let mut rest = channels;
    while let Some((first, later)) = rest.split_first() {
        if is_among(later, *first) {
            return true;
        }
        rest = later;
    }
    false
}

fn any_among(channels: &[usize], others: &[usize]) -> bool
    ensures { result ≡ list_any (is_among others.now) channels.now }
{
    channels.iter().any(|c| is_among(others, *c))
}

fn is_no_channel<K: Kinds>(net: &Net<K>, channel: usize) -> bool
    ensures { result ≡ is_no_channel net.now channel }
{
    !(channel < net.channels())
}

fn any_no_channel<K: Kinds>(net: &Net<K>, channels: &[usize]) -> bool
    ensures { result ≡ list_any (is_no_channel net.now) channels.now }
{
    channels.iter().any(|c| is_no_channel(net, *c))
}

/// Returns whether a process stops at once, according to its body. Then only the outside writes to, or reads
/// from, its channels.
///
/// ```text
/// if stops_at_once(bodies, process) {
///     return Ok(channel);
/// }
/// ```
pub fn stops_at_once<B: Body>(bodies: &[B], process: usize) -> bool
    requires { process < length bodies.now }
    ensures { result ≡ stops_at_once (family B.Kinds.Kinds) (map B.card bodies.now) process }
{
    let body = &bodies[process];
    let card = body.card();
    B::Kinds::starts(card);
    let local = B::Kinds::start(&card);
    let answer = body.answer(local, None);
    matches!(answer.act, Act::Stop)
}

/// A network, with as many bodies as it has processes.
#[derive(Drop)]
struct Staffed<'a, B: Body> {
    net: &'a Net<B::Kinds>,
    bodies: &'a [B],
    ghost one_each: { length bodies.now ≡ length net.now.processes },
}

fn any_live_writer<B: Body>(staffed: &Staffed<'_, B>, channels: &[usize]) -> bool
    ensures { result ≡ any_live_writer B.Kinds.Kinds staffed.now.net.now B.card staffed.now.bodies.now channels.now }
{
    staffed.net.assure_valid();
    let mut rest = channels;
    while let Some((first, later)) = rest.split_first() {
        let channel = *first;
        if channel < staffed.net.channels()
            && !stops_at_once(staffed.bodies, staffed.net.ends(channel).writer)
        {
            return true;
        }
        rest = later;
    }
    false
}

fn any_live_reader<B: Body>(staffed: &Staffed<'_, B>, channels: &[usize]) -> bool
    ensures { result ≡ any_live_reader B.Kinds.Kinds staffed.now.net.now B.card staffed.now.bodies.now channels.now }
{
    staffed.net.assure_valid();
    let mut rest = channels;
    while let Some((first, later)) = rest.split_first() {
        let channel = *first;
        if channel < staffed.net.channels()
            && !stops_at_once(staffed.bodies, staffed.net.ends(channel).reader)
        {
            return true;
        }
        rest = later;
    }
    false
}

fn end_fault<B: Body>(
    staffed: &Staffed<'_, B>,
    inputs: &[usize],
    outputs: &[usize],
) -> Option<FlowFault>
    ensures { result ≡ fault_at B.Kinds.Kinds staffed.now.net.now B.card staffed.now.bodies.now inputs.now outputs.now }
{
    let net = staffed.net;
    if any_no_channel(net, inputs) || any_no_channel(net, outputs) {
        return Some(FlowFault::Channel);
    }
    if has_twice(inputs) || has_twice(outputs) || any_among(inputs, outputs) {
        return Some(FlowFault::Twice);
    }
    if any_live_writer(staffed, inputs) {
        return Some(FlowFault::Writer);
    }
    if any_live_reader(staffed, outputs) {
        return Some(FlowFault::Reader);
    }
    None
}

/// Returns the first fault of the bodies, or of the inputs and outputs.
pub(crate) fn fault_of<B: Body>(
    net: &Net<B::Kinds>,
    bodies: &[B],
    inputs: &[usize],
    outputs: &[usize],
) -> Option<FlowFault>
    ensures some { IfSome result (IsFaultOf B.Kinds.Kinds net.now B.card bodies.now inputs.now outputs.now) }
    ensures cards { IfNone result (map B.card bodies.now ≡ cards_of net.now.processes) }
    ensures none { IfNone result (fault_at B.Kinds.Kinds net.now B.card bodies.now inputs.now outputs.now ≡ None) }
{
    match bodies_fault(net, bodies) {
        Some(OpenFault::Bodies) => Some(FlowFault::Bodies),
        Some(OpenFault::Card) => Some(FlowFault::Card),
        Some(OpenFault::Memory) => end_fault(&Staffed { net, bodies }, inputs, outputs),
        None => end_fault(&Staffed { net, bodies }, inputs, outputs),
    }
}
