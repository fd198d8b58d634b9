//! Locates a fault of a sketch.
ghost use Rattle.std.specs.Prelude.{◌≡◌, ◌||◌, IfSome, IfNone};
ghost use Rattle.std.specs.List.{list_any};
ghost use Rattle.kpn_message.specs.Location.{clashes_at, process_has_fault, channel_has_fault, IsLocation, has_capacity_outside, is_channel_misnamed, is_process_misnamed, IsFirstChannel, IsFirstProcess, NoChannelHas, NoProcessHas};
ghost use Rattle.kpn_model.specs.texts.NameForm.{is_name};
ghost use Rattle.kpn_net.specs.Faults.{same_out, same_in};

use kpn_net::faults::{
    Clash, SameIn, SameName, SameOut, has_unknown_kind, has_unused_port, has_wrong_args,
    has_wrong_capacity, has_wrong_sort, has_wrong_tokens, is_name, lacks_end,
};
use kpn_net::{ChannelSketch, Kinds, NetFault, ProcessSketch, Sketch};

/// A place in a sketch: all of it, or a process or channel by its number.
#[derive(Clone, Copy, Debug, PartialEq, Eq)]
pub enum Location {
    Description,
    Process(usize),
    Channel(usize),
}

/// Locates a fault: returns the first process that has it, else the first channel, else `Description`. Of two
/// equal names, or two channels at one port, the later has the fault. `Version`, `Counts`, `Budget` and `Step`
/// have no process or channel; any other fault of the sketch has one.
#[tactic(auto, using(crate::proofs::Locations::nowhere_else))]
pub fn locate<K: Kinds>(sketch: &Sketch, fault: NetFault) -> Location
    ensures { IsLocation K.named K.signature sketch.now fault result }
{
    if let Some(p) = first_process::<K>(sketch, fault) {
        return Location::Process(p);
    }
    match first_channel::<K>(sketch, fault) {
        Some(c) => Location::Channel(c),
        None => Location::Description,
    }
}

fn first_process<K: Kinds>(sketch: &Sketch, fault: NetFault) -> Option<usize>
    ensures first { IfSome result (IsFirstProcess K.named K.signature sketch.now fault) }
    ensures none { IfNone result (NoProcessHas K.named K.signature sketch.now fault) }
{
    for p in 0..sketch.processes.as_slice().len() {
        if process_has_fault::<K>(sketch, fault, p) {
            return Some(p);
        }
    }
    None
}

fn first_channel<K: Kinds>(sketch: &Sketch, fault: NetFault) -> Option<usize>
    ensures first { IfSome result (IsFirstChannel K.named K.signature sketch.now fault) }
    ensures none { IfNone result (NoChannelHas K.named K.signature sketch.now fault) }
{
    for c in 0..sketch.channels.as_slice().len() {
        if channel_has_fault::<K>(sketch, fault, c) {
            return Some(c);
        }
    }
    None
}

pub(crate) fn process_has_fault<K: Kinds>(sketch: &Sketch, fault: NetFault, p: usize) -> bool
    ensures { result ≡ process_has_fault K.named K.signature sketch.now fault p }
{
    let processes = sketch.processes.as_slice();
    let Some(process) = processes.get(p) else {
        return false;
    };
    match fault {
        NetFault::Name => is_process_misnamed(processes, p),
        NetFault::Kind => has_unknown_kind::<K>(process),
        NetFault::Args => has_wrong_args::<K>(process),
        NetFault::Unused => has_unused_port::<K>(sketch, process),
        _ => false,
    }
}

fn is_process_misnamed(processes: &[ProcessSketch], p: usize) -> bool
    ensures { result ≡ is_process_misnamed processes.now p }
{
    match processes.get(p) {
        Some(process) => {
            !is_name(process.name.as_str()) || clashes_at::<ProcessSketch, SameName>(processes, p)
        }
        None => false,
    }
}

pub(crate) fn channel_has_fault<K: Kinds>(sketch: &Sketch, fault: NetFault, c: usize) -> bool
    ensures { result ≡ channel_has_fault K.named K.signature sketch.now fault c }
{
    let channels = sketch.channels.as_slice();
    let Some(channel) = channels.get(c) else {
        return false;
    };
    match fault {
        NetFault::Name => is_channel_misnamed(channels, c),
        NetFault::NoEnd => lacks_end::<K>(sketch, channel),
        NetFault::Twice => shares_an_end(channels, c),
        NetFault::Sorts => has_wrong_sort::<K>(sketch, channel),
        NetFault::Capacity => is_capacity_wrong(sketch, channel),
        NetFault::Tokens => has_wrong_tokens(channel),
        _ => false,
    }
}

fn is_channel_misnamed(channels: &[ChannelSketch], c: usize) -> bool
    ensures { result ≡ is_channel_misnamed channels.now c }
{
    match channels.get(c) {
        Some(channel) => {
            !is_name(channel.name.as_str()) || clashes_at::<ChannelSketch, SameName>(channels, c)
        }
        None => false,
    }
}

/// Whether channel `c` begins or ends where an earlier one does.
fn shares_an_end(channels: &[ChannelSketch], c: usize) -> bool
    ensures { result ≡ (clashes_at same_out channels.now c || clashes_at same_in channels.now c) }
{
    clashes_at::<ChannelSketch, SameOut>(channels, c)
        || clashes_at::<ChannelSketch, SameIn>(channels, c)
}

fn is_capacity_wrong(sketch: &Sketch, channel: &ChannelSketch) -> bool
    ensures { result ≡ has_capacity_outside sketch.now.version channel.now }
{
    has_wrong_capacity(sketch.version, channel)
}

fn clashes_at<T, C: Clash<T>>(items: &[T], k: usize) -> bool
    ensures { result ≡ clashes_at C.clash items.now k }
{
    match items.get(k) {
        Some(x) => clashes_earlier::<T, C>(&items[..k], x),
        None => false,
    }
}

fn clashes_earlier<T, C: Clash<T>>(earlier: &[T], x: &T) -> bool
    ensures { result ≡ list_any (λ y. C.clash y x.now) earlier.now }
{
    earlier.iter().any(|y| C::clash(y, x))
}
