//! Faults of kinds, their arguments and their ports.
ghost use Rattle.std.specs.Prelude.{◌≡◌, ◌&&◌, ◌||◌, pos, is_none, unsigned_abs, slice_index_or};
ghost use Rattle.std.specs.List.{list_any};
ghost use Rattle.std.specs.Ordering.{int_eq};
ghost use Rattle.std.specs.Str.{bytes_eq};
ghost use Rattle.kpn_model.specs.Lawful.{CardFits};
ghost use Rattle.kpn_net.specs.Faults.{same_out, same_in, port_sort, is_sort, card_with, signature_of, has_unknown_kind, takes_other_count, has_wrong_args, signature_named, sketched_out_sort, sketched_in_sort, is_unused_out, is_unused_in, is_unused, has_unused_port, has_fault, is_of_other_sort, is_without_end};

use crate::names::{Clash, any_clash, process_named};
use kpn_model::{Card, Kinds, Signature, Sort};
use kpn_sketch::{ChannelSketch, NetFault, ProcessSketch, Sketch};

/// The clash of two channels from one port.
pub struct SameOut;

/// The clash of two channels to one port.
pub struct SameIn;

impl Clash<ChannelSketch> for SameOut {
    ghost clash = { same_out };

    fn clash(x: &ChannelSketch, y: &ChannelSketch) -> bool {
        x.from.as_str() == y.from.as_str() && x.out == y.out
    }
}

impl Clash<ChannelSketch> for SameIn {
    ghost clash = { same_in };

    fn clash(x: &ChannelSketch, y: &ChannelSketch) -> bool {
        x.to.as_str() == y.to.as_str() && x.input == y.input
    }
}

/// Returns the sort of a port; `None` if there is no such port.
pub fn port_sort(ports: &[Option<Sort>; 3], port: i64) -> Option<Sort>
    ensures { result ≡ port_sort ports.now port }
{
    match usize::try_from(port) {
        Ok(k) => ports.get(k).copied().flatten(),
        Err(_) => None,
    }
}

/// Whether `found` is this sort.
pub fn is_sort(sort: Sort, found: Option<Sort>) -> bool
    ensures { result ≡ is_sort sort found }
{
    match (sort, found) {
        (_, None) => false,
        (Sort::Words, Some(Sort::Words)) => true,
        (Sort::Flags, Some(Sort::Flags)) => true,
        _ => false,
    }
}

/// Returns argument `k` without its sign; 0 if it is missing.
fn arg(args: &[i64], k: usize) -> u64
    ensures { result ≡ unsigned_abs (slice_index_or args.now k (pos 0)) }
{
    args.get(k).copied().unwrap_or(0).unsigned_abs()
}

/// Returns the card of a kind with these arguments; missing ones are 0.
pub(crate) fn card_with(kind: u16, args: &[i64]) -> Card
    ensures is { result ≡ card_with kind args.now }
    ensures fits { CardFits result }
{
    Card {
        kind,
        args: [arg(args, 0), arg(args, 1), arg(args, 2)],
    }
}

/// Returns the ports of a process; `None` if the family has no kind of its name, or rejects its arguments.
pub fn signature_of<K: Kinds>(process: &ProcessSketch) -> Option<Signature>
    ensures { result ≡ signature_of K.named K.signature process.now }
{
    let (kind, _) = K::named(process.kind.as_str())?;
    K::signature(&card_with(kind, process.args.as_slice()))
}

/// Whether the family has no kind of the process's name for it.
pub fn has_unknown_kind<K: Kinds>(process: &ProcessSketch) -> bool
    ensures { result ≡ has_unknown_kind K.named K.signature process.now }
{
    K::named(process.kind.as_str()).is_none()
}

/// Whether the kind is unknown or takes another number of arguments.
pub fn takes_other_count<K: Kinds>(process: &ProcessSketch) -> bool
    ensures { result ≡ takes_other_count K.named K.signature process.now }
{
    match K::named(process.kind.as_str()) {
        Some((_, count)) => process.args.as_slice().len() != count,
        None => true,
    }
}

/// Whether the number of arguments is wrong or above three, one is negative, or the kind rejects them.
pub fn has_wrong_args<K: Kinds>(process: &ProcessSketch) -> bool
    ensures { result ≡ has_wrong_args K.named K.signature process.now }
{
    let args = process.args.as_slice();
    takes_other_count::<K>(process)
        || args.len() > 3
        || args.iter().any(|x| *x < 0)
        || signature_of::<K>(process).is_none()
}

/// Returns the ports of the process with this name; `None` if it, its kind or its signature is missing.
fn signature_named<K: Kinds>(sketch: &Sketch, name: &str) -> Option<Signature>
    ensures { result ≡ signature_named K.named K.signature sketch.now name.now }
{
    let process = process_named(sketch.processes.as_slice(), name)?;
    signature_of::<K>(process)
}

/// Returns the sort of the output that a channel begins at; `None` if there is none.
pub fn out_sort<K: Kinds>(sketch: &Sketch, channel: &ChannelSketch) -> Option<Sort>
    ensures { result ≡ sketched_out_sort K.named K.signature sketch.now channel.now }
{
    let signature = signature_named::<K>(sketch, channel.from.as_str())?;
    port_sort(&signature.outs, channel.out)
}

/// Returns the sort of the input that a channel ends at; `None` if there is none.
pub fn in_sort<K: Kinds>(sketch: &Sketch, channel: &ChannelSketch) -> Option<Sort>
    ensures { result ≡ sketched_in_sort K.named K.signature sketch.now channel.now }
{
    let signature = signature_named::<K>(sketch, channel.to.as_str())?;
    port_sort(&signature.ins, channel.input)
}

fn leads_from(channels: &[ChannelSketch], name: &str, port: i64) -> bool
    ensures { result ≡ list_any (λ c. bytes_eq c.from name.now && int_eq c.out port) channels.now }
{
    channels
        .iter()
        .any(|c| c.from.as_str() == name && c.out == port)
}

fn leads_to(channels: &[ChannelSketch], name: &str, port: i64) -> bool
    ensures { result ≡ list_any (λ c. bytes_eq c.to name.now && int_eq c.input port) channels.now }
{
    channels
        .iter()
        .any(|c| c.to.as_str() == name && c.input == port)
}

/// Whether a process with this name and signature has this output, and no channel leads from it.
pub fn is_unused_out<K: Kinds>(
    sketch: &Sketch,
    name: &str,
    signature: &Signature,
    port: i64,
) -> bool
    ensures { result ≡ is_unused_out K.named K.signature sketch.now name.now signature.now port }
{
    port_sort(&signature.outs, port).is_some()
        && !leads_from(sketch.channels.as_slice(), name, port)
}

/// Whether a process with this name and signature has this input, and no channel leads to it.
pub fn is_unused_in<K: Kinds>(sketch: &Sketch, name: &str, signature: &Signature, port: i64) -> bool
    ensures { result ≡ is_unused_in K.named K.signature sketch.now name.now signature.now port }
{
    port_sort(&signature.ins, port).is_some() && !leads_to(sketch.channels.as_slice(), name, port)
}

fn is_unused<K: Kinds>(sketch: &Sketch, name: &str, signature: &Signature, port: i64) -> bool
    ensures { result ≡ is_unused K.named K.signature sketch.now name.now signature.now port }
{
    is_unused_out::<K>(sketch, name, signature, port)
        || is_unused_in::<K>(sketch, name, signature, port)
}

/// Whether some port of the process has no channel.
pub fn has_unused_port<K: Kinds>(sketch: &Sketch, process: &ProcessSketch) -> bool
    ensures { result ≡ has_unused_port K.named K.signature sketch.now process.now }
{
    match signature_of::<K>(process) {
        Some(signature) => {
            let name = process.name.as_str();
            is_unused::<K>(sketch, name, &signature, 0)
                || is_unused::<K>(sketch, name, &signature, 1)
                || is_unused::<K>(sketch, name, &signature, 2)
        }
        None => false,
    }
}

/// Fault 6: the kind of some process is unknown.
pub(crate) fn has_unknown_kinds<K: Kinds>(sketch: &Sketch) -> bool
    ensures { result ≡ has_fault K.named K.signature sketch.now NetFault.Kind }
{
    sketch
        .processes
        .as_slice()
        .iter()
        .any(|p| has_unknown_kind::<K>(p))
}

/// Fault 7: some process has wrong arguments.
pub(crate) fn has_process_with_wrong_args<K: Kinds>(sketch: &Sketch) -> bool
    ensures { result ≡ has_fault K.named K.signature sketch.now NetFault.Args }
{
    sketch
        .processes
        .as_slice()
        .iter()
        .any(|p| has_wrong_args::<K>(p))
}

/// Whether the channel begins or ends at no port: its process doesn't exist or lacks the port.
pub fn lacks_end<K: Kinds>(sketch: &Sketch, channel: &ChannelSketch) -> bool
    ensures { result ≡ is_without_end K.named K.signature sketch.now channel.now }
{
    out_sort::<K>(sketch, channel).is_none() || in_sort::<K>(sketch, channel).is_none()
}

/// Fault 8: some channel begins or ends at no port.
pub(crate) fn has_channel_without_end<K: Kinds>(sketch: &Sketch) -> bool
    ensures { result ≡ has_fault K.named K.signature sketch.now NetFault.NoEnd }
{
    sketch
        .channels
        .as_slice()
        .iter()
        .any(|c| lacks_end::<K>(sketch, c))
}

/// Fault 9: two channels begin at one port, or end at one.
pub(crate) fn shares_port<K: Kinds>(sketch: &Sketch) -> bool
    ensures { result ≡ has_fault K.named K.signature sketch.now NetFault.Twice }
{
    let channels = sketch.channels.as_slice();
    any_clash::<ChannelSketch, SameOut>(channels) || any_clash::<ChannelSketch, SameIn>(channels)
}

/// Fault 10: some port of a process has no channel.
pub(crate) fn has_unused_ports<K: Kinds>(sketch: &Sketch) -> bool
    ensures { result ≡ has_fault K.named K.signature sketch.now NetFault.Unused }
{
    sketch
        .processes
        .as_slice()
        .iter()
        .any(|p| has_unused_port::<K>(sketch, p))
}

/// Whether a port at an end of the channel is missing or has another sort than the channel.
pub fn has_wrong_sort<K: Kinds>(sketch: &Sketch, channel: &ChannelSketch) -> bool
    ensures { result ≡ is_of_other_sort K.named K.signature sketch.now channel.now }
{
    !is_sort(channel.sort, out_sort::<K>(sketch, channel))
        || !is_sort(channel.sort, in_sort::<K>(sketch, channel))
}

/// Fault 11: some channel has another sort than a port at its ends.
pub(crate) fn has_wrong_sorts<K: Kinds>(sketch: &Sketch) -> bool
    ensures { result ≡ has_fault K.named K.signature sketch.now NetFault.Sorts }
{
    sketch
        .channels
        .as_slice()
        .iter()
        .any(|c| has_wrong_sort::<K>(sketch, c))
}
