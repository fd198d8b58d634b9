//! Copies where several channels leave one output.
ghost use Rattle.std.specs.Prelude.{◌≡◌, ◌++◌, [], IfOk, OnOk, get_or, Some, if◌then◌else◌};
ghost use Rattle.std.specs.List.{list_any};
ghost use Rattle.std.specs.Option.{option_to_list};
ghost use Rattle.std.specs.Str.{bytes_eq};
ghost use Rattle.hox_network.specs.Copies.{branches, copied, copy_at, copy_kind, free_names, is_fed, is_free, is_input, last_position, leaves_input, leaves, link_at, moved_at, numbered, shares, source, with_copies, HoldsItems, output_pair, all_copies, all_links, all_moved};

use kpn_model::limits::{MOST_CHANNELS, MOST_PROCESSES};
use kpn_model::{Kinds, Listed, Sort, Text};
use kpn_net::faults::{Clash, SameOut, has_fault, out_sort, process_named};
use kpn_net::{ChannelSketch, NetFault, ProcessSketch, Sketch};
use std::alloc::{AllocError, Global};
use std::fmt::Write;

/// How many names are tried: a description has at most `MOST_PROCESSES` and `MOST_CHANNELS` names, and needs
/// fewer than `MOST_CHANNELS`.
const MOST_NAMES: usize = MOST_PROCESSES + 2 * MOST_CHANNELS;

/// An output of a process.
#[derive(Clone, Copy)]
struct Output<'a> {
    process: &'a str,
    out: i64,
}

/// Puts copies between an output and its channels, if several leave it, and appends them. The output writes to
/// the first copy, whose output 0 is the first channel and whose output 1 leads to the next copy; the last copy
/// has the last two channels. A copy and the channel to it have one name, which nothing else has; but at the first
/// channel of an input, the channel to the copy has its name and capacity, and it has the name of the copy.
pub(crate) fn with_copies<K: Kinds>(alloc: Global, sketch: Sketch) -> Result<Sketch, AllocError>
    ensures { IfOk result (λ r. r ≡ with_copies K.named K.signature sketch) }
{
    if has_fault::<K>(&sketch, NetFault::Counts) || !has_fault::<K>(&sketch, NetFault::Twice) {
        return Ok(sketch);
    }
    copied::<K>(alloc, sketch)
}

fn copied<K: Kinds>(alloc: Global, sketch: Sketch) -> Result<Sketch, AllocError>
    ensures { IfOk result (λ r. r ≡ copied K.named K.signature sketch (free_names MOST_NAMES sketch)) }
{
    let names = free_names(alloc, &sketch, MOST_NAMES)?;
    let copies = copies::<K>(alloc, &sketch, names.as_slice())?;
    let links = links::<K>(alloc, &sketch, names.as_slice())?;
    let moved = moved::<K>(alloc, &sketch, names.as_slice())?;
    let Sketch {
        version,
        budget,
        step,
        processes,
        channels: _,
    } = sketch;
    Ok(Sketch {
        version,
        budget,
        step,
        processes: Listed::new(joined(processes.into_vec(), copies)?),
        channels: Listed::new(joined(moved, links)?),
    })
}

fn joined<T: Drop>(first: Vec<T>, second: Vec<T>) -> Result<Vec<T>, AllocError>
    ensures { IfOk result (λ v. v.items ≡ first.items ++ second.items) }
{
    let mut all = first;
    let mut rest = second;
    all.append(&mut rest)?;
    Ok(all)
}

/// Returns those of the first `most` of copy_0, copy_1, .. that nothing has.
fn free_names(alloc: Global, sketch: &Sketch, most: usize) -> Result<Vec<Text>, AllocError>
    ensures { IfOk result (λ v. v.items ≡ free_names most sketch.now) }
{
    let mut names = Vec::new(alloc);
    for k in 0..most {
        let name = numbered(alloc, k)?;
        if is_free(sketch, name.as_str()) {
            names.push(name)?;
        }
    }
    Ok(names)
}

fn numbered(alloc: Global, k: usize) -> Result<Text, AllocError>
    ensures { IfOk result (λ name. name ≡ numbered k) }
{
    let mut name = String::new(alloc);
    write!(name, "copy_{k}")?;
    Ok(Text::new(name))
}

fn is_free(sketch: &Sketch, name: &str) -> bool
    ensures { result ≡ is_free sketch.now name.now }
{
    !(is_process(sketch.processes.as_slice(), name) || is_channel(sketch.channels.as_slice(), name))
}

fn is_process(processes: &[ProcessSketch], name: &str) -> bool
    ensures { result ≡ list_any (λ p. bytes_eq p.name name.now) processes.now }
{
    processes.iter().any(|p| p.name.as_str() == name)
}

fn is_channel(channels: &[ChannelSketch], name: &str) -> bool
    ensures { result ≡ list_any (λ c. bytes_eq c.name name.now) channels.now }
{
    channels.iter().any(|c| c.name.as_str() == name)
}

/// Whether both channels leave one output, which exists.
fn shares<K: Kinds>(sketch: &Sketch, channel: &ChannelSketch, other: &ChannelSketch) -> bool
    ensures { result ≡ shares K.named K.signature sketch.now channel.now other.now }
{
    out_sort::<K>(sketch, channel).is_some() && SameOut::clash(channel, other)
}

/// Whether some of these channels leave the output of `channel`.
fn branches<K: Kinds>(sketch: &Sketch, channel: &ChannelSketch, others: &[ChannelSketch]) -> bool
    ensures { result ≡ branches K.named K.signature sketch.now channel.now others.now }
{
    others
        .iter()
        .any(|other| shares::<K>(sketch, channel, other))
}

/// Whether a channel leaves a process that never writes.
fn leaves_input(sketch: &Sketch, channel: &ChannelSketch) -> bool
    ensures { result ≡ leaves_input sketch.now channel.now }
{
    match process_named(sketch.processes.as_slice(), channel.from.as_str()) {
        Some(process) => is_input(process.kind.as_str()),
        None => false,
    }
}

fn is_input(kind: &str) -> bool
    ensures { result ≡ is_input kind.now }
{
    kind == "input" || kind == "input_flags"
}

/// Whether a channel is the first of several that leave an input: what is fed into it is for all.
fn is_fed<K: Kinds>(
    sketch: &Sketch,
    earlier: &[ChannelSketch],
    channel: &ChannelSketch,
    later: &[ChannelSketch],
) -> bool
    ensures { result ≡ is_fed K.named K.signature sketch.now earlier.now channel.now later.now }
{
    leaves_input(sketch, channel)
        && !branches::<K>(sketch, channel, earlier)
        && branches::<K>(sketch, channel, later)
}

fn either<'a>(is_first: bool, first: &'a str, second: &'a str) -> &'a str
    ensures { result.now ≡ (if is_first then first.now else second.now) }
{
    if is_first { first } else { second }
}

/// Returns the number of the last of these channels that leaves the output of `channel`.
fn nearest<K: Kinds>(
    sketch: &Sketch,
    earlier: &[ChannelSketch],
    channel: &ChannelSketch,
) -> Option<usize>
    ensures { result ≡ last_position (shares K.named K.signature sketch.now channel.now) earlier.now }
{
    let mut found = None;
    for k in 0..earlier.len() {
        found = some_if(shares::<K>(sketch, channel, &earlier[k]), k, found);
    }
    found
}

fn some_if(is_one: bool, k: usize, other: Option<usize>) -> Option<usize>
    ensures { result ≡ (if is_one then Some k else other) }
{
    if is_one { Some(k) } else { other }
}

/// Returns free name `k`.
fn name_at(names: &[Text], k: usize) -> &str
    ensures { result.now ≡ get_or names.now k [] }
{
    match names.get(k) {
        Some(name) => name.as_str(),
        None => "",
    }
}

/// Returns what a channel's tokens come from: its output, or a copy.
fn source<'a, K: Kinds>(
    sketch: &Sketch,
    names: &'a [Text],
    earlier: &[ChannelSketch],
    channel: &'a ChannelSketch,
) -> Output<'a>
    ensures { output_pair result ≡ source K.named K.signature sketch.now names.now earlier.now channel.now }
{
    match nearest::<K>(sketch, earlier, channel) {
        Some(k) => Output {
            process: name_at(names, k),
            out: 1,
        },
        None => Output {
            process: channel.from.as_str(),
            out: channel.out,
        },
    }
}

fn kind_of(sort: Option<Sort>) -> &'static str
    ensures { result.now ≡ copy_kind sort }
{
    match sort {
        Some(Sort::Flags) => "copy_flags",
        _ => "copy",
    }
}

/// Returns the copy at the first of these channels, if there is one.
fn copy_at<K: Kinds>(
    alloc: Global,
    sketch: &Sketch,
    names: &[Text],
    earlier: &[ChannelSketch],
    channels: &[ChannelSketch],
) -> Result<Option<ProcessSketch>, AllocError>
    ensures { IfOk result (HoldsItems (copy_at K.named K.signature sketch.now names.now earlier.now channels.now)) }
{
    let Some((channel, later)) = channels.split_first() else {
        return Ok(None);
    };
    if !branches::<K>(sketch, channel, later) {
        return Ok(None);
    }
    let kind = kind_of(out_sort::<K>(sketch, channel));
    Ok(Some(ProcessSketch {
        name: Text::new(String::from_str(alloc, name_at(names, earlier.len()))?),
        kind: Text::new(String::from_str(alloc, kind)?),
        args: Listed::new(Vec::new(alloc)),
    }))
}

/// Returns the channel to that copy, if there is one.
fn link_at<K: Kinds>(
    alloc: Global,
    sketch: &Sketch,
    names: &[Text],
    earlier: &[ChannelSketch],
    channels: &[ChannelSketch],
) -> Result<Option<ChannelSketch>, AllocError>
    ensures { IfOk result (HoldsItems (link_at K.named K.signature sketch.now names.now earlier.now channels.now)) }
{
    let Some((channel, later)) = channels.split_first() else {
        return Ok(None);
    };
    if !branches::<K>(sketch, channel, later) {
        return Ok(None);
    }
    let name = name_at(names, earlier.len());
    let from = source::<K>(sketch, names, earlier, channel);
    let is_fed = is_fed::<K>(sketch, earlier, channel, later);
    let own = either(is_fed, channel.name.as_str(), name);
    Ok(Some(ChannelSketch {
        name: Text::new(String::from_str(alloc, own)?),
        from: Text::new(String::from_str(alloc, from.process)?),
        to: Text::new(String::from_str(alloc, name)?),
        out: from.out,
        input: 0,
        sort: Sort::Words,
        capacity: if is_fed { channel.capacity } else { 1 },
        tokens: Listed::new(Vec::new(alloc)),
    }))
}

/// Returns the output that the first of these channels leaves, now that there are copies.
fn leaves<'a, K: Kinds>(
    sketch: &Sketch,
    names: &'a [Text],
    earlier: &[ChannelSketch],
    channel: &'a ChannelSketch,
    later: &[ChannelSketch],
) -> Output<'a>
    ensures { output_pair result ≡ leaves K.named K.signature sketch.now names.now earlier.now channel.now later.now }
{
    if branches::<K>(sketch, channel, later) {
        Output {
            process: name_at(names, earlier.len()),
            out: 0,
        }
    } else {
        source::<K>(sketch, names, earlier, channel)
    }
}

/// Returns the first of these channels, now that there are copies.
fn moved_at<K: Kinds>(
    alloc: Global,
    sketch: &Sketch,
    names: &[Text],
    earlier: &[ChannelSketch],
    channels: &[ChannelSketch],
) -> Result<Option<ChannelSketch>, AllocError>
    ensures { IfOk result (HoldsItems (moved_at K.named K.signature sketch.now names.now earlier.now channels.now)) }
{
    let Some((channel, later)) = channels.split_first() else {
        return Ok(None);
    };
    let from = leaves::<K>(sketch, names, earlier, channel, later);
    let is_fed = is_fed::<K>(sketch, earlier, channel, later);
    let copy = name_at(names, earlier.len());
    let name = either(is_fed, copy, channel.name.as_str());
    Ok(Some(ChannelSketch {
        name: Text::new(String::from_str(alloc, name)?),
        from: Text::new(String::from_str(alloc, from.process)?),
        to: Text::new(String::from_str(alloc, channel.to.as_str())?),
        out: from.out,
        input: channel.input,
        sort: out_sort::<K>(sketch, channel).unwrap_or(channel.sort),
        capacity: channel.capacity,
        tokens: Listed::new(Vec::from_slice(alloc, channel.tokens.as_slice())?),
    }))
}

fn push_some<T: Drop>(all: &mut Vec<T>, item: Option<T>) -> Result<(), AllocError>
    ensures { OnOk result (all.new.items ≡ all.old.items ++ option_to_list item) }
{
    if let Some(item) = item {
        all.push(item)?;
    }
    Ok(())
}

fn copies<K: Kinds>(
    alloc: Global,
    sketch: &Sketch,
    names: &[Text],
) -> Result<Vec<ProcessSketch>, AllocError>
    ensures { IfOk result (λ v. v.items ≡ all_copies K.named K.signature sketch.now names.now) }
{
    let channels = sketch.channels.as_slice();
    let mut all = Vec::new(alloc);
    for c in 0..channels.len() {
        let (earlier, rest) = channels.split_at(c);
        push_some(&mut all, copy_at::<K>(alloc, sketch, names, earlier, rest)?)?;
    }
    Ok(all)
}

fn links<K: Kinds>(
    alloc: Global,
    sketch: &Sketch,
    names: &[Text],
) -> Result<Vec<ChannelSketch>, AllocError>
    ensures { IfOk result (λ v. v.items ≡ all_links K.named K.signature sketch.now names.now) }
{
    let channels = sketch.channels.as_slice();
    let mut all = Vec::new(alloc);
    for c in 0..channels.len() {
        let (earlier, rest) = channels.split_at(c);
        push_some(&mut all, link_at::<K>(alloc, sketch, names, earlier, rest)?)?;
    }
    Ok(all)
}

fn moved<K: Kinds>(
    alloc: Global,
    sketch: &Sketch,
    names: &[Text],
) -> Result<Vec<ChannelSketch>, AllocError>
    ensures { IfOk result (λ v. v.items ≡ all_moved K.named K.signature sketch.now names.now) }
{
    let channels = sketch.channels.as_slice();
    let mut all = Vec::new(alloc);
    for c in 0..channels.len() {
        let (earlier, rest) = channels.split_at(c);
        push_some(
            &mut all,
            moved_at::<K>(alloc, sketch, names, earlier, rest)?,
        )?;
    }
    Ok(all)
}
