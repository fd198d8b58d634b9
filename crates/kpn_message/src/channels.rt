//! Messages about channels.
use crate::processes::NAME_FORM;
use crate::quoted::Quoted;
use kpn_net::faults::{
    Clash, SameIn, SameOut, is_name, is_sort, is_token, out_sort, process_named,
};
use kpn_net::version::ceiling_in;
use kpn_net::{ChannelSketch, Kinds, NetFault, Sketch, Sort, TokenSketch};
use std::alloc::AllocError;
use std::fmt::Write;

/// Appends what is wrong with a channel that has the fault and follows the `earlier` ones.
pub(crate) fn push_channel<K: Kinds>(
    out: &mut String,
    sketch: &Sketch,
    earlier: &[ChannelSketch],
    channel: &ChannelSketch,
    fault: NetFault,
) -> Result<(), AllocError> {
    write!(out, "channel {}: ", Quoted(channel.name.as_str()))?;
    match fault {
        NetFault::Name if is_name(channel.name.as_str()) => {
            write!(out, "an earlier channel has this name")
        }
        NetFault::Name => write!(out, "{NAME_FORM}"),
        NetFault::NoEnd => push_no_end::<K>(out, sketch, channel),
        NetFault::Twice => push_shared(out, earlier, channel),
        NetFault::Sorts => push_sorts::<K>(out, sketch, channel),
        NetFault::Capacity => {
            let ceiling = ceiling_in(sketch.version);
            write!(
                out,
                "capacity {}; it must be 1 to {ceiling}",
                channel.capacity
            )
        }
        NetFault::Tokens => push_tokens(out, channel),
        _ => write!(out, "{fault}"),
    }
}

fn push_no_end<K: Kinds>(
    out: &mut String,
    sketch: &Sketch,
    channel: &ChannelSketch,
) -> Result<(), AllocError> {
    let processes = sketch.processes.as_slice();
    let is_out = out_sort::<K>(sketch, channel).is_none();
    let (key, name) = if is_out {
        ("from", channel.from.as_str())
    } else {
        ("to", channel.to.as_str())
    };
    let process = Quoted(name);
    if process_named(processes, name).is_none() {
        write!(out, "{key}: unknown process {process}")
    } else if is_out {
        write!(out, "process {process} has no output {}", channel.out)
    } else {
        write!(out, "process {process} has no input {}", channel.input)
    }
}

/// Appends the earlier channel at the same port.
fn push_shared(
    out: &mut String,
    earlier: &[ChannelSketch],
    channel: &ChannelSketch,
) -> Result<(), AllocError> {
    if let Some(other) = same_out(earlier, channel) {
        let (process, other) = (Quoted(channel.from.as_str()), Quoted(other));
        return write!(
            out,
            "output {} of process {process} already writes to channel {other}",
            channel.out
        );
    }
    if let Some(other) = same_in(earlier, channel) {
        let (process, other) = (Quoted(channel.to.as_str()), Quoted(other));
        return write!(
            out,
            "input {} of process {process} already reads channel {other}",
            channel.input
        );
    }
    Ok(())
}

fn same_out<'a>(earlier: &'a [ChannelSketch], channel: &ChannelSketch) -> Option<&'a str> {
    let other = earlier.iter().find(|c| SameOut::clash(c, channel))?;
    Some(other.name.as_str())
}

fn same_in<'a>(earlier: &'a [ChannelSketch], channel: &ChannelSketch) -> Option<&'a str> {
    let other = earlier.iter().find(|c| SameIn::clash(c, channel))?;
    Some(other.name.as_str())
}

fn push_sorts<K: Kinds>(
    out: &mut String,
    sketch: &Sketch,
    channel: &ChannelSketch,
) -> Result<(), AllocError> {
    let (sort, other) = match channel.sort {
        Sort::Words => ("words", "flags"),
        Sort::Flags => ("flags", "words"),
    };
    let (end, port, name) = if is_sort(channel.sort, out_sort::<K>(sketch, channel)) {
        ("input", channel.input, channel.to.as_str())
    } else {
        ("output", channel.out, channel.from.as_str())
    };
    let process = Quoted(name);
    write!(
        out,
        "sort {sort}, but {end} {port} of process {process} has sort {other}"
    )
}

fn push_tokens(out: &mut String, channel: &ChannelSketch) -> Result<(), AllocError> {
    let tokens = channel.tokens.as_slice();
    match tokens.iter().position(|t| !is_token(channel.sort, *t)) {
        Some(k) => push_token(out, channel.sort, k, tokens.get(k)),
        None => {
            let capacity = channel.capacity;
            write!(
                out,
                "tokens has length {}, but the capacity is {capacity}",
                tokens.len()
            )
        }
    }
}

/// Appends what is wrong with token `k`, which has the wrong sort.
fn push_token(
    out: &mut String,
    sort: Sort,
    k: usize,
    token: Option<&TokenSketch>,
) -> Result<(), AllocError> {
    match (sort, token) {
        (Sort::Words, Some(TokenSketch::Integer(x))) => {
            write!(out, "tokens[{k}] is {x}; a word can't be negative")
        }
        (Sort::Words, _) => write!(out, "tokens[{k}] is not an integer; the sort is words"),
        (Sort::Flags, _) => write!(out, "tokens[{k}] is not a boolean; the sort is flags"),
    }
}
