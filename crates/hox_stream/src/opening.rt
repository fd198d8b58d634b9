//! The network of a stream.
ghost use Rattle.std.specs.Prelude.{◌≡◌, IfOk, IfErr, Some, map};
ghost use Rattle.std.specs.Option.{option_copied};
ghost use Rattle.kpn_compute.specs.Both.{both_named};
ghost use Rattle.kpn_net.specs.Sketched.{net_of};
ghost use Rattle.hox_stream.specs.Starts.{HasNoNetWithExits};
ghost use Rattle.hox_stream.specs.Exits.{channel_to, exit_named, exited, is_one_of, is_reader, with_exits};

use crate::exits::{Exits, exit_name};
use kpn_compute::Both;
use kpn_model::{Kinds, Listed, Text};
use kpn_net::{ChannelSketch, Check, Net, NetFault, ProcessSketch, Sketch};
use std::alloc::{AllocError, Global};

/// Makes the network of a sketch in which each process that only reads a channel of one of these names is one of
/// [`Exits`], so that the channel may be an output of a flow. Errors: the fault of that sketch, or `Memory`.
pub(crate) fn net_with_exits<K: Kinds>(
    alloc: Global,
    sketch: Sketch,
    names: &[Text],
) -> Result<Net<Both<K, Exits>>, NetFault>
    ensures ok { IfOk result (λ net. net ≡ net_of (both_named K.named exit_named) (with_exits names.now sketch)) }
    ensures fault { IfErr result (HasNoNetWithExits K.Kinds sketch names.now) }
{
    match with_exits(alloc, sketch, names) {
        Ok(opened) => Net::check(alloc, &opened),
        Err(_) => Err(NetFault::Memory),
    }
}

fn with_exits(alloc: Global, sketch: Sketch, names: &[Text]) -> Result<Sketch, AllocError>
    ensures { IfOk result (λ r. r ≡ with_exits names.now sketch) }
{
    let Sketch {
        version,
        budget,
        step,
        processes,
        channels,
    } = sketch;
    let processes = all_exited(alloc, processes.into_vec(), channels.as_slice(), names)?;
    Ok(Sketch {
        version,
        budget,
        step,
        processes: Listed::new(processes),
        channels,
    })
}

fn all_exited(
    alloc: Global,
    processes: Vec<ProcessSketch>,
    channels: &[ChannelSketch],
    names: &[Text],
) -> Result<Vec<ProcessSketch>, AllocError>
    ensures { IfOk result (λ v. v.items ≡ map (exited channels.now names.now) processes.items) }
{
    let mut all = Vec::new(alloc);
    for process in processes {
        all.push(exited(alloc, process, channels, names)?)?;
    }
    Ok(all)
}

/// Makes a process stop at once if it only reads a channel of one of these names.
fn exited(
    alloc: Global,
    process: ProcessSketch,
    channels: &[ChannelSketch],
    names: &[Text],
) -> Result<ProcessSketch, AllocError>
    ensures { IfOk result (λ r. r ≡ exited channels.now names.now process) }
{
    if !is_reader(process.kind.as_str()) {
        return Ok(process);
    }
    let Some(channel) = channel_to(channels, names, process.name.as_str()) else {
        return Ok(process);
    };
    let kind = Text::new(String::from_str(alloc, exit_name(channel.sort))?);
    Ok(ProcessSketch {
        name: process.name,
        kind,
        args: Listed::new(Vec::new(alloc)),
    })
}

fn is_reader(kind: &str) -> bool
    ensures { result ≡ is_reader kind.now }
{
    kind == "sink" || kind == "drain" || kind == "drain_flags"
}

fn is_one_of(names: &[Text], name: &str) -> bool
    ensures { result ≡ is_one_of names.now name.now }
{
    names.iter().any(|other| other.as_str() == name)
}

fn channel_to<'a>(
    channels: &'a [ChannelSketch],
    names: &[Text],
    process: &str,
) -> Option<&'a ChannelSketch>
    ensures { option_copied result ≡ channel_to channels.now names.now process.now }
{
    channels.iter().find(|c| c.to.as_str() == process && is_one_of(names, c.name.as_str()))
}
