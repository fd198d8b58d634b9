//! Copies the parts of a network.
ghost use Rattle.std.specs.Prelude.{◌≡◌, IfOk};
ghost use Rattle.kpn_network.specs.Parts.{network_of};

use kpn_model::{Channel, Kinds, Listed, Process, Text};
use kpn_network::{Net, Parts};
use std::alloc::{AllocError, Global};

/// Copies the parts of a network. Errors: out of memory.
pub(crate) fn parts_of<K: Kinds>(alloc: Global, net: &Net<K>) -> Result<Parts, AllocError>
    ensures { IfOk result (λ parts. network_of parts ≡ net.now) }
{
    Ok(Parts {
        processes: processes_of(alloc, net)?,
        channels: channels_of(alloc, net)?,
        budget: net.budget(),
        step: net.step(),
        ceiling: net.ceiling(),
    })
}

fn processes_of<K: Kinds>(alloc: Global, net: &Net<K>) -> Result<Vec<Process>, AllocError>
    ensures { IfOk result (λ v. v.items ≡ net.now.processes) }
{
    let list = net.process_list();
    let mut processes = Vec::with_capacity(alloc, list.len())?;
    for process in list {
        processes.push(copy_of_process(alloc, process)?)?;
    }
    Ok(processes)
}

fn copy_of_process(alloc: Global, process: &Process) -> Result<Process, AllocError>
    ensures { IfOk result (λ copy. copy ≡ process.now) }
{
    Ok(Process {
        name: Text::new(String::from_str(alloc, process.name.as_str())?),
        card: process.card,
    })
}

fn channels_of<K: Kinds>(alloc: Global, net: &Net<K>) -> Result<Vec<Channel>, AllocError>
    ensures { IfOk result (λ v. v.items ≡ net.now.channels) }
{
    let list = net.channel_list();
    let mut channels = Vec::with_capacity(alloc, list.len())?;
    for channel in list {
        channels.push(copy_of_channel(alloc, channel)?)?;
    }
    Ok(channels)
}

fn copy_of_channel(alloc: Global, channel: &Channel) -> Result<Channel, AllocError>
    ensures { IfOk result (λ copy. copy ≡ channel.now) }
{
    Ok(Channel {
        name: Text::new(String::from_str(alloc, channel.name.as_str())?),
        writer: channel.writer,
        out: channel.out,
        reader: channel.reader,
        input: channel.input,
        sort: channel.sort,
        capacity: channel.capacity,
        tokens: Listed::new(Vec::from_slice(alloc, channel.tokens.as_slice())?),
    })
}
