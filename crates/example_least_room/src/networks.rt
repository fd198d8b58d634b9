//! Parks's case, made in code.
ghost use Rattle.std.specs.Prelude.{◌≡◌, IfOk};
ghost use Rattle.test_laws.specs.WorkedRoom.{longer_parks_case as the_case};
ghost use Rattle.example_least_room.specs.CaseSketch.{process_sketch, channel_sketch, case_processes, case_channels, case_sketch};

use kpn_net::{ChannelSketch, Check, Listed, Net, NetFault, ProcessSketch, Sketch, Sort, Text};
use kpn_standard::Standard;
use std::alloc::{AllocError, Global};

/// Makes Parks's case (Parks 1995) with a counter of five. A copy sends the counter to both inputs of a
/// weave, which sends three tokens of one and then three of the other to a sink of eight. All channels have
/// capacity one, and grow by one.
///
/// Errors: out of memory.
pub fn longer_parks_case(alloc: Global) -> Result<Net<Standard>, AllocError>
    ensures { IfOk result (λ net. net ≡ the_case) }
{
    let sketch = sketch(alloc)?;
    match Net::check(alloc, &sketch) {
        Ok(net) => Ok(net),
        Err(NetFault::Memory) => Err(AllocError),
        Err(_) => unreachable!(),
    }
}

fn sketch(alloc: Global) -> Result<Sketch, AllocError>
    ensures { IfOk result (λ sketch. sketch ≡ case_sketch) }
{
    Ok(Sketch {
        version: 1,
        budget: 10000,
        step: 1,
        processes: processes(alloc)?,
        channels: channels(alloc)?,
    })
}

fn processes(alloc: Global) -> Result<Listed<ProcessSketch>, AllocError>
    ensures { IfOk result (λ processes. processes ≡ case_processes) }
{
    let mut processes = Listed::new(Vec::new(alloc));
    processes.push(process(alloc, "src", "count", vec![in alloc; 1, 5]?)?)?;
    processes.push(process(alloc, "cp", "copy", Vec::new(alloc))?)?;
    processes.push(process(alloc, "wv", "weave", vec![in alloc; 3, 3]?)?)?;
    processes.push(process(alloc, "snk", "sink", vec![in alloc; 8]?)?)?;
    Ok(processes)
}

fn channels(alloc: Global) -> Result<Listed<ChannelSketch>, AllocError>
    ensures { IfOk result (λ channels. channels ≡ case_channels) }
{
    let mut channels = Listed::new(Vec::new(alloc));
    channels.push(channel(alloc, "c0", ("src", 0), ("cp", 0))?)?;
    channels.push(channel(alloc, "c1", ("cp", 0), ("wv", 0))?)?;
    channels.push(channel(alloc, "c2", ("cp", 1), ("wv", 1))?)?;
    channels.push(channel(alloc, "c3", ("wv", 0), ("snk", 0))?)?;
    Ok(channels)
}

fn process(
    alloc: Global,
    name: &str,
    kind: &str,
    args: Vec<i64>,
) -> Result<ProcessSketch, AllocError>
    ensures { IfOk result (λ p. p ≡ process_sketch name.now kind.now args.items) }
{
    Ok(ProcessSketch {
        name: text(alloc, name)?,
        kind: text(alloc, kind)?,
        args: Listed::new(args),
    })
}

/// Makes a channel of words with capacity one, from a process's output to a process's input.
fn channel(
    alloc: Global,
    name: &str,
    from: (&str, i64),
    to: (&str, i64),
) -> Result<ChannelSketch, AllocError>
    ensures { IfOk result (λ c. c ≡ channel_sketch name.now from.entry.0.now from.entry.1 to.entry.0.now to.entry.1) }
{
    Ok(ChannelSketch {
        name: text(alloc, name)?,
        from: text(alloc, from.0)?,
        to: text(alloc, to.0)?,
        out: from.1,
        input: to.1,
        sort: Sort::Words,
        capacity: 1,
        tokens: Listed::new(Vec::new(alloc)),
    })
}

fn text(alloc: Global, characters: &str) -> Result<Text, AllocError>
    ensures { IfOk result (λ text. text ≡ characters.now) }
{
    Ok(Text::new(String::from_str(alloc, characters)?))
}
