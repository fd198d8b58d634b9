//! Writes the state of a flow.
use crate::piped::CardFlow;
use anyhow::Result;
use kpn_flow::Pause;
use kpn_net::{End, Net, Place};
use kpn_report::places_of;
use kpn_standard::Standard;
use std::alloc::Global;
use std::io::{self, Write};

/// Returns why a flow paused, in a word.
pub fn pause_text(pause: Pause) -> &'static str {
    match pause {
        Pause::Cut => "cut",
        Pause::Starved => "starved",
        Pause::Blocked => "blocked",
        Pause::Over(End::Terminated) => "terminated",
        Pause::Over(End::Deadlock) => "deadlock",
        Pause::Over(End::Ceiling) => "ceiling",
        Pause::Over(End::Budget) => "budget",
        Pause::Over(End::Memory) => "memory",
    }
}

/// Writes why a flow paused, and how many entries and growths it has.
pub fn write_pause<W: Write>(flow: &CardFlow, pause: Pause, sink: &mut W) -> io::Result<()> {
    let (text, entries, growths) = (pause_text(pause), flow.entries(), flow.growths());
    writeln!(sink, "{text} entries {entries} growths {growths}")
}

/// Writes the place of each process.
pub fn write_places<W: Write>(alloc: Global, flow: &CardFlow, sink: &mut W) -> Result<()> {
    let places = places_of(alloc, flow.net(), flow.standings())?;
    Ok(write_each(flow.net(), places.as_slice(), sink)?)
}

fn write_each<W: Write>(net: &Net<Standard>, places: &[Place], sink: &mut W) -> io::Result<()> {
    for (process, place) in places.iter().enumerate() {
        if process < net.processes() {
            write!(sink, "process {} ", net.process_name(process))?;
        }
        write_place(net, place, sink)?;
    }
    Ok(())
}

fn write_place<W: Write>(net: &Net<Standard>, place: &Place, sink: &mut W) -> io::Result<()> {
    match place {
        Place::Reads(channel) if *channel < net.channels() => {
            writeln!(sink, "reads {}", net.channel_name(*channel))?;
        }
        Place::Writes(channel) if *channel < net.channels() => {
            writeln!(sink, "writes {}", net.channel_name(*channel))?;
        }
        _ => writeln!(sink, "stopped")?,
    }
    Ok(())
}
