//! Reports on a run that was cut: where it left each process, and the streams so far.
ghost use Rattle.std.specs.Prelude.{◌≡◌, OnOk};
ghost use Rattle.kpn_report.specs.Text.{AppendsText};
ghost use Rattle.hox_run.specs.Cuts.{left_at, left_line, left_lines, left_text};
ghost use Rattle.hox_run.specs.Ended.{after_by};

use crate::ended::Ended;
use crate::shown::{ChannelAs, push_streams};
use kpn_model::{End, Kinds, Place};
use kpn_network::Net;
use kpn_network::names::{channel_name, process_name};
use kpn_report::Entries;
use kpn_state::Standing;
use kpn_tokens::Decimals;
use std::alloc::{AllocError, Global};
use std::fmt::Write;

/// Appends what follows the verdict on a run that was cut, else nothing: for each process, whether it was
/// ready, has stopped, or for which channel it waits; for each channel of `show` a line `prefix` with its
/// stream so far. Errors: out of memory.
pub(crate) fn push_after_verdict<K: Kinds, E: Entries>(
    alloc: Global,
    out: &mut String,
    run: &Ended<'_, K, E>,
    show: &[ChannelAs<Decimals>],
) -> Result<(), AllocError>
    ensures { OnOk result (AppendsText out.old out.new (after_by run.now E.Entries show.now)) }
{
    match run.end {
        End::Budget => {
            push_left(out, run.net, run.standings, run.places)?;
            push_streams(alloc, out, run, show, "prefix ")
        }
        End::Terminated | End::Deadlock | End::Ceiling | End::Memory => Ok(()),
    }
}

fn push_left<K: Kinds>(
    out: &mut String,
    net: &Net<K>,
    standings: &[Standing],
    places: &[Place],
) -> Result<(), AllocError>
    ensures { OnOk result (AppendsText out.old out.new (left_lines net.now (left_at standings.now places.now))) }
{
    for p in 0..net.processes() {
        push_left_line(out, net, left_at(standings, places, p), p)?;
    }
    Ok(())
}

/// Returns the place of a process, unless it was ready.
pub(crate) fn left_at(standings: &[Standing], places: &[Place], process: usize) -> Option<Place>
    ensures { result ≡ left_at standings.now places.now process }
{
    match standings.get(process) {
        Some(Standing::Ready | Standing::Out) => None,
        _ => Some(places.get(process).copied().unwrap_or(Place::Stopped)),
    }
}

fn push_left_line<K: Kinds>(
    out: &mut String,
    net: &Net<K>,
    left: Option<Place>,
    process: usize,
) -> Result<(), AllocError>
    ensures { OnOk result (AppendsText out.old out.new (left_line net.now (λ _. left) process)) }
{
    let name = process_name(net, process);
    write!(out, "process {name} ")?;
    push_left_text(out, net, left)?;
    out.push_str("\n")
}

fn push_left_text<K: Kinds>(
    out: &mut String,
    net: &Net<K>,
    left: Option<Place>,
) -> Result<(), AllocError>
    ensures { OnOk result (AppendsText out.old out.new (left_text net.now left)) }
{
    match left {
        None => out.push_str("ready"),
        Some(Place::Stopped) => out.push_str("stopped"),
        Some(Place::Reads(c)) => {
            let channel = channel_name(net, c);
            write!(out, "reads {channel}")
        }
        Some(Place::Writes(c)) => {
            let channel = channel_name(net, c);
            write!(out, "writes {channel}")
        }
    }
}
