//! The text of a report.
ghost use Rattle.std.specs.Prelude.{◌≡◌, ◌<◌, ◌^◌, ℕ, OnOk, IfOk, length};
ghost use Rattle.kpn_report.specs.Tally.{counts_at};
ghost use Rattle.kpn_report.specs.Counted.{shown_of, counted_lines, tally_text};
ghost use Rattle.kpn_report.specs.Text.{AppendsText, entries_line};
ghost use Rattle.kpn_report.specs.Reported.{IsReportTextOf};

use crate::channel_counts::ChannelCounts;
use crate::detail::has_report;
use crate::entries::{Entries, Slice};
use crate::lines::{end_line, push_channel, push_growths, push_processes, push_stream};
use crate::streams::stream_of_entries;
use crate::tally::{Tally, tally_of};
use kpn_model::{End, Entry, Kinds, Place};
use kpn_network::Net;
use std::alloc::{AllocError, Global};
use std::fmt::Write;

/// Appends the line of each channel from its counts.
fn push_channels<K: Kinds>(
    out: &mut String,
    net: &Net<K>,
    channel_counts: &[ChannelCounts],
) -> Result<(), AllocError>
    requires few { (c : ℕ) → (counts_at channel_counts.now c).put < 2 ^ 63 }
    requires all { length channel_counts.now ≡ length net.now.channels }
    ensures { OnOk result (AppendsText out.old out.new (counted_lines net.now channel_counts.now)) }
{
    for c in 0..net.channels() {
        let counts = channel_counts[c];
        let left = (net.tokens(c).len() + counts.put).saturating_sub(counts.taken);
        push_channel(out, net, counts, left, c)?;
    }
    Ok(())
}

/// Appends the stream of the channel to show, if any.
fn push_shown<K: Kinds, E: Entries>(
    alloc: Global,
    out: &mut String,
    net: &Net<K>,
    history: &E,
    show: Option<usize>,
) -> Result<(), AllocError>
    ensures { OnOk result (AppendsText out.old out.new (shown_of net.now (E.entries history.now) show)) }
{
    match show {
        Some(c) => {
            let tokens = stream_of_entries(alloc, net, history, c)?;
            push_stream(out, net, tokens.as_slice(), c)
        }
        None => Ok(()),
    }
}

/// Appends the line with the number of entries.
fn push_entries(out: &mut String, entries: usize) -> Result<(), AllocError>
    ensures { OnOk result (AppendsText out.old out.new (entries_line entries)) }
{
    write!(out, "entries {entries}\n")
}

/// Appends the lines of a tally and the number of entries.
fn push_tally<K: Kinds>(
    out: &mut String,
    net: &Net<K>,
    places: &[Place],
    tally: &Tally,
    entries: usize,
) -> Result<(), AllocError>
    requires few { (c : ℕ) → (counts_at tally.now.channel_counts.items c).put < 2 ^ 63 }
    requires all { length tally.now.channel_counts.items ≡ length net.now.channels }
    ensures { OnOk result (AppendsText out.old out.new (tally_text net.now places.now tally.now entries)) }
{
    push_processes(out, net, places, tally.steps.as_slice())?;
    push_channels(out, net, tally.channel_counts.as_slice())?;
    push_growths(out, net, tally.growths.as_slice())?;
    push_entries(out, entries)
}

/// Returns the text of the report of a history with this end, with the stream of channel `show` if given. If
/// the end has a detail, `places` must be the places where the history left the processes.
///
/// Each line ends with a line feed; numbers are decimal. The lines are: the end; each process's name, place
/// and number of deeds; each channel's name, how many tokens were put on it and are left, and its capacity;
/// each growth; the number of entries; and the stream. If the budget was spent or the run was out of memory,
/// there is only the first line. Counts the history in one pass; the stream takes one more, and no other
/// stream is kept. Errors: out of memory.
pub fn text_of<K: Kinds>(
    alloc: Global,
    net: &Net<K>,
    history: &[Entry],
    places: &[Place],
    end: End,
    show: Option<usize>,
) -> Result<String, AllocError>
    ensures { IfOk result (IsReportTextOf net.now end history.now places.now show) }
{
    text_of_entries(alloc, net, &Slice { history }, places, end, show)
}

/// Returns the text of a report, like [`text_of`], from any type of entries. Entries that were counted while
/// they were kept are counted again only if a channel grew.
pub fn text_of_entries<K: Kinds, E: Entries>(
    alloc: Global,
    net: &Net<K>,
    history: &E,
    places: &[Place],
    end: End,
    show: Option<usize>,
) -> Result<String, AllocError>
    ensures { IfOk result (IsReportTextOf net.now end (E.entries history.now) places.now show) }
{
    let mut out = end_line(alloc, end)?;
    if !has_report(end) {
        return Ok(out);
    }
    let entries = history.count();
    let tally = tally_of(alloc, net, history)?;
    push_tally(&mut out, net, places, &tally, entries)?;
    push_shown(alloc, &mut out, net, history, show)?;
    Ok(out)
}
