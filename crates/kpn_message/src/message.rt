//! The message about a description's fault.
ghost use Rattle.std.specs.Prelude.{◌≡◌, ◌≢◌, ◌⊎◌, [], true, option_map, slice_get, IfSome, string_bytes};
ghost use Rattle.kpn_message.specs.EveryFault.{IsMessage};

use crate::channels::push_channel;
use crate::keys::push_misfit;
use crate::location::{Location, locate};
use crate::processes::push_process;
use kpn_model::limits::{GREATEST_STEP, MOST_CHANNELS, MOST_PROCESSES};
use kpn_net::version::greatest_budget_in;
use kpn_net::{Kinds, NetFault, ProcessSketch, Sketch, read_sketch};
use std::alloc::{AllocError, Global};
use std::fmt::Write;

/// Returns what is wrong with the text of a description, and where, on one line without a line feed.
///
/// `fault` must be the text's fault, or the message may be wrong or missing. `kinds` names the existing kinds.
/// There is no message for `Memory` and `Input`, which say all, nor if out of memory.
///
/// ```text
/// if let Some(message) = message_of::<Mixed>(rt.alloc(), text, refused.fault, KINDS) {
///     let _ = eprintln!(rt; "example_mixed: {message}");
/// }
/// ```
pub fn message_of<K: Kinds>(
    alloc: Global,
    text: &[u8],
    fault: NetFault,
    kinds: &str,
) -> Option<String>
    ensures { IsMessage fault result }
{
    if says_all(fault) {
        return None;
    }
    match fault {
        NetFault::NotToml | NetFault::Keys => {
            let Said { text: message } = unread_in(alloc, text, false)?;
            Some(message)
        }
        _ => {
            let sketch = read_sketch(alloc, text).ok()?;
            message_of_sketch::<K>(alloc, &sketch, fault, kinds)
        }
    }
}

/// Returns what is wrong with a sketch, and where, on one line without a line feed, like `message_of`.
///
/// `fault` must be the sketch's fault, or the message may be wrong or missing. `kinds` names the existing
/// kinds. There is no message for `Memory`, `Input`, `NotToml` and `Keys`, nor if out of memory.
///
/// ```text
/// message_of_sketch::<K>(self.alloc, &self.sketch, fault, kinds)
/// ```
pub fn message_of_sketch<K: Kinds>(
    alloc: Global,
    sketch: &Sketch,
    fault: NetFault,
    kinds: &str,
) -> Option<String>
    ensures { IsMessage fault result }
{
    match fault {
        NetFault::NotToml | NetFault::Keys | NetFault::Memory | NetFault::Input => None,
        _ => {
            let place = locate::<K>(sketch, fault);
            let Said { text } = message_at::<K>(alloc, sketch, fault, place, kinds)?;
            Some(text)
        }
    }
}

/// Whether the fault's name says all, as no text has it.
fn says_all(fault: NetFault) -> bool
    ensures { (fault ≡ NetFault.Memory) ⊎ (fault ≡ NetFault.Input) → result ≡ true }
{
    matches!(fault, NetFault::Memory | NetFault::Input)
}

/// Returns what is wrong with a text whose channels may have delays, and where, on one line without a line feed: it
/// is not TOML, or a key is wrong. `None` if neither, or out of memory.
///
/// ```text
/// NetFault::NotToml | NetFault::Keys => message_of_delayed(rt.alloc(), text),
/// ```
pub fn message_of_delayed(alloc: Global, text: &[u8]) -> Option<String>
    ensures said { IfSome result (λ message. string_bytes message ≢ []) }
{
    let Said { text: message } = unread_in(alloc, text, true)?;
    Some(message)
}

/// A message: it is not empty.
#[derive(Drop)]
pub(crate) struct Said {
    pub(crate) text: String,
    ghost said: { string_bytes text ≢ [] },
}

/// Returns what is wrong with a text that is not TOML, or else with its keys; `None` if nothing is, or out of memory.
fn unread_in(alloc: Global, text: &[u8], has_delays: bool) -> Option<Said> {
    let mut out = String::new(alloc);
    match toml::table_from_slice(alloc, text) {
        Ok(table) => push_misfit(alloc, &mut out, text, &table, has_delays).ok()?,
        Err(error) => push_syntax(&mut out, text, &error).ok()?,
    }
    unless_empty(out)
}

fn unless_empty(text: String) -> Option<Said> {
    if text.is_empty() {
        None
    } else {
        Some(Said { text })
    }
}

/// Appends the syntax error and its place; nothing if out of memory.
fn push_syntax(out: &mut String, text: &[u8], error: &toml::de::Error) -> Result<(), AllocError> {
    let Some(span) = error.span() else {
        return Ok(());
    };
    let (line, column) = line_and_column(text.get(..span.start).unwrap_or(text));
    write!(out, "line {line}, column {column}: {}", error.message())
}

/// Returns the line and the column, both from 1, of the byte after these. A column counts characters.
fn line_and_column(before: &[u8]) -> (usize, usize) {
    let mut line = 1usize;
    let mut column = 1usize;
    for byte in before {
        if *byte == b'\n' {
            line = line.saturating_add(1);
            column = 1;
        } else if *byte & 0xC0 != 0x80 {
            column = column.saturating_add(1);
        }
    }
    (line, column)
}

/// Returns what is wrong at a place that has the fault, on one line; `None` if out of memory.
pub(crate) fn message_at<K: Kinds>(
    alloc: Global,
    sketch: &Sketch,
    fault: NetFault,
    place: Location,
    kinds: &str,
) -> Option<Said> {
    let mut out = String::new(alloc);
    push_place::<K>(&mut out, sketch, fault, place, kinds).ok()?;
    unless_empty(out)
}

fn push_place<K: Kinds>(
    out: &mut String,
    sketch: &Sketch,
    fault: NetFault,
    place: Location,
    kinds: &str,
) -> Result<(), AllocError> {
    match place {
        Location::Process(p) => match process_at(sketch, p) {
            Some(process) => push_process::<K>(out, sketch, process, fault, kinds),
            None => Ok(()),
        },
        Location::Channel(c) => {
            let channels = sketch.channels.as_slice();
            match channels.get(c) {
                Some(channel) => push_channel::<K>(out, sketch, &channels[..c], channel, fault),
                None => Ok(()),
            }
        }
        Location::Description => push_whole(out, sketch, fault),
    }
}

fn process_at(sketch: &Sketch, p: usize) -> Option<&ProcessSketch>
    ensures { option_map (λ process. process.now) result ≡ slice_get sketch.now.processes p }
{
    sketch.processes.as_slice().get(p)
}

fn push_whole(out: &mut String, sketch: &Sketch, fault: NetFault) -> Result<(), AllocError> {
    match fault {
        NetFault::Version => write!(out, "version {}; it must be 1 or 2", sketch.version),
        NetFault::Counts => push_counts(out, sketch),
        NetFault::Budget => {
            let greatest = greatest_budget_in(sketch.version);
            write!(out, "budget {}; it must be 1 to {greatest}", sketch.budget)
        }
        NetFault::Step => write!(out, "step {}; it must be 1 to {GREATEST_STEP}", sketch.step),
        _ => Ok(()),
    }
}

fn push_counts(out: &mut String, sketch: &Sketch) -> Result<(), AllocError> {
    let processes = sketch.processes.as_slice().len();
    let channels = sketch.channels.as_slice().len();
    if processes == 0 || processes > MOST_PROCESSES {
        write!(
            out,
            "{processes} processes; there must be 1 to {MOST_PROCESSES}"
        )
    } else {
        write!(
            out,
            "{channels} channels; there must be at most {MOST_CHANNELS}"
        )
    }
}
