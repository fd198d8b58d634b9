//! The JSON of a report.
ghost use Rattle.std.specs.Prelude.{◌≡◌, IfOk, OnOk, string_bytes};
ghost use Rattle.serde_json.specs.View.{members_view, view};
ghost use Rattle.hox_json.specs.Entries.{history_put, places_put, rest_put, verdict_put};
ghost use Rattle.hox_json.specs.Json.{json_text, report_data};

use crate::lines::{first_line, first_text, lines_in, lines_of, word_of, words_after};
use crate::named::{Fact, named};
use crate::values::{growths, names, put_if, token};
use serde_json::{Map, Value, put};
use std::alloc::{AllocError, Global};

/// Returns the report of a run as one JSON object on a line. Errors: out of memory.
pub fn json_of_report(alloc: Global, report: &str) -> Result<String, AllocError>
    ensures { IfOk result (λ json. string_bytes json ≡ json_text report.now) }
{
    let value = value_of_report(alloc, report)?;
    let mut json = value.to_string(alloc)?;
    json.push_str("\n")?;
    Ok(json)
}

fn value_of_report(alloc: Global, report: &str) -> Result<Value, AllocError>
    ensures { IfOk result (λ v. view v ≡ report_data report.now) }
{
    let lines = lines_in(alloc, report)?;
    let lines = lines.as_slice();
    let mut members = Map::new(alloc);
    put_verdict(&mut members, alloc, lines)?;
    put_places(&mut members, alloc, lines)?;
    put_history(&mut members, alloc, lines)?;
    put_rest(&mut members, alloc, lines)?;
    Ok(Value::from(members))
}

/// Puts the end and the verdict, and who waits for whom.
fn put_verdict(
    members: &mut Map<String, Value>,
    alloc: Global,
    lines: &[&str],
) -> Result<(), AllocError>
    ensures { OnOk result (members_view members.new.entries ≡ verdict_put lines.now members.old.entries) }
{
    let ends = lines_of(alloc, lines, "end")?;
    let verdicts = lines_of(alloc, lines, "verdict")?;
    let end = first_text(ends.as_slice());
    let verdict = first_text(verdicts.as_slice());
    let is_cycle = word_of(verdict) == "cycle";
    let words = words_after(alloc, verdict)?;
    let text = if is_cycle { "cycle" } else { verdict };
    put(members, alloc, "end", Value::try_from_str(alloc, end)?)?;
    put(members, alloc, "verdict", Value::try_from_str(alloc, text)?)?;
    let cycle = names(alloc, words.as_slice())?;
    put_if(members, alloc, is_cycle, "cycle", cycle)
}

/// Puts processes and channels, if the report has them.
fn put_places(
    members: &mut Map<String, Value>,
    alloc: Global,
    lines: &[&str],
) -> Result<(), AllocError>
    ensures { OnOk result (members_view members.new.entries ≡ places_put lines.now members.old.entries) }
{
    let processes = lines_of(alloc, lines, "process")?;
    let channels = lines_of(alloc, lines, "channel")?;
    let states = named(alloc, Fact::State, processes.as_slice())?;
    let sizes = named(alloc, Fact::Sizes, channels.as_slice())?;
    put_if(members, alloc, !processes.is_empty(), "processes", states)?;
    put_if(members, alloc, !channels.is_empty(), "channels", sizes)
}

/// Puts what a run that ended did.
fn put_history(
    members: &mut Map<String, Value>,
    alloc: Global,
    lines: &[&str],
) -> Result<(), AllocError>
    ensures { OnOk result (members_view members.new.entries ≡ history_put lines.now members.old.entries) }
{
    let entries = lines_of(alloc, lines, "entries")?;
    let has_ended = !entries.is_empty();
    let count = token(alloc, first_text(entries.as_slice()))?;
    put_if(members, alloc, has_ended, "entries", count)?;
    let grew = lines_of(alloc, lines, "grew")?;
    let growths = growths(alloc, grew.as_slice())?;
    put_if(members, alloc, has_ended, "growths", growths)?;
    let streams = lines_of(alloc, lines, "stream")?;
    let streams = named(alloc, Fact::Tokens, streams.as_slice())?;
    put_if(members, alloc, has_ended, "streams", streams)
}

/// Puts who could go on, and the streams of a run that was cut.
fn put_rest(
    members: &mut Map<String, Value>,
    alloc: Global,
    lines: &[&str],
) -> Result<(), AllocError>
    ensures { OnOk result (members_view members.new.entries ≡ rest_put lines.now members.old.entries) }
{
    let active = lines_of(alloc, lines, "active")?;
    let words = words_after(alloc, first_line(active.as_slice()))?;
    let actives = names(alloc, words.as_slice())?;
    put_if(members, alloc, !active.is_empty(), "active", actives)?;
    let prefixes = lines_of(alloc, lines, "prefix")?;
    let streams = named(alloc, Fact::Tokens, prefixes.as_slice())?;
    put_if(members, alloc, !prefixes.is_empty(), "prefixes", streams)
}
