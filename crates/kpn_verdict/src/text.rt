//! The text of a verdict.
ghost use Rattle.std.specs.Prelude.{◌≡◌, ◌++◌, OnOk, IfOk, string_bytes};
ghost use Rattle.kpn_verdict.specs.VerdictText.{verdict_line, verdict_words, AppendsWords, AppendsCircle, AppendsWait};

use crate::waits::{place_at, waits_for};
use kpn_model::{Kinds, Place, Verdict};
use kpn_network::Net;
use kpn_network::names::{channel_name, process_name};
use std::alloc::{AllocError, Global};
use std::fmt::Write;

/// A network, and where a run left its processes.
#[derive(Drop)]
struct LeftNet<'a, K: Kinds> {
    net: &'a Net<K>,
    places: &'a [Place],
}

/// Returns the line of a verdict, like `verdict ran dry`, on a run that left the processes in `places`. A
/// cycle is in the direction of the tokens: in `verdict cycle ad c2 cp c1`, `cp` waits at `c2` for `ad`, and
/// `ad` at `c1` for `cp`.
///
/// Errors: out of memory.
pub fn verdict_text<K: Kinds>(
    alloc: Global,
    net: &Net<K>,
    places: &[Place],
    verdict: Verdict,
) -> Result<String, AllocError>
    ensures { IfOk result (λ text. string_bytes text ≡ verdict_line net.now places.now verdict) }
{
    let mut out = String::from_str(alloc, "verdict ")?;
    push_verdict(&mut out, net, places, verdict)?;
    out.push_str("\n")?;
    Ok(out)
}

/// Appends the words after `verdict` in its line.
///
/// Errors: out of memory.
pub fn push_verdict<K: Kinds>(
    out: &mut String,
    net: &Net<K>,
    places: &[Place],
    verdict: Verdict,
) -> Result<(), AllocError>
    ensures { OnOk result (string_bytes out.new ≡ string_bytes out.old ++ verdict_words net.now places.now verdict) }
{
    match verdict {
        Verdict::Finished => out.push_str("finished"),
        Verdict::RanDry => out.push_str("ran dry"),
        Verdict::Cycle(process) => push_cycle(out, &LeftNet { net, places }, process),
        Verdict::Cut => out.push_str("cut"),
        Verdict::Full => out.push_str("full"),
        Verdict::Memory => out.push_str("memory"),
    }
}

fn push_cycle<K: Kinds>(
    out: &mut String,
    left: &LeftNet<'_, K>,
    process: usize,
) -> Result<(), AllocError>
    ensures { OnOk result (AppendsWords left.now.net.now left.now.places.now out.old out.new (Verdict.Cycle process)) }
{
    out.push_str("cycle")?;
    push_circle(out, left, left.net.processes(), process, process)
}

/// The cycle on which a process waits for `goal`, of at most `most` processes.
fn push_circle<K: Kinds>(
    out: &mut String,
    left: &LeftNet<'_, K>,
    most: usize,
    goal: usize,
    process: usize,
) -> Result<(), AllocError>
    ensures { OnOk result (AppendsCircle left.now.net.now left.now.places.now out.old out.new most goal process) }
{
    if most == 0 {
        return Ok(());
    }
    match waits_for(left.net, left.places, process) {
        Some(next) if next == goal => push_wait(out, left, next, process),
        Some(next) => {
            push_circle(out, left, most - 1, goal, next)?;
            push_wait(out, left, next, process)
        }
        None => Ok(()),
    }
}

fn push_wait<K: Kinds>(
    out: &mut String,
    left: &LeftNet<'_, K>,
    process: usize,
    waiting: usize,
) -> Result<(), AllocError>
    ensures { OnOk result (AppendsWait left.now.net.now left.now.places.now out.old out.new process waiting) }
{
    let name = process_name(left.net, process);
    match place_at(left.places, waiting) {
        Some(Place::Reads(c)) => {
            let channel = channel_name(left.net, c);
            write!(out, " {name} {channel}")
        }
        Some(Place::Writes(c)) => {
            let channel = channel_name(left.net, c);
            write!(out, " {name} {channel}")
        }
        Some(Place::Stopped) | None => write!(out, " {name}"),
    }
}
