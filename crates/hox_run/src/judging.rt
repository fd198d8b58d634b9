//! The verdict on a run, and its report.
ghost use Rattle.std.specs.Prelude.{◌≡◌, IfOk, OnOk, string_bytes};
ghost use Rattle.kpn_dry.specs.Told.{is_told_dry};
ghost use Rattle.kpn_report.specs.Text.{AppendsText};
ghost use Rattle.kpn_verdict.specs.VerdictText.{verdict_line};
ghost use Rattle.hox_run.specs.Ended.{JudgesRun, ReportsRun, active_by, as_judged};
ghost use Rattle.hox_run.specs.Judging.{are_complete, has_all};

use crate::cut::push_after_verdict;
use crate::ended::Ended;
use crate::shown::{ChannelAs, WantedStreams, push_before_verdict};
use kpn_dry::{is_complete, push_active_line};
use kpn_model::{End, Kinds, Verdict};
use kpn_network::Net;
use kpn_report::{Entries, text_of_entries};
use kpn_state::Standing;
use kpn_tokens::Decimals;
use kpn_verdict::{verdict_of, verdict_text};
use std::alloc::{AllocError, Global};

/// The verdict on a run, and its report with the verdict.
#[derive(Drop)]
pub(crate) struct JudgedRun {
    pub(crate) verdict: Verdict,
    pub(crate) report: String,
}

/// Returns the verdict on a run and its report. Errors: out of memory.
pub(crate) fn judge<K: Kinds, E: Entries>(
    alloc: Global,
    run: &Ended<'_, K, E>,
    wanted: &WantedStreams<'_>,
) -> Result<JudgedRun, AllocError>
    ensures verdict { IfOk result (λ judged. JudgesRun run.now wanted.now judged.verdict) }
    ensures report { IfOk result (ReportsRun run.now E.Entries wanted.now.show.now) }
{
    let verdict = verdict_on(run, wanted);
    let mut report = text_of_entries(alloc, run.net, run.history, run.places, run.end, None)?;
    push_judged(alloc, &mut report, run, wanted.show, verdict)?;
    Ok(JudgedRun { verdict, report })
}

/// Returns the verdict on a run. At the ceiling, or if it was cut, it ran dry if some channel is wanted, and all
/// that are wanted have their whole streams.
fn verdict_on<K: Kinds, E: Entries>(run: &Ended<'_, K, E>, wanted: &WantedStreams<'_>) -> Verdict
    ensures { JudgesRun run.now wanted.now result }
{
    let on_end = verdict_of(run.net, run.places, run.end);
    match run.end {
        End::Ceiling | End::Budget => {
            if has_all(run.net, run.standings, wanted) {
                Verdict::RanDry
            } else {
                on_end
            }
        }
        End::Terminated | End::Deadlock | End::Memory => on_end,
    }
}

/// Returns whether some channel is wanted, and each has its whole stream.
fn has_all<K: Kinds>(net: &Net<K>, standings: &[Standing], wanted: &WantedStreams<'_>) -> bool
    ensures { result ≡ has_all net.now (is_told_dry net.now standings.now) wanted.now.show.now wanted.now.outputs.now }
{
    let is_some = !wanted.show.is_empty() || !wanted.outputs.is_empty();
    is_some
        && are_complete(net, standings, wanted.show)
        && are_complete(net, standings, wanted.outputs)
}

fn are_complete<K: Kinds, W>(
    net: &Net<K>,
    standings: &[Standing],
    channels: &[ChannelAs<W>],
) -> bool
    ensures { result ≡ are_complete net.now (is_told_dry net.now standings.now) channels.now }
{
    channels
        .iter()
        .all(|channel| is_complete(net, standings, channel.channel))
}

/// Appends the streams, the line of the verdict, and what follows it.
fn push_judged<K: Kinds, E: Entries>(
    alloc: Global,
    out: &mut String,
    run: &Ended<'_, K, E>,
    show: &[ChannelAs<Decimals>],
    verdict: Verdict,
) -> Result<(), AllocError>
    ensures { OnOk result (string_bytes out.new ≡ as_judged run.now E.Entries show.now verdict (string_bytes out.old)) }
{
    push_before_verdict(alloc, out, run, show)?;
    push_line(alloc, out, run, verdict)?;
    push_active(out, run, verdict)?;
    push_after_verdict(alloc, out, run, show)
}

fn push_line<K: Kinds, E: Entries>(
    alloc: Global,
    out: &mut String,
    run: &Ended<'_, K, E>,
    verdict: Verdict,
) -> Result<(), AllocError>
    ensures { OnOk result (AppendsText out.old out.new (verdict_line run.now.net.now run.now.places.now verdict)) }
{
    let line = verdict_text(alloc, run.net, run.places, verdict)?;
    out.push_str(line.as_str())
}

/// Appends which processes could go on, if the run could but ran dry; else nothing.
fn push_active<K: Kinds, E: Entries>(
    out: &mut String,
    run: &Ended<'_, K, E>,
    verdict: Verdict,
) -> Result<(), AllocError>
    ensures { OnOk result (AppendsText out.old out.new (active_by run.now verdict)) }
{
    match (run.end, verdict) {
        (End::Ceiling | End::Budget, Verdict::RanDry) => {
            push_active_line(out, run.net, run.standings)
        }
        _ => Ok(()),
    }
}
