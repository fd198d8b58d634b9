//! The verdict on a flow.
ghost use Rattle.std.specs.Prelude.{◌≡◌, ◌++◌, true, false, IfOk, OnOk, string_bytes};
ghost use Rattle.kpn_model.specs.Families.{family};
ghost use Rattle.kpn_model.specs.declared.history.End.TheVariants.{Ceiling};
ghost use Rattle.kpn_flow_verdict.specs.Judging.{HasAll, IsJudged, active_part, judged_text, places_in, AreWholeIfDry};

use crate::law::flow_dryness;
use kpn_body::Body;
use kpn_dry::{is_complete, push_active_line};
use kpn_flow::Flow;
use kpn_model::{End, Place, Verdict};
use kpn_report::places_of;
use kpn_verdict::{verdict_of, verdict_text};
use std::alloc::{AllocError, Global};

/// The verdict on a flow, and its text.
#[derive(Drop)]
pub struct Judged {
    pub verdict: Verdict,
    pub text: String,
}

/// Returns the verdict on a flow that ended so, and its line. At the ceiling it ran dry if there is an output, and
/// the writer of each is dry: then nothing more comes out, and a line `active` names the processes that could go
/// on. Errors: out of memory.
pub fn judge<B: Body>(alloc: Global, flow: &Flow<B>, end: End) -> Result<Judged, AllocError>
    ensures verdict { IfOk result (λ judged. IsJudged flow.now end judged.verdict) }
    ensures text { IfOk result (λ judged. string_bytes judged.text ≡ judged_text flow.now end judged.verdict) }
    ensures whole { IfOk result (λ judged. AreWholeIfDry (family B.Kinds.Kinds) flow.now end judged.verdict) }
{
    flow_dryness();
    flow.assure_one_run();
    flow.assure_standings();
    let net = flow.net();
    let places = places_of(alloc, net, flow.standings())?;
    let verdict = verdict_on(flow, places.as_slice(), end);
    let mut text = verdict_text(alloc, net, places.as_slice(), verdict)?;
    push_active(&mut text, flow, end, verdict)?;
    Ok(Judged { verdict, text })
}

fn verdict_on<B: Body>(flow: &Flow<B>, places: &[Place], end: End) -> Verdict
    ensures { places.now ≡ places_in flow.now → IsJudged flow.now end result }
{
    let on_end = verdict_of(flow.net(), places, end);
    match end {
        End::Ceiling => {
            if has_all(flow) {
                Verdict::RanDry
            } else {
                on_end
            }
        }
        End::Terminated | End::Deadlock | End::Budget | End::Memory => on_end,
    }
}

/// Returns whether there is an output, and the writer of each is dry.
fn has_all<B: Body>(flow: &Flow<B>) -> bool
    ensures all { result ≡ true → HasAll flow.now }
    ensures not_all { result ≡ false → HasAll flow.now → ⊥ }
{
    let mut has_output = false;
    for c in 0..flow.net().channels() {
        if flow.is_output(c) {
            if !is_complete(flow.net(), flow.standings(), c) {
                return false;
            }
            has_output = true;
        }
    }
    has_output
}

fn push_active<B: Body>(
    out: &mut String,
    flow: &Flow<B>,
    end: End,
    verdict: Verdict,
) -> Result<(), AllocError>
    ensures { OnOk result (string_bytes out.new ≡ string_bytes out.old ++ active_part flow.now end verdict) }
{
    match end {
        End::Ceiling => push_active_if_dry(out, flow, verdict),
        End::Terminated | End::Deadlock | End::Budget | End::Memory => Ok(()),
    }
}

fn push_active_if_dry<B: Body>(
    out: &mut String,
    flow: &Flow<B>,
    verdict: Verdict,
) -> Result<(), AllocError>
    ensures { OnOk result (string_bytes out.new ≡ string_bytes out.old ++ active_part flow.now Ceiling verdict) }
{
    match verdict {
        Verdict::RanDry => push_active_line(out, flow.net(), flow.standings()),
        Verdict::Finished | Verdict::Cycle(_) | Verdict::Cut | Verdict::Full | Verdict::Memory =>
            Ok(()),
    }
}
