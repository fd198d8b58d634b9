//! The title of the picture of a run.
ghost use Rattle.std.specs.Prelude.{◌≡◌, ◌++◌, OnOk, string_bytes};
ghost use Rattle.kpn_picture.specs.Caption.{caption, end_part, end_in_words, verdict_at};

use kpn_model::{End, Kinds, Place, Verdict};
use kpn_network::Net;
use kpn_verdict::{push_verdict, verdict_of};
use std::alloc::AllocError;
use std::fmt::Write;

fn end_in_words(end: End) -> &'static str
    ensures { result.now ≡ end_in_words end }
{
    match end {
        End::Terminated => "terminated",
        End::Deadlock => "deadlock",
        End::Ceiling => "a channel at the ceiling would have to grow",
        End::Budget => "budget spent",
        End::Memory => "memory refused",
    }
}

fn push_end(out: &mut String, end: End) -> Result<(), AllocError>
    ensures { OnOk result (string_bytes out.new ≡ string_bytes out.old ++ end_part end) }
{
    let text = end_in_words(end);
    write!(out, " ({text})\";\n")
}

#[tactic(auto, using(crate::proofs::Verdicts::verdict_is))]
fn verdict_at<K: Kinds>(net: &Net<K>, places: &[Place], end: End) -> Verdict
    ensures { result ≡ verdict_at net.now places.now end }
{
    verdict_of(net, places, end)
}

/// Appends the title line, for the picture of a run: its verdict and its end.
pub(crate) fn push_caption<K: Kinds>(
    out: &mut String,
    net: &Net<K>,
    places: &[Place],
    end: Option<End>,
) -> Result<(), AllocError>
    ensures { OnOk result (string_bytes out.new ≡ string_bytes out.old ++ caption net.now places.now end) }
{
    let Some(end) = end else {
        return Ok(());
    };
    out.push_str("  label=\"")?;
    push_verdict(out, net, places, verdict_at(net, places, end))?;
    push_end(out, end)
}
