//! Processes, a line each.
ghost use Rattle.std.specs.Prelude.{◌≡◌, ◌++◌, OnOk, string_bytes};
ghost use Rattle.kpn_picture.specs.Titles.{name_in};
ghost use Rattle.hox_expanded.specs.Description.{argument_text, arguments_part, kind_part, later_argument, processes_text};

use crate::channels::push_name;
use kpn_model::{Card, Kinds};
use kpn_network::Net;
use kpn_network::names::process_name;
use kpn_picture::{Title, Titled, below};
use std::alloc::AllocError;
use std::fmt::Write;

fn push_argument(out: &mut String, card: &Card, arity: usize, k: usize) -> Result<(), AllocError>
    ensures { OnOk result (string_bytes out.new ≡ string_bytes out.old ++ argument_text arity card.now k) }
{
    let argument = card.args.get(k).copied().unwrap_or(0);
    if (k as u64) < below(card, arity) {
        let magnitude = u128::from(argument) + 1;
        write!(out, "-{magnitude}")
    } else {
        write!(out, "{argument}")
    }
}

/// Appends argument `k` after others, if the kind has it.
fn push_later(out: &mut String, card: &Card, arity: usize, k: usize) -> Result<(), AllocError>
    ensures { OnOk result (string_bytes out.new ≡ string_bytes out.old ++ later_argument arity card.now k) }
{
    if k >= arity {
        return Ok(());
    }
    out.push_str(", ")?;
    push_argument(out, card, arity, k)
}

fn push_arguments(out: &mut String, card: &Card, arity: usize) -> Result<(), AllocError>
    ensures { OnOk result (string_bytes out.new ≡ string_bytes out.old ++ arguments_part arity card.now) }
{
    if arity == 0 {
        return Ok(());
    }
    out.push_str(", args = [")?;
    push_argument(out, card, arity, 0)?;
    push_later(out, card, arity, 1)?;
    push_later(out, card, arity, 2)?;
    out.push_str("]")?;
    Ok(())
}

fn push_kind(out: &mut String, title: Title) -> Result<(), AllocError>
    ensures { OnOk result (string_bytes out.new ≡ string_bytes out.old ++ kind_part (name_in title)) }
{
    out.push_str("\", kind = \"")?;
    title.push_name(out)?;
    out.push_str("\"")
}

pub(crate) fn push_processes<K: Titled>(out: &mut String, net: &Net<K>) -> Result<(), AllocError>
    ensures { OnOk result (string_bytes out.new ≡ string_bytes out.old ++ processes_text net.now K.title) }
{
    for p in 0..net.processes() {
        let name = process_name(net, p);
        let card = net.card(p);
        let title = K::title(&card);
        push_name(out, name)?;
        push_kind(out, title)?;
        push_arguments(out, &card, title.arguments)?;
        out.push_str(" },\n")?;
    }
    Ok(())
}
