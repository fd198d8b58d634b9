//! Processes, as boxes, or as points where channels branch.
ghost use Rattle.std.specs.Prelude.{◌≡◌, ◌++◌, OnOk, IsSome, string_bytes};
ghost use Rattle.kpn_picture.specs.Titles.{below};
ghost use Rattle.kpn_picture.specs.Picture.{argument_part, box_opening, box_title, nodes, place_part};

use crate::looks::{process_look, push_closing};
use crate::points::{is_point, push_point};
use crate::styles::{push_title, title_at};
use crate::titles::Titled;
use kpn_model::{Card, Kinds, Place, Text};
use kpn_network::Net;
use kpn_network::names::{channel_name, process_name};
use kpn_verdict::{is_on_cycle, place_at};
use std::alloc::AllocError;
use std::fmt::Write;

/// Returns the argument after the `arity` arguments of a card's title: how many of these, from the first on, are
/// below 0.
pub fn below(card: &Card, arity: usize) -> u64
    ensures { result ≡ below card.now arity }
{
    if arity < 3 { card.args[arity] } else { 0 }
}

/// Appends argument `k` of a card, if its title has it.
fn push_argument(out: &mut String, card: &Card, arity: usize, k: usize) -> Result<(), AllocError>
    ensures { OnOk result (string_bytes out.new ≡ string_bytes out.old ++ argument_part arity card.now k) }
{
    let argument = card.args.get(k).copied().unwrap_or(0);
    if k >= arity {
        Ok(())
    } else if (k as u64) < below(card, arity) {
        let magnitude = u128::from(argument) + 1;
        write!(out, " -{magnitude}")
    } else {
        write!(out, " {argument}")
    }
}

/// Appends a title, or if it is empty, the kind of a card, with its arguments.
fn push_box_title<K: Titled>(out: &mut String, card: &Card, title: &str) -> Result<(), AllocError>
    requires { IsSome (K.signature card.now) }
    ensures { OnOk result (string_bytes out.new ≡ string_bytes out.old ++ box_title K.title card.now title.now) }
{
    if !title.is_empty() {
        return push_title(out, title);
    }
    let kind = K::title(card);
    let arity = kind.arguments;
    kind.push_name(out)?;
    push_argument(out, card, arity, 0)?;
    push_argument(out, card, arity, 1)?;
    push_argument(out, card, arity, 2)?;
    Ok(())
}

/// Appends the place in which a run left a process, if known.
fn push_place<K: Kinds>(
    out: &mut String,
    net: &Net<K>,
    place: Option<Place>,
) -> Result<(), AllocError>
    ensures { OnOk result (string_bytes out.new ≡ string_bytes out.old ++ place_part net.now place) }
{
    match place {
        Some(Place::Stopped) => out.push_str("\\nended"),
        Some(Place::Reads(c)) => {
            let channel = channel_name(net, c);
            write!(out, "\\nwaits to read {channel}")
        }
        Some(Place::Writes(c)) => {
            let channel = channel_name(net, c);
            write!(out, "\\nwaits to write {channel}")
        }
        None => Ok(()),
    }
}

fn push_opening(out: &mut String, name: &str) -> Result<(), AllocError>
    ensures { OnOk result (string_bytes out.new ≡ string_bytes out.old ++ box_opening name.now) }
{
    write!(out, "  \"{name}\" [label=\"{name}\\n")
}

pub(crate) fn push_processes<K: Titled>(
    out: &mut String,
    net: &Net<K>,
    titles: &[Text],
    places: &[Place],
) -> Result<(), AllocError>
    ensures { OnOk result (string_bytes out.new ≡ string_bytes out.old ++ nodes net.now K.title titles.now places.now) }
{
    for p in 0..net.processes() {
        let name = process_name(net, p);
        let place = place_at(places, p);
        let look = process_look(is_on_cycle(net, places, p), place);
        if is_point(net, p) {
            push_point(out, name, look)?;
            continue;
        }
        push_opening(out, name)?;
        push_box_title::<K>(out, &net.card(p), title_at(titles, p))?;
        push_place(out, net, place)?;
        push_closing(out, look)?;
    }
    Ok(())
}
