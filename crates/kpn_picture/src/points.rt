//! The points at which channels branch.
ghost use Rattle.std.specs.Prelude.{◌≡◌, ◌<◌, ◌++◌, false, OnOk, length, string_bytes};
ghost use Rattle.std.specs.Option.{option_map_or};
ghost use Rattle.kpn_picture.specs.Titles.{name_of};
ghost use Rattle.kpn_picture.specs.Picture.{has_name_of, is_copy, is_point, point_line, point_opening};

use crate::looks::push_closing;
use crate::titles::Titled;
use kpn_model::Kinds;
use kpn_network::Net;
use kpn_network::names::{channel_name, process_name};
use std::alloc::AllocError;
use std::fmt::Write;

/// Whether a process is a copy that has the name of the channel that it reads, or of the first that it writes.
pub(crate) fn is_point<K: Titled>(net: &Net<K>, p: usize) -> bool
    requires { p < length net.now.processes }
    ensures { result ≡ is_point net.now K.title p }
{
    let title = K::title(&net.card(p));
    let names_channel = names_one(net, p, net.in_of(p, 0)) || names_one(net, p, net.out_of(p, 0));
    is_copy(title.word, title.number) && names_channel
}

fn is_copy(word: &str, number: Option<u16>) -> bool
    ensures { result ≡ is_copy (name_of word.now number) }
{
    match number {
        Some(_) => false,
        None => word == "copy" || word == "copy_flags",
    }
}

fn names_one<K: Kinds>(net: &Net<K>, p: usize, channel: Option<usize>) -> bool
    ensures { result ≡ option_map_or (has_name_of net.now p) channel false }
{
    match channel {
        Some(c) => has_name_of(net, p, c),
        None => false,
    }
}

pub(crate) fn has_name_of<K: Kinds>(net: &Net<K>, p: usize, c: usize) -> bool
    ensures { result ≡ has_name_of net.now p c }
{
    process_name(net, p) == channel_name(net, c)
}

pub(crate) fn push_point(out: &mut String, name: &str, look: &str) -> Result<(), AllocError>
    ensures { OnOk result (string_bytes out.new ≡ string_bytes out.old ++ point_line name.now look.now) }
{
    push_opening(out, name)?;
    push_closing(out, look)
}

fn push_opening(out: &mut String, name: &str) -> Result<(), AllocError>
    ensures { OnOk result (string_bytes out.new ≡ string_bytes out.old ++ point_opening name.now) }
{
    write!(out, "  \"{name}\" [shape=point, width=0.08, label=\"")
}
