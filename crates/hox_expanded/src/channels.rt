//! Channels, a line each.
ghost use Rattle.std.specs.Prelude.{◌≡◌, ◌++◌, OnOk, string_bytes};
ghost use Rattle.std.specs.List.{flat_map};
ghost use Rattle.hox_expanded.specs.Description.{capacity_part, channel_line, end_part, ends_part, later_token, name_part, port_part, sort_part, state_part, token_text, tokens_part, channels_text};

use kpn_model::{Channel, Kinds, Sort, Token};
use kpn_network::Net;
use kpn_network::names::process_name;
use std::alloc::AllocError;
use std::fmt::Write;

/// Appends the number of a port, unless it is 0.
fn push_port(out: &mut String, key: &str, port: usize) -> Result<(), AllocError>
    ensures { OnOk result (string_bytes out.new ≡ string_bytes out.old ++ port_part key.now port) }
{
    if port == 0 {
        Ok(())
    } else {
        write!(out, ", {key} = {port}")
    }
}

/// Appends a process at an end of a channel, and its port.
fn push_end(
    out: &mut String,
    head: &str,
    name: &str,
    key: &str,
    port: usize,
) -> Result<(), AllocError>
    ensures { OnOk result (string_bytes out.new ≡ string_bytes out.old ++ end_part head.now name.now key.now port) }
{
    write!(out, "{head}{name}\"")?;
    push_port(out, key, port)
}

fn push_ends<K: Kinds>(out: &mut String, net: &Net<K>, channel: &Channel) -> Result<(), AllocError>
    ensures { OnOk result (string_bytes out.new ≡ string_bytes out.old ++ ends_part net.now channel.now) }
{
    let writer = process_name(net, channel.writer);
    let reader = process_name(net, channel.reader);
    push_end(out, "\", from = \"", writer, "out", channel.out)?;
    push_end(out, ", to = \"", reader, "in", channel.input)?;
    Ok(())
}

/// Appends a sort, unless it is that of words.
fn push_sort(out: &mut String, sort: Sort) -> Result<(), AllocError>
    ensures { OnOk result (string_bytes out.new ≡ string_bytes out.old ++ sort_part sort) }
{
    match sort {
        Sort::Words => Ok(()),
        Sort::Flags => out.push_str(", sort = \"flags\""),
    }
}

/// Appends a capacity, unless it is 1.
fn push_capacity(out: &mut String, capacity: usize) -> Result<(), AllocError>
    ensures { OnOk result (string_bytes out.new ≡ string_bytes out.old ++ capacity_part capacity) }
{
    if capacity == 1 {
        Ok(())
    } else {
        write!(out, ", capacity = {capacity}")
    }
}

fn push_token(out: &mut String, token: Token) -> Result<(), AllocError>
    ensures { OnOk result (string_bytes out.new ≡ string_bytes out.old ++ token_text token) }
{
    match token {
        Token::Word(word) => {
            let value = word.cast_signed();
            write!(out, "{value}")
        }
        Token::Flag(true) => out.push_str("true"),
        Token::Flag(false) => out.push_str("false"),
    }
}

fn push_later(out: &mut String, token: Token) -> Result<(), AllocError>
    ensures { OnOk result (string_bytes out.new ≡ string_bytes out.old ++ later_token token) }
{
    out.push_str(", ")?;
    push_token(out, token)
}

fn push_all_later(out: &mut String, tokens: &[Token]) -> Result<(), AllocError>
    ensures { OnOk result (string_bytes out.new ≡ string_bytes out.old ++ flat_map later_token tokens.now) }
{
    for token in tokens {
        push_later(out, *token)?;
    }
    Ok(())
}

/// Appends start tokens, if there are any.
fn push_tokens(out: &mut String, tokens: &[Token]) -> Result<(), AllocError>
    ensures { OnOk result (string_bytes out.new ≡ string_bytes out.old ++ tokens_part tokens.now) }
{
    let Some((first, later)) = tokens.split_first() else {
        return Ok(());
    };
    out.push_str(", tokens = [")?;
    push_token(out, *first)?;
    push_all_later(out, later)?;
    out.push_str("]")?;
    Ok(())
}

/// Appends the sort, the capacity and the start tokens of a channel, where they are not the default.
fn push_state(out: &mut String, channel: &Channel) -> Result<(), AllocError>
    ensures { OnOk result (string_bytes out.new ≡ string_bytes out.old ++ state_part channel.now) }
{
    push_sort(out, channel.sort)?;
    push_capacity(out, channel.capacity)?;
    push_tokens(out, channel.tokens.as_slice())?;
    Ok(())
}

pub(crate) fn push_name(out: &mut String, name: &str) -> Result<(), AllocError>
    ensures { OnOk result (string_bytes out.new ≡ string_bytes out.old ++ name_part name.now) }
{
    write!(out, "  {{ name = \"{name}")
}

fn push_channel<K: Kinds>(
    out: &mut String,
    net: &Net<K>,
    channel: &Channel,
) -> Result<(), AllocError>
    ensures { OnOk result (string_bytes out.new ≡ string_bytes out.old ++ channel_line net.now channel.now) }
{
    push_name(out, channel.name.as_str())?;
    push_ends(out, net, channel)?;
    push_state(out, channel)?;
    out.push_str(" },\n")?;
    Ok(())
}

pub(crate) fn push_channels<K: Kinds>(out: &mut String, net: &Net<K>) -> Result<(), AllocError>
    ensures { OnOk result (string_bytes out.new ≡ string_bytes out.old ++ channels_text net.now) }
{
    let channels = net.channel_list();
    for channel in channels {
        push_channel(out, net, channel)?;
    }
    Ok(())
}
