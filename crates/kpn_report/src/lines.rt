//! The lines of a report.
ghost use Rattle.std.specs.Prelude.{◌≡◌, ◌++◌, OnOk, IfOk, string_bytes};
ghost use Rattle.std.specs.List.{flat_map};
ghost use Rattle.kpn_report.specs.Text.{process_line, channel_line, growth_line, token_part, end_text, end_line, stream_line, AppendsText, process_lines};

use crate::channel_counts::ChannelCounts;
use kpn_model::{End, Kinds, Place, Token};
use kpn_network::Net;
use kpn_network::names::{channel_name, process_name};
use std::alloc::{AllocError, Global};
use std::fmt::Write;

/// Appends the line of a process: its place and its number of deeds.
fn push_process<K: Kinds>(
    out: &mut String,
    net: &Net<K>,
    places: &[Place],
    steps: &[u64],
    p: usize,
) -> Result<(), AllocError>
    ensures { OnOk result (string_bytes out.new ≡ string_bytes out.old ++ process_line net.now places.now steps.now p) }
{
    let name = process_name(net, p);
    let steps = steps.get(p).copied().unwrap_or(0);
    match places.get(p).copied().unwrap_or(Place::Stopped) {
        Place::Stopped => write!(out, "process {name} stopped steps {steps}\n"),
        Place::Reads(c) => {
            let channel = channel_name(net, c);
            write!(out, "process {name} reads {channel} steps {steps}\n")
        }
        Place::Writes(c) => {
            let channel = channel_name(net, c);
            write!(out, "process {name} writes {channel} steps {steps}\n")
        }
    }
}

/// Appends the line of each process.
pub(crate) fn push_processes<K: Kinds>(
    out: &mut String,
    net: &Net<K>,
    places: &[Place],
    steps: &[u64],
) -> Result<(), AllocError>
    ensures { OnOk result (AppendsText out.old out.new (process_lines net.now places.now steps.now)) }
{
    for p in 0..net.processes() {
        push_process(out, net, places, steps, p)?;
    }
    Ok(())
}

/// Appends the line of a channel from its counts and the number of tokens that are left.
pub(crate) fn push_channel<K: Kinds>(
    out: &mut String,
    net: &Net<K>,
    counts: ChannelCounts,
    left: usize,
    c: usize,
) -> Result<(), AllocError>
    ensures { OnOk result (AppendsText out.old out.new (channel_line net.now counts.put left counts.capacity c)) }
{
    let name = channel_name(net, c);
    let (put, capacity) = (counts.put, counts.capacity);
    write!(
        out,
        "channel {name} put {put} left {left} capacity {capacity}\n"
    )
}

fn push_growth<K: Kinds>(
    out: &mut String,
    net: &Net<K>,
    growth: (usize, usize),
) -> Result<(), AllocError>
    ensures { OnOk result (string_bytes out.new ≡ string_bytes out.old ++ growth_line net.now growth) }
{
    let name = channel_name(net, growth.0);
    let to = growth.1;
    write!(out, "grew {name} {to}\n")
}

/// Appends a line for each growth.
pub(crate) fn push_growths<K: Kinds>(
    out: &mut String,
    net: &Net<K>,
    growths: &[(usize, usize)],
) -> Result<(), AllocError>
    ensures { OnOk result (string_bytes out.new ≡ string_bytes out.old ++ flat_map (growth_line net.now) growths.now) }
{
    for growth in growths {
        push_growth(out, net, *growth)?;
    }
    Ok(())
}

fn push_token(out: &mut String, token: Token) -> Result<(), AllocError>
    ensures { OnOk result (string_bytes out.new ≡ string_bytes out.old ++ token_part token) }
{
    match token {
        Token::Word(word) => write!(out, " {word}"),
        Token::Flag(flag) => write!(out, " {flag}"),
    }
}

/// Appends tokens, each after a space.
fn push_tokens(out: &mut String, tokens: &[Token]) -> Result<(), AllocError>
    ensures { OnOk result (string_bytes out.new ≡ string_bytes out.old ++ flat_map token_part tokens.now) }
{
    for token in tokens {
        push_token(out, *token)?;
    }
    Ok(())
}

/// Appends the line of a channel's stream.
pub(crate) fn push_stream<K: Kinds>(
    out: &mut String,
    net: &Net<K>,
    tokens: &[Token],
    c: usize,
) -> Result<(), AllocError>
    ensures { OnOk result (string_bytes out.new ≡ string_bytes out.old ++ stream_line net.now tokens.now c) }
{
    let name = channel_name(net, c);
    write!(out, "stream {name}")?;
    push_tokens(out, tokens)?;
    out.push_str("\n")
}

fn end_text(end: End) -> &'static str
    ensures { result.now ≡ end_text end }
{
    match end {
        End::Terminated => "terminated",
        End::Deadlock => "deadlock",
        End::Ceiling => "ceiling",
        End::Budget => "budget",
        End::Memory => "memory",
    }
}

/// Returns the first line.
pub(crate) fn end_line(alloc: Global, end: End) -> Result<String, AllocError>
    ensures { IfOk result (λ line. string_bytes line ≡ end_line end) }
{
    let word = end_text(end);
    format!(in alloc; "end {word}\n")
}
