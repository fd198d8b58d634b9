//! Negative arguments and start tokens.
ghost use Rattle.std.specs.Prelude.{◌≡◌, IfOk, map};
ghost use Rattle.hox_network.specs.Signs.{carried, count_below, is_below, signed_args, signed_channel, signed_form, signed_kind, signed_process, signed_token, with_signs};

use kpn_model::{Kinds, Listed, Text};
use kpn_net::faults::has_wrong_args;
use kpn_net::{ChannelSketch, ProcessSketch, Sketch, TokenSketch};
use std::alloc::{AllocError, Global};

/// Gives processes with negative arguments the signed kinds, and turns negative start tokens into words.
pub(crate) fn with_signs<K: Kinds>(alloc: Global, sketch: Sketch) -> Result<Sketch, AllocError>
    ensures { IfOk result (λ r. r ≡ with_signs K.named K.signature sketch) }
{
    let Sketch {
        version,
        budget,
        step,
        processes,
        channels,
    } = sketch;
    let processes = signed_processes::<K>(alloc, processes.into_vec())?;
    let channels = signed_channels(alloc, channels.into_vec())?;
    Ok(Sketch {
        version,
        budget,
        step,
        processes: Listed::new(processes),
        channels: Listed::new(channels),
    })
}

fn signed_processes<K: Kinds>(
    alloc: Global,
    processes: Vec<ProcessSketch>,
) -> Result<Vec<ProcessSketch>, AllocError>
    ensures { IfOk result (λ v. v.items ≡ map (signed_process K.named K.signature) processes.items) }
{
    let mut all = Vec::new(alloc);
    for process in processes {
        all.push(signed_process::<K>(alloc, process)?)?;
    }
    Ok(all)
}

/// Gives a process the signed kind if its first argument is negative and that kind takes the arguments.
fn signed_process<K: Kinds>(
    alloc: Global,
    process: ProcessSketch,
) -> Result<ProcessSketch, AllocError>
    ensures { IfOk result (λ r. r ≡ signed_process K.named K.signature process) }
{
    if !is_below(process.args.as_slice(), 0) {
        return Ok(process);
    }
    let signed = signed_form(alloc, &process)?;
    if has_wrong_args::<K>(&signed) {
        return Ok(process);
    }
    Ok(ProcessSketch {
        name: process.name,
        ..signed
    })
}

fn signed_form(alloc: Global, process: &ProcessSketch) -> Result<ProcessSketch, AllocError>
    ensures { IfOk result (λ r. r ≡ signed_form process.now) }
{
    Ok(ProcessSketch {
        name: Text::new(String::new(alloc)),
        kind: signed_kind(alloc, process.kind.as_str())?,
        args: Listed::new(signed_args(alloc, process.args.as_slice())?),
    })
}

fn signed_kind(alloc: Global, kind: &str) -> Result<Text, AllocError>
    ensures { IfOk result (λ name. name ≡ signed_kind kind.now) }
{
    let mut name = String::from_str(alloc, kind)?;
    name.push_str(", signed")?;
    Ok(Text::new(name))
}

/// Returns whether argument `k` exists and is negative.
fn is_below(args: &[i64], k: usize) -> bool
    ensures { result ≡ is_below args.now k }
{
    args.get(k).copied().unwrap_or(0) < 0
}

/// Returns an argument as a signed kind takes it.
fn carried(argument: i64) -> i64
    ensures { result ≡ carried argument }
{
    if argument < 0 {
        -1 - argument
    } else {
        argument
    }
}

fn signed_args(alloc: Global, args: &[i64]) -> Result<Vec<i64>, AllocError>
    ensures { IfOk result (λ v. v.items ≡ signed_args args.now) }
{
    let mut signed = carried_args(alloc, args)?;
    signed.push(count_below(args))?;
    Ok(signed)
}

/// Returns how many of the first two arguments are negative, if the first is.
fn count_below(args: &[i64]) -> i64
    ensures { result ≡ count_below args.now }
{
    if is_below(args, 1) { 2 } else { 1 }
}

fn carried_args(alloc: Global, args: &[i64]) -> Result<Vec<i64>, AllocError>
    ensures { IfOk result (λ v. v.items ≡ map carried args.now) }
{
    let mut all = Vec::new(alloc);
    for argument in args {
        all.push(carried(*argument))?;
    }
    Ok(all)
}

fn signed_channels(
    alloc: Global,
    channels: Vec<ChannelSketch>,
) -> Result<Vec<ChannelSketch>, AllocError>
    ensures { IfOk result (λ v. v.items ≡ map signed_channel channels.items) }
{
    let mut all = Vec::new(alloc);
    for channel in channels {
        all.push(signed_channel(alloc, channel)?)?;
    }
    Ok(all)
}

fn signed_channel(alloc: Global, channel: ChannelSketch) -> Result<ChannelSketch, AllocError>
    ensures { IfOk result (λ r. r ≡ signed_channel channel) }
{
    let tokens = signed_tokens(alloc, channel.tokens.as_slice())?;
    Ok(ChannelSketch {
        tokens: Listed::new(tokens),
        ..channel
    })
}

fn signed_tokens(alloc: Global, tokens: &[TokenSketch]) -> Result<Vec<TokenSketch>, AllocError>
    ensures { IfOk result (λ v. v.items ≡ map signed_token tokens.now) }
{
    let mut all = Vec::new(alloc);
    for token in tokens {
        all.push(signed_token(*token))?;
    }
    Ok(all)
}

/// Turns a negative start token into a word in two's complement.
fn signed_token(token: TokenSketch) -> TokenSketch
    ensures { result ≡ signed_token token }
{
    match token {
        TokenSketch::Integer(integer) if integer < 0 => TokenSketch::Word(integer.cast_unsigned()),
        _ => token,
    }
}
