//! The streams of the channels.
ghost use Rattle.std.specs.Prelude.{◌≡◌, ◌++◌, ◌∷◌, [], IfOk, OnOk};
ghost use Rattle.kpn_model.specs.History.{put_on};
ghost use Rattle.kpn_report.specs.Tally.{IsStreamOf, KeepsStreams, streams_after};

use crate::entries::{Entries, Slice};
use kpn_model::{Deed, Entry, Kinds, Listed, Token};
use kpn_network::Net;
use std::alloc::{AllocError, Global};

/// The tokens that went through a channel, in order.
pub type Stream = Listed<Token>;

/// A stream for each channel.
pub type Streams = Listed<Stream>;

/// Returns each channel's start tokens.
fn first_streams<K: Kinds>(alloc: Global, net: &Net<K>) -> Result<Vec<Stream>, AllocError>
    ensures { IfOk result (λ v. KeepsStreams net.now [] v.items) }
{
    let mut streams = Vec::with_capacity(alloc, net.channels())?;
    for c in 0..net.channels() {
        streams.push(Listed::new(Vec::from_slice(alloc, net.tokens(c))?))?;
    }
    Ok(streams)
}

/// Appends the token that an entry puts to its channel's stream. Errors: out of memory.
fn push_put(streams: &mut Vec<Stream>, entry: Entry) -> Result<(), AllocError>
    ensures { OnOk result (streams.new.items ≡ streams_after streams.old.items entry) }
{
    if let Entry::Did {
        deed: Deed::Put { channel, token },
        ..
    } = entry
    {
        if channel < streams.len() {
            let stream = &mut streams[channel];
            stream.push(token)?;
        }
    }
    Ok(())
}

/// Returns the streams of a history, which it reads once. Errors: out of memory.
pub(crate) fn streams_of<K: Kinds, E: Entries>(
    alloc: Global,
    net: &Net<K>,
    history: &E,
) -> Result<Vec<Stream>, AllocError>
    ensures { IfOk result (λ v. KeepsStreams net.now (E.entries history.now) v.items) }
{
    let mut streams = first_streams(alloc, net)?;
    for k in 0..history.count() {
        push_put(&mut streams, history.entry(k))?;
    }
    Ok(streams)
}

/// Appends the token that an entry puts on this channel.
fn push_put_on(tokens: &mut Vec<Token>, channel: usize, entry: Entry) -> Result<(), AllocError>
    ensures { OnOk result (tokens.new.items ≡ tokens.old.items ++ put_on (entry ∷ []) channel) }
{
    match entry {
        Entry::Did {
            deed: Deed::Put { channel: on, token },
            ..
        } if on == channel => {
            tokens.push(token)?;
            Ok(())
        }
        _ => Ok(()),
    }
}

/// Appends the tokens that a history puts on this channel.
fn push_all_put_on<E: Entries>(
    tokens: &mut Vec<Token>,
    channel: usize,
    history: &E,
) -> Result<(), AllocError>
    ensures { OnOk result (tokens.new.items ≡ tokens.old.items ++ put_on (E.entries history.now) channel) }
{
    for k in 0..history.count() {
        push_put_on(tokens, channel, history.entry(k))?;
    }
    Ok(())
}

/// Returns the stream of a channel: its start tokens, then those that the entries put on it; empty if the
/// network has no such channel. Errors: out of memory.
///
/// ```text
/// for token in stream_of(alloc, run.net(), run.history(), channel)? {
///     if let Token::Word(word) = token {
///         words.push(word)?;
///     }
/// }
/// ```
pub fn stream_of<K: Kinds>(
    alloc: Global,
    net: &Net<K>,
    history: &[Entry],
    channel: usize,
) -> Result<Vec<Token>, AllocError>
    ensures { IfOk result (λ v. IsStreamOf net.now history.now channel v.items) }
{
    stream_of_entries(alloc, net, &Slice { history }, channel)
}

/// Returns the stream of a channel, like [`stream_of`], from any type of entries.
///
/// ```text
/// let tokens = stream_of_entries(alloc, net, history, channel.channel)?;
/// ```
pub fn stream_of_entries<K: Kinds, E: Entries>(
    alloc: Global,
    net: &Net<K>,
    history: &E,
    channel: usize,
) -> Result<Vec<Token>, AllocError>
    ensures { IfOk result (λ v. IsStreamOf net.now (E.entries history.now) channel v.items) }
{
    if channel >= net.channels() {
        return Ok(Vec::new(alloc));
    }
    let mut tokens = Vec::from_slice(alloc, net.tokens(channel))?;
    push_all_put_on(&mut tokens, channel, history)?;
    Ok(tokens)
}
