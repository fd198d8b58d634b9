//! Lines with the streams of channels.
ghost use Rattle.std.specs.Prelude.{◌≡◌, ◌++◌, OnOk};
ghost use Rattle.std.specs.List.{flat_map};
ghost use Rattle.kpn_report.specs.Text.{AppendsText};
ghost use Rattle.hox_run.specs.Cuts.{text_of_line, token_part};
ghost use Rattle.hox_run.specs.Ended.{before_by, stream_by, streams_by};

use crate::ended::Ended;
use kpn_model::{End, Kinds, Token};
use kpn_network::Net;
use kpn_network::names::channel_name;
use kpn_report::{Entries, stream_of_entries};
use kpn_tokens::{Decimals, Layout, append_token};
use std::alloc::{AllocError, Global};
use std::str;

/// A channel whose stream is wanted, and the format of its tokens.
#[derive(Clone, Copy, Debug, PartialEq, Eq)]
pub struct ChannelAs<W> {
    pub channel: usize,
    pub written: W,
}

/// The wanted streams of a run: those in the report, and those written to files.
#[derive(Clone, Copy)]
pub struct WantedStreams<'a> {
    pub show: &'a [ChannelAs<Decimals>],
    pub outputs: &'a [ChannelAs<Layout>],
}

/// How a run is wanted: by how many workers, which of its streams, and what receives its progress.
#[derive(Drop)]
pub struct WantedRun<'a, 'b, P> {
    pub workers: usize,
    pub streams: WantedStreams<'a>,
    pub progress: &'b P,
}

/// Appends a line `stream` for each channel of `show`, if the run has a report. Errors: out of memory.
pub(crate) fn push_before_verdict<K: Kinds, E: Entries>(
    alloc: Global,
    out: &mut String,
    run: &Ended<'_, K, E>,
    show: &[ChannelAs<Decimals>],
) -> Result<(), AllocError>
    ensures { OnOk result (AppendsText out.old out.new (before_by run.now E.Entries show.now)) }
{
    match run.end {
        End::Terminated | End::Deadlock | End::Ceiling => {
            push_streams(alloc, out, run, show, "stream ")
        }
        End::Budget | End::Memory => Ok(()),
    }
}

/// Appends a line for the stream of each channel, beginning with `word`. Errors: out of memory.
pub(crate) fn push_streams<K: Kinds, E: Entries>(
    alloc: Global,
    out: &mut String,
    run: &Ended<'_, K, E>,
    channels: &[ChannelAs<Decimals>],
    word: &str,
) -> Result<(), AllocError>
    ensures { OnOk result (AppendsText out.old out.new (streams_by run.now E.Entries word.now channels.now)) }
{
    for channel in channels {
        push_stream(alloc, out, run, *channel, word)?;
    }
    Ok(())
}

fn push_stream<K: Kinds, E: Entries>(
    alloc: Global,
    out: &mut String,
    run: &Ended<'_, K, E>,
    channel: ChannelAs<Decimals>,
    word: &str,
) -> Result<(), AllocError>
    ensures { OnOk result (AppendsText out.old out.new (stream_by run.now E.Entries word.now channel)) }
{
    let tokens = stream_of_entries(alloc, run.net, run.history, channel.channel)?;
    let line = StreamLine {
        word,
        channel,
        tokens: tokens.as_slice(),
    };
    push_line(alloc, out, run.net, &line)
}

/// A line that tells the tokens of a channel, and the word it begins with.
#[derive(Clone, Copy)]
struct StreamLine<'a> {
    word: &'a str,
    channel: ChannelAs<Decimals>,
    tokens: &'a [Token],
}

fn push_line<K: Kinds>(
    alloc: Global,
    out: &mut String,
    net: &Net<K>,
    line: &StreamLine<'_>,
) -> Result<(), AllocError>
    ensures { OnOk result (AppendsText out.old out.new (text_of_line net.now line.now)) }
{
    out.push_str(line.word)?;
    out.push_str(channel_name(net, line.channel.channel))?;
    push_tokens(alloc, out, line.channel.written, line.tokens)?;
    out.push_str("\n")
}

fn push_tokens(
    alloc: Global,
    out: &mut String,
    decimals: Decimals,
    tokens: &[Token],
) -> Result<(), AllocError>
    ensures { OnOk result (AppendsText out.old out.new (flat_map (token_part decimals) tokens.now)) }
{
    let mut bytes = Vec::new(alloc);
    for token in tokens {
        append_part(&mut bytes, decimals, *token)?;
    }
    push_bytes(out, bytes.as_slice())
}

fn append_part(out: &mut Vec<u8>, decimals: Decimals, token: Token) -> Result<(), AllocError>
    ensures { OnOk result (out.new.items ≡ out.old.items ++ token_part decimals token) }
{
    out.extend_from_slice(b" ")?;
    append_token(out, decimals, token)
}

/// Appends bytes that are UTF-8, as those of tokens are.
fn push_bytes(out: &mut String, bytes: &[u8]) -> Result<(), AllocError>
    ensures { OnOk result (AppendsText out.old out.new bytes.now) }
{
    match str::from_utf8(bytes) {
        Ok(text) => out.push_str(text),
        Err(_) => Err(AllocError),
    }
}
