//! Streams as files.
ghost use Rattle.std.specs.Prelude.{◌≡◌, IfOk, map};
ghost use Rattle.std.specs.List.{All};
ghost use Rattle.hox_run.specs.Cuts.{IsWithin};
ghost use Rattle.hox_run.specs.Telling.{fitted, stream_file};

use crate::shown::ChannelAs;
use kpn_model::{Kinds, Listed, Token};
use kpn_network::Net;
use kpn_report::{Entries, stream_of_entries};
use kpn_tokens::{Layout, count_misfits};
use std::alloc::{AllocError, Global};

/// A stream as a file: its tokens, up to the first that does not fit; how many of them are clipped to the
/// nearest value that fits; and whether one does not fit.
#[derive(Drop)]
pub struct StreamFile {
    pub tokens: Listed<Token>,
    pub clipped: usize,
    pub is_misfit: bool,
}

/// Returns the streams of these channels, each up to the first token that does not fit its file. Errors: out
/// of memory.
pub(crate) fn stream_files<K: Kinds, E: Entries>(
    alloc: Global,
    net: &Net<K>,
    history: &E,
    channels: &[ChannelAs<Layout>],
) -> Result<Vec<StreamFile>, AllocError>
    requires { All (IsWithin net.now) channels.now }
    ensures { IfOk result (λ v. v.items ≡ map (stream_file net.now (E.entries history.now)) channels.now) }
{
    let mut files = Vec::with_capacity(alloc, channels.len())?;
    for channel in channels {
        files.push(stream_file(alloc, net, history, *channel)?)?;
    }
    Ok(files)
}

fn stream_file<K: Kinds, E: Entries>(
    alloc: Global,
    net: &Net<K>,
    history: &E,
    channel: ChannelAs<Layout>,
) -> Result<StreamFile, AllocError>
    requires { IsWithin net.now channel }
    ensures { IfOk result (λ file. file ≡ stream_file net.now (E.entries history.now) channel) }
{
    let tokens = stream_of_entries(alloc, net, history, channel.channel)?;
    Ok(fitted(channel.written, tokens))
}

/// Cuts tokens off from the first that does not fit.
fn fitted(layout: Layout, mut tokens: Vec<Token>) -> StreamFile
    ensures { result ≡ fitted layout tokens.items }
{
    match count_misfits(layout, tokens.as_slice()) {
        Ok(clipped) => StreamFile {
            tokens: Listed::new(tokens),
            clipped,
            is_misfit: false,
        },
        Err(place) => {
            tokens.truncate(place);
            StreamFile {
                tokens: Listed::new(tokens),
                clipped: 0,
                is_misfit: true,
            }
        }
    }
}
