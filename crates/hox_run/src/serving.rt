//! Runs a described network as requested.
ghost use Rattle.std.specs.Prelude.{◌≡◌, IfOk, IfErr, IfNone, IfSome, None};
ghost use Rattle.std.specs.List.{All};
ghost use Rattle.kpn_model.specs.Network.{number_of_channel};
ghost use Rattle.hox_run.specs.Cuts.{IsWithin};
ghost use Rattle.hox_run.specs.Serving.{AreNamed, GivesPrepared, IsNamed, LacksSome, ServesRun};

use crate::progress::ProgressReceiver;
use crate::running::execute;
use crate::shown::{ChannelAs, WantedRun, WantedStreams};
use crate::telling::Told;
use hox_network::{Fault, NoResult, Request, StreamAs, channel_names, prepare};
use kpn_compute::Computes;
use kpn_front::Source;
use kpn_model::Kinds;
use kpn_network::Net;
use kpn_tokens::{Decimals, Layout};
use std::alloc::Global;
use std::rt::Clock;
use std::sync::Wait;
use std::thread::Threads;

/// Reads a description, sets the start tokens of the request's files and the request's budget, and runs the
/// network. Returns the result. A channel gets the sort of its two ports, so the description may omit it.
/// `progress` receives the progress of the run.
///
/// Errors: see [`Fault`].
pub fn serve<K: Computes, I: Source, R: Wait + Clock + Threads + Sync, P: ProgressReceiver>(
    rt: &R,
    alloc: Global,
    request: &Request,
    source: &mut I,
    progress: &P,
) -> Result<Told, Fault>
    ensures { ServesRun K.Kinds request.now I.Source source.old source.new result }
{
    let prepared: Result<Net<K>, Fault> = prepare(alloc, request, source);
    match prepared {
        Ok(net) => serve_prepared(rt, alloc, request, net, progress),
        Err(fault) => Err(fault),
    }
}

fn serve_prepared<K: Computes, R: Wait + Clock + Threads + Sync, P: ProgressReceiver>(
    rt: &R,
    alloc: Global,
    request: &Request,
    net: Net<K>,
    progress: &P,
) -> Result<Told, Fault>
    ensures { GivesPrepared K.Kinds request.now net result }
{
    let show = match channels_in(alloc, &net, request.show.as_slice()) {
        Ok(show) => show,
        Err(Missing::Channel(k)) => return Err(Fault::NoShown(k, channel_names(alloc, &net)?)),
        Err(Missing::Memory) => return Err(Fault::Memory),
    };
    let outputs = match channels_in(alloc, &net, request.outputs.as_slice()) {
        Ok(outputs) => outputs,
        Err(Missing::Channel(k)) => return Err(Fault::NoOutput(k, channel_names(alloc, &net)?)),
        Err(Missing::Memory) => return Err(Fault::Memory),
    };
    let streams = WantedStreams {
        show: show.as_slice(),
        outputs: outputs.as_slice(),
    };
    let wanted = WantedRun {
        workers: request.workers,
        streams,
        progress,
    };
    match execute(rt, alloc, net, &wanted) {
        Ok(told) => Ok(told),
        Err(NoResult::Memory) => Err(Fault::Memory),
        Err(NoResult::Lost) => Err(Fault::Lost),
    }
}

/// Why names are not those of channels: no channel has the name at this place; or out of memory.
#[derive(Clone, Copy)]
enum Missing {
    Channel(usize),
    Memory,
}

fn channels_in<K: Kinds, W: Copy + Drop>(
    alloc: Global,
    net: &Net<K>,
    texts: &[StreamAs<W>],
) -> Result<Vec<ChannelAs<W>>, Missing>
    ensures named { IfOk result (λ v. AreNamed net.now texts.now v.items) }
    ensures within { IfOk result (λ v. All (IsWithin net.now) v.items) }
    ensures missing { IfErr result (LacksSome net.now texts.now) }
{
    let mut channels = Vec::new(alloc);
    for k in 0..texts.len() {
        let Some(channel) = channel_of(net, &texts[k]) else {
            return Err(Missing::Channel(k));
        };
        if channels.push(channel).is_err() {
            return Err(Missing::Memory);
        }
    }
    Ok(channels)
}

fn channel_of<K: Kinds, W: Copy>(net: &Net<K>, text: &StreamAs<W>) -> Option<ChannelAs<W>>
    ensures named { IfSome result (IsNamed net.now text.now) }
    ensures within { IfSome result (IsWithin net.now) }
    ensures none { IfNone result (number_of_channel net.now text.now.channel ≡ None) }
{
    let channel = net.find_channel(text.channel.as_str())?;
    Some(ChannelAs {
        channel,
        written: text.written,
    })
}
