//! Delays of channels.
ghost use Rattle.std.specs.Prelude.{◌≡◌, IfOk};
ghost use Rattle.hox_network.specs.Ports.{sort_by_ports};
ghost use Rattle.hox_network.specs.Delays.{delay_at, delayed, delayed_from, holding_first, with_delays, zero_of};

use crate::sorts::sort_by_ports;
use kpn_model::limits::HIGH_CEILING;
use kpn_model::{Kinds, Listed, Sort};
use kpn_net::{ChannelSketch, Delay, Sketch, TokenSketch};
use std::alloc::{AllocError, Global};

/// Puts as many zeros as it delays by before the start tokens of each channel, and makes room for all.
pub(crate) fn with_delays<K: Kinds>(
    alloc: Global,
    sketch: Sketch,
    delays: &[Delay],
) -> Result<Sketch, AllocError>
    ensures { IfOk result (λ r. r ≡ with_delays K.named K.signature delays.now sketch) }
{
    let Sketch {
        version,
        budget,
        step,
        processes,
        channels,
    } = sketch;
    let bare = Sketch {
        version,
        budget,
        step,
        processes,
        channels: Listed::new(Vec::new(alloc)),
    };
    let channels = delayed_from::<K>(alloc, &bare, delays, channels.into_vec())?;
    Ok(Sketch {
        channels: Listed::new(channels),
        ..bare
    })
}

fn delayed_from<K: Kinds>(
    alloc: Global,
    sketch: &Sketch,
    delays: &[Delay],
    channels: Vec<ChannelSketch>,
) -> Result<Vec<ChannelSketch>, AllocError>
    ensures { IfOk result (λ v. v.items ≡ delayed_from K.named K.signature delays.now sketch.now 0 channels.items) }
{
    let mut all = Vec::new(alloc);
    for channel in channels {
        let number = all.len();
        all.push(delayed_by::<K>(alloc, sketch, delay_at(delays, number), channel)?)?;
    }
    Ok(all)
}

fn delayed_by<K: Kinds>(
    alloc: Global,
    sketch: &Sketch,
    delay: i64,
    channel: ChannelSketch,
) -> Result<ChannelSketch, AllocError>
    ensures { IfOk result (λ c. c ≡ delayed (sort_by_ports K.named K.signature sketch.now channel) delay channel) }
{
    let sort = sort_by_ports::<K>(sketch, &channel);
    delayed(alloc, sort, delay, channel)
}

fn delay_at(delays: &[Delay], number: usize) -> i64
    ensures { result ≡ delay_at delays.now number }
{
    match delays.get(number) {
        Some(delay) => delay.tokens,
        None => 0,
    }
}

/// Has a channel delay by `delay` tokens. If no channel has room for these, this becomes its capacity.
fn delayed(
    alloc: Global,
    sort: Sort,
    delay: i64,
    channel: ChannelSketch,
) -> Result<ChannelSketch, AllocError>
    ensures { IfOk result (λ c. c ≡ delayed sort delay channel) }
{
    match usize::try_from(delay) {
        Ok(0) => Ok(channel),
        Ok(count) if count <= HIGH_CEILING as usize => holding_first(alloc, count, sort, channel),
        _ => Ok(ChannelSketch {
            capacity: delay,
            ..channel
        }),
    }
}

fn holding_first(
    alloc: Global,
    count: usize,
    sort: Sort,
    channel: ChannelSketch,
) -> Result<ChannelSketch, AllocError>
    ensures { IfOk result (λ c. c ≡ holding_first count sort channel) }
{
    let mut tokens = Vec::from_elem(alloc, zero_of(sort), count)?;
    let mut rest = channel.tokens.into_vec();
    tokens.append(&mut rest)?;
    let Ok(held) = i64::try_from(tokens.len()) else {
        return Err(AllocError);
    };
    Ok(ChannelSketch {
        capacity: channel.capacity.max(held),
        tokens: Listed::new(tokens),
        ..channel
    })
}

fn zero_of(sort: Sort) -> TokenSketch
    ensures { result ≡ zero_of sort }
{
    match sort {
        Sort::Words => TokenSketch::Integer(0),
        Sort::Flags => TokenSketch::Boolean(false),
    }
}
