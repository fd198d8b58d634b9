//! Reads descriptions that may omit sorts and the budget, and may have negative arguments and start tokens.
ghost use Rattle.std.specs.Prelude.{◌≡◌, IfOk, IfSome, MatchResult, map};
ghost use Rattle.kpn_sketch.specs.Description.{IsDelayedFault};
ghost use Rattle.kpn_front.specs.Loading.{without_text};
ghost use Rattle.hox_network.specs.Meant.{IsSketchOf, LoadsSource, completed};
ghost use Rattle.hox_network.specs.Ports.{by_ports, channel_by_ports};

use crate::budget::with_greatest_budget;
use crate::copies::with_copies;
use crate::delays::with_delays;
use crate::formulas::with_formulas;
use crate::signs::with_signs;
use crate::sorts::sort_by_ports;
use kpn_front::{Refused, Source, net_or_refuse, read_text};
use kpn_model::{Kinds, Listed};
use kpn_net::{ChannelSketch, Delay, Delayed, Net, NetFault, Sketch, read_delayed};
use std::alloc::{AllocError, Global};

/// Reads a description to its end, and makes its network. A channel gets the sort of its two ports if they agree,
/// whatever the description says. A process whose kind is a formula gets the card that means it. A process with a
/// negative first argument gets the kind `KIND, signed` if that exists and takes the arguments: each argument -1 - n
/// becomes n, and one more argument counts how many of the first two are negative. A negative start token is read as
/// two's complement. A channel with a `delay` holds so many zeros first, or `false`, and has room for all that it holds
/// at first. If several channels leave one output, copies stand between: each channel gets every token. Without a
/// stated budget, the network gets the greatest of its version. Reads at most 1,048,577 bytes.
///
/// Errors: those of `kpn_front::load_or_refuse`, with the text.
pub fn load_by_ports<K: Kinds, S: Source>(alloc: Global, source: &mut S) -> Result<Net<K>, Refused>
    ensures { LoadsSource K.Kinds S.Source source.old source.new (without_text result) }
{
    let text = read_text(alloc, source).map_err(|fault| Refused::unread(alloc, fault))?;
    let sketch = sketch_of_text::<K>(alloc, text.as_slice());
    net_or_refuse(alloc, text, sketch)
}

/// Returns the sketch of a text as `load_by_ports` completes it; `None` if the text describes none, or out of memory.
pub fn sketch_by_ports<K: Kinds>(alloc: Global, text: &[u8]) -> Option<Sketch>
    ensures { IfSome result (IsSketchOf K.named K.signature text.now) }
{
    match sketch_of_text::<K>(alloc, text) {
        Ok(meant) => Some(meant),
        Err(_) => None,
    }
}

/// Reads the sketch of a text, writes the formulas as cards, sets the default budget, and completes it.
///
/// Errors: those of `read_delayed`.
fn sketch_of_text<K: Kinds>(alloc: Global, text: &[u8]) -> Result<Sketch, NetFault>
    ensures { MatchResult result (IsSketchOf K.named K.signature text.now) (IsDelayedFault text.now) }
{
    let described = read_delayed(alloc, text)?;
    let Delayed { sketch, delays } = described;
    let Ok(written) = with_formulas(alloc, sketch) else {
        return Err(NetFault::Memory);
    };
    let Ok(budgeted) = with_greatest_budget(alloc, text, written) else {
        return Err(NetFault::Memory);
    };
    match completed::<K>(alloc, budgeted, delays.as_slice()) {
        Ok(meant) => Ok(meant),
        Err(_) => Err(NetFault::Memory),
    }
}

/// Sets the signed kinds and start tokens and the delays, adds the copies, and gives the channels the sorts of their
/// ports. Errors: out of memory.
fn completed<K: Kinds>(
    alloc: Global,
    sketch: Sketch,
    delays: &[Delay],
) -> Result<Sketch, AllocError>
    ensures { IfOk result (λ meant. meant ≡ completed K.named K.signature sketch delays.now) }
{
    let signed = with_signs::<K>(alloc, sketch)?;
    let delayed = with_delays::<K>(alloc, signed, delays)?;
    let copied = with_copies::<K>(alloc, delayed)?;
    sorted_by_ports::<K>(alloc, copied)
}

/// Gives the channels the sorts of their ports. Errors: out of memory.
fn sorted_by_ports<K: Kinds>(alloc: Global, sketch: Sketch) -> Result<Sketch, AllocError>
    ensures { IfOk result (λ sorted. sorted ≡ by_ports K.named K.signature sketch) }
{
    let Sketch {
        version,
        budget,
        step,
        processes,
        channels,
    } = sketch;
    let bare = Sketch {
        version,
        budget,
        step,
        processes,
        channels: Listed::new(Vec::new(alloc)),
    };
    let channels = channels_by_ports::<K>(alloc, &bare, channels.into_vec())?;
    Ok(Sketch {
        channels: Listed::new(channels),
        ..bare
    })
}

fn channels_by_ports<K: Kinds>(
    alloc: Global,
    sketch: &Sketch,
    channels: Vec<ChannelSketch>,
) -> Result<Vec<ChannelSketch>, AllocError>
    ensures { IfOk result (λ v. v.items ≡ map (channel_by_ports K.named K.signature sketch.now) channels.items) }
{
    let mut sorted = Vec::new(alloc);
    for channel in channels {
        sorted.push(channel_by_ports::<K>(sketch, channel))?;
    }
    Ok(sorted)
}

fn channel_by_ports<K: Kinds>(sketch: &Sketch, channel: ChannelSketch) -> ChannelSketch
    ensures { result ≡ channel_by_ports K.named K.signature sketch.now channel }
{
    let sort = sort_by_ports::<K>(sketch, &channel);
    ChannelSketch { sort, ..channel }
}
