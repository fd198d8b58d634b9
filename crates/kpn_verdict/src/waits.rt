//! Which process waits for which, and the cycles of these waits.
ghost use Rattle.std.specs.Prelude.{◌≡◌, ◌<◌, false, length, slice_get};
ghost use Rattle.std.specs.Option.{option_map_or};
ghost use Rattle.kpn_model.specs.Waits.{other_end, waits_for, is_met, is_on_cycle, stands_at_read, stands_at_write, is_jammed};

use kpn_model::{Kinds, Place};
use kpn_network::Net;

/// Returns the process that must act before a process with this place can continue.
fn other_end<K: Kinds>(net: &Net<K>, place: Place) -> Option<usize>
    ensures { result ≡ other_end net.now place }
{
    match place {
        Place::Reads(c) if c < net.channels() => Some(net.ends(c).writer),
        Place::Writes(c) if c < net.channels() => Some(net.ends(c).reader),
        _ => None,
    }
}

/// Returns the place in which a run left a process, if known.
pub fn place_at(places: &[Place], p: usize) -> Option<Place>
    ensures { result ≡ slice_get places.now p }
{
    places.get(p).copied()
}

/// Returns the process for which a process waits.
pub(crate) fn waits_for<K: Kinds>(net: &Net<K>, places: &[Place], p: usize) -> Option<usize>
    ensures { result ≡ waits_for net.now places.now p }
{
    match place_at(places, p) {
        Some(place) => other_end(net, place),
        None => None,
    }
}

/// Whether `goal` is reached from a process in at most `steps` waits.
fn is_met<K: Kinds>(net: &Net<K>, places: &[Place], steps: usize, goal: usize, from: usize) -> bool
    ensures { result ≡ is_met net.now places.now steps goal from }
{
    let mut at = from;
    for _step in 0..steps {
        match waits_for(net, places, at) {
            Some(next) if next == goal => return true,
            Some(next) => at = next,
            None => return false,
        }
    }
    false
}

/// Returns whether a process waits for itself, directly or indirectly.
pub fn is_on_cycle<K: Kinds>(net: &Net<K>, places: &[Place], p: usize) -> bool
    ensures { result ≡ is_on_cycle net.now places.now p }
{
    is_met(net, places, net.processes(), p, p)
}

fn stands_at_read(place: Option<Place>, c: usize) -> bool
    ensures { result ≡ option_map_or (stands_at_read c) place false }
{
    match place {
        Some(Place::Reads(b)) => b == c,
        _ => false,
    }
}

fn stands_at_write(place: Option<Place>, c: usize) -> bool
    ensures { result ≡ option_map_or (stands_at_write c) place false }
{
    match place {
        Some(Place::Writes(b)) => b == c,
        _ => false,
    }
}

/// Returns whether a process on a cycle of waits waits at this channel, for a token or for room. No process
/// of such a cycle continues unless a channel grows.
pub fn is_jammed<K: Kinds>(net: &Net<K>, places: &[Place], c: usize) -> bool
    requires { c < length net.now.channels }
    ensures { result ≡ is_jammed net.now places.now c }
{
    let ends = net.ends(c);
    let reader = place_at(places, ends.reader);
    let writer = place_at(places, ends.writer);
    (stands_at_read(reader, c) && is_on_cycle(net, places, ends.reader))
        || (stands_at_write(writer, c) && is_on_cycle(net, places, ends.writer))
}
