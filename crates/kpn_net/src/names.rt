//! Faults of names: wrong ones and duplicates.
ghost use Rattle.std.specs.Prelude.{◌≡◌, not, Bool, option_copied, slice_index};
ghost use Rattle.std.specs.List.{find, list_any, list_all};
ghost use Rattle.std.specs.Str.{bytes_eq};
ghost use Rattle.kpn_model.specs.texts.NameForm.{is_letter, is_name_byte, is_name};
ghost use Rattle.kpn_net.specs.Faults.{any_pair, same_process, same_channel, has_fault};

use kpn_model::Kinds;
use kpn_sketch::{ChannelSketch, NetFault, ProcessSketch, Sketch};

fn is_letter(b: u8) -> bool
    ensures { result ≡ is_letter b }
{
    b'a' <= b && b <= b'z'
}

fn is_name_byte(b: u8) -> bool
    ensures { result ≡ is_name_byte b }
{
    is_letter(b) || (b'0' <= b && b <= b'9') || b == b'_'
}

fn are_name_bytes(bytes: &[u8]) -> bool
    ensures { result ≡ list_all is_name_byte bytes.now }
{
    bytes.iter().all(|b| is_name_byte(*b))
}

fn begins_with_letter(bytes: &[u8]) -> bool
    ensures { result ≡ is_letter (slice_index bytes.now 0) }
{
    match bytes.first() {
        Some(first) => is_letter(*first),
        None => false,
    }
}

/// Whether the text is a name: 1 to 16 of `a` to `z`, `0` to `9` and `_`, beginning with a letter.
pub fn is_name(text: &str) -> bool
    ensures { result ≡ is_name text.now }
{
    let bytes = text.as_bytes();
    bytes.len() <= 16 && begins_with_letter(bytes) && are_name_bytes(bytes)
}

/// A relation that no two items of a list may have.
pub trait Clash<T> {
    ghost clash: { T → T → Bool };

    /// Whether two items clash.
    fn clash(x: &T, y: &T) -> bool
        ensures { result ≡ clash x.now y.now };
}

/// The clash of two processes, or two channels, with one name.
pub struct SameName;

impl Clash<ProcessSketch> for SameName {
    ghost clash = { same_process };

    fn clash(x: &ProcessSketch, y: &ProcessSketch) -> bool {
        x.name.as_str() == y.name.as_str()
    }
}

impl Clash<ChannelSketch> for SameName {
    ghost clash = { same_channel };

    fn clash(x: &ChannelSketch, y: &ChannelSketch) -> bool {
        x.name.as_str() == y.name.as_str()
    }
}

fn clashes_later<T, C: Clash<T>>(x: &T, later: &[T]) -> bool
    ensures { result ≡ list_any (C.clash x.now) later.now }
{
    later.iter().any(|y| C::clash(x, y))
}

pub(crate) fn any_clash<T, C: Clash<T>>(items: &[T]) -> bool
    ensures { result ≡ any_pair C.clash items.now }
{
    let mut rest = items;
    while let Some((x, later)) = rest.split_first() {
        if clashes_later::<T, C>(x, later) {
            return true;
        }
        rest = later;
    }
    false
}

/// Returns the first process with this name.
pub fn process_named<'a>(processes: &'a [ProcessSketch], name: &str) -> Option<&'a ProcessSketch>
    ensures { option_copied result ≡ find (λ p. bytes_eq p.name name.now) processes.now }
{
    processes.iter().find(|p| p.name.as_str() == name)
}

fn has_bad_process_name(processes: &[ProcessSketch]) -> bool
    ensures { result ≡ list_any (λ p. not (is_name p.name)) processes.now }
{
    processes.iter().any(|p| !is_name(p.name.as_str()))
}

fn has_bad_channel_name(channels: &[ChannelSketch]) -> bool
    ensures { result ≡ list_any (λ c. not (is_name c.name)) channels.now }
{
    channels.iter().any(|c| !is_name(c.name.as_str()))
}

/// Fault 5: a name is wrong, or two processes or two channels share one.
pub(crate) fn has_wrong_names<K: Kinds>(sketch: &Sketch) -> bool
    ensures { result ≡ has_fault K.named K.signature sketch.now NetFault.Name }
{
    let processes = sketch.processes.as_slice();
    let channels = sketch.channels.as_slice();
    (has_bad_process_name(processes) || has_bad_channel_name(channels))
        || any_clash::<ProcessSketch, SameName>(processes)
        || any_clash::<ChannelSketch, SameName>(channels)
}
