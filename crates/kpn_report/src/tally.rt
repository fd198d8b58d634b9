//! Counts a history, entry by entry.
ghost use Rattle.std.specs.Prelude.{◌≡◌, ◌<◌, ◌+◌, ◌^◌, ◌++◌, ◌∷◌, [], ℕ, get_or, IfOk, OnOk};
ghost use Rattle.kpn_model.specs.History.{growths as growths_of};
ghost use Rattle.kpn_report.specs.Tally.{CountsSteps, KeepsCounts, one_more_at, counts_at, steps_after, counts_after, one_more_put, one_more_taken, grown_at};

use crate::channel_counts::ChannelCounts;
use crate::counted::counted_tally;
use crate::entries::Entries;
use kpn_model::{Deed, Entry, Kinds};
use kpn_network::Net;
use std::alloc::{AllocError, Global};

/// The counts of a history: each process's deeds, each channel's counts, and the growths.
#[derive(Drop)]
pub(crate) struct Tally {
    pub(crate) steps: Vec<u64>,
    pub(crate) channel_counts: Vec<ChannelCounts>,
    pub(crate) growths: Vec<(usize, usize)>,
}

/// Adds one at this place, if there is such a place.
#[inline(always)]
pub(crate) fn count_at(counts: &mut Vec<u64>, place: usize)
    requires { get_or counts.old.items place 0 + 1 < 2 ^ 64 }
    ensures { counts.new.items ≡ one_more_at counts.old.items place }
{
    if place < counts.len() {
        counts[place] += 1;
    }
}

fn count_put(channel_counts: &mut Vec<ChannelCounts>, channel: usize)
    requires { (counts_at channel_counts.old.items channel).put + 1 < 2 ^ 64 }
    ensures { channel_counts.new.items ≡ one_more_put channel_counts.old.items channel }
{
    if channel < channel_counts.len() {
        let counts = &mut channel_counts[channel];
        counts.put += 1;
    }
}

fn count_taken(channel_counts: &mut Vec<ChannelCounts>, channel: usize)
    requires { (counts_at channel_counts.old.items channel).taken + 1 < 2 ^ 64 }
    ensures { channel_counts.new.items ≡ one_more_taken channel_counts.old.items channel }
{
    if channel < channel_counts.len() {
        let counts = &mut channel_counts[channel];
        counts.taken += 1;
    }
}

fn note_capacity(channel_counts: &mut Vec<ChannelCounts>, channel: usize, to: usize)
    ensures { channel_counts.new.items ≡ grown_at channel_counts.old.items channel to }
{
    if channel < channel_counts.len() {
        let counts = &mut channel_counts[channel];
        counts.capacity = to;
    }
}

/// Counts an entry. Errors: out of memory.
fn note(
    steps: &mut Vec<u64>,
    channel_counts: &mut Vec<ChannelCounts>,
    growths: &mut Vec<(usize, usize)>,
    entry: Entry,
) -> Result<(), AllocError>
    requires few_deeds { (p : ℕ) → get_or steps.old.items p 0 + 1 < 2 ^ 64 }
    requires few_put { (c : ℕ) → (counts_at channel_counts.old.items c).put + 1 < 2 ^ 64 }
    requires few_taken { (c : ℕ) → (counts_at channel_counts.old.items c).taken + 1 < 2 ^ 64 }
    ensures steps { OnOk result (steps.new.items ≡ steps_after steps.old.items entry) }
    ensures channel_counts { OnOk result (channel_counts.new.items ≡ counts_after channel_counts.old.items entry) }
    ensures growths { OnOk result (growths.new.items ≡ growths.old.items ++ growths_of (entry ∷ [])) }
{
    match entry {
        Entry::Did { process, deed } => {
            count_at(steps, process);
            match deed {
                Deed::Took { channel, .. } => count_taken(channel_counts, channel),
                Deed::Put { channel, .. } => count_put(channel_counts, channel),
                Deed::Stopped => {}
            }
            Ok(())
        }
        Entry::Grew { channel, to } => {
            note_capacity(channel_counts, channel, to);
            growths.push((channel, to))?;
            Ok(())
        }
    }
}

fn no_steps<K: Kinds>(alloc: Global, net: &Net<K>) -> Result<Vec<u64>, AllocError>
    ensures { IfOk result (λ v. CountsSteps net.now [] v.items) }
{
    vec![in alloc; 0u64; net.processes()]
}

fn first_counts<K: Kinds>(alloc: Global, net: &Net<K>) -> Result<Vec<ChannelCounts>, AllocError>
    ensures { IfOk result (λ v. KeepsCounts net.now [] v.items) }
{
    let mut channel_counts = Vec::with_capacity(alloc, net.channels())?;
    for c in 0..net.channels() {
        channel_counts.push(ChannelCounts {
            put: 0,
            taken: 0,
            capacity: net.capacity(c),
        })?;
    }
    Ok(channel_counts)
}

/// Counts a history. Reads it once, unless it was tallied and no channel grew. Errors: out of memory.
pub(crate) fn tally_of<K: Kinds, E: Entries>(
    alloc: Global,
    net: &Net<K>,
    history: &E,
) -> Result<Tally, AllocError>
    ensures steps { IfOk result (λ t. CountsSteps net.now (E.entries history.now) t.steps.items) }
    ensures channel_counts { IfOk result (λ t. KeepsCounts net.now (E.entries history.now) t.channel_counts.items) }
    ensures growths { IfOk result (λ t. t.growths.items ≡ growths_of (E.entries history.now)) }
{
    match history.tallied() {
        Some(tallied) if !tallied.has_growths() => return counted_tally(alloc, net, tallied),
        _ => {}
    }
    let mut steps = no_steps(alloc, net)?;
    let mut channel_counts = first_counts(alloc, net)?;
    let mut growths = Vec::new(alloc);
    for k in 0..history.count() {
        let entry = history.entry(k);
        note(&mut steps, &mut channel_counts, &mut growths, entry)?;
    }
    Ok(Tally {
        steps,
        channel_counts,
        growths,
    })
}
