//! What a run left unused.
ghost use Rattle.std.specs.Prelude.{◌≡◌, ◌<◌, ◌-◌, IfOk, Some, length};
ghost use Rattle.kpn_model.specs.declared.history.Place.TheVariants.{Stopped};
ghost use Rattle.hox_run.specs.Ended.{entries_in, left_by};
ghost use Rattle.hox_run.specs.Notes.{AreNotes, has_put, is_place_of_stopped, is_put_on, is_source, is_taken_from, source_of, spent, taken_count};

use crate::cut::left_at;
use crate::ended::Ended;
use kpn_model::{Deed, Entry, Kinds, Place, Text, Verdict};
use kpn_network::Net;
use kpn_report::Entries;
use kpn_state::Standing;
use std::alloc::{AllocError, Global};

/// A channel whose writer stopped without a put: how many start tokens it had, and how many of them were not read.
#[derive(Drop)]
pub struct SourceNote {
    pub channel: Text,
    pub tokens: usize,
    pub unread: usize,
}

/// What a run left unused: its sources, in the order of channels; and its budget, if that cut it short.
#[derive(Drop)]
pub struct Notes {
    pub sources: Vec<SourceNote>,
    pub budget: Option<u64>,
}

/// Returns what a run left unused. Errors: out of memory.
pub(crate) fn notes_of<K: Kinds, E: Entries>(
    alloc: Global,
    run: &Ended<'_, K, E>,
    verdict: Verdict,
) -> Result<Notes, AllocError>
    ensures { IfOk result (AreNotes run.now.net.now verdict (entries_in run.now E.Entries) (left_by run.now)) }
{
    let mut sources = Vec::new(alloc);
    for c in 0..run.net.channels() {
        if is_source(run, c) {
            sources.push(source_of(alloc, run.net, run.history, c)?)?;
        }
    }
    Ok(Notes {
        sources,
        budget: spent(run.net, verdict),
    })
}

fn spent<K: Kinds>(net: &Net<K>, verdict: Verdict) -> Option<u64>
    ensures { result ≡ spent net.now verdict }
{
    match verdict {
        Verdict::Cut => Some(net.budget()),
        _ => None,
    }
}

/// Returns whether the writer of a channel stopped without a put on it.
fn is_source<K: Kinds, E: Entries>(run: &Ended<'_, K, E>, c: usize) -> bool
    requires { c < length run.now.net.now.channels }
    ensures { result ≡ is_source run.now.net.now (entries_in run.now E.Entries) (left_by run.now) c }
{
    let left = left_at(run.standings, run.places, run.net.ends(c).writer);
    is_stopped(left) && !has_put(run.history, c)
}

fn is_stopped(left: Option<Place>) -> bool
    ensures { result ≡ is_place_of_stopped left }
{
    matches!(left, Some(Place::Stopped))
}

fn has_put<E: Entries>(history: &E, c: usize) -> bool
    ensures { result ≡ has_put (E.entries history.now) c }
{
    for k in 0..history.count() {
        let entry = history.entry(k);
        if is_put_on(&entry, c) {
            return true;
        }
    }
    false
}

fn is_put_on(entry: &Entry, c: usize) -> bool
    ensures { result ≡ is_put_on c entry.now }
{
    match entry {
        Entry::Did {
            deed: Deed::Put { channel, .. },
            ..
        } => *channel == c,
        _ => false,
    }
}

fn is_taken_from(entry: &Entry, c: usize) -> bool
    ensures { result ≡ is_taken_from c entry.now }
{
    match entry {
        Entry::Did {
            deed: Deed::Took { channel, .. },
            ..
        } => *channel == c,
        _ => false,
    }
}

fn taken_count<E: Entries>(history: &E, c: usize) -> usize
    ensures { result ≡ taken_count (E.entries history.now) c }
{
    let mut taken = 0;
    for k in 0..history.count() {
        let entry = history.entry(k);
        if is_taken_from(&entry, c) {
            taken += 1;
        }
    }
    taken
}

fn source_of<K: Kinds, E: Entries>(
    alloc: Global,
    net: &Net<K>,
    history: &E,
    c: usize,
) -> Result<SourceNote, AllocError>
    requires { c < length net.now.channels }
    ensures { IfOk result (λ note. note ≡ source_of net.now (E.entries history.now) c) }
{
    let channel = Text::new(String::from_str(alloc, net.channel_name(c))?);
    let tokens = net.tokens(c).len();
    Ok(SourceNote {
        channel,
        tokens,
        unread: tokens.saturating_sub(taken_count(history, c)),
    })
}
