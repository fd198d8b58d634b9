//! Entries counted while they are kept.
ghost use Rattle.std.specs.Prelude.{◌≡◌, ◌<◌, ◌+◌, ◌^◌, ℕ, [], false, length, get_or};
ghost use Rattle.kpn_model.specs.History.{deeds, put_on, taken, growths};
ghost use Rattle.kpn_report.specs.Tally.{steps_after};
ghost use Rattle.kpn_report.specs.Tallied.{puts_after, takes_after, grew_after};

use crate::entries::Entries;
use crate::tally::count_at;
use kpn_model::limits::{MOST_CHANNELS, MOST_PROCESSES};
use kpn_model::{Deed, Entry};
use kpn_state::{Keeper, Packed, Recall};
use std::alloc::{AllocError, Global};
use std::marker::Model;

/// Entries in 16 bytes each, with the numbers of deeds of each process and of tokens put on and taken from
/// each channel, and whether a channel grew.
#[derive(Drop)]
pub struct Tallied {
    packed: Packed,
    steps: Vec<u64>,
    puts: Vec<u64>,
    takes: Vec<u64>,
    grew: bool,
}

impl Model for Tallied {
    ghost use Rattle.kpn_report.specs.Tallied.{TalliedEntries, tallied_entries, AreCounts};

    ghost Value = { TalliedEntries };

    ghost view = { λ t. tallied_entries (⟦<Packed as Keeper>⟧.entries t.packed) (⟦<Packed as Keeper>⟧.room t.packed) };

    ghost invariant = { λ t. AreCounts (⟦<Packed as Keeper>⟧.entries t.packed) t.steps.items t.puts.items t.takes.items t.grew };
}

impl Tallied {
    /// Whether a channel grew.
    pub(crate) fn has_growths(&self) -> bool
        ensures { result ≡ false → growths self.now.entries ≡ [] }
    {
        self.grew
    }

    /// Returns the number of deeds of a process.
    pub(crate) fn steps(&self, process: usize) -> u64
        requires { process < MOST_PROCESSES }
        ensures { result ≡ length (deeds self.now.entries process) }
    {
        self.steps[process]
    }

    /// Returns the numbers of tokens put on a channel and taken from it.
    pub(crate) fn put_and_taken(&self, channel: usize) -> (u64, u64)
        requires { channel < MOST_CHANNELS }
        ensures put { result.0 ≡ length (put_on self.now.entries channel) }
        ensures taken { result.1 ≡ length (taken self.now.entries channel) }
    {
        (self.puts[channel], self.takes[channel])
    }
}

#[inline(always)]
fn count_entry(
    steps: &mut Vec<u64>,
    puts: &mut Vec<u64>,
    takes: &mut Vec<u64>,
    grew: &mut bool,
    entry: Entry,
)
    requires few_steps { (p : ℕ) → get_or steps.old.items p 0 + 1 < 2 ^ 64 }
    requires few_puts { (c : ℕ) → get_or puts.old.items c 0 + 1 < 2 ^ 64 }
    requires few_takes { (c : ℕ) → get_or takes.old.items c 0 + 1 < 2 ^ 64 }
    ensures steps { steps.new.items ≡ steps_after steps.old.items entry }
    ensures puts { puts.new.items ≡ puts_after puts.old.items entry }
    ensures takes { takes.new.items ≡ takes_after takes.old.items entry }
    ensures grew { grew.new ≡ grew_after grew.old entry }
{
    match entry {
        Entry::Did { process, deed } => {
            count_at(steps, process);
            match deed {
                Deed::Took { channel, .. } => count_at(takes, channel),
                Deed::Put { channel, .. } => count_at(puts, channel),
                Deed::Stopped => {}
            }
        }
        Entry::Grew { .. } => *grew = true,
    }
}

impl Keeper for Tallied {
    ghost entries = { λ t. t.entries };

    ghost room = { λ t. t.room };

    fn with_room(alloc: Global, count: usize) -> Result<Tallied, AllocError> {
        Ok(Tallied {
            packed: Packed::with_room(alloc, count)?,
            steps: vec![in alloc; 0u64; MOST_PROCESSES]?,
            puts: vec![in alloc; 0u64; MOST_CHANNELS]?,
            takes: vec![in alloc; 0u64; MOST_CHANNELS]?,
            grew: false,
        })
    }

    fn count(&self) -> usize {
        Keeper::count(&self.packed)
    }

    #[inline(always)]
    fn keep(&mut self, entry: Entry) {
        let _entries = Keeper::count(&self.packed);
        count_entry(
            &mut self.steps,
            &mut self.puts,
            &mut self.takes,
            &mut self.grew,
            entry,
        );
        self.packed.keep(entry);
    }
}

impl Entries for Tallied {
    ghost entries = { λ t. t.entries };

    fn count(&self) -> usize {
        Keeper::count(&self.packed)
    }

    #[inline(always)]
    fn entry(&self, place: usize) -> Entry {
        Recall::entry(&self.packed, place)
    }

    fn tallied(&self) -> Option<&Tallied> {
        Some(self)
    }
}
