//! Keepers of a history's entries.
ghost use Rattle.std.specs.Prelude.{◌≡◌, ◌++◌, ◌∷◌, [], ◌<◌, ◌≤◌, ◌^◌, length, map, get_or, IfOk, List, ℕ};
ghost use Rattle.std.specs.Vec.{vec_capacity};
ghost use Rattle.kpn_state.specs.Packed.{IsSmall};

use kpn_model::Entry;
use std::alloc::{AllocError, Global};
use std::snapshot::Snapshot;

/// Keeps the entries of a history, with room for a fixed number: as they are (`Wide`), in 16 bytes each
/// (`Packed`), these with tallies (`Tallied` of `kpn_report`), or only their number (`Unkept`). Contracts see
/// the entries in any case.
pub trait Keeper: Drop {
    ghost use Rattle.std.specs.Prelude.{List, ℕ};
    ghost use Rattle.kpn_model.specs.declared.history.Entry.{Entry};

    ghost entries: { Self → List Entry };

    ghost room: { Self → ℕ };

    /// Makes a keeper with room for `count` entries. Errors: out of memory.
    fn with_room(alloc: Global, count: usize) -> Result<Self, AllocError>
        ensures entries { IfOk result (λ h. entries h ≡ []) }
        ensures room { IfOk result (λ h. count ≤ room h) };

    /// Returns the number of entries.
    fn count(&self) -> usize
        ensures count { result ≡ length (entries self.now) }
        ensures few { length (entries self.now) < 2 ^ 63 };

    /// Appends an entry. There must be room, and its process and channel numbers must be below 65,536.
    fn keep(&mut self, entry: Entry)
        requires room { length (entries self.old) < room self.old }
        requires small { IsSmall entry }
        ensures entries { entries self.new ≡ entries self.old ++ entry ∷ [] }
        ensures room { room self.new ≡ room self.old };
}

/// A keeper with readable entries.
pub trait Recall: Keeper {
    /// Returns the entry at a place, counted from 0.
    fn entry(&self, place: usize) -> Entry
        requires { place < length (Self.entries self.now) }
        ensures { (d : Entry) → get_or (Self.entries self.now) place d ≡ result };
}

/// Entries as they are, in 48 bytes each.
#[derive(Drop)]
pub struct Wide {
    items: Vec<Entry>,
}

impl Wide {
    /// Returns the entries, in order.
    pub fn as_slice(&self) -> &[Entry]
        ensures { result.now ≡ self.now.items.items }
    {
        self.items.as_slice()
    }
}

impl Keeper for Wide {
    ghost entries = { λ w. w.items.items };

    ghost room = { λ w. vec_capacity w.items };

    fn with_room(alloc: Global, count: usize) -> Result<Wide, AllocError> {
        let items = Vec::with_capacity(alloc, count)?;
        Ok(Wide { items })
    }

    fn count(&self) -> usize {
        self.items.len()
    }

    #[inline(always)]
    fn keep(&mut self, entry: Entry) {
        self.items.push_reserved(entry);
    }
}

impl Recall for Wide {
    #[inline(always)]
    fn entry(&self, place: usize) -> Entry {
        self.items[place]
    }
}

/// Entries that are only counted: a snapshot has no bytes, and only contracts see its entry.
#[derive(Drop)]
pub struct Unkept {
    seen: Vec<Snapshot<Entry>>,
}

impl Unkept {
    /// Forgets all entries. The room stays.
    pub(crate) fn forget(&mut self)
        ensures items { self.new.seen.items ≡ [] }
        ensures room { vec_capacity self.new.seen ≡ vec_capacity self.old.seen }
    {
        self.seen.clear();
    }
}

impl Keeper for Unkept {
    ghost entries = { λ u. map (λ s. s.value) u.seen.items };

    ghost room = { λ u. vec_capacity u.seen };

    fn with_room(alloc: Global, count: usize) -> Result<Unkept, AllocError> {
        let seen = Vec::with_capacity(alloc, count)?;
        Ok(Unkept { seen })
    }

    fn count(&self) -> usize {
        self.seen.len()
    }

    #[inline(always)]
    fn keep(&mut self, entry: Entry) {
        self.seen.push_reserved(Snapshot::of(&entry));
    }
}
