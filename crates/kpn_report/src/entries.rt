//! Entries of a history, as reports read them.
ghost use Rattle.std.specs.Prelude.{◌≡◌, ◌<◌, IfSome, List, get_or, length};
ghost use Rattle.kpn_report.specs.Tally.{IsCountOf};

use crate::tallied::Tallied;
use kpn_model::Entry;
use kpn_state::{Keeper, Packed, Recall, Wide};

/// The entries of a history, with their counts if they were counted while they were kept.
pub trait Entries {
    ghost use Rattle.std.specs.Prelude.{List};
    ghost use Rattle.kpn_model.specs.declared.history.Entry.{Entry};

    ghost entries: { Self → List Entry };

    /// Returns the number of entries.
    fn count(&self) -> usize
        ensures { IsCountOf (entries self.now) result };

    /// Returns the entry at a place, counted from 0.
    fn entry(&self, place: usize) -> Entry
        requires { place < length (entries self.now) }
        ensures { (d : Entry) → get_or (entries self.now) place d ≡ result };

    /// Returns the entries with their counts; `None` if they were not counted.
    fn tallied(&self) -> Option<&Tallied>
        ensures { IfSome result (λ t. t.now.entries ≡ entries self.now) };
}

#[derive(Clone, Copy)]
pub(crate) struct Slice<'a> {
    pub(crate) history: &'a [Entry],
}

impl<'a> Entries for Slice<'a> {
    ghost entries = { λ s. s.history.now };

    fn count(&self) -> usize {
        self.history.len()
    }

    #[inline(always)]
    fn entry(&self, place: usize) -> Entry {
        self.history[place]
    }

    fn tallied(&self) -> Option<&Tallied> {
        None
    }
}

impl Entries for Wide {
    ghost entries = { λ w. w.items.items };

    fn count(&self) -> usize {
        self.as_slice().len()
    }

    #[inline(always)]
    fn entry(&self, place: usize) -> Entry {
        self.as_slice()[place]
    }

    fn tallied(&self) -> Option<&Tallied> {
        None
    }
}

impl Entries for Packed {
    ghost use Rattle.kpn_state.specs.Packed.{unpacked};
    ghost use Rattle.std.specs.Prelude.{map};

    ghost entries = { λ p. map unpacked p.items.items };

    fn count(&self) -> usize {
        Keeper::count(self)
    }

    #[inline(always)]
    fn entry(&self, place: usize) -> Entry {
        Recall::entry(self, place)
    }

    fn tallied(&self) -> Option<&Tallied> {
        None
    }
}
