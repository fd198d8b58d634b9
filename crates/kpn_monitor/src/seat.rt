//! A worker's share of the ledgers.
ghost use Rattle.std.specs.Prelude.{◌≡◌, ◌+◌, ◌<◌, ◌≤◌, ◌^◌, [], true, false, MatchOption, IfNone, IfSome};
ghost use Rattle.kpn_monitor.specs.Views.{Shares, AreEmptyShares, SplitsOff, all_parts, all_entries, all_overs, HoldsEntries, HoldsOvers};

use crate::naming::EntryLedger;
use std::marker::Model;
use std::sync::ledger::{Book, Ledger, Share};

/// A share of each ledger (of entries and of overs), and some of their 65,536 parts. It can't be copied.
/// Contracts see these three numbers.
#[derive(Drop)]
pub struct Seat<E: EntryLedger, O: Ledger> {
    parts: u32,
    entries: u64,
    overs: u64,
    entry_share: Share<E>,
    over_share: Share<O>,
}

impl<E: EntryLedger, O: Ledger> Model for Seat<E, O> {
    ghost use Rattle.std.specs.Prelude.{◌≡◌, ◌<◌, ◌≤◌};
    ghost use Rattle.kpn_monitor.specs.Views.{Shares};

    ghost Value = { Shares };

    ghost view = { λ s. record { parts = s.parts; entries = s.entries; overs = s.overs } };

    ghost invariant = { λ s. (0 < s.parts) × (s.overs ≤ 1) × (s.entry_share.parts ≡ s.parts) × (s.entry_share.amount ≡ s.entries) × (s.over_share.parts ≡ s.parts) × (s.over_share.amount ≡ s.overs) };
}

impl<E: EntryLedger, O: Ledger> Seat<E, O> {
    pub(crate) fn whole(parts: u32, entry_share: Share<E>, over_share: Share<O>) -> Seat<E, O>
        requires { AreEmptyShares parts entry_share.parts entry_share.amount over_share.parts over_share.amount }
        ensures { result ≡ record { parts = parts; entries = 0; overs = 0 } }
    {
        Seat {
            parts,
            entries: 0,
            overs: 0,
            entry_share,
            over_share,
        }
    }

    /// Splits off a seat of one part with empty shares; returns `None` exactly if only one part is left.
    /// Takes no lock.
    pub fn split(&mut self) -> Option<Seat<E, O>>
        ensures { MatchOption result ((self.old.parts ≡ 1) × (self.new ≡ self.old)) (SplitsOff self.old self.new) }
    {
        if self.parts == 1 {
            return None;
        }
        let entry_share = self.entry_share.split_off(1, 0);
        let over_share = self.over_share.split_off(1, 0);
        self.parts -= 1;
        Some(Seat::whole(1, entry_share, over_share))
    }

    fn numbers(&self) -> (u32, u64, u64)
        ensures { (result.0 ≡ self.now.parts) × (result.1 ≡ self.now.entries) × (result.2 ≡ self.now.overs) }
    {
        (self.parts, self.entries, self.overs)
    }

    fn into_shares(self) -> (Share<E>, Share<O>)
        ensures entries { (result.0.parts ≡ self.parts) × (result.0.amount ≡ self.entries) }
        ensures overs { (result.1.parts ≡ self.parts) × (result.1.amount ≡ self.overs) }
    {
        let Seat {
            parts: _,
            entries: _,
            overs: _,
            entry_share,
            over_share,
        } = self;
        (entry_share, over_share)
    }

    pub(crate) fn add_entries(&mut self, book: &mut Book<E>, count: u64)
        requires { book.old.total + count < 2 ^ 64 }
        ensures seat { self.new ≡ record self.old { entries = self.old.entries + count } }
        ensures book { book.new.total ≡ book.old.total + count }
    {
        book.audit(&mut self.entry_share);
        book.add(&mut self.entry_share, count);
        self.entries += count;
    }

    /// Books that the seat has met the end, once per seat. Returns false if the book is full.
    pub(crate) fn meet_end(&mut self, book: &mut Book<O>, overs: &mut u64) -> bool
        requires { book.old.total ≡ overs.old }
        ensures book { book.new.total ≡ overs.new }
        ensures met { result ≡ true → self.new ≡ record self.old { overs = 1 } }
        ensures full { result ≡ false → (self.new ≡ self.old) × (overs.new ≡ overs.old) }
    {
        if self.overs == 1 {
            return true;
        }
        if *overs == u64::MAX {
            return false;
        }
        book.add(&mut self.over_share, 1);
        self.overs = 1;
        *overs += 1;
        true
    }
}

pub(crate) fn totals_of<E: EntryLedger, O: Ledger>(seats: &[Seat<E, O>]) -> (u128, u128, u128)
    ensures parts { result.0 ≡ all_parts seats.now }
    ensures entries { result.1 ≡ all_entries seats.now }
    ensures overs { result.2 ≡ all_overs seats.now }
{
    let (mut parts, mut entries, mut overs) = (0u128, 0u128, 0u128);
    for seat in seats {
        let (own_parts, own_entries, own_overs) = seat.numbers();
        parts += u128::from(own_parts);
        entries += u128::from(own_entries);
        overs += u128::from(own_overs);
    }
    (parts, entries, overs)
}

pub(crate) fn merge<E: EntryLedger, O: Ledger>(
    mut seats: Vec<Seat<E, O>>,
) -> Option<(Share<E>, Share<O>)>
    ensures none { IfNone result (seats.items ≡ []) }
    ensures entries { IfSome result (λ r. HoldsEntries r.0.parts r.0.amount seats.items) }
    ensures overs { IfSome result (λ r. HoldsOvers r.1.parts r.1.amount seats.items) }
{
    let (mut entries, mut overs) = seats.pop()?.into_shares();
    while let Some(seat) = seats.pop() {
        let (more_entries, more_overs) = seat.into_shares();
        entries.merge(more_entries);
        overs.merge(more_overs);
    }
    Some((entries, overs))
}
