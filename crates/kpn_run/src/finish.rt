//! A run that has ended.
ghost use Rattle.std.specs.Prelude.{◌≡◌, Some, IsNone, MatchOption};
ghost use Rattle.kpn_model.specs.Families.{family};
ghost use Rattle.kpn_machine.specs.MachineView.{IsFaithful};
ghost use Rattle.kpn_run.specs.Runs.{IsFinish, IsFinishOf};

use kpn_model::{End, Kinds};
use kpn_monitor::{BookedRun, Closed, EntryLedger};
use kpn_state::{Keeper, Wide};
use std::marker::Model;
use std::ops::Deref;

/// A run that has ended: what its machine left, as many receipts as entries, and the end.
///
/// ```text
/// let net = finish.net();
/// let places = places_of(alloc, net, finish.standings())?;
/// ```
#[derive(Drop)]
pub struct Finish<K: Kinds, H: Keeper = Wide> {
    run: BookedRun<K, H>,
    end: End,
}

impl<K: Kinds, H: Keeper> Model for Finish<K, H> {
    ghost use Rattle.std.specs.Prelude.{◌≡◌, Some};
    ghost use Rattle.kpn_run.specs.Runs.{FinishView};

    ghost Value = { FinishView };

    ghost view = { λ f. record { machine = f.run.machine; receipts = f.run.receipts; cause = f.end } };

    ghost invariant = { λ f. f.run.machine.end ≡ Some f.end };
}

impl<K: Kinds, H: Keeper> Deref for Finish<K, H> {
    ghost use Rattle.std.specs.Prelude.{◌≡◌};

    type Target = BookedRun<K, H>;

    ghost deref_gives = { λ finish run. (run.machine ≡ finish.machine) × (run.receipts ≡ finish.receipts) };

    fn deref(&self) -> &BookedRun<K, H> {
        &self.run
    }
}

impl<K: Kinds, H: Keeper> Finish<K, H> {
    pub(crate) fn of<E: EntryLedger>(closed: Closed<K, E, H>) -> Option<Finish<K, H>>
        ensures { MatchOption result (IsNone closed.machine.end) (IsFinishOf closed) }
    {
        let end = closed.end()?;
        Some(Finish {
            run: closed.into_run(),
            end,
        })
    }

    /// Returns how the run ended. `Terminated`, `Deadlock` and `Ceiling` are justified by the state reached,
    /// `Budget` by the number of entries, `Memory` by a growth that was due.
    ///
    /// ```text
    /// let history = finish.history();
    /// text_of(alloc, net, history, places.as_slice(), finish.end(), show)
    /// ```
    pub fn end(&self) -> End
        ensures end { result ≡ self.now.cause }
        ensures stands { self.now.machine.end ≡ Some self.now.cause }
        ensures faithful { IsFaithful (family K.Kinds) K.admits self.now.machine }
        ensures finish { IsFinish (family K.Kinds) self.now.machine.network self.now }
    {
        self.run.end();
        self.end
    }
}
