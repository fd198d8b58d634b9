//! A run and its receipts.
ghost use Rattle.std.specs.Prelude.{◌≡◌, length};
ghost use Rattle.kpn_model.specs.Families.{family};
ghost use Rattle.kpn_monitor.specs.Kept.{IsClosed};

use kpn_machine::Chronicle;
use kpn_model::{End, Kinds};
use kpn_state::{Keeper, Wide};
use std::marker::Model;
use std::ops::Deref;

/// What is left of a run, ended or not: its machine's network, history, standings and end, and as many
/// receipts as entries. Only `Monitor::close` makes one, so each entry was appended by a commit under the
/// lock.
#[derive(Drop)]
pub struct BookedRun<K: Kinds, H: Keeper = Wide> {
    chronicle: Chronicle<K, H>,
    receipts: u64,
}

impl<K: Kinds, H: Keeper> Model for BookedRun<K, H> {
    ghost use Rattle.std.specs.Prelude.{◌≡◌, length};
    ghost use Rattle.kpn_monitor.specs.Views.{ClosedView};

    ghost Value = { ClosedView };

    ghost view = { λ r. record { machine = r.chronicle; receipts = r.receipts } };

    ghost invariant = { λ r. length r.chronicle.history ≡ r.receipts };
}

impl<K: Kinds, H: Keeper> BookedRun<K, H> {
    pub(crate) fn new(chronicle: Chronicle<K, H>, receipts: u64) -> Self
        requires { length chronicle.history ≡ receipts }
        ensures { result ≡ record { machine = chronicle; receipts = receipts } }
    {
        BookedRun {
            chronicle,
            receipts,
        }
    }

    /// Returns the machine's network, history, standings and end. Its `keeper` has the entries.
    ///
    /// ```text
    /// Ok(finish) => say_told(alloc, finish.chronicle(), channel, sink),
    /// ```
    pub fn chronicle(&self) -> &Chronicle<K, H>
        ensures { result.now ≡ self.now.machine }
    {
        &self.chronicle
    }

    /// Returns the sum of the seats' shares of entries, which is the number of entries.
    ///
    /// ```text
    /// match run(rt, alloc, net, bodies, workers, &Prompt) {
    ///     Ok(finish) => Ok(finish.receipts()),
    ///     Err(_) => Err(AllocError),
    /// }
    /// ```
    pub fn receipts(&self) -> u64
        ensures receipts { result ≡ self.now.receipts }
        ensures entries { result ≡ length self.now.machine.history }
    {
        self.receipts
    }

    /// Returns how the run ended; `None` if it has not, because it was stopped or left before. The history is
    /// a run in each case, and an end is justified.
    ///
    /// ```text
    /// if run.end().is_none() {
    ///     let _ = println!(rt; "stopped before its end");
    /// }
    /// ```
    pub fn end(&self) -> Option<End>
        ensures end { result ≡ self.now.machine.end }
        ensures closed { IsClosed (family K.Kinds) K.admits self.now.machine.network self.now }
    {
        self.chronicle.end()
    }
}

impl<K: Kinds, H: Keeper> Deref for BookedRun<K, H> {
    ghost use Rattle.std.specs.Prelude.{◌≡◌};

    type Target = Chronicle<K, H>;

    ghost deref_gives = { λ run chronicle. chronicle ≡ run.machine };

    fn deref(&self) -> &Chronicle<K, H> {
        &self.chronicle
    }
}
