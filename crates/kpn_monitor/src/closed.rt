//! A closed monitor.
ghost use Rattle.std.specs.Prelude.{◌≡◌};
ghost use Rattle.kpn_model.specs.Families.{family};
ghost use mathlib.Core.List.{IsPrefix};
ghost use Rattle.kpn_watch.specs.Phases.{phase_of};
ghost use Rattle.kpn_watch.specs.Shown.{shows};
ghost use Rattle.kpn_monitor.specs.Kept.{IsClosed, IsShown, SeesAllIfEnded};

use crate::booked::BookedRun;
use crate::monitor::Monitor;
use crate::naming::{EntryLedger, NamedBoard};
use crate::seat::Seat;
use kpn_body::Body;
use kpn_model::Kinds;
use kpn_state::{Keeper, Wide};
use kpn_watch::{CountingPublisher, Progress, Watcher};
use std::marker::Model;
use std::ops::Deref;
use std::sync::ledger::Ledger;

/// Why `close` failed.
#[derive(Clone, Copy, Debug, PartialEq, Eq)]
pub enum CloseFault {
    /// The seats' shares do not add up to the books.
    SeatsMissing = 1,
}

impl CloseFault {
    /// Returns the fault's number, 1.
    pub fn number(&self) -> u8
        ensures { result ≡ 1 }
    {
        match self {
            CloseFault::SeatsMissing => 1,
        }
    }
}

/// What `close` returns if it fails: the monitor and the seats.
#[derive(Drop)]
pub struct Unclosed<B: Body, E: EntryLedger, O: Ledger, H: Keeper = Wide> {
    pub monitor: Monitor<B, E, O, H>,
    pub seats: Vec<Seat<E, O>>,
}

impl<B: Body, E: EntryLedger, O: Ledger, H: Keeper> Unclosed<B, E, O, H> {
    /// Returns why `close` failed.
    pub fn fault(&self) -> CloseFault
        ensures { result ≡ CloseFault.SeatsMissing }
    {
        CloseFault::SeatsMissing
    }
}

/// A closed monitor: what is left of its run, and the board, which shows it. Only `Monitor::close` makes one.
#[derive(Drop)]
pub struct Closed<K: Kinds, E: EntryLedger, H: Keeper = Wide> {
    run: BookedRun<K, H>,
    board: NamedBoard<E>,
    publisher: CountingPublisher,
}

impl<K: Kinds, E: EntryLedger, H: Keeper> Model for Closed<K, E, H> {
    ghost use Rattle.std.specs.Prelude.{◌≡◌};
    ghost use Rattle.kpn_monitor.specs.Views.{ClosedView};
    ghost use Rattle.kpn_monitor.specs.Kept.{IsClosed, IsShown};
    ghost use Rattle.kpn_model.specs.Families.{family};

    ghost Value = { ClosedView };

    ghost view = { λ c. c.run };

    ghost invariant = { λ c. IsClosed (family K.Kinds) K.admits E.net c.run × IsShown E.board c.run.machine c.publisher };
}

impl<K: Kinds, E: EntryLedger, H: Keeper> Deref for Closed<K, E, H> {
    ghost use Rattle.std.specs.Prelude.{◌≡◌};

    type Target = BookedRun<K, H>;

    ghost deref_gives = { λ closed run. run ≡ closed };

    fn deref(&self) -> &BookedRun<K, H> {
        &self.run
    }
}

impl<K: Kinds, E: EntryLedger, H: Keeper> Closed<K, E, H> {
    pub(crate) fn new(
        run: BookedRun<K, H>,
        board: NamedBoard<E>,
        publisher: CountingPublisher,
    ) -> Self
        requires closed { IsClosed (family K.Kinds) K.admits E.net run }
        requires shown { IsShown E.board run.machine publisher }
        ensures { result ≡ run }
    {
        Closed {
            run,
            board,
            publisher,
        }
    }

    /// Consumes a watcher of this monitor, and returns the numbers of entries and growths and how the run
    /// ended. What the watcher saw is a prefix of the history, and all of it if it saw an end. Takes no
    /// memory and never waits.
    pub fn settle(&mut self, watcher: Watcher) -> Progress
        requires { watcher.board ≡ E.board }
        ensures goes_on { IsPrefix watcher.entries self.old.machine.history }
        ensures ended { SeesAllIfEnded watcher.entries watcher.phase self.old.machine }
        ensures shown { result ≡ shows self.old.machine.history (phase_of self.old.machine.end) }
        ensures same { self.new ≡ self.old }
    {
        self.publisher.join(&self.board, watcher)
    }

    /// Returns what is left of the run.
    pub fn into_run(self) -> BookedRun<K, H>
        ensures { result ≡ self }
    {
        let Closed {
            run,
            board: _,
            publisher: _,
        } = self;
        run
    }
}
