//! The published word, its publisher, and the watchers.
ghost use Rattle.std.specs.Prelude.{◌≡◌, ◌≢◌, ◌^◌, ◌<◌, ◌↔◌, [], length, IfOk, OnErr, IsErr};
ghost use mathlib.Core.List.{IsPrefix};
ghost use Rattle.kpn_model.specs.History.{growths as growths_of};
ghost use Rattle.kpn_watch.specs.Boards.{MayPublish, shown_by, one_more_watcher, SameIfEnded};
ghost use Rattle.kpn_watch.specs.Shown.{shows};

use crate::progress::{Phase, Progress};
use crate::rule::{Compare, Look, News, Note, Publish, View, WordRule};
use atomic_table::{Seat, Table};
use kpn_model::Entry;
use kpn_state::Keeper;
use std::alloc::{AllocError, Global};
use std::marker::{Brand, Model};

/// The most watchers of a board.
pub const MOST_WATCHERS: u32 = 64;

/// The published word, which shows the progress of a history. Contracts see which board it is.
#[derive(Drop)]
pub struct Board {
    table: Table<(), View, (), WordRule, Global>,
}

impl Model for Board {
    ghost use Rattle.std.specs.Prelude.{◌≡◌};
    ghost use Rattle.atomic_table.specs.Seated.{TableId, table_id_coded};

    ghost Value = { TableId };

    ghost coded = { table_id_coded };

    ghost view = { λ b. b.table.shared.table_id };

    ghost invariant = { λ b. b.table.shared.table_id.words ≡ 1 };
}

/// The right to publish on a board; each board has one. Contracts see its board, the history and phase
/// published last, and how many watchers were made.
#[derive(Drop)]
pub struct Publisher {
    seat: Seat<(), View>,
    watchers: u32,
}

impl Model for Publisher {
    ghost use Rattle.std.specs.Prelude.{◌≡◌, ◌≤◌, []};
    ghost use Rattle.kpn_watch.specs.Boards.{Published};
    ghost use Rattle.kpn_watch.specs.Rule.{nothing};
    ghost use Rattle.kpn_watch.specs.declared.board.TheConstants.{MOST_WATCHERS};

    ghost Value = { Published };

    ghost view = { λ p. record { board = p.seat.table_id; entries = p.seat.me.0.seen.entries; phase = p.seat.me.0.seen.phase; watchers = p.watchers } };

    ghost invariant = { λ p. (p.seat.id ≡ 0) × (p.seat.me.0.note ≡ nothing) × (p.seat.me.1 ≡ []) × (p.watchers ≤ MOST_WATCHERS) };
}

/// A reader of a board. Contracts see its board, and the history and phase that it has seen.
#[derive(Drop)]
pub struct Watcher {
    seat: Seat<(), View>,
}

impl Model for Watcher {
    ghost use Rattle.std.specs.Prelude.{◌≡◌, []};
    ghost use Rattle.kpn_watch.specs.Boards.{Watched};
    ghost use Rattle.kpn_watch.specs.Rule.{nothing};

    ghost Value = { Watched };

    ghost view = { λ w. record { board = w.seat.table_id; entries = w.seat.me.0.seen.entries; phase = w.seat.me.0.seen.phase } };

    ghost invariant = { λ w. (w.seat.me.0.note ≡ nothing) × (w.seat.me.1 ≡ []) };
}

/// Why there is no watcher.
#[derive(Clone, Copy, PartialEq, Eq, Debug)]
pub enum WatchFault {
    /// 64 watchers were made, including those that have ended.
    Full = 1,
}

impl WatchFault {
    /// Returns the number of the fault, 1.
    pub fn number(&self) -> u8
        ensures { result ≡ 1 }
    {
        match self {
            WatchFault::Full => 1,
        }
    }
}

impl Board {
    /// Makes a board with the empty history of a running run, and its publisher. Errors: out of memory.
    pub fn new(alloc: Global) -> Result<(Board, Publisher), AllocError>
        ensures { IfOk result (λ r. r.1 ≡ record { board = r.0; entries = []; phase = Phase.Running; watchers = 0 }) }
    {
        let (table, seat) = Table::of_words(alloc, &[0], &())?;
        Ok((Board { table }, Publisher { seat, watchers: 0 }))
    }

    /// Publishes a history, its number of growths and its phase with one store. The publisher must be this
    /// board's. The history must continue the published one, and have fewer than 2^22 entries. If that had
    /// ended, history and phase must be the same.
    pub fn publish(&self, publisher: &mut Publisher, history: &[Entry], growths: u32, phase: Phase)
        requires may { MayPublish publisher.old self.now history.now phase }
        requires counted { growths ≡ length (growths_of history.now) }
        ensures { publisher.new ≡ record publisher.old { entries = history.now; phase = phase } }
    {
        let progress = Progress {
            entries: history.len() as u32,
            growths,
            phase,
        };
        self.publish_as::<Brand, &[Entry]>(publisher, history, progress);
    }

    /// Publishes kept entries, their number of growths and their phase with one store, like `publish`. The
    /// publisher must be this board's. The entries must continue the published ones, and be fewer than 2^22.
    /// If those had ended, entries and phase must be the same.
    pub fn publish_kept<H: Keeper>(
        &self,
        publisher: &mut Publisher,
        kept: &H,
        growths: u32,
        phase: Phase,
    )
        requires may { MayPublish publisher.old self.now (H.entries kept.now) phase }
        requires counted { growths ≡ length (growths_of (H.entries kept.now)) }
        ensures { publisher.new ≡ record publisher.old { entries = H.entries kept.now; phase = phase } }
    {
        let progress = Progress {
            entries: kept.count() as u32,
            growths,
            phase,
        };
        self.publish_as::<Brand, &H>(publisher, kept, progress);
    }

    // A step's `Play` sees no argument: the type N, chosen from `_from`, carries what to publish.
    fn publish_as<N: News, T: Copy>(&self, publisher: &mut Publisher, _from: T, progress: Progress)
        requires may { MayPublish publisher.old self.now N.news.entries N.news.phase }
        requires shown { progress ≡ shows N.news.entries N.news.phase }
        ensures { publisher.new ≡ record publisher.old { entries = N.news.entries; phase = N.news.phase } }
    {
        let word = progress.to_word();
        self.table
            .shared
            .store::<Publish<N>>(&mut publisher.seat, 0, word);
    }

    /// Makes a watcher that has seen what is published. The publisher must be this board's. Fails exactly if
    /// 64 were made before; nothing changes then.
    pub fn split(&self, publisher: &mut Publisher) -> Result<Watcher, WatchFault>
        requires { publisher.old.board ≡ self.now }
        ensures seen { IfOk result (λ w. w ≡ shown_by publisher.old) }
        ensures made { IfOk result (λ _. publisher.new ≡ one_more_watcher publisher.old) }
        ensures full { IsErr result ↔ (publisher.old.watchers ≡ MOST_WATCHERS) }
        ensures kept { OnErr result (publisher.new ≡ publisher.old) }
    {
        if publisher.watchers == MOST_WATCHERS {
            return Err(WatchFault::Full);
        }
        publisher.watchers += 1;
        let seat = self.table.shared.split_seat::<Note>(&mut publisher.seat);
        Ok(Watcher { seat })
    }

    /// Shows the watcher what is published, with one load, and returns its numbers. The history continues the
    /// one seen before, and equals it if that had ended. The watcher must be this board's. Takes no lock and
    /// no memory, and never waits.
    pub fn look(&self, watcher: &mut Watcher) -> Progress
        requires { watcher.old.board ≡ self.now }
        ensures board { watcher.new.board ≡ watcher.old.board }
        ensures goes_on { IsPrefix watcher.old.entries watcher.new.entries }
        ensures ended { watcher.old.phase ≢ Phase.Running → watcher.new ≡ watcher.old }
        ensures shown { result ≡ shows watcher.new.entries watcher.new.phase }
    {
        let word = self.table.shared.load::<Look>(&mut watcher.seat, 0);
        Progress::of_word(word)
    }

    /// Ends a watcher of this board. What is published continues what it saw, and equals it after an end.
    pub fn join(&self, watcher: Watcher, publisher: &mut Publisher)
        requires watcher { watcher.board ≡ self.now }
        requires publisher { publisher.old.board ≡ self.now }
        ensures goes_on { IsPrefix watcher.entries publisher.old.entries }
        ensures ended { SameIfEnded watcher.entries watcher.phase publisher.old.entries publisher.old.phase }
        ensures kept { publisher.new ≡ publisher.old }
    {
        let Watcher { seat } = watcher;
        self.table
            .shared
            .join_seat::<Note>(&mut publisher.seat, seat);
        self.table.shared.load::<Compare>(&mut publisher.seat, 0);
    }
}
