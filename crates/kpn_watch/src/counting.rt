//! A publisher that keeps the numbers of what it published last.
ghost use Rattle.std.specs.Prelude.{◌≡◌, ◌^◌, ◌<◌, ◌↔◌, [], length, count_by, IfOk, IsErr, OnErr};
ghost use mathlib.Core.List.{IsPrefix};
ghost use Rattle.kpn_model.specs.History.{growths as growths_of};
ghost use Rattle.kpn_watch.specs.Boards.{MayPublish, shown_by, one_more_watcher, SameIfEnded};
ghost use Rattle.kpn_watch.specs.Phases.{phase_of};
ghost use Rattle.kpn_watch.specs.Shown.{shows, is_growth};

use crate::board::{Board, MOST_WATCHERS, Publisher, WatchFault, Watcher};
use crate::progress::{Phase, Progress};
use kpn_model::{End, Entry};
use kpn_state::Keeper;
use std::marker::Model;

/// A publisher that keeps the numbers of entries and growths published last, so that `publish` counts only new
/// entries. Contracts see it as the publisher.
#[derive(Drop)]
pub struct CountingPublisher {
    publisher: Publisher,
    entries: usize,
    growths: u32,
    phase: Phase,
}

impl Model for CountingPublisher {
    ghost use Rattle.std.specs.Prelude.{◌≡◌, ◌^◌, ◌<◌, length};
    ghost use Rattle.kpn_model.specs.History.{growths as growths_of};
    ghost use Rattle.kpn_watch.specs.Boards.{Published};

    ghost Value = { Published };

    ghost view = { λ p. p.publisher };

    ghost invariant = { λ p. (p.entries ≡ length p.publisher.entries) × (p.growths ≡ length (growths_of p.publisher.entries)) × (p.phase ≡ p.publisher.phase) × (length p.publisher.entries < 2 ^ 22) };
}

fn growths_in(entries: &[Entry]) -> usize
    ensures { result ≡ count_by is_growth entries.now }
{
    entries
        .iter()
        .filter(|entry| matches!(entry, Entry::Grew { .. }))
        .count()
}

impl CountingPublisher {
    /// Makes the counting publisher of a board with the empty history.
    pub fn new(publisher: Publisher) -> CountingPublisher
        requires { (publisher.entries ≡ []) × (publisher.phase ≡ Phase.Running) }
        ensures { result ≡ publisher }
    {
        CountingPublisher {
            publisher,
            entries: 0,
            growths: 0,
            phase: Phase::Running,
        }
    }

    /// Publishes a history and its end, if any, on the publisher's board. The history must continue the
    /// published one, and have fewer than 2^22 entries. If that had ended, history and end must be the same.
    pub fn publish(&mut self, board: &Board, history: &[Entry], ended: Option<End>)
        requires { MayPublish self.old board.now history.now (phase_of ended) }
        ensures { self.new ≡ record self.old { entries = history.now; phase = phase_of ended } }
    {
        let more = growths_in(&history[self.entries..]);
        let growths = self.growths as usize + more;
        self.growths = growths as u32;
        self.entries = history.len();
        self.phase = Phase::of_end(ended);
        board.publish(&mut self.publisher, history, self.growths, self.phase);
    }

    /// Publishes kept entries and their end, if any, like `publish`, with a known number of growths, in constant
    /// time.
    pub fn publish_kept<H: Keeper>(
        &mut self,
        board: &Board,
        kept: &H,
        growths: usize,
        ended: Option<End>,
    )
        requires may { MayPublish self.old board.now (H.entries kept.now) (phase_of ended) }
        requires counted { growths ≡ length (growths_of (H.entries kept.now)) }
        ensures { self.new ≡ record self.old { entries = H.entries kept.now; phase = phase_of ended } }
    {
        let entries = kept.count();
        let growths = growths as u32;
        let phase = Phase::of_end(ended);
        board.publish_kept(&mut self.publisher, kept, growths, phase);
        self.entries = entries;
        self.growths = growths;
        self.phase = phase;
    }

    /// Makes a watcher that has seen what is published. Fails exactly if 64 were made; nothing changes then.
    pub fn watch(&mut self, board: &Board) -> Result<Watcher, WatchFault>
        requires { self.old.board ≡ board.now }
        ensures seen { IfOk result (λ w. w ≡ shown_by self.old) }
        ensures made { IfOk result (λ _. self.new ≡ one_more_watcher self.old) }
        ensures full { IsErr result ↔ (self.old.watchers ≡ MOST_WATCHERS) }
        ensures kept { OnErr result (self.new ≡ self.old) }
    {
        board.split(&mut self.publisher)
    }

    /// Ends a watcher of the publisher's board, and returns what is published. The history continues what the
    /// watcher saw, and equals it if the watcher saw an end.
    pub fn join(&mut self, board: &Board, watcher: Watcher) -> Progress
        requires board { self.old.board ≡ board.now }
        requires watcher { watcher.board ≡ board.now }
        ensures goes_on { IsPrefix watcher.entries self.old.entries }
        ensures ended { SameIfEnded watcher.entries watcher.phase self.old.entries self.old.phase }
        ensures shown { result ≡ shows self.old.entries self.old.phase }
        ensures kept { self.new ≡ self.old }
    {
        board.join(watcher, &mut self.publisher);
        Progress {
            entries: self.entries as u32,
            growths: self.growths,
            phase: self.phase,
        }
    }
}
