//! Callers that wrong bodies edit. A monitor opens only under the names of its own opening, so no seat of
//! another monitor has the type of its seats.
#![tactic(auto)]

ghost use Rattle.std.specs.Prelude.{◌≡◌, ◌≢◌, ◌<◌, ◌≤◌, ◌^◌, length, Some, IfOk};
ghost use mathlib.Core.List.{IsPrefix};
ghost use Rattle.kpn_machine.specs.MachineView.{IsFresh};
ghost use Rattle.kpn_monitor.specs.Views.{AreNamesOf};
ghost use Rattle.kpn_watch.specs.Phases.{phase_of};
ghost use Rattle.kpn_watch.specs.Shown.{shows};
ghost use Rattle.kpn_watch.specs.declared.progress.Phase.TheVariants.{Running};

use kpn_body::Body;
use kpn_machine::Machine;
use kpn_model::{End, Entry};
use kpn_monitor::{EntryLedger, Monitor, Opening, Seat};
use kpn_watch::{Board, CountingPublisher, Progress, Publisher, WatchFault, Watcher};
use std::alloc::Global;
use std::sync::Wait;
use std::sync::ledger::Ledger;

/// What two looks of one watcher returned.
pub struct TwoLooks {
    pub first: Progress,
    pub second: Progress,
}

/// Looks twice and returns both. Neither count falls, and an end stays.
pub fn look_twice(board: &Board, watcher: &mut Watcher) -> TwoLooks
    requires { watcher.old.board ≡ board.now }
    ensures entries { result.first.entries ≤ result.second.entries }
    ensures growths { result.first.growths ≤ result.second.growths }
    ensures ended { result.first.phase ≢ Running → result.second ≡ result.first }
{
    let first = board.look(watcher);
    let second = board.look(watcher);
    TwoLooks { first, second }
}

/// Looks at the first of two boards with a watcher of it.
pub fn look_at_first(first: &Board, _second: &Board, watcher: &mut Watcher) -> Progress
    requires { watcher.old.board ≡ first.now }
{
    first.look(watcher)
}

/// Makes a watcher of the first of two boards, with its publisher. Fails if the board has made 64 watchers.
pub fn watch_first(
    first: &Board,
    _second: &Board,
    publisher: &mut Publisher,
) -> Result<Watcher, WatchFault>
    requires { publisher.old.board ≡ first.now }
{
    first.split(publisher)
}

/// Publishes a history that continues the published one, and then one that continues it, with its end.
pub fn publish_in_two(
    board: &Board,
    publisher: &mut CountingPublisher,
    before: &[Entry],
    all: &[Entry],
    end: End,
)
    requires board { publisher.old.board ≡ board.now }
    requires running { publisher.old.phase ≡ Running }
    requires goes_on { IsPrefix publisher.old.entries before.now × IsPrefix before.now all.now }
    requires short { (length before.now < 2 ^ 22) × (length all.now < 2 ^ 22) }
    ensures { publisher.new ≡ record publisher.old { entries = all.now; phase = phase_of (Some end) } }
{
    publisher.publish(board, before, None);
    publisher.publish(board, all, Some(end));
}

/// A monitor and a seat of it.
#[derive(Drop)]
pub struct Opened<B: Body, E: EntryLedger, O: Ledger> {
    pub monitor: Monitor<B, E, O>,
    pub seat: Seat<E, O>,
}

/// Opens the first of two openings: the types name its network, board and ledgers.
pub fn open_first<B: Body, E: EntryLedger, O: Ledger>(
    first: Opening<B>,
    _second: Opening<B>,
) -> Opened<B, E, O>
    requires names { AreNamesOf E.EntryLedger O.Ledger first }
    ensures { result.seat.parts ≡ 65536 }
{
    let (monitor, seat) = Monitor::open(first);
    Opened { monitor, seat }
}

/// Makes an opening of a fresh machine. Errors: out of memory. Returns the machine.
pub fn open_fresh<B: Body>(alloc: Global, machine: Machine<B>) -> Result<Opening<B>, Machine<B>>
    requires { IsFresh machine }
    ensures { IfOk result (λ o. o.machine ≡ machine) }
{
    Opening::new(alloc, machine)
}

/// Looks at a monitor, and returns how much of the history the watcher has then seen.
pub fn look_at<B: Body, E: EntryLedger, O: Ledger, R: Wait>(
    _rt: &R,
    monitor: &Monitor<B, E, O>,
    watcher: &mut Watcher,
) -> Progress
    requires { watcher.old.board ≡ E.board }
    ensures { result ≡ shows watcher.new.entries watcher.new.phase }
{
    monitor.look(watcher)
}
