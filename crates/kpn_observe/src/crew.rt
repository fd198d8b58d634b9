//! Runs by threads of the caller's own.
ghost use Rattle.std.specs.Prelude.{◌≡◌, ◌+◌, ◌<◌, ◌≤◌, [], length, map, vec_capacity, Ok, IfOk, IfErr, IfNone, OnOk};
ghost use Rattle.kpn_model.specs.Families.{family};
ghost use Rattle.kpn_machine.specs.Opening.{cards_of};
ghost use Rattle.kpn_monitor.specs.Views.{AreNamesOf, Shares, all_parts};
ghost use Rattle.kpn_monitor.specs.Kept.{IsClosed};
ghost use Rattle.kpn_monitor.specs.Hands.{BooksAnswer, Receives};
ghost use Rattle.kpn_run.specs.Runs.{IsWatchedRun};
ghost use Rattle.kpn_run.specs.Refusals.{IsHandedBack, LacksMemory};

use crate::WatchedRun;
use kpn_body::{Body, Finished};
use kpn_machine::{OpenRefused, Outcome, Stranger};
use kpn_monitor::{EntryLedger, Monitor, Opening, Seat, Taken};
use kpn_network::Net;
use kpn_run::laws::told_by_laws;
use kpn_run::starting::{no_memory, opening_of};
use kpn_run::{Gate, work_with};
use kpn_state::Wide;
use std::alloc::Global;
use std::marker::{Brand, Model};
use std::sync::Wait;
use std::sync::ledger::Ledger;
use std::thread::{Threads, for_each_mut};

/// A seat of a run by a crew: one part of each ledger of its monitor, lent, so that a crew can't lose it.
#[derive(Drop)]
pub struct CrewSeat<E: EntryLedger, O: Ledger> {
    seat: Seat<E, O>,
}

impl<E: EntryLedger, O: Ledger> Model for CrewSeat<E, O> {
    ghost use Rattle.std.specs.Prelude.{◌≡◌};
    ghost use Rattle.kpn_monitor.specs.Views.{Shares};

    ghost Value = { Shares };

    ghost view = { λ c. c.seat };

    ghost invariant = { λ c. c.seat.parts ≡ 1 };
}

impl<E: EntryLedger, O: Ledger> CrewSeat<E, O> {
    fn new(seat: Seat<E, O>) -> CrewSeat<E, O>
        requires { seat.parts ≡ 1 }
        ensures { result ≡ seat }
    {
        CrewSeat { seat }
    }

    fn leave(self) -> Seat<E, O>
        ensures { (result ≡ self) × (result.parts ≡ 1) }
    {
        let CrewSeat { seat } = self;
        seat
    }

    /// Takes a process out as a task, or returns the end of the run (`Monitor::take`), whichever comes first.
    /// A dropped task leaves its process out for good.
    ///
    /// ```text
    /// for _ in self.rt.forever() {
    ///     let Taken::Task(task) = seat.take(self.rt, monitor) else {
    ///         return;
    ///     };
    ///     match seat.commit(self.rt, monitor, task.call()) {
    ///         Ok(outcome) => self.count(outcome),
    ///         Err(_) => return,
    ///     }
    /// }
    /// ```
    pub fn take<B: Body, R: Wait>(&mut self, rt: &R, monitor: &Monitor<B, E, O>) -> Taken<B>
        ensures { Receives (family B.Kinds.Kinds) B.Kinds.admits E.net self.old self.new result }
    {
        monitor.take(rt, &mut self.seat)
    }

    /// Commits an answer (`Monitor::commit`). The seat need not be the one that took the task.
    ///
    /// Errors: the machine did not ask for this answer. Returns it, and leaves the seat unchanged.
    ///
    /// ```text
    /// match seat.commit(self.rt, monitor, task.call()) {
    ///     Ok(outcome) => self.count(outcome),
    ///     Err(_) => return,
    /// }
    /// ```
    pub fn commit<B: Body, R: Wait>(
        &mut self,
        rt: &R,
        monitor: &Monitor<B, E, O>,
        finished: Finished<B>,
    ) -> Result<Outcome, Stranger<B>>
        ensures { BooksAnswer (family B.Kinds.Kinds) B.Kinds.admits E.net finished self.old self.new result }
    {
        monitor.commit(rt, finished, &mut self.seat)
    }

    /// Takes a task, calls it, calls the gate and commits the answer, until the run has ended or an answer is
    /// refused. Returns the refused answer; if there is none, the seat has met the end. May wait for other
    /// threads.
    ///
    /// ```text
    /// let refused: Option<Finished<CardBody<Standard>>> = seat.work(self.rt, monitor, &Open);
    /// ```
    pub fn work<B: Body, R: Wait, G: Gate>(
        &mut self,
        rt: &R,
        monitor: &Monitor<B, E, O>,
        gate: &G,
    ) -> Option<Finished<B>>
        ensures over { IfNone result (self.new.overs ≡ 1) }
    {
        work_with(rt, monitor, &mut self.seat, gate)
    }
}

/// All seats of a run by a crew: the crew's, the one with the remaining parts, and room for all of them when
/// the crew is done.
#[derive(Drop)]
struct CrewSeats<E: EntryLedger, O: Ledger> {
    crewed: Vec<CrewSeat<E, O>>,
    rest: Seat<E, O>,
    room: Vec<Seat<E, O>>,
}

/// What the caller's own threads do. The type of their monitor names the run (`E` and `O`), so the method is
/// generic over the names.
///
/// ```text
/// impl<'a, R: Wait + Eprint + Sync> Crew<CardBody<Standard>> for Counting<'a, R> {
///     fn work<E: EntryLedger, O: Ledger>(
///         &self,
///         monitor: &Monitor<CardBody<Standard>, E, O>,
///         seat: &mut CrewSeat<E, O>,
///     ) {
///         for _ in self.rt.forever() {
///             let Taken::Task(task) = seat.take(self.rt, monitor) else {
///                 return;
///             };
///             match seat.commit(self.rt, monitor, task.call()) {
///                 Ok(outcome) => self.count(outcome),
///                 Err(_) => return,
///             }
///         }
///     }
/// }
/// ```
pub trait Crew<B: Body>: Sync {
    /// Called once in each thread, with its seat. May return before the end of the run.
    fn work<E: EntryLedger, O: Ledger>(
        &self,
        monitor: &Monitor<B, E, O>,
        seat: &mut CrewSeat<E, O>,
    );
}

/// Runs a network from its start with `seats` threads that do what `crew` says, and a body for each process,
/// in order. The calling thread is one, and does the work of each that can't be started.
///
/// The crew may take tasks, ask bodies and commit answers in any way, pause, and leave early. The run keeps
/// all promises of [`run_watched`](crate::run_watched) (`run`; Kahn 1974, Parks 1995).
///
/// Errors: the bodies are not one for each process, with its card (`Bodies`, `Card`): returns the network and
/// bodies unchanged. Out of memory (`Memory`): returns the network and bodies with the same cards. Nothing
/// has run.
///
/// ```text
/// let Ok(run) = run_by_crew(rt, alloc, net, bodies, 3, &crew) else {
///     return Err(AllocError);
/// };
/// ```
pub fn run_by_crew<B: Body, R: Threads + Sync, C: Crew<B>>(
    rt: &R,
    alloc: Global,
    net: Net<B::Kinds>,
    bodies: Vec<B>,
    seats: u16,
    crew: &C,
) -> Result<WatchedRun<B::Kinds>, OpenRefused<B>>
    ensures run { IfOk result (IsWatchedRun (family B.Kinds.Kinds) B.Kinds.admits net) }
    ensures cards { OnOk result (map B.card bodies.items ≡ cards_of net.processes) }
    ensures refused { IfErr result (IsHandedBack B.card net bodies.items) }
{
    let opening = opening_of::<B, Wide>(alloc, net, bodies)?;
    let ran = run_named::<B, Brand, Brand, R, C>(rt, alloc, opening, seats, crew)?;
    told_by_laws(&ran);
    Ok(ran)
}

/// Generic over the ledgers, so that a call with `Brand` names them.
fn run_named<
    B: Body,
    E: EntryLedger + Send + Sync,
    O: Ledger + Send + Sync,
    R: Threads + Sync,
    C: Crew<B>,
>(
    rt: &R,
    alloc: Global,
    opening: Opening<B>,
    seats: u16,
    crew: &C,
) -> Result<WatchedRun<B::Kinds>, OpenRefused<B>>
    requires names { AreNamesOf E.EntryLedger O.Ledger opening }
    ensures closed { IfOk result (IsClosed (family B.Kinds.Kinds) B.Kinds.admits E.net) }
    ensures refused { IfErr result (LacksMemory B.card opening.machine.network) }
{
    let count = usize::from(seats);
    let Ok(crewed) = Vec::with_capacity(alloc, count) else {
        return Err(no_memory(opening.into_machine()));
    };
    let Ok(all) = Vec::with_capacity(alloc, count + 1) else {
        return Err(no_memory(opening.into_machine()));
    };
    let (monitor, mut rest) = Monitor::<B, E, O>::open(opening);
    let mut crewed = crewed;
    split_all(&mut rest, count, &mut crewed);
    let seats = CrewSeats {
        crewed,
        rest,
        room: all,
    };
    Ok(run_seated(rt, monitor, seats, crew))
}

fn split_all<E: EntryLedger, O: Ledger>(
    rest: &mut Seat<E, O>,
    count: usize,
    seats: &mut Vec<CrewSeat<E, O>>,
)
    requires room { (seats.old.items ≡ []) × (count ≤ vec_capacity seats.old) }
    ensures parts { length seats.new.items + rest.new.parts ≡ rest.old.parts }
    ensures count { length seats.new.items ≤ count }
{
    for _i in 0..count {
        split_one(rest, seats);
    }
}

// Does nothing if only one part is left.
fn split_one<E: EntryLedger, O: Ledger>(rest: &mut Seat<E, O>, seats: &mut Vec<CrewSeat<E, O>>)
    requires room { length seats.old.items < vec_capacity seats.old }
    ensures parts { length seats.new.items + rest.new.parts ≡ length seats.old.items + rest.old.parts }
    ensures count { length seats.new.items ≤ length seats.old.items + 1 }
    ensures room { vec_capacity seats.new ≡ vec_capacity seats.old }
{
    if let Some(seat) = rest.split() {
        seats.push_reserved(CrewSeat::new(seat));
    }
}

fn run_seated<
    B: Body,
    E: EntryLedger + Send + Sync,
    O: Ledger + Send + Sync,
    R: Threads + Sync,
    C: Crew<B>,
>(rt: &R, monitor: Monitor<B, E, O>, seats: CrewSeats<E, O>, crew: &C) -> WatchedRun<B::Kinds>
    requires parts { length seats.crewed.items + seats.rest.parts ≡ 65536 }
    requires room { (seats.room.items ≡ []) × (length seats.crewed.items < vec_capacity seats.room) }
    ensures { IsClosed (family B.Kinds.Kinds) B.Kinds.admits E.net result }
{
    let CrewSeats {
        mut crewed,
        rest,
        room,
    } = seats;
    work_all(rt, &monitor, &mut crewed, crew);
    let mut seats = room;
    gather(rest, crewed, &mut seats);
    match monitor.close(seats) {
        Ok(closed) => closed.into_run(),
        Err(_) => unreachable!(),
    }
}

fn work_all<
    B: Body,
    E: EntryLedger + Send + Sync,
    O: Ledger + Send + Sync,
    R: Threads + Sync,
    C: Crew<B>,
>(rt: &R, monitor: &Monitor<B, E, O>, crewed: &mut Vec<CrewSeat<E, O>>, crew: &C)
    ensures { length crewed.new.items ≡ length crewed.old.items }
{
    work_each(rt, monitor, crewed.as_mut_slice(), crew);
}

fn work_each<
    B: Body,
    E: EntryLedger + Send + Sync,
    O: Ledger + Send + Sync,
    R: Threads + Sync,
    C: Crew<B>,
>(rt: &R, monitor: &Monitor<B, E, O>, seats: &mut [CrewSeat<E, O>], crew: &C) {
    let threads = seats.len().max(1);
    for_each_mut(rt, seats, threads, &|_, seat| crew.work(monitor, seat));
}

/// Adds the seat with the remaining parts, and the crew's.
fn gather<E: EntryLedger, O: Ledger>(
    rest: Seat<E, O>,
    crewed: Vec<CrewSeat<E, O>>,
    seats: &mut Vec<Seat<E, O>>,
)
    requires { (seats.old.items ≡ []) × (length crewed.items < vec_capacity seats.old) }
    ensures { all_parts seats.new.items ≡ rest.parts + length crewed.items }
{
    seats.push_reserved(rest);
    leave_all(crewed, seats);
}

fn leave_all<E: EntryLedger, O: Ledger>(
    mut crewed: Vec<CrewSeat<E, O>>,
    seats: &mut Vec<Seat<E, O>>,
)
    requires { length crewed.items + length seats.old.items ≤ vec_capacity seats.old }
    ensures { all_parts seats.new.items ≡ all_parts seats.old.items + length crewed.items }
{
    while let Some(seat) = crewed.pop() {
        seats.push_reserved(seat.leave());
    }
}
