//! The workers of a run.
ghost use Rattle.std.specs.Prelude.{◌≡◌, ◌<◌, ◌≤◌, false, IfOk, IfErr, IsSome};
ghost use Rattle.std.specs.List.{All};
ghost use Rattle.kpn_model.specs.Families.{family};
ghost use Rattle.kpn_machine.specs.MachineView.{IsFresh};
ghost use Rattle.kpn_monitor.specs.Views.{AreNamesOf};
ghost use Rattle.kpn_monitor.specs.Kept.{IsClosed};
ghost use Rattle.kpn_run.specs.Runs.{AtSlot, HasMet};

use crate::gate::Gate;
use crate::slot::{WorkerSlot, hands_for, leave_all, seat_all, work_all};
use crate::starting::WorkerCount;
use crate::stop_signal::{Orders, StopSignal};
use kpn_body::{Body, Finished};
use kpn_machine::Machine;
use kpn_monitor::{Closed, EntryLedger, Monitor, Opening, Seat};
use kpn_state::Keeper;
use std::alloc::Global;
use std::marker::Model;
use std::rt::Clock;
use std::sync::Wait;
use std::sync::ledger::Ledger;
use std::thread::Threads;

/// The workers of a run. Their seats have all parts; `seats` is room for them when the workers leave.
#[derive(Drop)]
pub struct Workforce<B: Body, E: EntryLedger, O: Ledger> {
    slots: Vec<WorkerSlot<B, E, O>>,
    seats: Vec<Seat<E, O>>,
}

impl<B: Body, E: EntryLedger, O: Ledger> Model for Workforce<B, E, O> {
    ghost use Rattle.std.specs.Prelude.{◌≡◌, ◌<◌, ◌≤◌, List, [], length, vec_capacity};
    ghost use Rattle.std.specs.List.{sum_by};
    ghost use Rattle.kpn_run.specs.Runs.{AtSlot};

    ghost Value = { List AtSlot };

    ghost view = { λ w. w.slots.items };

    ghost invariant = { λ w. (sum_by (λ (b : AtSlot). b.seat.parts) w.slots.items ≡ 65536) × (0 < length w.slots.items) × (length w.slots.items ≤ vec_capacity w.seats) × (w.seats.items ≡ []) };
}

/// Opens the monitor of a run and seats its workers. Takes all the memory they need.
///
/// Errors: out of memory. Returns the machine unchanged.
pub fn seat_workers<
    B: Body,
    H: Keeper,
    E: EntryLedger + Send + Sync,
    O: Ledger + Send + Sync,
    R: Threads,
>(
    rt: &R,
    alloc: Global,
    opening: Opening<B, H>,
    workers: WorkerCount,
) -> Result<(Monitor<B, E, O, H>, Workforce<B, E, O>), Machine<B, H>>
    requires { AreNamesOf E.EntryLedger O.Ledger opening }
    ensures fresh { IfErr result IsFresh }
    ensures back { IfErr result (λ m. m ≡ opening.machine) }
{
    let workers = workers.get();
    let Ok(mut slots) = Vec::with_capacity(alloc, workers) else {
        return Err(opening.into_machine());
    };
    let Ok(seats) = Vec::with_capacity(alloc, workers) else {
        return Err(opening.into_machine());
    };
    let Ok(hands) = hands_for(rt, alloc, workers) else {
        return Err(opening.into_machine());
    };
    let (monitor, seat) = Monitor::<B, E, O, H>::open(opening);
    seat_all(seat, workers, hands, &mut slots);
    Ok((monitor, Workforce { slots, seats }))
}

impl<B: Body, E: EntryLedger + Send + Sync, O: Ledger + Send + Sync> Workforce<B, E, O> {
    /// Has all workers work until the run has ended, each has had an answer refused, or they should stop. The
    /// calling thread is one worker, and does the work of each thread that can't be started.
    pub fn work<H: Keeper + Send, R: Wait + Clock + Threads + Sync, G: Gate, S: StopSignal>(
        &mut self,
        rt: &R,
        monitor: &Monitor<B, E, O, H>,
        orders: &Orders<G, S>,
    )
        ensures met { S.may_stop ≡ false → All HasMet self.new }
    {
        work_all(rt, monitor, orders, &mut self.slots);
    }

    /// Takes the seats back and closes the monitor.
    ///
    /// Errors: the machine did not ask for a worker's answer. Returns the answer.
    pub fn close<H: Keeper>(
        self,
        monitor: Monitor<B, E, O, H>,
    ) -> Result<Closed<B::Kinds, E, H>, Finished<B>>
        ensures closed { IfOk result (IsClosed (family B.Kinds.Kinds) B.Kinds.admits E.net) }
        ensures ended { All HasMet self → IfOk result (λ c. IsSome c.machine.end) }
    {
        let Workforce { slots, mut seats } = self;
        if let Some(finished) = leave_all(slots, &mut seats) {
            return Err(finished);
        }
        match monitor.close(seats) {
            Ok(closed) => Ok(closed),
            Err(_) => unreachable!(),
        }
    }
}
