//! The seats of a run's workers.
ghost use Rattle.std.specs.Prelude.{◌≡◌, ◌+◌, ◌<◌, ◌≤◌, false, [], length, vec_capacity, is_some, IfNone};
ghost use Rattle.std.specs.List.{All};
ghost use Rattle.kpn_monitor.specs.Views.{Shares, all_parts};
ghost use Rattle.kpn_run.specs.Runs.{AtSlot, HasMet, slot_parts, KeepParts, HaveMet};

use crate::gate::Gate;
use crate::starting::MOST_WORKERS;
use crate::stop_signal::{Orders, StopSignal};
use crate::worker::work_in_rounds;
use kpn_body::{Body, Finished};
use kpn_monitor::{EntryLedger, Hand, Monitor, Seat};
use kpn_state::Keeper;
use std::alloc::{AllocError, Global};
use std::marker::Model;
use std::rt::Clock;
use std::sync::Wait;
use std::sync::ledger::Ledger;
use std::thread;
use std::thread::Threads;

/// A worker's seat, its hand, and an answer that the monitor refused, if any.
#[derive(Drop)]
pub(crate) struct WorkerSlot<B: Body, E: EntryLedger, O: Ledger> {
    seat: Seat<E, O>,
    hand: Hand<B>,
    refused: Option<Finished<B>>,
}

impl<B: Body, E: EntryLedger, O: Ledger> Model for WorkerSlot<B, E, O> {
    ghost use Rattle.std.specs.Prelude.{is_some};
    ghost use Rattle.kpn_run.specs.Runs.{AtSlot};

    ghost Value = { AtSlot };

    ghost view = { λ b. record { seat = b.seat; refused = is_some b.refused } };
}

impl<B: Body, E: EntryLedger, O: Ledger> WorkerSlot<B, E, O> {
    fn new(seat: Seat<E, O>, hand: Hand<B>) -> WorkerSlot<B, E, O>
        ensures { result.seat ≡ seat }
    {
        WorkerSlot {
            seat,
            hand,
            refused: None,
        }
    }

    fn leave(self) -> (Seat<E, O>, Option<Finished<B>>)
        ensures seat { result.0 ≡ self.seat }
        ensures refused { is_some result.1 ≡ self.refused }
    {
        let WorkerSlot {
            seat,
            hand: _,
            refused,
        } = self;
        (seat, refused)
    }

    fn work<H: Keeper, R: Wait + Clock, G: Gate, S: StopSignal>(
        &mut self,
        rt: &R,
        monitor: &Monitor<B, E, O, H>,
        orders: &Orders<G, S>,
    )
        ensures parts { self.new.seat.parts ≡ self.old.seat.parts }
        ensures met { S.may_stop ≡ false → HasMet self.new }
    {
        self.refused = work_in_rounds(rt, monitor, orders, &mut self.seat, &mut self.hand);
    }
}

#[derive(Drop)]
pub(crate) struct Hands<B: Body> {
    last: Hand<B>,
    others: Vec<Hand<B>>,
}

pub(crate) fn hands_for<B: Body, R: Threads>(
    rt: &R,
    alloc: Global,
    workers: usize,
) -> Result<Hands<B>, AllocError> {
    let processors = match thread::available_parallelism(rt) {
        Ok(count) => count.get(),
        Err(_) => workers,
    };
    let mut others = Vec::with_capacity(alloc, workers)?;
    add_hands(alloc, workers, processors, &mut others)?;
    Ok(Hands {
        last: hand_for(alloc, workers, processors)?,
        others,
    })
}

fn add_hands<B: Body>(
    alloc: Global,
    workers: usize,
    processors: usize,
    hands: &mut Vec<Hand<B>>,
) -> Result<(), AllocError> {
    for _ in 1..workers {
        hands.push(hand_for(alloc, workers, processors)?)?;
    }
    Ok(())
}

fn hand_for<B: Body>(
    alloc: Global,
    workers: usize,
    processors: usize,
) -> Result<Hand<B>, AllocError> {
    let mut hand = Hand::new(alloc, workers)?;
    hand.know_processors(processors);
    Ok(hand)
}

/// Makes a slot for each worker. Each seat has one part, except the last, which has the rest.
pub(crate) fn seat_all<B: Body, E: EntryLedger, O: Ledger>(
    seat: Seat<E, O>,
    workers: usize,
    hands: Hands<B>,
    slots: &mut Vec<WorkerSlot<B, E, O>>,
)
    requires workers { 0 < workers }
    requires room { (slots.old.items ≡ []) × (workers ≤ vec_capacity slots.old) }
    ensures parts { slot_parts slots.new.items ≡ seat.parts }
    ensures some { (0 < length slots.new.items) × (length slots.new.items ≤ workers) }
{
    let mut seat = seat;
    let Hands { last, mut others } = hands;
    for _i in 1..workers {
        seat_one(&mut seat, others.pop(), slots);
    }
    slots.push_reserved(WorkerSlot::new(seat, last));
}

// Adds a slot, unless there is no hand or the seat has only one part left.
fn seat_one<B: Body, E: EntryLedger, O: Ledger>(
    seat: &mut Seat<E, O>,
    hand: Option<Hand<B>>,
    slots: &mut Vec<WorkerSlot<B, E, O>>,
)
    requires room { length slots.old.items < vec_capacity slots.old }
    ensures parts { slot_parts slots.new.items + seat.new.parts ≡ slot_parts slots.old.items + seat.old.parts }
    ensures len { length slots.new.items ≤ length slots.old.items + 1 }
    ensures room { vec_capacity slots.new ≡ vec_capacity slots.old }
{
    let Some(hand) = hand else {
        return;
    };
    if let Some(split) = seat.split() {
        slots.push_reserved(WorkerSlot::new(split, hand));
    }
}

pub(crate) fn work_all<
    B: Body,
    H: Keeper + Send,
    E: EntryLedger + Send + Sync,
    O: Ledger + Send + Sync,
    R: Wait + Clock + Threads + Sync,
    G: Gate,
    S: StopSignal,
>(
    rt: &R,
    monitor: &Monitor<B, E, O, H>,
    orders: &Orders<G, S>,
    slots: &mut Vec<WorkerSlot<B, E, O>>,
)
    ensures parts { slot_parts slots.new.items ≡ slot_parts slots.old.items }
    ensures met { S.may_stop ≡ false → All HasMet slots.new.items }
    ensures len { length slots.new.items ≡ length slots.old.items }
{
    work_each(rt, monitor, orders, slots.as_mut_slice());
}

// Its clauses speak of one slot at a time.
fn work_each<
    B: Body,
    H: Keeper + Send,
    E: EntryLedger + Send + Sync,
    O: Ledger + Send + Sync,
    R: Wait + Clock + Threads + Sync,
    G: Gate,
    S: StopSignal,
>(rt: &R, monitor: &Monitor<B, E, O, H>, orders: &Orders<G, S>, slots: &mut [WorkerSlot<B, E, O>])
    ensures parts { KeepParts slots.old slots.new }
    ensures met { S.may_stop ≡ false → HaveMet (length slots.old) slots.new }
{
    thread::for_each_mut(
        rt,
        slots,
        MOST_WORKERS,
        &|_, slot| slot.work(rt, monitor, orders),
    );
}

pub(crate) fn leave_all<B: Body, E: EntryLedger, O: Ledger>(
    mut slots: Vec<WorkerSlot<B, E, O>>,
    seats: &mut Vec<Seat<E, O>>,
) -> Option<Finished<B>>
    requires room { length slots.items ≤ vec_capacity seats.old }
    requires empty { seats.old.items ≡ [] }
    ensures parts { all_parts seats.new.items ≡ slot_parts slots.items }
    ensures met { All HasMet slots.items → IfNone result (All (λ (s : Shares). s.overs ≡ 1) seats.new.items) }
    ensures len { length seats.new.items ≡ length slots.items }
{
    let mut refused = None;
    while let Some(slot) = slots.pop() {
        let (seat, answer) = slot.leave();
        seats.push_reserved(seat);
        refused = answer.or(refused);
    }
    refused
}
