//! What a worker of a run does.
ghost use Rattle.std.specs.Prelude.{◌≡◌, false, [], length, IfNone, IsTrue};

use crate::gate::Gate;
use crate::pace::{NextStep, Pace};
use crate::stop_signal::{Orders, StopSignal};
use kpn_body::{Body, Finished};
use kpn_machine::Stranger;
use kpn_monitor::{EntryLedger, Hand, Monitor, Next, Rest, Seat, Went};
use kpn_state::Keeper;
use std::hint::spin_loop;
use std::rt::Clock;
use std::sync::Wait;
use std::sync::ledger::Ledger;
use std::time::{Duration, Instant};

/// How long a lookout first rests, in microseconds: at the start of a run, when spare, and when idle.
const FIRST_REST: u64 = 50;

const SPARE_REST: u64 = 200;

const IDLE_REST: u64 = 100;

/// How often a worker pauses between two looks for something to do.
const PAUSES: u32 = 64;

/// Measures the nanoseconds since it was made.
#[derive(Clone, Copy)]
struct Stopwatch {
    start: Option<Instant>,
}

impl Stopwatch {
    fn new<R: Clock>(rt: &R) -> Stopwatch {
        Stopwatch {
            start: Instant::now(rt).ok(),
        }
    }

    /// Returns 0 if the clock can't be read.
    fn nanos<R: Clock>(&self, rt: &R) -> u64 {
        let Some(start) = self.start else {
            return 0;
        };
        match start.elapsed(rt) {
            Ok(past) => u64::try_from(past.as_nanos()).unwrap_or(u64::MAX),
            Err(_) => 0,
        }
    }
}

/// A worker's pace, and the stopwatch that judges it.
#[derive(Drop)]
struct TimedPace {
    watch: Stopwatch,
    pace: Pace,
}

/// Calls the tasks of a hand and the gate after each, and exchanges the answers for other tasks, until the
/// run has ended, an answer is refused, or the workers should stop. In between it asks bodies in place, while
/// the gate lets it and that is quicker. A worker that should stop finishes what it holds, and lets the
/// others rest no more. Returns the refused answer, if any.
pub(crate) fn work_in_rounds<
    B: Body,
    H: Keeper,
    E: EntryLedger,
    O: Ledger,
    R: Wait + Clock,
    G: Gate,
    S: StopSignal,
>(
    rt: &R,
    monitor: &Monitor<B, E, O, H>,
    orders: &Orders<G, S>,
    seat: &mut Seat<E, O>,
    hand: &mut Hand<B>,
) -> Option<Finished<B>>
    ensures parts { seat.new.parts ≡ seat.old.parts }
    ensures over { IfNone result (S.may_stop ≡ false → seat.new.overs ≡ 1) }
    ensures held { IfNone result (hand.new.tasks ≡ []) }
{
    monitor.rest(rt, hand, Rest::Spare, Duration::from_micros(FIRST_REST));
    let watch = Stopwatch::new(rt);
    let pace = Pace::new(watch.nanos(rt), orders.gate.lets_ask_in_place());
    let mut timed = TimedPace { watch, pace };
    for _ in rt.forever() {
        let asks = timed.pace.in_place() > 0 && hand.len() == 0;
        if asks && ask_in_place(rt, monitor, orders.signal, seat, &mut timed) {
            return None;
        }
        let stops = orders.signal.stops();
        let calls = hand.len() as u64;
        call_all(hand, orders.gate);
        let most = if timed.pace.is_timed() {
            let now = timed.watch.nanos(rt);
            timed.pace.called(calls, now)
        } else {
            timed.pace.most()
        };
        match monitor.exchange(rt, hand, seat, if stops { 0 } else { most }) {
            Ok(Next::Over(_)) => return None,
            Ok(Next::Nothing) if stops => {
                monitor.rouse(rt);
                return None;
            }
            Ok(next) => go_on(rt, monitor, hand, &mut timed, next),
            Err(Stranger { finished }) => return Some(finished),
        }
    }
    unreachable!()
}

// Returns whether the run has ended.
fn ask_in_place<B: Body, H: Keeper, E: EntryLedger, O: Ledger, R: Wait + Clock, S: StopSignal>(
    rt: &R,
    monitor: &Monitor<B, E, O, H>,
    signal: &S,
    seat: &mut Seat<E, O>,
    timed: &mut TimedPace,
) -> bool
    ensures parts { seat.new.parts ≡ seat.old.parts }
    ensures over { IsTrue result → seat.new.overs ≡ 1 }
{
    for _ in rt.forever() {
        match monitor.ask_in_place(rt, seat, timed.pace.in_place()) {
            Went::On { answers: _, waited } => {
                let now = timed.watch.nanos(rt);
                timed.pace.asked(waited, now);
            }
            Went::Nowhere => timed.pace.stop_asking(),
            Went::Over(_) => return true,
        }
        if signal.stops() {
            timed.pace.stop_asking();
        }
        if timed.pace.in_place() == 0 {
            return false;
        }
    }
    unreachable!()
}

#[inline(always)]
fn go_on<B: Body, H: Keeper, E: EntryLedger, O: Ledger, R: Wait + Clock>(
    rt: &R,
    monitor: &Monitor<B, E, O, H>,
    hand: &mut Hand<B>,
    timed: &mut TimedPace,
    next: Next,
) {
    let is_untimed = !timed.pace.is_timed();
    if is_untimed && matches!(next, Next::Tasks) {
        if timed.pace.pass() {
            let now = timed.watch.nanos(rt);
            timed.pace.resume(now);
        }
        return;
    }
    if is_untimed {
        let now = timed.watch.nanos(rt);
        timed.pace.resume(now);
    }
    let now = timed.watch.nanos(rt);
    let turn = timed.pace.exchanged(next, now);
    take_turn(rt, monitor, hand, timed, turn);
}

fn call_all<B: Body, G: Gate>(hand: &mut Hand<B>, gate: &G)
    ensures { hand.new.called ≡ length hand.new.tasks }
{
    while let Some(process) = hand.call() {
        gate.before_commit(process);
    }
}

fn take_turn<B: Body, H: Keeper, E: EntryLedger, O: Ledger, R: Wait + Clock>(
    rt: &R,
    monitor: &Monitor<B, E, O, H>,
    hand: &mut Hand<B>,
    timed: &mut TimedPace,
    turn: NextStep,
) {
    match turn {
        NextStep::Go => {}
        NextStep::Pause => {
            for _ in 0..PAUSES {
                spin_loop();
            }
        }
        NextStep::Rest(why) => {
            let long = match why {
                Rest::Spare => SPARE_REST,
                Rest::Idle => IDLE_REST,
            };
            let rested = monitor.rest(rt, hand, why, Duration::from_micros(long));
            let now = timed.watch.nanos(rt);
            timed.pace.rested(rested, now);
        }
    }
}
