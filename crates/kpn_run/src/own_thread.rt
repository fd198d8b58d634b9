//! What a worker does in a caller's own thread.
ghost use Rattle.std.specs.Prelude.{◌≡◌, IfNone};

use crate::gate::Gate;
use kpn_body::{Body, Finished, Task};
use kpn_machine::Stranger;
use kpn_monitor::{EntryLedger, Monitor, Seat, Taken};
use std::sync::Wait;
use std::sync::ledger::Ledger;

/// What a worker returns: its seat, and the answer that the monitor refused, if any.
#[derive(Drop)]
pub struct Worked<B: Body, E: EntryLedger, O: Ledger> {
    pub seat: Seat<E, O>,
    pub stranger: Option<Finished<B>>,
}

/// Takes a task, calls it, calls the gate and commits the answer, until the run has ended or an answer is
/// refused. Returns the seat, which has met an end unless an answer was refused, and the refused answer, if
/// any. May wait for other workers.
pub fn work<B: Body, E: EntryLedger, O: Ledger, R: Wait, G: Gate>(
    rt: &R,
    monitor: &Monitor<B, E, O>,
    mut seat: Seat<E, O>,
    gate: &G,
) -> Worked<B, E, O>
    ensures parts { result.seat.parts ≡ seat.parts }
    ensures over { IfNone result.stranger (result.seat.overs ≡ 1) }
{
    let stranger = work_with(rt, monitor, &mut seat, gate);
    Worked { seat, stranger }
}

/// Works like [`work`], with a borrowed seat: the caller keeps it while other threads use theirs. Returns the
/// refused answer, if any.
pub fn work_with<B: Body, E: EntryLedger, O: Ledger, R: Wait, G: Gate>(
    rt: &R,
    monitor: &Monitor<B, E, O>,
    seat: &mut Seat<E, O>,
    gate: &G,
) -> Option<Finished<B>>
    ensures parts { seat.new.parts ≡ seat.old.parts }
    ensures over { IfNone result (seat.new.overs ≡ 1) }
{
    for _ in rt.forever() {
        match monitor.take(rt, seat) {
            Taken::Over(_) => return None,
            Taken::Task(task) => match answer(rt, monitor, gate, seat, task) {
                None => {}
                Some(finished) => return Some(finished),
            },
        }
    }
    unreachable!()
}

fn answer<B: Body, E: EntryLedger, O: Ledger, R: Wait, G: Gate>(
    rt: &R,
    monitor: &Monitor<B, E, O>,
    gate: &G,
    seat: &mut Seat<E, O>,
    task: Task<B>,
) -> Option<Finished<B>>
    ensures { seat.new.parts ≡ seat.old.parts }
{
    let finished = task.call();
    gate.before_commit(finished.process());
    match monitor.commit(rt, finished, seat) {
        Ok(_) => None,
        Err(Stranger { finished }) => Some(finished),
    }
}
