//! Runs by threads of a caller's own.
use crate::meeting::{Calls, Meeter, Meeting};
use crate::networks::{NetAndBodies, parts_of};
use crate::runs::meeting_parts;
use crate::watched::tell_left;
use kpn_body::{Body, Finished};
use kpn_compute::CardBody;
use kpn_observe::{Crew, CrewSeat, EntryLedger, Monitor, OpenRefused, Taken, run_by_crew};
use kpn_run::Open;
use kpn_standard::Standard;
use std::alloc::{AllocError, Global};
use std::fmt::Write as _;
use std::rt::Files;
use std::sync::atomic::{AtomicU64, Ordering};
use std::sync::ledger::Ledger;
use std::sync::{Arc, Wait};
use std::thread::Threads;
use test_kit::Cells;

/// Answers `crew NETWORK SEATS CHANNEL WHO`: what the run leaves, and how many seats met the end. WHO is `all`, who work to
/// the end, or `leave`, after one commit; `bare`, without bodies; or `meet`, with two bodies that wait for each other.
pub(crate) fn tell_crew<R: Threads + Wait + Files + Sync + AllocGlobal>(
    rt: &R,
    alloc: Global,
    question: &mut Cells<'_>,
    answer: &mut String,
) -> Result<(), AllocError> {
    let name = question.word();
    let seats = u16::try_from(question.below(18)).unwrap_or(0);
    let channel = question.word();
    let who = question.word();
    if who == "meet" {
        let meeting = Meeting::between(question);
        let calls = Arc::new(alloc, Calls::new())?;
        let parts = meeting_parts(rt, name, meeting, &calls, answer)?;
        run_crew(rt, parts, seats, channel, &ToTheEnd { rt }, answer)?;
        return write!(answer, " | seen {}", calls.seen());
    }
    let mut parts = parts_of(rt, name, answer)?;
    if who == "bare" {
        parts.bodies = Vec::new(alloc);
    }
    let crew = All {
        rt,
        leaves: who == "leave",
        met: AtomicU64::new(0),
    };
    run_crew(rt, parts, seats, channel, &crew, answer)?;
    write!(answer, " | met {}", crew.met.load(Ordering::SeqCst))
}

fn run_crew<B: Body<Kinds = Standard>, R: Threads + Sync + AllocGlobal, C: Crew<B>>(
    rt: &R,
    parts: NetAndBodies<B>,
    seats: u16,
    channel: &str,
    crew: &C,
    answer: &mut String,
) -> Result<(), AllocError> {
    let NetAndBodies { net, bodies } = parts;
    match run_by_crew(rt, rt.alloc(), net, bodies, seats, crew) {
        Ok(run) => tell_left(rt.alloc(), &run, channel, answer),
        Err(OpenRefused { net, fault, .. }) => { write!(answer, "{fault:?} {}", net.processes()) }
    }
}

/// Works to the end, and counts the seats that reach it; or leaves after one commit.
#[derive(Drop)]
struct All<'a, R> {
    rt: &'a R,
    leaves: bool,
    met: AtomicU64,
}

impl<'a, R: Wait + Sync> Crew<CardBody<Standard>> for All<'a, R> {
    fn work<E: EntryLedger, O: Ledger>(
        &self,
        monitor: &Monitor<CardBody<Standard>, E, O>,
        seat: &mut CrewSeat<E, O>,
    ) {
        if self.leaves {
            if let Taken::Task(task) = seat.take(self.rt, monitor) {
                let _ = seat.commit(self.rt, monitor, task.call());
            }
            return;
        }
        let refused: Option<Finished<CardBody<Standard>>> = seat.work(self.rt, monitor, &Open);
        if refused.is_none() {
            self.met.fetch_add(1, Ordering::SeqCst);
        }
    }
}

/// Works to the end.
#[derive(Drop)]
struct ToTheEnd<'a, R> {
    rt: &'a R,
}

impl<'a, R: Wait + Sync> Crew<Meeter> for ToTheEnd<'a, R> {
    fn work<E: EntryLedger, O: Ledger>(
        &self,
        monitor: &Monitor<Meeter, E, O>,
        seat: &mut CrewSeat<E, O>,
    ) {
        let _ = seat.work(self.rt, monitor, &Open);
    }
}
