//! Runs a network with threads of the program's own, each of which takes tasks, asks bodies and commits their
//! answers.
use crate::failure::Failure;
use crate::words;
use kpn_builder::{Builder, NewChannel};
use kpn_compute::{CardBody, bodies_of};
use kpn_net::Net;
use kpn_observe::{Crew, CrewSeat, EntryLedger, Monitor, Outcome, Taken, WatchedRun, run_by_crew};
use kpn_standard::Standard;
use std::alloc::{AllocError, Global};
use std::sync::Wait;
use std::sync::atomic::{AtomicU64, Ordering};
use std::sync::ledger::Ledger;
use std::thread::Threads;

/// Threads that count the entries that they append.
#[derive(Drop)]
struct Counting<'a, R> {
    rt: &'a R,
    entries: AtomicU64,
}

impl<'a, R: Eprint> Counting<'a, R> {
    /// Counts the entries that a commit appended, and prints the total.
    fn count(&self, outcome: Outcome) {
        match outcome {
            Outcome::Done(more) | Outcome::Parked(more) => {
                let before = self.entries.fetch_add(more as u64, Ordering::SeqCst);
                let entries = before.saturating_add(more as u64);
                let _ = eprintln!(self.rt; "{entries} entries");
            }
            Outcome::LaidBack => {}
        }
    }
}

impl<'a, R: Wait + Eprint + Sync> Crew<CardBody<Standard>> for Counting<'a, R> {
    fn work<E: EntryLedger, O: Ledger>(
        &self,
        monitor: &Monitor<CardBody<Standard>, E, O>,
        seat: &mut CrewSeat<E, O>,
    ) {
        for _ in self.rt.forever() {
            let Taken::Task(task) = seat.take(self.rt, monitor) else {
                return;
            };
            match seat.commit(self.rt, monitor, task.call()) {
                Ok(outcome) => self.count(outcome),
                Err(_) => return,
            }
        }
    }
}

fn make(made: &mut Builder) -> Result<Net<Standard>, Failure> {
    made.process("src", "count", &[1, 5])?;
    made.process("snk", "sink", &[5])?;
    made.channel(NewChannel::new("words", "src", "snk").capacity(2))?;
    Ok(made.check()?)
}

fn network(alloc: Global) -> Result<Net<Standard>, Failure> {
    let mut made = Builder::new(alloc);
    make(&mut made)
}

/// Runs the network with three threads, and prints the number of entries and the words.
pub(crate) fn show<R: Threads + Wait + Print + Eprint + Sync>(
    rt: &R,
    alloc: Global,
) -> Result<(), Failure> {
    let net = network(alloc)?;
    let bodies = bodies_of(alloc, &net)?;
    let entries = AtomicU64::new(0);
    let crew = Counting { rt, entries };
    let Ok(run) = run_by_crew(rt, alloc, net, bodies, 3, &crew) else {
        return Err(Failure::Run);
    };
    print(rt, alloc, &crew.entries, &run)?;
    Ok(())
}

fn print<R: Print>(
    rt: &R,
    alloc: Global,
    entries: &AtomicU64,
    run: &WatchedRun<Standard>,
) -> Result<(), AllocError> {
    let entries = entries.load(Ordering::SeqCst);
    let _ = println!(rt; "{entries} entries");
    for word in words(alloc, run, "words")?.iter() {
        let _ = println!(rt; "{word}");
    }
    Ok(())
}
