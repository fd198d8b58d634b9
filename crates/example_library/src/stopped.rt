//! Runs a network that would count for a long time with two workers, and stops it after a deadline.
use crate::failure::Failure;
use crate::words;
use kpn_builder::{Builder, NewChannel};
use kpn_compute::bodies_of;
use kpn_net::Net;
use kpn_observe::{Observer, Progress, WatchedRun, Wish, run_watched};
use kpn_run::Gate;
use kpn_standard::Standard;
use std::alloc::{AllocError, Global};
use std::rt::Clock;
use std::sync::Wait;
use std::thread::{Threads, sleep};
use std::time::{Duration, Instant};

/// Stops once the deadline has passed and the history has a hundred entries.
#[derive(Drop)]
struct Deadline<'a, R> {
    rt: &'a R,
    start: Instant,
}

impl<'a, R: Clock + Sync> Observer for Deadline<'a, R> {
    fn see(&self, progress: Progress) -> Wish {
        match self.start.elapsed(self.rt) {
            Ok(past) if past < Duration::from_millis(20) || progress.entries < 100 => Wish::GoOn,
            _ => Wish::Stop,
        }
    }
}

/// Delays each answer, so that the budget lasts.
#[derive(Drop)]
struct Slowly<'a, R> {
    rt: &'a R,
}

impl<'a, R: Wait + Clock + Sync> Gate for Slowly<'a, R> {
    fn before_commit(&self, _process: usize) {
        sleep(self.rt, Duration::from_micros(50));
    }
}

fn make(made: &mut Builder) -> Result<Net<Standard>, Failure> {
    made.set_budget(2_000_000);
    made.process("src", "count", &[1, 1_000_000])?;
    made.process("snk", "sink", &[1_000_000])?;
    made.channel(NewChannel::new("words", "src", "snk").capacity(16))?;
    Ok(made.check()?)
}

fn network(alloc: Global) -> Result<Net<Standard>, Failure> {
    let mut made = Builder::new(alloc);
    make(&mut made)
}

/// Runs the network until the deadline, and prints its first words.
pub(crate) fn show<R: Threads + Wait + Clock + Print + Sync>(
    rt: &R,
    alloc: Global,
) -> Result<(), Failure> {
    let net = network(alloc)?;
    let bodies = bodies_of(alloc, &net)?;
    let Ok(start) = Instant::now(rt) else {
        return Err(Failure::Clock);
    };
    let (gate, deadline) = (Slowly { rt }, Deadline { rt, start });
    let period = Duration::from_millis(5);
    match run_watched(rt, alloc, net, bodies, 2, &gate, period, &deadline) {
        Ok(run) => Ok(print_first(rt, alloc, &run)?),
        Err(_) => Err(Failure::Run),
    }
}

fn print_first<R: Print>(
    rt: &R,
    alloc: Global,
    run: &WatchedRun<Standard>,
) -> Result<(), AllocError> {
    if run.end().is_none() {
        let _ = println!(rt; "stopped before its end");
    }
    for word in words(alloc, run, "words")?.iter().take(5) {
        let _ = println!(rt; "{word}");
    }
    Ok(())
}
