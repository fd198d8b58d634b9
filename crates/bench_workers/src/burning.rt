//! Times a run, from the opening of its machine to its end.

use crate::numbers::burn;
use kpn_body::Body;
use kpn_machine::Machine;
use kpn_net::{Answer, Card, Kinds, Local, Net, Token};
use kpn_run::{Finish, Open, Prompt, RunFault, run};
use kpn_standard::{Standard, answer};
use std::alloc::{AllocError, Global};
use std::hint::spin_loop;
use std::marker::Model;
use std::rt::Clock;
use std::sync::Wait;
use std::thread::Threads;
use std::time::Instant;

/// A card with a signature, which answers after computing a number of random numbers.
#[derive(Drop)]
struct Burning {
    card: Card,
    numbers: u64,
}

impl Model for Burning {
    ghost use Rattle.std.specs.Prelude.{IsSome};
    ghost use Rattle.kpn_model.specs.declared.kinds.Card.{Card};
    ghost use Rattle.kpn_standard.specs.Signatures.{signature};

    ghost Value = { Card };

    ghost view = { λ b. b.card };

    ghost invariant = { λ b. IsSome (signature b.card) };
}

impl Body for Burning {
    type Kinds = Standard;

    ghost card = { λ body. body };

    fn card(&self) -> Card {
        self.card
    }

    fn answer(&self, local: Local, last: Option<Token>) -> Answer {
        if burn(self.numbers) == 0 {
            spin_loop();
        }
        answer(self.card, local, last)
    }
}

/// The gate of the workers. With `Open` they call all bodies outside the lock; with `Prompt` one of them asks
/// bodies under the lock while calls are short.
#[derive(Clone, Copy)]
pub enum GateChoice {
    Open,
    Prompt,
}

/// The number of workers, their gate, and how many numbers a body computes before it answers.
#[derive(Clone, Copy)]
pub struct Timing {
    pub workers: usize,
    pub numbers: u64,
    pub gate: GateChoice,
}

/// Runs a network, and prints the number of entries and the nanoseconds.
pub fn run_timed<R: Threads + Wait + Clock + Sync + Print>(
    rt: &R,
    alloc: Global,
    net: Net<Standard>,
    asked: Timing,
) -> Result<(), AllocError> {
    let bodies = bodies_of(alloc, &net, asked.numbers)?;
    let Ok(start) = Instant::now(rt) else {
        return Err(AllocError);
    };
    let entries = entries_of(rt, alloc, net, bodies, asked)?;
    let Ok(took) = start.elapsed(rt) else {
        return Err(AllocError);
    };
    let nanos = took.as_nanos();
    let _ = println!(rt; "entries {entries} nanos {nanos}");
    Ok(())
}

fn bodies_of(alloc: Global, net: &Net<Standard>, numbers: u64) -> Result<Vec<Burning>, AllocError> {
    let mut bodies = Vec::new(alloc);
    for process in 0..net.processes() {
        let card = net.card(process);
        if Standard::signature(&card).is_some() {
            bodies.push(Burning { card, numbers })?;
        }
    }
    Ok(bodies)
}

/// Runs a network, and returns its number of entries. 0 workers: the calling thread, without a lock.
fn entries_of<R: Threads + Wait + Clock + Sync>(
    rt: &R,
    alloc: Global,
    net: Net<Standard>,
    bodies: Vec<Burning>,
    asked: Timing,
) -> Result<u64, AllocError> {
    match (asked.workers, asked.gate) {
        (0, _) => entries_alone(alloc, net, bodies),
        (workers, GateChoice::Open) => entries_in(run(rt, alloc, net, bodies, workers, &Open)),
        (workers, GateChoice::Prompt) => entries_in(run(rt, alloc, net, bodies, workers, &Prompt)),
    }
}

fn entries_in<B: Body>(ran: Result<Finish<B::Kinds>, RunFault<B>>) -> Result<u64, AllocError> {
    match ran {
        Ok(finish) => Ok(finish.receipts()),
        Err(_) => Err(AllocError),
    }
}

fn entries_alone<B: Body>(
    alloc: Global,
    net: Net<B::Kinds>,
    bodies: Vec<B>,
) -> Result<u64, AllocError> {
    let Ok(mut machine) = Machine::open(alloc, net, bodies) else {
        return Err(AllocError);
    };
    machine.finish_alone();
    Ok(machine.history().len() as u64)
}
