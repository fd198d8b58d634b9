//! Runs a network with bodies that compute for random times, and one process held up for another.

use crate::numbers::{burn, following};
use kpn_body::Body;
use kpn_net::{Answer, Card, Kinds, Local, Net, Token};
use kpn_report::{places_of, text_of};
use kpn_run::{Finish, Hold, run};
use kpn_standard::{Standard, answer};
use std::alloc::{AllocError, Global};
use std::hint::spin_loop;
use std::marker::Model;
use std::rt::Clock;
use std::sync::Wait;
use std::sync::atomic::{AtomicU64, Ordering};
use std::thread::Threads;

/// How often a held process checks, at most, whether the other has passed.
const LOOKS: u64 = 20_000;

/// A card with a signature, which answers after a random time.
#[derive(Drop)]
struct Straying {
    card: Card,
    most: u64,
    seed: u64,
    calls: AtomicU64,
}

impl Model for Straying {
    ghost use Rattle.std.specs.Prelude.{IsSome};
    ghost use Rattle.kpn_model.specs.declared.kinds.Card.{Card};
    ghost use Rattle.kpn_standard.specs.Signatures.{signature};

    ghost Value = { Card };

    ghost view = { λ b. b.card };

    ghost invariant = { λ b. IsSome (signature b.card) };
}

impl Body for Straying {
    type Kinds = Standard;

    ghost card = { λ body. body };

    fn card(&self) -> Card {
        self.card
    }

    fn answer(&self, local: Local, last: Option<Token>) -> Answer {
        let call = self.calls.fetch_add(1, Ordering::SeqCst);
        let start = following(self.seed.wrapping_add(call) | 1);
        if burn(start & self.most) == 0 {
            spin_loop();
        }
        answer(self.card, local, last)
    }
}

/// The number of workers, the maximum of random numbers that a body computes before it answers (2^n - 1), a
/// seed, the process that is held up, and the one that it waits for.
#[derive(Clone, Copy)]
pub struct Stress {
    pub workers: usize,
    pub most: u64,
    pub seed: u64,
    pub held: usize,
    pub other: usize,
}

/// Runs a network, and writes its report.
pub fn run_stressed<R: Threads + Wait + Clock + Sync + Print>(
    rt: &R,
    alloc: Global,
    net: Net<Standard>,
    asked: Stress,
) -> Result<(), AllocError> {
    let bodies = bodies_of(alloc, &net, asked)?;
    let gate = Hold::new(asked.held, asked.other, 1, LOOKS);
    match run(rt, alloc, net, bodies, asked.workers, &gate) {
        Ok(finish) => print_report(rt, alloc, &finish),
        Err(_) => Err(AllocError),
    }
}

fn print_report<R: Print>(
    rt: &R,
    alloc: Global,
    finish: &Finish<Standard>,
) -> Result<(), AllocError> {
    let net = finish.net();
    let places = places_of(alloc, net, finish.standings())?;
    let history = finish.history();
    let text = text_of(alloc, net, history, places.as_slice(), finish.end(), None)?;
    let _ = print!(rt; "{text}");
    Ok(())
}

fn bodies_of(
    alloc: Global,
    net: &Net<Standard>,
    asked: Stress,
) -> Result<Vec<Straying>, AllocError> {
    let mut bodies = Vec::new(alloc);
    for process in 0..net.processes() {
        let card = net.card(process);
        if Standard::signature(&card).is_some() {
            bodies.push(Straying {
                card,
                most: asked.most,
                seed: following(asked.seed.wrapping_add(process as u64) | 1),
                calls: AtomicU64::new(0),
            })?;
        }
    }
    Ok(bodies)
}
