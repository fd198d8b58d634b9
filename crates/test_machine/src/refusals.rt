//! A run and a flow that go on whichever request for memory fails.
use crate::networks::{NetAndBodies, Networks};
use kpn_body::{Body, Task};
use kpn_compute::CardBody;
use kpn_flow::{Flow, FlowFault, Pause};
use kpn_machine::Deed::{Put, Stopped, Took};
use kpn_machine::Entry::Did;
use kpn_machine::Outcome::{Done, Parked};
use kpn_machine::{Entry, Machine, OpenFault, Outcome};
use kpn_model::Token;
use kpn_model::Token::Word;
use kpn_net::{Card, End};
use kpn_standard::Standard;
use std::alloc::Global;
use std::env;
use std::process::ExitCode;

type CardMachine = Machine<CardBody<Standard>>;

type CardFlow = Flow<CardBody<Standard>>;

/// What is run.
#[derive(Clone, Copy)]
pub(crate) enum Refused {
    /// Nothing: there was no memory for the arguments.
    Arguments,
    Machine,
    Flow,
}

/// What the arguments ask for, after `refuse`.
pub(crate) fn asked_for(rt: &HostRuntime) -> Option<Refused> {
    let Ok(mut words) = env::args(rt) else {
        return Some(Refused::Arguments);
    };
    let what = words.nth(2)?;
    match what.as_str() {
        "machine" => Some(Refused::Machine),
        "flow" => Some(Refused::Flow),
        _ => None,
    }
}

/// Prints the failed request, among those after which a run can continue, or `wrong` if the run was not as it must be.
pub(crate) fn tell(rt: &HostRuntime, networks: &Networks, what: Refused) -> ExitCode {
    let told = match what {
        Refused::Arguments => None,
        Refused::Machine => run_machine(rt.alloc(), networks),
        Refused::Flow => run_flow(rt.alloc(), networks),
    };
    let word = told.unwrap_or("elsewhere");
    let is_printed = println!(rt; "refused: {word}").is_ok();
    ExitCode::from(if is_printed { 0 } else { 1 })
}

/// The cards of the network that a machine runs.
const CARDS: [Card; 2] = [
    Card {
        kind: 0,
        args: [1, 3, 0],
    },
    Card {
        kind: 1,
        args: [1, 0, 0],
    },
];

/// What a machine has done up to the growth.
const ENTRIES: [Entry; 4] = [
    Did {
        process: 0,
        deed: Put {
            channel: 0,
            token: Word(1),
        },
    },
    Did {
        process: 1,
        deed: Took {
            channel: 0,
            token: Word(1),
        },
    },
    Did {
        process: 0,
        deed: Put {
            channel: 0,
            token: Word(2),
        },
    },
    Did {
        process: 1,
        deed: Stopped,
    },
];

/// Whether the bodies are those of the network that a machine runs.
fn are_back(bodies: &[CardBody<Standard>]) -> bool {
    bodies.len() == CARDS.len()
        && bodies
            .iter()
            .zip(CARDS.iter())
            .all(|(body, card)| body.card() == *card)
}

fn run_machine(alloc: Global, networks: &Networks) -> Option<&'static str> {
    let mut tasks = Vec::with_capacity(alloc, 2).ok()?;
    let parts = networks.parts(alloc, "sink_of_one")?;
    let (mut machine, told) = match Machine::open(alloc, parts.net, parts.bodies) {
        Ok(machine) => (machine, "nothing"),
        Err(refused) => {
            let is_told = refused.fault == OpenFault::Memory && refused.fault.number() == 3;
            let is_back = refused.net.processes() == 2 && are_back(refused.bodies.as_slice());
            if !is_told || !is_back {
                return Some("wrong");
            }
            (
                Machine::open(alloc, refused.net, refused.bodies).ok()?,
                "opening",
            )
        }
    };
    for process in [0, 1, 0, 1] {
        if commit(&mut machine, &mut tasks, process) != Some(Done(1)) {
            return Some("wrong");
        }
    }
    let outcome = commit(&mut machine, &mut tasks, 0);
    if machine.end() == Some(End::Memory) {
        let is_over = machine.history() == ENTRIES.as_slice() && machine.take().is_none();
        let is_right = outcome == Some(Parked(0)) && is_over;
        return Some(if is_right { "growth" } else { "wrong" });
    }
    let last = commit(&mut machine, &mut tasks, 0);
    let is_over = machine.end() == Some(End::Terminated);
    let is_right = outcome == Some(Parked(2)) && last == Some(Done(1)) && is_over;
    Some(if is_right { told } else { "wrong" })
}

/// Takes two processes, as far as they are ready, and commits the answer of one that is out.
fn commit(
    machine: &mut CardMachine,
    tasks: &mut Vec<Task<CardBody<Standard>>>,
    process: usize,
) -> Option<Outcome> {
    for _ in 0..2 {
        if let Some(task) = machine.take() {
            tasks.push(task).ok()?;
        }
    }
    let place = tasks.iter().position(|task| task.process() == process)?;
    machine.commit(tasks.swap_remove(place).call()).ok()
}

fn run_flow(alloc: Global, networks: &Networks) -> Option<&'static str> {
    let NetAndBodies { net, bodies } = networks.parts(alloc, "output_and_growth")?;
    let (mut flow, mut told) = match Flow::open(alloc, net, bodies, &[], &[0]) {
        Ok(flow) => (flow, "nothing"),
        Err(refused) => {
            if refused.fault != FlowFault::Memory {
                return Some("wrong");
            }
            let flow = Flow::open(alloc, refused.net, refused.bodies, &[], &[0]).ok()?;
            (flow, "opening")
        }
    };
    let mut is_right = flow.advance(100) == Pause::Blocked && drains(&mut flow, 7);
    let mut pause = flow.advance(100);
    if pause == Pause::Over(End::Memory) {
        told = "growth";
        pause = flow.advance(100);
    }
    is_right = is_right && pause == Pause::Over(End::Terminated) && drains(&mut flow, 8);
    Some(if is_right { told } else { "wrong" })
}

/// Whether channel 0 holds this word and no more.
fn drains(flow: &mut CardFlow, word: u64) -> bool {
    flow.is_output(0)
        && flow.drain(0) == Some(Token::Word(word))
        && flow.is_output(0)
        && flow.drain(0).is_none()
}
