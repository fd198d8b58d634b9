//! Rows on a flow, each a call and what it returns, in the order of the file.
use crate::networks::Networks;
use kpn_compute::CardBody;
use kpn_flow::{Flow, stops_at_once};
use kpn_net::Token;
use kpn_report::places_of;
use kpn_standard::Standard;
use std::alloc::Global;
use std::cell::Cell;
use std::fmt::Write;
use test_cells::{token_in, tokens_in};
use test_kit::{Cells, Subject};

type CardFlow = Flow<CardBody<Standard>>;

#[derive(Drop)]
pub(crate) struct Flows<'a> {
    networks: &'a Networks,
    flow: Cell<Option<CardFlow>>,
}

impl<'a> Flows<'a> {
    pub(crate) fn new(networks: &'a Networks) -> Flows<'a> {
        Flows {
            networks,
            flow: Cell::new(None),
        }
    }
}

impl Subject for Flows<'_> {
    fn answer(&self, alloc: Global, question: &mut Cells<'_>, answer: &mut String) {
        let flow = self.flow.replace(None);
        let flow = match (question.word(), flow) {
            ("open", _) => open(alloc, self.networks, question, answer),
            ("stops", flow) => {
                stops(alloc, self.networks, question, answer);
                flow
            }
            (what, Some(mut flow)) => {
                call(alloc, &mut flow, what, question, answer);
                Some(flow)
            }
            _ => {
                question.is_bad();
                None
            }
        };
        self.flow.set(flow);
    }
}

/// Reads places of channels, with commas between; `-` for none.
fn places_in(alloc: Global, question: &mut Cells<'_>) -> Vec<usize> {
    let mut places = Vec::new(alloc);
    for word in question.word().split(",") {
        let is_kept = match word.parse::<usize>() {
            Ok(place) => places.push(place).is_ok(),
            Err(_) => word == "-",
        };
        if !is_kept {
            question.is_bad();
        }
    }
    places
}

/// Opens a flow of a network with these inputs and outputs: says `opened`, or the fault and what comes back.
fn open(
    alloc: Global,
    networks: &Networks,
    question: &mut Cells<'_>,
    answer: &mut String,
) -> Option<CardFlow> {
    let parts = networks.parts_in(alloc, question);
    let inputs = places_in(alloc, question);
    let outputs = places_in(alloc, question);
    let parts = parts?;
    match Flow::open(
        alloc,
        parts.net,
        parts.bodies,
        inputs.as_slice(),
        outputs.as_slice(),
    ) {
        Ok(flow) => {
            let _ = answer.push_str("opened");
            Some(flow)
        }
        Err(refused) => {
            let (processes, bodies) = (refused.net.processes(), refused.bodies.len());
            let _ = write!(answer, "{:?} {processes} {bodies}", refused.fault);
            None
        }
    }
}

/// Whether a process of a network stops at once.
fn stops(alloc: Global, networks: &Networks, question: &mut Cells<'_>, answer: &mut String) {
    let parts = networks.parts_in(alloc, question);
    let process = question.below(64);
    if let Some(parts) = parts {
        if process < parts.bodies.len() {
            let _ = write!(
                answer,
                "{}",
                stops_at_once(parts.bodies.as_slice(), process)
            );
        }
    }
}

/// A call of a flow that feeds or drains it, or lets it advance.
fn call(
    alloc: Global,
    flow: &mut CardFlow,
    what: &str,
    question: &mut Cells<'_>,
    answer: &mut String,
) {
    let _ = match what {
        "advance" => write!(answer, "{:?}", flow.advance(question.number())),
        "feed" => {
            let channel = question.below(64);
            let (mut tried, mut fed) = (0usize, 0usize);
            for token in tokens_in(alloc, question).as_slice() {
                if flow.may_feed(channel, *token) {
                    tried = tried.saturating_add(1);
                    fed = fed.saturating_add(usize::from(flow.feed(channel, *token)));
                }
            }
            write!(answer, "{fed} of {tried}")
        }
        "feed_all" => {
            let channel = question.below(64);
            let batch = tokens_in(alloc, question);
            if flow.may_feed_all(channel, batch.as_slice()) {
                write!(answer, "{}", flow.feed_all(channel, batch.as_slice()))
            } else {
                answer.push_str("may not")
            }
        }
        "drain" => {
            drain(flow, question.below(64), answer);
            Ok(())
        }
        "drain_into" => {
            let channel = question.below(64);
            let mut buffer = [token_in(question), token_in(question)];
            if flow.is_output(channel) {
                let drained = flow.drain_into(channel, &mut buffer);
                let _ = write!(answer, "{drained} {buffer:?}");
            }
            Ok(())
        }
        "end" => {
            flow.end_input(question.below(64));
            answer.push_str("ended")
        }
        other => show(alloc, flow, other, question, answer),
    };
}

/// Drains an output until it holds nothing.
fn drain(flow: &mut CardFlow, channel: usize, answer: &mut String) {
    for _ in 0..100 {
        if !flow.is_output(channel) {
            return;
        }
        let Some(token) = flow.drain(channel) else {
            let _ = answer.push_str("and no more");
            return;
        };
        let _ = write!(answer, "{token:?} ");
    }
}

/// What a flow tells of itself.
fn show(
    alloc: Global,
    flow: &CardFlow,
    what: &str,
    question: &mut Cells<'_>,
    answer: &mut String,
) -> Result<(), std::alloc::AllocError> {
    match what {
        "input" => write!(answer, "{}", flow.is_input(question.below(64))),
        "may_feed" => {
            let channel = question.below(64);
            write!(answer, "{}", flow.may_feed(channel, Token::Word(0)))
        }
        "starved" => write!(answer, "{}", flow.is_starved(question.below(64))),
        "held_up" => write!(answer, "{}", flow.is_held_up(question.below(64))),
        "room" => write!(answer, "{}", flow.has_room(question.below(64))),
        "exhausted" => write!(answer, "{}", flow.is_exhausted()),
        // entries, and the growths among them
        "counts" => write!(answer, "{} {}", flow.entries(), flow.growths()),
        "places" => match places_of(alloc, flow.net(), flow.standings()) {
            Ok(places) => write!(answer, "{:?}", places.as_slice()),
            Err(error) => Err(error),
        },
        // channels and standings
        "sizes" => {
            flow.assure_one_run();
            write!(
                answer,
                "{} {}",
                flow.net().channels(),
                flow.standings().len()
            )
        }
        _ => {
            question.is_bad();
            Ok(())
        }
    }
}
