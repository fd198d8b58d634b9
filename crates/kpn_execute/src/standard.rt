//! Networks of standard kinds.
ghost use Rattle.std.specs.Prelude.{◌≡◌, ◌<◌, All, IsSome, IfOk, MatchOption, OnErr, Some, length, slice_get};
ghost use Rattle.kpn_standard.specs.Standard.{standard};
ghost use Rattle.kpn_standard.specs.Signatures.{card_of_kind, signature};
ghost use Rattle.kpn_standard.specs.Table.{row_of};
ghost use Rattle.kpn_standard.specs.Admitted.{Admitted};
ghost use Rattle.kpn_body.specs.Calls.{IsCallable};
ghost use Rattle.kpn_machine.specs.Opening.{cards_of};
ghost use Rattle.kpn_execute.specs.StandardRequests.{AnswersAs, ExecutesRequest};
ghost use Rattle.kpn_execute.specs.Execution.{MakesAndExecutes, name_shown};

use crate::execution::execute;
use kpn_front::{Sink, say_refused};
use kpn_machine::cards_of;
use kpn_net::{Answer, Card, Local, Net, NetFault, Token};
use kpn_standard::{
    Call, Kind, Standard, StandardBody, add, by_words, copy, count, divides, merge, prefix, scale,
    select, sink as standard_sink, switch, take, weave,
};
use std::alloc::{AllocError, Global};
use std::rt::Clock;
use std::sync::Wait;
use std::thread::Threads;

/// Runs a network of standard kinds, like `execute`, and makes a body for each process, with its own closure.
///
/// Returns the exit status of `execute`, or 4 if out of memory for a body (`refused 14`).
pub fn execute_standard<S: Sink, R: Wait + Clock + Threads + Sync>(
    rt: &R,
    alloc: Global,
    net: Net<Standard>,
    workers: usize,
    show: Option<&str>,
    sink: &mut S,
) -> u8
    ensures { MakesAndExecutes standard net workers (name_shown show.entry) (S.seen sink.old) (S.seen sink.new) result }
{
    let Ok(cards) = cards_of(alloc, &net) else {
        return say_refused(&NetFault::Memory, sink);
    };
    let request = CardsRequest {
        cards: cards.as_slice(),
        net: Some(net),
        workers,
        show,
    };
    match make_and_execute(rt, alloc, request, sink) {
        Ok(status) => status,
        Err(_) => say_refused(&NetFault::Memory, sink),
    }
}

/// A network that has no bodies yet, with its cards, and how it is to be run and shown.
#[derive(Drop)]
struct CardsRequest<'a> {
    cards: &'a [Card],
    net: Option<Net<Standard>>,
    workers: usize,
    show: Option<&'a str>,
}

/// Errors: out of memory for a body; nothing is written. Each closure has only the code of its kind, so no
/// call looks up the kind. They are made here, since no function could return a boxed closure, and no macro
/// can hold their clauses. The network is in an `Option`, since with a `Net` by value no proof is found of a
/// loop that makes closures.
fn make_and_execute<S: Sink, R: Wait + Clock + Threads + Sync>(
    rt: &R,
    alloc: Global,
    request: CardsRequest<'_>,
    sink: &mut S,
) -> Result<u8, AllocError>
    requires signed { All (λ card. IsSome (signature card)) request.cards.now }
    requires cards { MatchOption request.net ⊥ (λ n. request.cards.now ≡ cards_of n.processes) }
    ensures ok { IfOk result (ExecutesRequest request.entry (S.seen sink.old) (S.seen sink.new)) }
    ensures err { OnErr result (sink.new ≡ sink.old) }
{
    let CardsRequest {
        cards,
        net,
        workers,
        show,
    } = request;
    let mut bodies = Vec::new(alloc);
    for process in 0..cards.len() {
        let signed = signed_card(cards, process);
        let kind = signed.kind;
        let args = signed.card.args;
        let body = match kind {
            Kind::Count => {
                let call: Call = Box::new(
                    alloc,
                    move |local: Local, last: Option<Token>| -> Answer
                        requires { IsSome (signature (card_of_kind Kind.Count args)) }
                        ensures { result ≡ standard.answer (card_of_kind Kind.Count args) local last }
                    { by_words(count(args, local, last)) },
                )?;
                body_of(signed, Kind::Count, call)
            }
            Kind::Sink => {
                let call: Call = Box::new(
                    alloc,
                    move |local: Local, last: Option<Token>| -> Answer
                        ensures { result ≡ standard.answer (card_of_kind Kind.Sink args) local last }
                    { by_words(standard_sink(args, local, last)) },
                )?;
                body_of(signed, Kind::Sink, call)
            }
            Kind::Take => {
                let call: Call = Box::new(
                    alloc,
                    move |local: Local, last: Option<Token>| -> Answer
                        requires { Admitted (card_of_kind Kind.Take args) local last }
                        ensures { result ≡ standard.answer (card_of_kind Kind.Take args) local last }
                    { by_words(take(args, local, last)) },
                )?;
                body_of(signed, Kind::Take, call)
            }
            Kind::Copy => {
                let call: Call = Box::new(
                    alloc,
                    move |local: Local, last: Option<Token>| -> Answer
                        ensures { result ≡ standard.answer (card_of_kind Kind.Copy args) local last }
                    { by_words(copy(args, local, last)) },
                )?;
                body_of(signed, Kind::Copy, call)
            }
            Kind::Prefix => {
                let call: Call = Box::new(
                    alloc,
                    move |local: Local, last: Option<Token>| -> Answer
                        ensures { result ≡ standard.answer (card_of_kind Kind.Prefix args) local last }
                    { by_words(prefix(args, local, last)) },
                )?;
                body_of(signed, Kind::Prefix, call)
            }
            Kind::Add => {
                let call: Call = Box::new(
                    alloc,
                    move |local: Local, last: Option<Token>| -> Answer
                        ensures { result ≡ standard.answer (card_of_kind Kind.Add args) local last }
                    { by_words(add(args, local, last)) },
                )?;
                body_of(signed, Kind::Add, call)
            }
            Kind::Scale => {
                let call: Call = Box::new(
                    alloc,
                    move |local: Local, last: Option<Token>| -> Answer
                        ensures { result ≡ standard.answer (card_of_kind Kind.Scale args) local last }
                    { by_words(scale(args, local, last)) },
                )?;
                body_of(signed, Kind::Scale, call)
            }
            Kind::Weave => {
                let call: Call = Box::new(
                    alloc,
                    move |local: Local, last: Option<Token>| -> Answer
                        requires { Admitted (card_of_kind Kind.Weave args) local last }
                        ensures { result ≡ standard.answer (card_of_kind Kind.Weave args) local last }
                    { by_words(weave(args, local, last)) },
                )?;
                body_of(signed, Kind::Weave, call)
            }
            Kind::Merge => {
                let call: Call = Box::new(
                    alloc,
                    move |local: Local, last: Option<Token>| -> Answer
                        ensures { result ≡ standard.answer (card_of_kind Kind.Merge args) local last }
                    { by_words(merge(args, local, last)) },
                )?;
                body_of(signed, Kind::Merge, call)
            }
            Kind::Divides => {
                let call: Call = Box::new(
                    alloc,
                    move |local: Local, last: Option<Token>| -> Answer
                        requires { IsSome (signature (card_of_kind Kind.Divides args)) }
                        ensures { result ≡ standard.answer (card_of_kind Kind.Divides args) local last }
                    { by_words(divides(args, local, last)) },
                )?;
                body_of(signed, Kind::Divides, call)
            }
            Kind::Switch => {
                let call: Call = Box::new(
                    alloc,
                    move |local: Local, last: Option<Token>| -> Answer
                        requires { Admitted (card_of_kind Kind.Switch args) local last }
                        ensures { result ≡ standard.answer (card_of_kind Kind.Switch args) local last }
                    { by_words(switch(args, local, last)) },
                )?;
                body_of(signed, Kind::Switch, call)
            }
            Kind::Select => {
                let call: Call = Box::new(
                    alloc,
                    move |local: Local, last: Option<Token>| -> Answer
                        ensures { result ≡ standard.answer (card_of_kind Kind.Select args) local last }
                    { by_words(select(args, local, last)) },
                )?;
                body_of(signed, Kind::Select, call)
            }
        };
        bodies.push(body)?;
    }
    let Some(net) = net else { unreachable!() };
    Ok(execute(rt, alloc, net, bodies, workers, show, sink))
}

/// A card that has a signature, and its kind.
#[derive(Clone, Copy)]
struct SignedCard {
    card: Card,
    kind: Kind,
    ghost signed: { IsSome (signature card) },
    ghost number: { (row_of kind).number ≡ card.kind },
}

fn signed_card(cards: &[Card], process: usize) -> SignedCard
    requires signed { All (λ card. IsSome (signature card)) cards.now }
    requires within { process < length cards.now }
    ensures { slice_get cards.now process ≡ Some result.card }
{
    let card = cards[process];
    match Kind::numbered(card.kind) {
        Some(kind) => SignedCard { card, kind },
        None => unreachable!(),
    }
}

fn body_of(signed: SignedCard, kind: Kind, call: Call) -> StandardBody
    requires number { (row_of kind).number ≡ signed.card.kind }
    requires callable { IsCallable (Admitted (card_of_kind kind signed.card.args)) (pre call) }
    requires answers { AnswersAs (card_of_kind kind signed.card.args) (post call) }
    ensures { result.card ≡ signed.card }
{
    StandardBody::new(signed.card, call)
}
