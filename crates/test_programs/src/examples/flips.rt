//! Runs of networks of flips.
ghost use Rattle.std.specs.Prelude.{◌≡◌, ◌<◌, All, IsSome, IfOk, IfSome, OnErr, Some, length, slice_get};
ghost use Rattle.kpn_machine.specs.Opening.{cards_of};
ghost use Rattle.test_programs.specs.Flips.{ExecutesFlips};
ghost use Rattle.example_own_kinds.specs.Flip.{ports, flip, flips};

use example_own_kinds::{FlipBody, Flips, line_of};
use kpn_execute::execute;
use kpn_front::Sink;
use kpn_net::{Answer, Card, Local, Net, Token};
use kpn_standard::Call;
use std::alloc::{AllocError, Global};
use std::rt::Clock;
use std::sync::Wait;
use std::thread::Threads;

/// A network with its cards, and the channel to show. It comes in an `Option` since, with a `Net` held by value, the
/// check finds no proof of a loop that makes closures.
#[derive(Drop)]
pub(crate) struct FlipsRequest<'a> {
    pub(crate) cards: &'a [Card],
    pub(crate) net: Option<Net<Flips>>,
    pub(crate) show: Option<&'a str>,
}

/// Runs a network of flips with two workers, and writes its report, with the stream of the channel `show`.
/// Returns the exit status. Errors: out of memory for the bodies; nothing is written.
pub(crate) fn run_flips<S: Sink, R: Wait + Clock + Threads + Sync>(
    rt: &R,
    alloc: Global,
    request: FlipsRequest<'_>,
    sink: &mut S,
) -> Result<u8, AllocError>
    requires signed { All (λ card. IsSome (ports card)) request.cards.now }
    requires cards { IfSome request.net (λ n. request.cards.now ≡ cards_of n.processes) }
    requires some { IsSome request.net }
    ensures ok { IfOk result (ExecutesFlips request.entry.net request.entry.show (S.seen sink.old) (S.seen sink.new)) }
    ensures err { OnErr result (sink.new ≡ sink.old) }
{
    let FlipsRequest { cards, net, show } = request;
    let mut bodies = Vec::new(alloc);
    for process in 0..cards.len() {
        let card = signed_card(cards, process);
        let call: Call = Box::new(
            alloc,
            move |local: Local, last: Option<Token>| -> Answer
                ensures { result ≡ flips.answer flip local last }
            { line_of(last) },
        )?;
        bodies.push(FlipBody::new(card, call))?;
    }
    let Some(net) = net else { unreachable!() };
    Ok(execute(rt, alloc, net, bodies, 2, show, sink))
}

fn signed_card(cards: &[Card], process: usize) -> Card
    requires signed { All (λ card. IsSome (ports card)) cards.now }
    requires within { process < length cards.now }
    ensures signed { IsSome (ports result) }
    ensures is { slice_get cards.now process ≡ Some result }
{
    cards[process]
}
