//! The family of kinds that go in rounds.
ghost use Rattle.kpn_rounds.specs.Rounds.{rounds_family, RoundsAdmit};

use crate::numbers::Numbers;
use crate::ports::count;
use crate::rounds::Rounds;
use crate::turns::{Turn, carried, next_turn, reading, with_inputs, writes};
use kpn_compute::Computes;
use kpn_model::{Answer, Card, Kinds, Local, Signature, Token};
use std::marker::PhantomData;

/// The family of the kinds of `R`. In each round a process reads its inputs, steps, and writes its outputs, each in the
/// order of the ports.
///
/// With at most one input and one output, its local state is the four words that it keeps. Else it is the first two of
/// these, then a number that the process holds (an input that was read, or an output that is left) and a constant of
/// [`crate::turns`] that says which. A second number takes the place of the second word.
pub struct Rounded<R: Rounds> {
    rounds: PhantomData<R>,
}

impl<R: Rounds> Kinds for Rounded<R> {
    ghost named = { R.named };

    ghost signature = { R.ports };

    ghost start = { (rounds_family R.ports R.start R.step).start };

    ghost answer_of = { (rounds_family R.ports R.start R.step).answer };

    ghost admits = { RoundsAdmit R.ports };

    fn named(name: &str) -> Option<(u16, usize)> {
        R::named(name)
    }

    fn signature(card: &Card) -> Option<Signature> {
        R::ports(card)
    }

    fn start(card: &Card) -> Local {
        let kept = R::start(card);
        match R::ports(card) {
            Some(ports) => with_inputs(&ports, kept, Numbers::None),
            None => kept,
        }
    }

    #[tactic(auto, using(crate::proofs::RoundedLawful::rounded_lawful))]
    fn lawful() {
        R::lawful();
    }
}

impl<R: Rounds> Computes for Rounded<R> {
    #[inline(always)]
    fn answer(card: Card, local: Local, last: Option<Token>) -> Answer {
        let ports = R::known_ports(&card);
        match next_turn(&ports, local, last) {
            Turn::Reads(inputs) => reading(&ports, local, inputs),
            Turn::Writes(left) => writes(&ports, local, left),
            Turn::Steps(inputs) => {
                // A call gets its arguments as places in memory: the step gets those of a copy, and the card itself, which
                // other families read too, stays in registers.
                let [first, second, third] = card.args;
                let copy = Card {
                    kind: card.kind,
                    args: [first, second, third],
                };
                let (kept, made) = R::step(copy, carried(&ports, local), inputs.words());
                writes(&ports, kept, Numbers::first(count(&ports.outs), made))
            }
        }
    }
}
