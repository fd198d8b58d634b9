//! The family of the kinds for signals.
ghost use Rattle.kpn_signals.specs.Shapes.{Admitted};
ghost use Rattle.kpn_signals.specs.Signatures.{number_named, ports};
ghost use Rattle.kpn_signals.specs.Family.{signals};

use crate::answers::answer;
use crate::signal::Signal;
use crate::turns::stops;
use kpn_compute::Computes;
use kpn_model::{Answer, Card, Kinds, Local, Signature, Token};

/// The family of the kinds for signals.
pub struct Signals;

impl Kinds for Signals {
    ghost named = { number_named };

    ghost signature = { ports };

    ghost start = { signals.start };

    ghost answer_of = { signals.answer };

    ghost admits = { λ card. Admitted };

    fn named(name: &str) -> Option<(u16, usize)> {
        let row = Signal::called(name)?.row();
        Some((row.number, row.arguments))
    }

    fn signature(card: &Card) -> Option<Signature> {
        let kind = Signal::numbered(card.kind)?;
        if !kind.accepts(card.args) {
            return None;
        }
        let row = kind.row();
        Some(Signature {
            ins: row.ins,
            outs: row.outs,
        })
    }

    fn start(card: &Card) -> Local {
        match Signal::numbered(card.kind) {
            Some(kind) => kind.start(card.args),
            None => [0; 4],
        }
    }

    #[tactic(auto, using(crate::proofs::LawfulSignals::signals_lawful))]
    fn lawful() {}
}

impl Computes for Signals {
    #[inline(always)]
    fn answer(card: Card, local: Local, last: Option<Token>) -> Answer {
        match Signal::numbered(card.kind) {
            Some(kind) => answer(kind, card.args, local, last),
            None => stops(local),
        }
    }
}
