//! The family of the standard kinds.
ghost use Rattle.kpn_standard.specs.Standard.{standard};
ghost use Rattle.kpn_standard.specs.Signatures.{named as number_named, signature as standard_signature};
ghost use Rattle.kpn_standard.specs.Admitted.{Admitted};

use crate::answers::answer;
use crate::kind::Kind;
use kpn_compute::Computes;
use kpn_model::{Answer, Card, Kinds, Local, Signature, Token};

/// The family of the twelve standard kinds.
pub struct Standard;

impl Kinds for Standard {
    ghost named = { number_named };

    ghost signature = { standard_signature };

    ghost start = { standard.start };

    ghost answer_of = { standard.answer };

    ghost admits = { Admitted };

    fn named(name: &str) -> Option<(u16, usize)> {
        let row = Kind::called(name)?.row();
        Some((row.number, row.arguments))
    }

    fn signature(card: &Card) -> Option<Signature> {
        let kind = Kind::numbered(card.kind)?;
        if !kind.accepts(card.args) {
            return None;
        }
        let row = kind.row();
        Some(Signature {
            ins: row.ins,
            outs: row.outs,
        })
    }

    fn start(_card: &Card) -> Local {
        [0; 4]
    }

    #[tactic(auto, using(crate::proofs::LawfulKinds::standard_lawful))]
    fn lawful() {}
}

impl Computes for Standard {
    #[inline(always)]
    fn answer(card: Card, local: Local, last: Option<Token>) -> Answer {
        answer(card, local, last)
    }
}
