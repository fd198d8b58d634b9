//! A family from its table: `gain` reads a word and writes its product by a factor, or the greatest
//! word if the product is greater, for ever.
ghost use Rattle.example_signals.specs.Gain.{number_named, ports, GainLine, gains};

use kpn_compute::Computes;
use kpn_net::{Act, Answer, Card, Kinds, Local, Signature, Sort, Token};

/// The family whose one kind is `gain`, of number 0, with the factor for its argument, and with an
/// input and an output of words.
pub struct Gains;

impl Kinds for Gains {
    ghost named = { number_named };

    ghost signature = { ports };

    ghost start = { gains.start };

    ghost answer_of = { gains.answer };

    ghost admits = { λ card. GainLine };

    fn named(name: &str) -> Option<(u16, usize)> {
        match name {
            "gain" => Some((0, 1)),
            _ => None,
        }
    }

    fn signature(card: &Card) -> Option<Signature> {
        let words = [Some(Sort::Words), None, None];
        match card {
            Card {
                kind: 0,
                args: [_, 0, 0],
            } => Some(Signature {
                ins: words,
                outs: words,
            }),
            _ => None,
        }
    }

    fn start(_card: &Card) -> Local {
        [0; 4]
    }

    fn lawful() {}
}

impl Computes for Gains {
    fn answer(card: Card, _local: Local, last: Option<Token>) -> Answer {
        match last {
            Some(Token::Word(word)) => Answer {
                next: [0, 0, 0, 0],
                act: Act::Write(0, Token::Word(card.args[0].saturating_mul(word))),
            },
            _ => Answer {
                next: [1, 0, 0, 0],
                act: Act::Read(0),
            },
        }
    }
}
