//! A family of your own: one kind, `flip`, which reads a flag and writes its negation, forever.
ghost use Rattle.std.specs.Prelude.{◌≡◌, IsSome, IfOk, option_map};
ghost use Rattle.kpn_body.specs.Calls.{IsCallable, Answers, answers_prop};
ghost use Rattle.example_own_kinds.specs.Flip.{number_named, ports, FlipLine, answer, flips, flip};

use crate::asked::answer_of;
use kpn_body::Body;
use kpn_net::{Act, Answer, Card, Kinds, Local, Signature, Sort, Token};
use kpn_standard::Call;
use std::alloc::{AllocError, Global};

/// The family with the one kind `flip`, number 0, without arguments, with one input and one output of flags.
pub struct Flips;

impl Kinds for Flips {
    ghost named = { number_named };

    ghost signature = { ports };

    ghost start = { flips.start };

    ghost answer_of = { flips.answer };

    ghost admits = { λ card. FlipLine };

    fn named(name: &str) -> Option<(u16, usize)> {
        match name {
            "flip" => Some((0, 0)),
            _ => None,
        }
    }

    fn signature(card: &Card) -> Option<Signature> {
        let flags = [Some(Sort::Flags), None, None];
        match card {
            Card {
                kind: 0,
                args: [0, 0, 0],
            } => Some(Signature {
                ins: flags,
                outs: flags,
            }),
            _ => None,
        }
    }

    fn start(_card: &Card) -> Local {
        [0; 4]
    }

    fn lawful() {}
}

/// Returns the answer in a line of the table, by the token just read.
pub fn line_of(last: Option<Token>) -> Answer
    ensures { result ≡ answer last }
{
    match last {
        Some(Token::Flag(flag)) => Answer {
            next: [0, 0, 0, 0],
            act: Act::Write(0, Token::Flag(!flag)),
        },
        _ => Answer {
            next: [1, 0, 0, 0],
            act: Act::Read(0),
        },
    }
}

/// A card of the family, and a closure that answers as the card says.
#[derive(Drop)]
pub struct FlipBody {
    card: Card,
    call: Call,
    ghost signed: { IsSome (ports card) },
    ghost callable: { IsCallable FlipLine (pre call) },
    ghost answers: { Answers FlipLine (post call) (flips.answer card) } by { answers_prop _ _ _ },
}

impl FlipBody {
    /// Makes a body of a card with a signature. `call` must accept each line of the table, and return its answer.
    pub fn new(card: Card, call: Call) -> Self
        requires signed { IsSome (ports card) }
        requires callable { IsCallable FlipLine (pre call) }
        requires answers { Answers FlipLine (post call) (flips.answer card) }
        ensures { result.card ≡ card }
    {
        FlipBody { card, call }
    }
}

impl Body for FlipBody {
    type Kinds = Flips;

    ghost card = { λ body. body.card };

    fn card(&self) -> Card {
        self.card
    }

    fn answer(&self, local: Local, last: Option<Token>) -> Answer {
        (self.call)(local, last)
    }
}

/// Returns the answer of a flip before a read, or after it has read a flag. Errors: out of memory.
pub fn flip_answer(alloc: Global, read: Option<bool>) -> Result<Answer, AllocError>
    ensures { IfOk result (λ a. a ≡ answer (option_map Token.Flag read)) }
{
    let call: Call = Box::new(
        alloc,
        move |local: Local, last: Option<Token>| -> Answer
            ensures { result ≡ flips.answer flip local last }
        { line_of(last) },
    )?;
    let card = Card {
        kind: 0,
        args: [0, 0, 0],
    };
    let body = FlipBody::new(card, call);
    Ok(match read {
        None => answer_of(body, [0, 0, 0, 0], None),
        Some(flag) => answer_of(body, [1, 0, 0, 0], Some(Token::Flag(flag))),
    })
}
