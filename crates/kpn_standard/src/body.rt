//! The bodies of the standard kinds.
ghost use Rattle.std.specs.Prelude.{◌≡◌, IsSome};
ghost use Rattle.kpn_standard.specs.Standard.{standard};
ghost use Rattle.kpn_standard.specs.Signatures.{signature};
ghost use Rattle.kpn_standard.specs.Admitted.{Admitted};
ghost use Rattle.kpn_body.specs.Calls.{IsCallable, Answers, answers_prop};

use crate::standard::Standard;
use kpn_body::Body;
use kpn_model::{Answer, Card, Local, Token};

/// A stored closure from a local state and the last token to the answer.
pub type Call = Box<dyn Fn(Local, Option<Token>) -> Answer + Send>;

/// A standard card, and a closure that returns its answers.
#[derive(Drop)]
pub struct StandardBody {
    card: Card,
    call: Call,
    ghost signed: { IsSome (signature card) },
    ghost callable: { IsCallable (Admitted card) (pre call) },
    ghost answers: { Answers (Admitted card) (post call) (standard.answer card) } by { answers_prop _ _ _ },
}

impl StandardBody {
    /// Makes a body of a card that has a signature. `call` must return the card's answers to what it admits.
    pub fn new(card: Card, call: Call) -> Self
        requires signed { IsSome (signature card) }
        requires callable { IsCallable (Admitted card) (pre call) }
        requires answers { Answers (Admitted card) (post call) (standard.answer card) }
        ensures { result.card ≡ card }
    {
        StandardBody { card, call }
    }
}

impl Body for StandardBody {
    type Kinds = Standard;

    ghost card = { λ body. body.card };

    fn card(&self) -> Card {
        self.card
    }

    #[inline(always)]
    fn answer(&self, local: Local, last: Option<Token>) -> Answer {
        by_words((self.call)(local, last))
    }
}

/// Returns the answer, rebuilt word by word: a closure stores its answer in memory, one word at a time, and a
/// copy of the whole would load two words at once, and stall until both stores are done.
#[inline(always)]
pub fn by_words(answer: Answer) -> Answer
    ensures { result ≡ answer }
{
    let Answer { next, act } = answer;
    let [first, second, third, fourth] = next;
    Answer {
        next: [first, second, third, fourth],
        act,
    }
}
