//! The answer of a task.
ghost use Rattle.std.specs.Prelude.{◌≡◌};
ghost use Rattle.kpn_model.specs.Families.{family};
ghost use Rattle.kpn_body.specs.Input.{input, answer_to, IsAskedCard, IsAskedLocal, IsAnswerTo};

use kpn_model::{Answer, Card, Kinds, Local, Token};
use std::marker::{Model, PhantomData};

/// What a process was asked, and its card's answer. Only a task makes one, and it can't be copied.
#[derive(Drop)]
pub struct Answered<K: Kinds> {
    process: usize,
    card: Card,
    local: Local,
    last: Option<Token>,
    answer: Answer,
    kinds: PhantomData<K>,
}

impl<K: Kinds> Model for Answered<K> {
    ghost use Rattle.kpn_body.specs.Input.{Input, input, IsAnswerTo};
    ghost use Rattle.kpn_model.specs.Families.{family};

    ghost Value = { Input };

    ghost view = { λ a. input a.process a.card a.local a.last };

    ghost invariant = { λ a. IsAnswerTo K.signature K.admits (family K.Kinds) (input a.process a.card a.local a.last) a.answer };
}

impl<K: Kinds> Answered<K> {
    pub(crate) fn new(
        process: usize,
        card: Card,
        local: Local,
        last: Option<Token>,
        answer: Answer,
    ) -> Self
        requires { IsAnswerTo K.signature K.admits (family K.Kinds) (input process card local last) answer }
        ensures { result ≡ input process card local last }
    {
        Answered {
            process,
            card,
            local,
            last,
            answer,
            kinds: PhantomData,
        }
    }

    /// Returns the number of the process.
    pub fn process(&self) -> usize
        ensures { result ≡ self.now.process }
    {
        self.process
    }

    /// Returns the card. It has a signature.
    pub fn card(&self) -> Card
        ensures { IsAskedCard K.signature self.now result }
    {
        self.card
    }

    /// Returns the local state in which the process was asked.
    pub fn local(&self) -> Local
        ensures { IsAskedLocal K.admits self.now result }
    {
        self.local
    }

    /// Returns the last token when the process was asked; `None` if its last act was no read.
    pub fn last(&self) -> Option<Token>
        ensures { result ≡ self.now.last }
    {
        self.last
    }

    /// Returns the card's answer.
    pub fn answer(&self) -> Answer
        ensures { result ≡ answer_to (family K.Kinds) self.now }
    {
        self.answer
    }
}
