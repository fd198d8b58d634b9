//! Tasks and their answers.
ghost use Rattle.std.specs.Prelude.{◌≡◌};
ghost use Rattle.kpn_model.specs.Families.{family};
ghost use Rattle.kpn_body.specs.Input.{input, answer_to, IsAskedCard, IsAskedLocal};

use crate::answered::Answered;
use crate::body::Body;
use kpn_model::{Answer, Card, Kinds, Local, Token};
use std::marker::Model;
use std::ops::Deref;

/// A process that is asked for its next act, with the body that answers for it. The body's card admits the
/// local state and last token. A task can't be copied, and `call` calls its body once.
#[derive(Drop)]
pub struct Task<B: Body> {
    process: usize,
    body: B,
    local: Local,
    last: Option<Token>,
}

impl<B: Body> Model for Task<B> {
    ghost use Rattle.kpn_body.specs.Input.{Input, input};

    ghost Value = { Input };

    ghost view = { λ t. input t.process (B.card t.body) t.local t.last };

    ghost invariant = { λ t. B.Kinds.admits (B.card t.body) t.local t.last };
}

impl<B: Body> Task<B> {
    /// Makes a task of process `process` in this local state, after it read `last` (`None` if its last act was
    /// no read). The body's card must admit the two.
    pub fn new(process: usize, body: B, local: Local, last: Option<Token>) -> Self
        requires { B.Kinds.admits (B.card body) local last }
        ensures { result ≡ input process (B.card body) local last }
    {
        Task {
            process,
            body,
            local,
            last,
        }
    }

    /// Returns the number of the process.
    pub fn process(&self) -> usize
        ensures { result ≡ self.now.process }
    {
        self.process
    }

    /// Returns the body's card. It has a signature.
    pub fn card(&self) -> Card
        ensures { IsAskedCard B.Kinds.signature self.now result }
    {
        self.body.card()
    }

    /// Returns the local state.
    pub fn local(&self) -> Local
        ensures { IsAskedLocal B.Kinds.admits self.now result }
    {
        self.local
    }

    /// Returns the last token; `None` if the last act was no read.
    pub fn last(&self) -> Option<Token>
        ensures { result ≡ self.now.last }
    {
        self.last
    }

    /// Replaces the local state and the last token. The body's card must admit the two.
    #[inline(always)]
    pub fn renew(&mut self, local: Local, last: Option<Token>)
        requires { B.Kinds.admits self.old.card local last }
        ensures { self.new ≡ input self.old.process self.old.card local last }
    {
        let Task {
            process: _,
            body: _,
            local: held,
            last: read,
        } = self;
        *held = local;
        *read = last;
    }

    /// Returns the body without calling it; its card is unchanged.
    #[inline]
    pub fn into_body(self) -> B
        ensures { B.card result ≡ self.card }
    {
        let Task {
            process: _,
            body,
            local: _,
            last: _,
        } = self;
        body
    }

    /// Calls the body, and returns its answer with what it was asked. Takes no lock and no memory.
    #[inline]
    pub fn call(self) -> Finished<B>
        ensures { result ≡ self }
    {
        let answer = self.ask();
        self.answered(answer)
    }

    /// Calls the body and returns its answer, and keeps the task: `answered` joins the two. Each call calls
    /// the body. Takes no lock and no memory.
    #[inline]
    pub fn ask(&self) -> Answer
        ensures { result ≡ answer_to (family B.Kinds.Kinds) self.now }
    {
        self.body.answer(self.local, self.last)
    }

    /// Joins the task and the answer that `ask` returned.
    #[inline]
    pub fn answered(self, answer: Answer) -> Finished<B>
        requires { answer ≡ answer_to (family B.Kinds.Kinds) self }
        ensures { result ≡ self }
    {
        let Task {
            process,
            body,
            local,
            last,
        } = self;
        let card = body.card();
        let answered = Answered::new(process, card, local, last, answer);
        Finished { answered, body }
    }
}

/// A called task: its answer, beside the body. Only a task makes one, and it can't be copied.
#[derive(Drop)]
pub struct Finished<B: Body> {
    answered: Answered<B::Kinds>,
    body: B,
}

impl<B: Body> Model for Finished<B> {
    ghost use Rattle.std.specs.Prelude.{◌≡◌};
    ghost use Rattle.kpn_body.specs.Input.{Input};

    ghost Value = { Input };

    ghost view = { λ f. f.answered };

    ghost invariant = { λ f. f.answered.card ≡ B.card f.body };
}

impl<B: Body> Deref for Finished<B> {
    ghost use Rattle.std.specs.Prelude.{◌≡◌};

    type Target = Answered<B::Kinds>;

    ghost deref_gives = { λ finished answered. answered ≡ finished };

    #[inline(always)]
    fn deref(&self) -> &Answered<B::Kinds> {
        &self.answered
    }
}

impl<B: Body> Finished<B> {
    /// Returns the body; its card is unchanged.
    pub fn into_body(self) -> B
        ensures { B.card result ≡ self.card }
    {
        let Finished { answered: _, body } = self;
        body
    }

    /// Returns the answer with what was asked, and the body with its card unchanged.
    pub fn into_parts(self) -> (Answered<B::Kinds>, B)
        ensures answered { result.0 ≡ self }
        ensures card { B.card result.1 ≡ self.card }
    {
        let Finished { answered, body } = self;
        (answered, body)
    }
}
