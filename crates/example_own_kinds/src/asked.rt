//! Asks bodies of any family as tasks.
ghost use Rattle.std.specs.Prelude.{◌≡◌, None};

use kpn_body::{Body, Task};
use kpn_net::{Answer, Kinds, Local, Token};

/// Returns a body's answer as the task of process 0.
pub fn answer_of<B: Body>(body: B, local: Local, last: Option<Token>) -> Answer
    requires { B.Kinds.admits (B.card body) local last }
    ensures { result ≡ B.Kinds.answer_of (B.card body) local last }
{
    Task::new(0, body, local, last).call().answer()
}

/// Returns a body's first answer.
pub fn first_answer<B: Body>(body: B) -> Answer
    ensures { result ≡ B.Kinds.answer_of (B.card body) (B.Kinds.start (B.card body)) None }
{
    let card = body.card();
    let start = B::Kinds::start(&card);
    B::Kinds::starts(card);
    answer_of(body, start, None)
}
