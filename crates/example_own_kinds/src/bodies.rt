//! Bodies for a network of standard kinds.
ghost use Rattle.std.specs.Prelude.{◌≡◌, IsSome, IfOk};
ghost use Rattle.kpn_standard.specs.Standard.{standard};
ghost use Rattle.kpn_standard.specs.Signatures.{signature};
ghost use Rattle.kpn_standard.specs.Admitted.{Admitted};
ghost use Rattle.example_own_kinds.specs.First.{answers_at_start, answers_of_bodies};

use crate::asked::first_answer;
use kpn_body::Body;
use kpn_net::{Answer, Local, Net, Token};
use kpn_standard::{Call, Standard, StandardBody, answer};
use std::alloc::{AllocError, Global};

/// Returns the first answer of each process, in order, from a body made with a closure of its own. The closure
/// captures the card, and its clauses name nothing else; so one closure serves all kinds. Errors: out of memory.
pub fn first_answers(alloc: Global, net: &Net<Standard>) -> Result<Vec<Answer>, AllocError>
    ensures { IfOk result (λ answers. answers.items ≡ answers_at_start standard net.now.processes) }
{
    let mut bodies = Vec::new(alloc);
    for process in 0..net.processes() {
        let card = net.card(process);
        let call: Call = Box::new(
            alloc,
            move |local: Local, last: Option<Token>| -> Answer
                requires signed { IsSome (signature card) }
                requires admitted { Admitted card local last }
                ensures { result ≡ standard.answer card local last }
            { answer(card, local, last) },
        )?;
        bodies.push(StandardBody::new(card, call))?;
    }
    each_first_answer(alloc, bodies)
}

fn each_first_answer<B: Body>(alloc: Global, bodies: Vec<B>) -> Result<Vec<Answer>, AllocError>
    ensures { IfOk result (λ answers. answers.items ≡ answers_of_bodies B.Kinds.Kinds B.card bodies.items) }
{
    let mut answers = Vec::with_capacity(alloc, bodies.len())?;
    for body in bodies {
        answers.push(first_answer(body))?;
    }
    Ok(answers)
}
