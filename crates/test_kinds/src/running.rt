//! Processes of any family, step by step.
ghost use Rattle.std.specs.Prelude.{◌≡◌, true, Some};
ghost use Rattle.kpn_model.specs.Lawful.{in_sort, sort_of};

use kpn_body::{Body, Task};
use kpn_compute::{CardBody, Computes};
use kpn_model::Act::{Read, Stop, Write};
use kpn_model::{Answer, Card, Local, Signature, Sort, Token};
use std::fmt::Write as _;
use test_cells::{small_in, token_in};
use test_kit::Cells;

/// A process of a card.
type Process<K> = Task<CardBody<K>>;

/// Answers a question about a family of kinds.
pub(crate) fn ask<K: Computes>(question: &mut Cells<'_>, answer: &mut String) {
    let _ = match question.word() {
        "name" => {
            let name = match question.word() {
                "\\-" => "",
                name => name,
            };
            write!(answer, "{:?}", K::named(name))
        }
        "accepts" => write!(answer, "{}", K::signature(&card_in(question)).is_some()),
        "ports" => {
            let card = card_in(question);
            match K::signature(&card) {
                Some(ports) => {
                    show_ports(answer, &ports);
                    write!(answer, " {:?}", K::start(&card))
                }
                None => answer.push_str("refused"),
            }
        }
        "step" => {
            if let Some(task) = reached::<K>(question) {
                let next = task.ask();
                show_step(answer, task.local(), task.last(), &next);
            }
            Ok(())
        }
        "acts" => {
            show_acts::<K>(question, answer);
            Ok(())
        }
        "task" => {
            if let Some(task) = reached::<K>(question) {
                show_task(answer, task);
            }
            Ok(())
        }
        _ => {
            question.is_bad();
            Ok(())
        }
    };
}

/// Reads the number of a kind and three arguments.
pub(crate) fn card_in(question: &mut Cells<'_>) -> Card {
    let kind = small_in(question);
    let args = [question.number(), question.number(), question.number()];
    Card { kind, args }
}

/// Appends the ports as help does: those of the inputs, an arrow, and those of the outputs.
pub(crate) fn show_ports(answer: &mut String, ports: &Signature) {
    for sort in ports.ins.iter().flatten() {
        let _ = answer.push_str(if *sort == Sort::Words { "w " } else { "f " });
    }
    let _ = answer.push_str("->");
    for sort in ports.outs.iter().flatten() {
        let _ = answer.push_str(if *sort == Sort::Words { " w" } else { " f" });
    }
}

/// Appends a local state, the token just read, the next local state and the act.
pub(crate) fn show_step(answer: &mut String, local: Local, last: Option<Token>, next: &Answer) {
    let _ = write!(
        answer,
        "{local:?} {last:?} -> {:?} {:?}",
        next.next, next.act
    );
}

/// A process of a card at its start.
fn begun<K: Computes>(question: &mut Cells<'_>) -> Option<Process<K>> {
    let card = card_in(question);
    if K::signature(&card).is_none() {
        question.is_bad();
        return None;
    }
    K::starts(card);
    Some(Task::new(5, CardBody::new(card), K::start(&card), None))
}

/// Reads a card, a number of acts and the tokens that it reads in these, and returns the process after them.
fn reached<K: Computes>(question: &mut Cells<'_>) -> Option<Process<K>> {
    let mut task = begun::<K>(question)?;
    for _ in 0..question.below(1000) {
        go_on(&mut task, question);
    }
    Some(task)
}

/// Does the process's next act, and returns it.
fn go_on<K: Computes>(task: &mut Process<K>, question: &mut Cells<'_>) -> Answer {
    let (card, local, last) = (task.card(), task.local(), task.last());
    let answer = task.ask();
    match answer.act {
        Read(port) => {
            let token = token_in(question);
            if is_taken::<K>(&card, port, token) {
                K::leads_on(card, local, last, token);
                task.renew(answer.next, Some(token));
            } else {
                question.is_bad();
            }
        }
        Write(_, token) => {
            K::leads_on(card, local, last, token);
            task.renew(answer.next, None);
        }
        Stop => question.is_bad(),
    }
    answer
}

/// Whether an input of a card has the sort of a token.
fn is_taken<K: Computes>(card: &Card, port: u8, token: Token) -> bool
    ensures { result ≡ true → in_sort K.signature card.now port ≡ Some (sort_of token) }
{
    match (token, sort_of_input::<K>(card, port)) {
        (Token::Word(_), Some(Sort::Words)) => true,
        (Token::Flag(_), Some(Sort::Flags)) => true,
        _ => false,
    }
}

fn sort_of_input<K: Computes>(card: &Card, port: u8) -> Option<Sort>
    ensures { result ≡ in_sort K.signature card.now port }
{
    let ports = K::signature(card)?;
    ports.ins.get(usize::from(port)).copied().flatten()
}

/// Does a number of acts, and appends what is written, and the act after these.
fn show_acts<K: Computes>(question: &mut Cells<'_>, answer: &mut String) {
    let Some(mut task) = begun::<K>(question) else {
        return;
    };
    for _ in 0..question.below(1000) {
        let done = go_on(&mut task, question);
        if let Write(port, token) = done.act {
            let _ = write!(answer, "{port}:{token:?} ");
        }
    }
    let _ = write!(answer, "then {:?}", task.ask().act);
}

/// What a task holds or held, and its answer.
fn show_held(answer: &mut String, held: (usize, Card, Local, Option<Token>), next: &Answer) {
    let (process, card, local, last) = held;
    let _ = write!(answer, "{process} {} {:?} ", card.kind, card.args);
    show_step(answer, local, last, next);
    let _ = answer.push_str("; ");
}

/// Calls tasks in this state whole and in parts, and appends what each holds, its answer, and the card of the body.
fn show_task<K: Computes>(answer: &mut String, task: Process<K>) {
    let (local, last) = (task.local(), task.last());
    let held = (task.process(), task.card(), local, last);
    show_held(answer, held, &task.ask());
    let finished = Task::new(5, task.into_body(), local, last).call();
    let held = (
        finished.process(),
        finished.card(),
        finished.local(),
        finished.last(),
    );
    show_held(answer, held, &finished.answer());
    let task = Task::new(5, finished.into_body(), local, last);
    let next = task.ask();
    let (answered, body) = task.answered(next).into_parts();
    let held = (
        answered.process(),
        answered.card(),
        answered.local(),
        answered.last(),
    );
    show_held(answer, held, &answered.answer());
    let card = body.card();
    let _ = write!(answer, "{} {:?}", card.kind, card.args);
}
