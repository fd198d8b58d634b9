//! What a scene has in hand that belongs to no monitor by its type.
ghost use Rattle.std.specs.Prelude.{◌≡◌, length};

use kpn_body::{Body, Finished, Task};
use kpn_monitor::Hand;
use kpn_net::Kinds;
use std::alloc::{AllocError, Global};
use std::fmt::Write as _;
use std::sync::Wait;
use test_kit::Cells;

/// Tasks that were taken, answers to be committed, the last one first, and hands; and bodies that no monitor has.
#[derive(Drop)]
pub(crate) struct Loose<B: Body> {
    pub(crate) alloc: Global,
    pub(crate) tasks: Vec<Task<B>>,
    pub(crate) answers: Vec<Finished<B>>,
    pub(crate) hands: Vec<Hand<B>>,
    pub(crate) spare: Vec<B>,
}

impl<B: Body> Loose<B> {
    pub(crate) fn new(alloc: Global, spare: Vec<B>) -> Loose<B> {
        Loose {
            alloc,
            tasks: Vec::new(alloc),
            answers: Vec::new(alloc),
            hands: Vec::new(alloc),
            spare,
        }
    }

    /// Executes a command:
    ///
    /// - `call N` calls the Nth task, `drop N` drops it;
    /// - `unasked` makes an answer of process 0 at its start that no monitor asked for, by the spare body but the last;
    /// - `hand N` makes a hand for one worker, which knows that N threads can run at once.
    pub(crate) fn act(
        &mut self,
        command: &mut Cells<'_>,
        answer: &mut String,
    ) -> Result<(), AllocError> {
        let verb = command.word();
        if verb == "unasked" {
            self.spare.pop();
            let Some(body) = self.spare.pop() else {
                return Err(AllocError);
            };
            self.answers.push(unasked(body))?;
            return answer.push_str("an answer");
        }
        if verb == "hand" {
            let mut hand = Hand::new(self.alloc, 1)?;
            hand.know_processors(command.below(100));
            self.hands.push(hand)?;
            return answer.push_str("a hand");
        }
        let place = command.below(self.tasks.len());
        if place >= self.tasks.len() {
            return Err(AllocError);
        }
        let task = self.tasks.remove(place);
        write!(answer, "{}", task.process())?;
        if verb == "call" {
            self.answers.push(task.call())?;
        }
        Ok(())
    }
}

fn unasked<B: Body>(body: B) -> Finished<B> {
    let card = body.card();
    let start = B::Kinds::start(&card);
    B::Kinds::starts(card);
    Task::new(0, body, start, None).call()
}

/// Calls the tasks of a hand that were not called yet, and appends the numbers of their processes.
pub(crate) fn call_all<B: Body, R: Wait>(rt: &R, hand: &mut Hand<B>, answer: &mut String)
    ensures { hand.new.called ≡ length hand.new.tasks }
{
    for _ in rt.forever() {
        let Some(process) = hand.call() else {
            return;
        };
        let _ = write!(answer, "{process} ");
    }
    unreachable!()
}
