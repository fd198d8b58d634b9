//! The places of a hand's tasks.
ghost use Rattle.std.specs.Prelude.{◌≡◌, ◌+◌, ◌<◌, ◌≤◌, [], ◌∷◌, ◌++◌, Some, true, false, length, take, drop, slice_get, vec_capacity, IfOk, IfNone, IfSome, IsTrue, ◌↔◌};
ghost use Rattle.kpn_model.specs.Families.{family};
ghost use Rattle.kpn_monitor.specs.Places.{CallsNext, HasFirst, Stays, settled_places, MovesUp};

use kpn_body::{Body, Finished, Task};
use kpn_machine::{Machine, Outcome};
use kpn_model::Answer;
use kpn_state::Keeper;
use std::alloc::{AllocError, Global};
use std::marker::Model;

pub(crate) const MOST_TASKS: usize = 64;

/// The tasks of a hand, and the answers of those called. `new` takes all memory.
///
/// Answers are given in order. Meanwhile the first places hold tasks that went out again; then come free
/// places, then tasks with answers not given yet. A task that goes out again stays in its place unless an
/// earlier one is free.
#[derive(Drop)]
pub(crate) struct Places<B: Body> {
    pub(crate) places: Vec<Option<Task<B>>>,
    answers: Vec<Answer>,
    given: usize,
    kept: usize,
    pub(crate) outcomes: Vec<Outcome>,
}

impl<B: Body> Model for Places<B> {
    ghost use Rattle.std.specs.Prelude.{◌≡◌, ◌≤◌, ◌-◌, length, take, drop, vec_capacity};
    ghost use Rattle.kpn_monitor.specs.Views.{Placed};
    ghost use Rattle.kpn_monitor.specs.Places.{IsLaidOut, tasks_in};
    ghost use Rattle.kpn_model.specs.Families.{family};

    ghost Value = { Placed };

    ghost view = { λ p. record { again = tasks_in (take p.kept p.places.items); tasks = tasks_in (drop p.given p.places.items); called = length p.answers.items - p.given; given = p.given; outcomes = p.outcomes.items } };

    ghost invariant = { λ p. IsLaidOut (family B.Kinds.Kinds) p.places.items p.answers.items p.given p.kept × (64 ≤ vec_capacity p.places) × (64 ≤ vec_capacity p.answers) × (64 ≤ vec_capacity p.outcomes) };
}

impl<B: Body> Places<B> {
    /// Makes places without tasks. Errors: out of memory.
    pub(crate) fn new(alloc: Global) -> Result<Places<B>, AllocError>
        ensures { IfOk result (λ p. p ≡ record { again = []; tasks = []; called = 0; given = 0; outcomes = [] }) }
    {
        Ok(Places {
            places: Vec::with_capacity(alloc, MOST_TASKS)?,
            answers: Vec::with_capacity(alloc, MOST_TASKS)?,
            given: 0,
            kept: 0,
            outcomes: Vec::with_capacity(alloc, MOST_TASKS)?,
        })
    }

    /// Calls the first task not called yet, and returns the number of its process.
    #[inline(always)]
    pub(crate) fn call(&mut self) -> Option<usize>
        ensures { CallsNext self.old result self.new }
    {
        let place = self.answers.len();
        if place >= self.places.len() {
            return None;
        }
        let Some(task) = &self.places[place] else {
            unreachable!()
        };
        let process = task.process();
        self.answers.push_reserved(task.ask());
        Some(process)
    }

    pub(crate) fn forget(&mut self)
        ensures forgotten { self.new ≡ record self.old { outcomes = [] } }
        ensures few { length self.old.tasks ≤ 64 }
        ensures within { self.old.called ≤ length self.old.tasks }
    {
        self.outcomes.clear();
    }

    /// Appends a task. No answer may have been given since the last `settle`.
    #[inline(always)]
    pub(crate) fn put(&mut self, task: Task<B>)
        requires settled { self.old.given ≡ 0 }
        requires room { length self.old.tasks < 64 }
        ensures { self.new ≡ record self.old { tasks = self.old.tasks ++ task ∷ [] } }
    {
        self.places.push_reserved(Some(task));
    }

    #[inline(always)]
    pub(crate) fn has_answer(&self) -> bool
        ensures { IsTrue result ↔ (0 < self.now.called) }
    {
        self.given < self.answers.len()
    }

    #[inline(always)]
    pub(crate) fn kept(&self) -> usize
        ensures { result ≡ length self.now.again }
    {
        self.kept
    }

    #[inline(always)]
    pub(crate) fn first(&self) -> &Task<B>
        requires { 0 < self.now.called }
        ensures { slice_get self.now.tasks 0 ≡ Some result.now }
    {
        let Some(task) = &self.places[self.given] else {
            unreachable!()
        };
        task
    }

    #[inline(always)]
    pub(crate) fn leave(&mut self) -> Finished<B>
        requires { 0 < self.old.called }
        ensures first { self.old.tasks ≡ result ∷ self.new.tasks }
        ensures called { self.old.called ≡ self.new.called + 1 }
        ensures again { self.new.again ≡ self.old.again }
        ensures outcomes { self.new.outcomes ≡ self.old.outcomes }
    {
        let answer = self.answers[self.given];
        let Some(task) = self.places[self.given].take() else {
            unreachable!()
        };
        self.given += 1;
        task.answered(answer)
    }
}

impl<B: Body> Places<B> {
    /// Commits the first answer and keeps the task as the process's next one, if it can go out again at once:
    /// its read or write can be done, and the run continues. Otherwise returns false.
    #[inline(always)]
    pub(crate) fn stay<H: Keeper>(&mut self, machine: &mut Machine<B, H>) -> bool
        requires { HasFirst machine.old self.old }
        ensures stays { result ≡ true → Stays (family B.Kinds.Kinds) machine.old self.old machine.new self.new }
        ensures same { result ≡ false → (self.new ≡ self.old) × (machine.new ≡ machine.old) }
    {
        let answer = self.answers[self.given];
        let Some(task) = &mut self.places[self.given] else {
            unreachable!()
        };
        let Some(outcome) = machine.commit_on(task, answer) else {
            return false;
        };
        move_up(&mut self.places, self.kept, self.given);
        self.kept += 1;
        self.given += 1;
        self.outcomes.push_reserved(outcome);
        true
    }

    #[inline(always)]
    pub(crate) fn note(&mut self, outcome: Outcome)
        requires { length self.old.outcomes < 64 }
        ensures { self.new ≡ record self.old { outcomes = self.old.outcomes ++ outcome ∷ [] } }
    {
        self.outcomes.push_reserved(outcome);
    }

    /// Makes the tasks that went out again the next to call.
    pub(crate) fn settle(&mut self)
        requires { self.old.tasks ≡ [] }
        ensures { self.new ≡ settled_places self.old }
    {
        self.places.truncate(self.kept);
        self.answers.clear();
        self.given = 0;
        self.kept = 0;
    }

    pub(crate) fn withdraw(&mut self) -> Option<Task<B>>
        ensures none { IfNone result ((self.old.again ≡ []) × (self.new ≡ self.old)) }
        ensures some { IfSome result (λ _. self.new ≡ record self.old { again = self.new.again }) }
        ensures last { IfSome result (λ i. self.old.again ≡ self.new.again ++ i ∷ []) }
    {
        if self.kept == 0 {
            return None;
        }
        self.kept -= 1;
        self.places[self.kept].take()
    }

    /// Removes the free places before the tasks. None may have gone out again.
    pub(crate) fn close_up(&mut self)
        requires { self.old.again ≡ [] }
        ensures { self.new ≡ record self.old { given = 0 } }
    {
        let places = self.places.len() - self.given;
        self.places.rotate_left(self.given);
        self.places.truncate(places);
        let answers = self.answers.len() - self.given;
        self.answers.rotate_left(self.given);
        self.answers.truncate(answers);
        self.kept = 0;
        self.given = 0;
    }
}

#[inline(always)]
fn move_up<T>(places: &mut Vec<T>, to: usize, from: usize)
    requires order { to ≤ from }
    requires within { from < length places.old.items }
    ensures first { MovesUp places.old.items to from places.new.items }
    ensures rest { drop (from + 1) places.new.items ≡ drop (from + 1) places.old.items }
    ensures len { length places.new.items ≡ length places.old.items }
    ensures capacity { vec_capacity places.new ≡ vec_capacity places.old }
{
    if to < from {
        places.swap(to, from);
    }
}
