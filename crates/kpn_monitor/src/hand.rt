//! A worker's batch of tasks.
ghost use Rattle.std.specs.Prelude.{◌≡◌, ◌+◌, ◌<◌, ◌≤◌, [], ◌∷◌, ◌++◌, length, IfOk, IfNone, IfSome};
ghost use Rattle.kpn_monitor.specs.Hands.{CallsTaskOf, CountsCall, GivesHand};

use crate::giving::{give_all, give_back};
use crate::places::{MOST_TASKS, Places};
use kpn_body::{Body, Finished, Task};
use kpn_machine::{Machine, Outcome};
use kpn_state::Keeper;
use std::alloc::{AllocError, Global};
use std::marker::Model;

/// How workers share the ready processes.
#[derive(Clone, Copy)]
pub(crate) enum Sharing {
    /// One at a time, if there are several workers.
    OneByOne,
    /// In equal shares among all workers.
    AmongAll,
    /// Among the workers awake if more processes are ready than there are workers, otherwise among all.
    AmongAwake,
}

/// The tasks that a worker holds, at most 64, and the outcomes of the answers it gave last. `sharers` workers
/// share the ready processes; no contract mentions them.
#[derive(Drop)]
pub struct Hand<B: Body> {
    places: Places<B>,
    pub(crate) sharer: Sharer,
}

/// How a worker shares the ready processes with others. No contract mentions it.
#[derive(Clone, Copy)]
pub(crate) struct Sharer {
    sharers: usize,
    awake: usize,
    processors: usize,
    wanted_rest: bool,
}

impl<B: Body> Model for Hand<B> {
    ghost use Rattle.std.specs.Prelude.{◌≡◌, []};
    ghost use Rattle.kpn_monitor.specs.Views.{Holding};

    ghost Value = { Holding };

    ghost view = { λ h. record { tasks = h.places.tasks; called = h.places.called; outcomes = h.places.outcomes } };

    ghost invariant = { λ h. (h.places.given ≡ 0) × (h.places.again ≡ []) };
}

impl<B: Body> Hand<B> {
    /// Makes an empty hand for one of `sharers` workers that share the ready processes; 0 counts as 1.
    /// Errors: out of memory.
    pub fn new(alloc: Global, sharers: usize) -> Result<Hand<B>, AllocError>
        ensures { IfOk result (λ h. h ≡ record { tasks = []; called = 0; outcomes = [] }) }
    {
        Ok(Hand {
            places: Places::new(alloc)?,
            sharer: Sharer {
                sharers: sharers.max(1),
                awake: sharers.max(1),
                processors: sharers.max(1),
                wanted_rest: false,
            },
        })
    }

    /// Sets how many threads can run at once, by default as many as there are workers. If that many are
    /// awake, a resting worker continues only if nothing is committed although a process is ready.
    pub fn know_processors(&mut self, processors: usize)
        ensures { self.new ≡ self.old }
    {
        self.sharer.processors = processors.max(1);
    }

    /// Calls the first task not called yet, and returns the number of its process; `None` exactly if all were
    /// called. Takes no lock and no memory.
    #[inline]
    pub fn call(&mut self) -> Option<usize>
        ensures none { IfNone result ((self.old.called ≡ length self.old.tasks) × (self.new ≡ self.old)) }
        ensures some { IfSome result (CallsTaskOf self.old) }
        ensures called { IfSome result (λ _. CountsCall self.old self.new) }
    {
        self.places.call()
    }

    /// Returns the outcomes of the answers given last, in the order of their tasks.
    pub fn outcomes(&self) -> &[Outcome]
        ensures { result.now ≡ self.now.outcomes }
    {
        self.places.outcomes.as_slice()
    }

    /// Returns the number of tasks.
    pub fn len(&self) -> usize
        ensures len { result ≡ length self.now.tasks }
        ensures few { result ≤ 64 }
    {
        self.places.places.len()
    }

    /// Commits the answers, one after the other. At most `keep` processes that can continue go out again at
    /// once. Stops at an answer that the machine did not ask for, and returns it. Then, and if the run has
    /// ended, no process goes out again.
    pub(crate) fn give<H: Keeper>(
        &mut self,
        machine: &mut Machine<B, H>,
        keep: usize,
    ) -> Option<Finished<B>>
        requires { self.old.called ≡ length self.old.tasks }
        ensures { GivesHand B.Kinds.Kinds keep machine.old self.old machine.new self.new result }
    {
        self.places.forget();
        if give_all(machine, &mut self.places, keep) {
            give_back(machine, &mut self.places);
            let refused = self.places.leave();
            self.places.close_up();
            return Some(refused);
        }
        if machine.end().is_some() {
            give_back(machine, &mut self.places);
            self.places.close_up();
            return None;
        }
        self.places.settle();
        None
    }

    #[inline]
    pub(crate) fn put(&mut self, task: Task<B>)
        requires { length self.old.tasks < 64 }
        ensures { self.new ≡ record self.old { tasks = self.old.tasks ++ task ∷ [] } }
    {
        self.places.put(task);
    }
}

impl Sharer {
    /// Whether fewer workers are awake than threads can run at once.
    pub(crate) fn has_processor(&self, awake: u64) -> bool {
        awake < self.processors as u64
    }

    /// Notes how many workers are awake, limited to 2 to `sharers`; 0 means all.
    pub(crate) fn see_awake(&mut self, awake: u64) {
        self.awake = match usize::try_from(awake) {
            Ok(0) | Err(_) => self.sharers,
            Ok(some) => some.max(2).min(self.sharers),
        };
    }

    /// Returns the worker's share of `ready` processes, at least one, at most `most`.
    pub(crate) fn wanted(&self, ready: usize, most: usize, sharing: Sharing) -> usize
        ensures some { (1 ≤ result) × (result ≤ 64) }
        ensures most { 1 ≤ most → result ≤ most }
    {
        let share = match sharing {
            Sharing::OneByOne if self.sharers > 1 => 1,
            Sharing::AmongAwake if ready > self.sharers => ready / self.awake.max(1),
            _ => ready / self.sharers.max(1),
        };
        share.min(most).clamp(1, MOST_TASKS)
    }

    /// Notes that the worker wants to rest. Returns whether it is the first time.
    pub(crate) fn begins_to_rest(&mut self) -> bool {
        let is_first = !self.wanted_rest;
        self.wanted_rest = true;
        is_first
    }
}
