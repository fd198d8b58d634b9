//! How many tasks a worker takes at a time, and when it rests.
//!
//! No contract depends on this. Times are in nanoseconds from any start.

use kpn_monitor::{Next, Rest};

/// The greatest number of tasks in a round.
const MOST: usize = 64;
/// If a round's calls take less time than this many of its exchanges, the next round may have twice as many
/// tasks.
const FEW_EXCHANGES: u64 = 8;
/// If they take longer than this many, it has half as many.
const MANY_EXCHANGES: u64 = 16;
/// After a round with calls shorter than `BRIEF`, the clock is not read for `UNTIMED_ROUNDS` rounds if the
/// rounds pay; for `ALONE_ROUNDS` if they don't but no other worker is awake, doubled each time in a row up
/// to `MOST_ALONE_ROUNDS`.
const BRIEF: u64 = 1_000;

const UNTIMED_ROUNDS: u32 = 7;

const ALONE_ROUNDS: u32 = 31;

const MOST_ALONE_ROUNDS: u32 = 1_023;
/// A worker is spare once the rounds that didn't pay outnumber those that did by this many.
const PATIENCE: u32 = 8;
/// A worker starts to ask bodies in place if a round's calls took less than `SHORT_CALL` on average: first
/// one per holding of the lock, then up to twice as many each time, at most `MOST_IN_PLACE`. It stops if they
/// take longer than `LONG_ANSWER` each, including the machine's work, plus `START`.
const SHORT_CALL: u64 = 150;

const MOST_IN_PLACE: u64 = 256;

const LONG_ANSWER: u64 = 250;

const START: u64 = 2_000;
/// The strain of waiting for the lock to ask in place: another worker is doing so.
const WAITED: u32 = 2;
/// A worker without a task looks for one for `LOOKS` times as long as its last calls took, at most for
/// `LONGEST_LOOK`, and then rests.
const LOOKS: u64 = 4;

const LONGEST_LOOK: u64 = 50_000;

#[derive(Clone, Copy)]
pub(crate) enum NextStep {
    Go,
    Pause,
    Rest(Rest),
}

/// What a worker knows of its last rounds. A round is an exchange and the calls of its tasks.
#[derive(Clone, Copy)]
pub(crate) struct Pace {
    most: usize,
    /// How long the last calls and the last exchange took.
    calling: u64,
    exchanging: u64,
    /// How long the worker has found nothing to do.
    looking: u64,
    /// How many more rounds didn't pay than did.
    strain: u32,
    /// When the last calls, exchange or rest ended.
    then: u64,
    /// How many rounds to come are untimed; and how many will be if the worker is spare but the last awake.
    untimed: u32,
    alone: u32,
    /// Whether bodies may be asked in place, and how many are in one holding of the lock (0: none).
    may_ask: bool,
    in_place: u64,
}

impl Pace {
    pub(crate) fn new(now: u64, may_ask: bool) -> Pace {
        Pace {
            most: 1,
            calling: 0,
            exchanging: 0,
            looking: 0,
            strain: 0,
            then: now,
            untimed: 0,
            alone: ALONE_ROUNDS,
            may_ask,
            in_place: u64::from(may_ask),
        }
    }

    pub(crate) fn in_place(&self) -> u64 {
        self.in_place
    }

    pub(crate) fn is_timed(&self) -> bool {
        self.untimed == 0
    }

    pub(crate) fn most(&self) -> usize {
        self.most.max(1)
    }

    /// Ends an untimed round. Returns whether the next one is timed.
    pub(crate) fn pass(&mut self) -> bool {
        self.untimed = self.untimed.saturating_sub(1);
        self.untimed == 0
    }

    /// Begins a timed round.
    pub(crate) fn resume(&mut self, now: u64) {
        self.untimed = 0;
        self.then = now;
    }

    /// Returns how many tasks to take: none if the worker continues in place, or is spare because exchanges
    /// lately took longer than calls.
    pub(crate) fn called(&mut self, calls: u64, now: u64) -> usize {
        let took = now.saturating_sub(self.then);
        self.then = now;
        if calls > 0 {
            self.judge(calls, took);
        } else {
            self.looking = self.looking.saturating_add(took);
        }
        if self.in_place > 0 || self.strain >= PATIENCE {
            0
        } else {
            self.most()
        }
    }

    fn judge(&mut self, calls: u64, took: u64) {
        self.calling = took;
        self.in_place = u64::from(self.may_ask && took < calls.saturating_mul(SHORT_CALL));
        if took < self.exchanging.saturating_mul(FEW_EXCHANGES) {
            self.most = self.most.saturating_mul(2).min(MOST);
        } else if took > self.exchanging.saturating_mul(MANY_EXCHANGES) {
            self.most /= 2;
        }
        if took < self.exchanging {
            self.strain = self.strain.saturating_add(1);
        } else {
            self.strain = self.strain.saturating_sub(1);
        }
    }

    pub(crate) fn exchanged(&mut self, next: Next, now: u64) -> NextStep {
        self.exchanging = now.saturating_sub(self.then);
        self.then = now;
        if self.in_place > 0 {
            return NextStep::Go;
        }
        match next {
            Next::Tasks | Next::Over(_) => {
                self.looking = 0;
                if self.calling < BRIEF && self.strain == 0 {
                    self.untimed = UNTIMED_ROUNDS;
                }
                NextStep::Go
            }
            Next::Nothing => self.step_without_task(),
        }
    }

    fn step_without_task(&mut self) -> NextStep {
        self.looking = self.looking.saturating_add(self.exchanging);
        if self.strain >= PATIENCE {
            NextStep::Rest(Rest::Spare)
        } else if self.looking > self.calling.saturating_mul(LOOKS).min(LONGEST_LOOK) {
            NextStep::Rest(Rest::Idle)
        } else {
            NextStep::Pause
        }
    }

    pub(crate) fn asked(&mut self, waited: bool, now: u64) {
        let took = now.saturating_sub(self.then);
        self.then = now;
        self.looking = 0;
        self.strain = if waited {
            self.strain.saturating_add(WAITED)
        } else {
            self.strain.saturating_sub(1)
        };
        let longest = self
            .in_place
            .saturating_mul(LONG_ANSWER)
            .saturating_add(START);
        self.in_place = if took > longest || self.strain >= PATIENCE {
            0
        } else {
            self.in_place.saturating_mul(2).min(MOST_IN_PLACE)
        };
    }

    pub(crate) fn stop_asking(&mut self) {
        self.in_place = 0;
    }

    /// A spare worker that rested is spare again after a few more rounds that don't pay. One that was needed
    /// does not ask again for a while.
    pub(crate) fn rested(&mut self, rested: bool, now: u64) {
        self.looking = 0;
        self.then = now;
        if rested {
            self.strain = self.strain.min(PATIENCE / 2);
            self.alone = ALONE_ROUNDS;
        } else if self.strain >= PATIENCE {
            self.untimed = self.alone;
            self.alone = self.alone.saturating_mul(2).min(MOST_ALONE_ROUNDS);
            self.strain = PATIENCE - 2;
        } else {
            self.strain = 0;
        }
    }
}
