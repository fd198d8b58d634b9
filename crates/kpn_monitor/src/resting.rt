//! Which threads rest, and when. No contract depends on this.

use std::time::{Duration, Instant};

/// A lookout's rests double up to this many microseconds, or up to `ALERT_REST` if answers come slowly
/// although a processor is free.
const LONGEST_REST: u64 = 2_000;

const ALERT_REST: u64 = 200;

/// With a process ready, one more thread helps if commits are further apart than this, in nanoseconds.
/// Several threads commit no more often, since a commit's memory then comes from another processor's cache.
const SLOW: u64 = 300;

/// With a process ready, one more thread helps even without a free processor if nothing was committed for
/// this many nanoseconds: the threads awake may be waiting for it.
const STALL: u128 = 1_000_000;

/// Why a thread rests.
#[derive(Clone, Copy, Debug, PartialEq, Eq)]
pub enum Rest {
    /// It found nothing to do.
    Idle,
    /// The others are faster without it.
    Spare,
}

/// How many threads have ever wanted to rest, rest now, and are lookouts.
#[derive(Drop)]
pub(crate) struct Resters {
    known: usize,
    resting: usize,
    looking_out: usize,
    over: bool,
}

impl Resters {
    pub(crate) fn new() -> Resters {
        Resters {
            known: 0,
            resting: 0,
            looking_out: 0,
            over: false,
        }
    }

    /// Counts a thread that wants to rest. Returns false if it should not: the run has ended, or it is spare
    /// and all others rest.
    pub(crate) fn begin(&mut self, is_new: bool, why: Rest) -> bool {
        if is_new {
            self.known = self.known.saturating_add(1);
        }
        let is_last = self.resting.saturating_add(1) >= self.known;
        if self.over || (is_last && why == Rest::Spare) {
            return false;
        }
        self.resting = self.resting.saturating_add(1);
        true
    }

    /// Whether a resting thread should be a lookout: the run has not ended, and there is none, or at most one
    /// if it is idle.
    pub(crate) fn want_lookout(&self, why: Rest) -> bool {
        let others = match why {
            Rest::Idle => 1,
            Rest::Spare => 0,
        };
        self.looking_out <= others && !self.over
    }

    pub(crate) fn begin_looking_out(&mut self) {
        self.looking_out = self.looking_out.saturating_add(1);
    }

    pub(crate) fn end_looking_out(&mut self) {
        self.looking_out = self.looking_out.saturating_sub(1);
    }

    /// Returns how many of the threads that ever wanted to rest are awake.
    pub(crate) fn awake(&self) -> u64 {
        self.known.saturating_sub(self.resting) as u64
    }

    /// Counts a thread that stops resting. Returns whether another should become the lookout.
    pub(crate) fn end(&mut self) -> bool {
        self.resting = self.resting.saturating_sub(1);
        self.resting > 0 && self.want_lookout(Rest::Spare)
    }

    pub(crate) fn is_over(&self) -> bool {
        self.over
    }

    /// Returns whether a thread still rests.
    pub(crate) fn note_end(&mut self) -> bool {
        self.over = true;
        self.resting > 0
    }
}

/// What a lookout sees.
#[derive(Clone, Copy)]
pub(crate) struct Sighting {
    time: Option<Instant>,
    has_work: bool,
    answers: u64,
}

impl Sighting {
    pub(crate) fn new(time: Option<Instant>, has_work: bool, answers: u64) -> Sighting {
        Sighting {
            time,
            has_work,
            answers,
        }
    }

    /// Whether one more thread helps: there is work, and few answers since `earlier`, or, without a free
    /// processor, none for long.
    pub(crate) fn shows_want(&self, earlier: &Sighting, has_processor: bool) -> bool {
        if !self.has_work {
            return false;
        }
        if has_processor {
            return self.is_slow(earlier);
        }
        self.is_same(earlier) && self.nanos_since(earlier) > STALL
    }

    pub(crate) fn is_same(&self, earlier: &Sighting) -> bool {
        self.answers == earlier.answers
    }

    pub(crate) fn is_slow(&self, earlier: &Sighting) -> bool {
        let answers = self.answers.saturating_sub(earlier.answers);
        self.nanos_since(earlier) > u128::from(answers.saturating_mul(SLOW))
    }

    /// Returns `u128::MAX` if the clock could not be read.
    fn nanos_since(&self, earlier: &Sighting) -> u128 {
        match (self.time, earlier.time) {
            (Some(now), Some(then)) => now.saturating_duration_since(then).as_nanos(),
            _ => u128::MAX,
        }
    }
}

pub(crate) fn next_limit(limit: Duration, is_alert: bool) -> Duration {
    let longest = if is_alert { ALERT_REST } else { LONGEST_REST };
    limit.saturating_mul(2).min(Duration::from_micros(longest))
}
