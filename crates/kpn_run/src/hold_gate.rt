//! A gate that makes one process wait for another.
use crate::gate::Gate;
use std::sync::atomic::{AtomicU64, Ordering};

/// A gate that delays the answers of one process until another has passed it a number of times, or for a
/// number of looks. Tests make rare schedules with it; no schedule changes the result. It promises only that
/// each call returns.
#[derive(Drop)]
pub struct Hold {
    process: usize,
    other: usize,
    passes: u64,
    turns: u64,
    process_passed: AtomicU64,
    other_passed: AtomicU64,
}

impl Hold {
    /// Makes a gate that delays `process` until `other` has passed `passes` times, with at most `turns` looks
    /// each time. If the two are one process, nothing is delayed.
    pub fn new(process: usize, other: usize, passes: u64, turns: u64) -> Hold {
        Hold {
            process,
            other,
            passes,
            turns,
            process_passed: AtomicU64::new(0),
            other_passed: AtomicU64::new(0),
        }
    }

    fn wait_for_other(&self) {
        for _turn in 0..self.turns {
            if self.other_passed.load(Ordering::SeqCst) >= self.passes {
                return;
            }
        }
    }
}

impl Gate for Hold {
    /// Counts a pass of either process (the count wraps at 2^64), and then delays the one to be held.
    fn before_commit(&self, process: usize) {
        if process == self.other {
            self.other_passed.fetch_add(1, Ordering::SeqCst);
        } else if process == self.process {
            self.process_passed.fetch_add(1, Ordering::SeqCst);
            self.wait_for_other();
        }
    }
}
