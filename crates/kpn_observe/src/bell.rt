//! How the observer and the workers stop each other. No contract depends on this.
ghost use Rattle.std.specs.Prelude.{true};

use kpn_run::stop_signal::StopSignal;
use std::rt::Clock;
use std::sync::atomic::{AtomicBool, Ordering};
use std::sync::{Condvar, Mutex, Wait};
use std::time::Duration;

/// Whether the workers are done, for which the observer waits, and whether they should stop, for which nobody
/// waits.
#[derive(Drop)]
pub(crate) struct Bell {
    is_done: Mutex<bool>,
    rung: Condvar,
    stops: AtomicBool,
}

impl Bell {
    pub(crate) fn new() -> Bell {
        Bell {
            is_done: Mutex::new(false),
            rung: Condvar::new(),
            stops: AtomicBool::new(false),
        }
    }

    /// Waits at most `period` for the workers to be done. Returns whether they are.
    pub(crate) fn wait<R: Wait + Clock>(&self, rt: &R, period: Duration) -> bool {
        let is_done = self.is_done.lock(rt);
        if *is_done {
            return true;
        }
        let (is_done, _) = self.rung.wait_timeout(rt, is_done, period);
        *is_done
    }

    /// Notes that the workers are done.
    pub(crate) fn ring<R: Wait>(&self, rt: &R) {
        let mut is_done = self.is_done.lock(rt);
        *is_done = true;
        drop(is_done);
        self.rung.notify_all();
    }

    /// Notes that the workers should stop.
    pub(crate) fn stop(&self) {
        self.stops.store(true, Ordering::SeqCst);
    }
}

impl StopSignal for Bell {
    ghost may_stop = { true };

    fn stops(&self) -> bool {
        self.stops.load(Ordering::SeqCst)
    }
}
