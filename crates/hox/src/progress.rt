//! How far a run has come, on one line of standard error.
use hox_run::{ProgressReceiver, SoFar};
use std::rt::Clock;
use std::sync::atomic::{AtomicBool, AtomicU64, Ordering};
use std::time::Instant;

/// So many milliseconds go by before the line is written, and between two of it.
const PERIOD: u64 = 500;

/// What clears the line: a carriage return, as many spaces as it has places, and another.
pub(crate) const CLEAR: &str =
    "\r                                                                              \r";

/// The line, which is written over the one before, and cleared at the end.
#[derive(Drop)]
pub(crate) struct ProgressLine<'a, R> {
    rt: &'a R,
    is_wanted: bool,
    start: Option<Instant>,
    /// From how many milliseconds after the start it is due.
    due: AtomicU64,
    is_written: AtomicBool,
}

impl<'a, R: Clock> ProgressLine<'a, R> {
    /// The line of a run that starts now. It is wanted even where the arguments don't ask for it, or only then.
    pub(crate) fn new(rt: &'a R, is_wanted: bool) -> ProgressLine<'a, R> {
        ProgressLine {
            rt,
            is_wanted,
            start: Instant::now(rt).ok(),
            due: AtomicU64::new(PERIOD),
            is_written: AtomicBool::new(false),
        }
    }

    /// The milliseconds since the start; 0 if the clock can't be read.
    fn millis(&self) -> u64 {
        let Some(start) = self.start else {
            return 0;
        };
        match start.elapsed(self.rt) {
            Ok(past) => u64::try_from(past.as_millis()).unwrap_or(u64::MAX),
            Err(_) => 0,
        }
    }
}

impl<'a, R: Eprint> ProgressLine<'a, R> {
    /// Clears the line, if it stands there.
    pub(crate) fn clear(&self) {
        if self.is_written.swap(false, Ordering::SeqCst) {
            let _ = eprint!(self.rt; "{CLEAR}");
        }
    }
}

impl<'a, R: Clock + Eprint + Sync> ProgressReceiver for ProgressLine<'a, R> {
    fn is_wanted(&self) -> bool {
        self.is_wanted
    }

    fn is_due(&self) -> bool {
        self.millis() >= self.due.load(Ordering::SeqCst)
    }

    fn tell(&self, so_far: SoFar) {
        let millis = self.millis();
        self.due
            .store(millis.saturating_add(PERIOD), Ordering::SeqCst);
        self.is_written.store(true, Ordering::SeqCst);
        let SoFar {
            entries,
            growths,
            ready,
        } = so_far;
        let a_second = entries.saturating_mul(1000) / millis.max(1);
        match ready {
            Some(ready) => say_ready(self.rt, entries, a_second, growths, ready),
            None => say_entries(self.rt, entries, a_second, growths),
        }
    }
}

/// Writes the line over the one before, with how many processes are ready.
fn say_ready<R: Eprint>(rt: &R, entries: u64, a_second: u64, growths: u64, ready: usize) {
    let _ = eprint!(rt;
        "{CLEAR}{entries} entries, {a_second} a second, {growths} growths, {ready} ready"
    );
}

/// Tells of a run of which it isn't known how long it can be.
fn say_entries<R: Eprint>(rt: &R, entries: u64, a_second: u64, growths: u64) {
    let _ = eprint!(rt; "{CLEAR}{entries} entries, {a_second} a second, {growths} growths");
}
