//! How the workers of a run learn that they should stop before its end.
ghost use Rattle.std.specs.Prelude.{◌≡◌, Bool, true, false};

use crate::gate::Gate;

/// Whether the workers of a run should stop before its end. `may_stop` is false if they never should.
pub trait StopSignal: Sync {
    ghost may_stop: { Bool };

    /// Whether the workers should finish what they hold, and take nothing more.
    fn stops(&self) -> bool
        ensures { result ≡ true → may_stop ≡ true };
}

/// The signal that never stops a run.
pub struct NeverStops;

impl StopSignal for NeverStops {
    ghost may_stop = { false };

    #[inline(always)]
    fn stops(&self) -> bool {
        false
    }
}

/// What each worker follows: the gate to call before a commit, and the stop signal.
#[derive(Drop)]
pub struct Orders<'a, G: Gate, S: StopSignal> {
    pub gate: &'a G,
    pub signal: &'a S,
}
