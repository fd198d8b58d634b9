//! Who watches a run.
ghost use Rattle.std.specs.Prelude.{◌≡◌};
ghost use Rattle.kpn_watch.specs.Shown.{shows};

use crate::bell::Bell;
use kpn_body::Body;
use kpn_monitor::{EntryLedger, Monitor};
use kpn_state::Keeper;
use kpn_watch::{Progress, Watcher};
use std::rt::Clock;
use std::sync::Wait;
use std::sync::ledger::Ledger;
use std::time::Duration;

/// Whether a run should continue.
#[derive(Clone, Copy, Debug, PartialEq, Eq)]
pub enum Wish {
    GoOn,
    Stop,
}

/// Sees how far a run is, and may stop it. Called by the calling thread before any worker starts, then in its
/// own thread (unless that can't be started), and once more when the workers are done. The workers don't wait
/// for it, but the run returns after it.
///
/// ```text
/// impl<'a, R: Clock + Sync> Observer for Deadline<'a, R> {
///     fn see(&self, progress: Progress) -> Wish {
///         match self.start.elapsed(self.rt) {
///             Ok(past) if past < Duration::from_millis(20) || progress.entries < 100 => Wish::GoOn,
///             _ => Wish::Stop,
///         }
///     }
/// }
/// ```
pub trait Observer: Sync {
    /// Called with the numbers of entries and growths, and whether the run has ended. On `Stop` the workers
    /// finish what they hold and take nothing more.
    fn see(&self, progress: Progress) -> Wish;
}

/// An observer, the watcher that shows it the run, and how often it is called.
#[derive(Drop)]
pub(crate) struct Observation<'a, V: Observer> {
    pub(crate) observer: &'a V,
    pub(crate) watcher: Watcher,
    pub(crate) period: Duration,
}

/// Calls the observer once per period, and once more when the workers are done.
pub(crate) fn observe<B: Body, H: Keeper, E: EntryLedger, O: Ledger, R: Wait + Clock, V: Observer>(
    rt: &R,
    monitor: &Monitor<B, E, O, H>,
    observation: Observation<'_, V>,
    bell: &Bell,
)
    requires { observation.watcher.board ≡ E.board }
{
    let Observation {
        observer,
        mut watcher,
        period,
    } = observation;
    for _ in rt.forever() {
        let is_done = bell.wait(rt, period);
        let progress = look(monitor, &mut watcher);
        if observer.see(progress) == Wish::Stop {
            bell.stop();
        }
        if is_done {
            return;
        }
    }
    unreachable!()
}

fn look<B: Body, H: Keeper, E: EntryLedger, O: Ledger>(
    monitor: &Monitor<B, E, O, H>,
    watcher: &mut Watcher,
) -> Progress
    requires { watcher.old.board ≡ E.board }
    ensures board { watcher.new.board ≡ E.board }
    ensures shown { result ≡ shows watcher.new.entries watcher.new.phase }
{
    monitor.look(watcher)
}
