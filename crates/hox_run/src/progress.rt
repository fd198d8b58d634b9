//! Shows the progress of a run.
ghost use Rattle.std.specs.Prelude.{◌≡◌, Some, length};
ghost use Rattle.std.specs.List.{count_by};
ghost use Rattle.kpn_model.specs.History.{growths};
ghost use Rattle.kpn_state.specs.Standings.{is_ready};

use kpn_body::Body;
use kpn_machine::Machine;
use kpn_observe::{Observer, Phase, Progress, Wish};
use kpn_state::Keeper;

/// The progress of a run: how many entries its history has, how many of them are growths, and how many
/// processes are ready, which is known only with one worker.
#[derive(Clone, Copy, Debug, PartialEq, Eq)]
pub struct SoFar {
    pub entries: u64,
    pub growths: u64,
    pub ready: Option<usize>,
}

/// Receives the progress of a run. The result of the run doesn't depend on it.
///
/// ```text
/// impl<'a, R: Clock + Eprint + Sync> ProgressReceiver for ProgressLine<'a, R> {
///     fn is_wanted(&self) -> bool {
///         self.is_wanted
///     }
///
///     fn is_due(&self) -> bool {
///         self.millis() >= self.due.load(Ordering::SeqCst)
///     }
/// }
/// ```
pub trait ProgressReceiver: Sync {
    /// Returns whether progress is wanted at all. If not, no thread watches several workers.
    fn is_wanted(&self) -> bool;

    /// Returns whether progress is due. One worker asks this after some hundred thousand answers; with
    /// several, a thread of its own asks it a few times a second.
    fn is_due(&self) -> bool;

    /// Receives the progress when it is due.
    fn tell(&self, so_far: SoFar);
}

/// A receiver that ignores the progress.
pub struct Silent;

impl ProgressReceiver for Silent {
    fn is_wanted(&self) -> bool {
        false
    }

    fn is_due(&self) -> bool {
        false
    }

    fn tell(&self, _so_far: SoFar) {}
}

/// Shows the progress of a machine if it is due.
pub(crate) fn tell_of<B: Body, H: Keeper, P: ProgressReceiver>(
    machine: &Machine<B, H>,
    progress: &P,
) {
    if progress.is_due() {
        progress.tell(so_far(machine));
    }
}

fn so_far<B: Body, H: Keeper>(machine: &Machine<B, H>) -> SoFar
    ensures entries { result.entries ≡ length machine.now.history }
    ensures growths { result.growths ≡ length (growths machine.now.history) }
    ensures ready { result.ready ≡ Some (count_by is_ready machine.now.standings) }
{
    SoFar {
        entries: machine.entries() as u64,
        growths: machine.growths() as u64,
        ready: Some(machine.ready()),
    }
}

/// Watches the board of a run with several workers, and never stops the run.
#[derive(Drop)]
pub(crate) struct OnBoard<'a, P> {
    pub(crate) progress: &'a P,
}

impl<'a, P: ProgressReceiver> Observer for OnBoard<'a, P> {
    fn see(&self, seen: Progress) -> Wish {
        if matches!(seen.phase, Phase::Running) && self.progress.is_due() {
            self.progress.tell(SoFar {
                entries: u64::from(seen.entries),
                growths: u64::from(seen.growths),
                ready: None,
            });
        }
        Wish::GoOn
    }
}
