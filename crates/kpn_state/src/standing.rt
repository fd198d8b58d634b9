//! The standing of a process in the machine.
ghost use Rattle.std.specs.Prelude.{◌≡◌, ◌≢◌, ◌<◌, ◌↔◌, length, IfSome, IfNone, IsSome, IsTrue};
ghost use Rattle.std.specs.List.{list_all};
ghost use Rattle.kpn_model.specs.declared.kinds.Answer.{Answer as AnswerV};
ghost use Rattle.kpn_state.specs.declared.standing.Standing.TheVariants.{Parked};
ghost use Rattle.kpn_state.specs.Standings.{standing, is_ready, parked_answer, standing_after};

use kpn_model::{Answer, Deed};

/// A process is ready to be asked, out with its answer awaited, parked with its answer, or stopped.
#[derive(Clone, Copy, Debug, PartialEq, Eq)]
pub enum Standing {
    Ready,
    Out,
    Parked(Answer),
    Stopped,
}

/// Returns the standing of a process after its deed.
pub fn standing_after(deed: Deed) -> Standing
    ensures { result ≡ standing_after deed }
{
    match deed {
        Deed::Took { .. } | Deed::Put { .. } => Standing::Ready,
        Deed::Stopped => Standing::Stopped,
    }
}

/// Returns a parked process's answer; `None` if it is not parked.
pub fn parked(standings: &[Standing], process: usize) -> Option<Answer>
    ensures is { result ≡ parked_answer (standing standings.now process) }
    ensures some { IfSome result (λ a. standing standings.now process ≡ Parked a) }
    ensures within { IfSome result (λ _. process < length standings.now) }
    ensures none { IfNone result ((a : AnswerV) → standing standings.now process ≢ Parked a) }
{
    match standings.get(process) {
        Some(Standing::Parked(answer)) => Some(*answer),
        _ => None,
    }
}

/// Whether a process is parked.
#[inline(always)]
pub fn is_parked(standings: &[Standing], process: usize) -> bool
    ensures { IsTrue result ↔ IsSome (parked_answer (standing standings.now process)) }
{
    matches!(standings.get(process), Some(Standing::Parked(_)))
}

/// Whether all processes are ready.
pub fn all_ready(standings: &[Standing]) -> bool
    ensures { result ≡ list_all is_ready standings.now }
{
    standings
        .iter()
        .all(|standing| matches!(standing, Standing::Ready))
}
