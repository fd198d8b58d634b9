//! The work of a commit.
ghost use Rattle.std.specs.Prelude.{◌≡◌, ◌≤◌, ◌+◌, length, IfSome, IfNone};
ghost use Rattle.kpn_model.specs.Families.{family};
ghost use Rattle.kpn_state.specs.Standings.{standing};
ghost use Rattle.kpn_commit.specs.Answering.{HasAnswered, WorksTo, CannotGoOnInBudget, ResolvesCore, WorksOnReady, made_ready};
ghost use Rattle.kpn_commit.specs.Coherent.{IsCoherent};
ghost use Rattle.kpn_commit.specs.Resolving.{NoneIsBusy};
ghost use Rattle.kpn_commit.specs.Works.{outcome_of, end_after, resolution_entries};

use crate::cores::Core;
use crate::outcome::Outcome;
use crate::react::{Reaction, react, react_on};
use crate::resolution::{Resolution, resolve_idle};
use kpn_model::{Act, Answer, End, Kinds};
use kpn_network::Net;
use kpn_state::Keeper;

fn resolution_entries(resolution: Resolution) -> usize
    ensures value { result ≡ resolution_entries resolution }
    ensures few { result ≤ 2 }
{
    match resolution {
        Resolution::Enlarged => 2,
        Resolution::Busy | Resolution::Ended(_) => 0,
    }
}

fn outcome_of(reaction: Reaction, resolution: Resolution) -> Outcome
    ensures { result ≡ outcome_of reaction resolution }
{
    let entries = resolution_entries(resolution);
    match reaction {
        Reaction::Waits => Outcome::Parked(entries),
        Reaction::Acts => Outcome::Done(1 + entries),
        Reaction::HandsOn => Outcome::Done(2 + entries),
    }
}

fn end_after(resolution: Resolution, budget: u64, entries: u64) -> Option<End>
    ensures { result ≡ end_after resolution budget entries }
{
    match resolution {
        Resolution::Ended(end) => Some(end),
        Resolution::Busy | Resolution::Enlarged => {
            if budget <= entries {
                Some(End::Budget)
            } else {
                None
            }
        }
    }
}

/// Settles a run that has not ended: if no process is ready or out, the run ends, or the chosen channel grows
/// and its writer's put is done; the history must then have room for two entries. Returns which, and the run's
/// end, if any; `Budget` if that is spent. The run also ends if out of memory for the growth (Parks 1995).
#[inline(always)]
pub fn settle<K: Kinds, H: Keeper>(net: &Net<K>, core: &mut Core<H>) -> (Resolution, Option<End>)
    requires coherent { IsCoherent (family K.Kinds) K.admits net.now core.old }
    requires room { NoneIsBusy core.old.standings → length core.old.store.history + 2 ≤ core.old.store.limit }
    ensures resolves { ResolvesCore (family K.Kinds) net.now core.old result.0 core.new }
    ensures ended { result.1 ≡ end_after result.0 net.now.budget (length core.new.store.history) }
    ensures coherent { IsCoherent (family K.Kinds) K.admits net.now core.new }
{
    let resolution = if core.standings.any_busy() {
        Resolution::Busy
    } else {
        resolve_idle(net, core)
    };
    let ended = end_after(resolution, net.budget(), core.store.entries() as u64);
    (resolution, ended)
}

/// Works on the answer of a ready or out process, in a run that has not ended. Returns the outcome, and the
/// run's end, if any. The history must have room for three entries.
#[inline(always)]
pub fn work<K: Kinds, H: Keeper>(
    net: &Net<K>,
    core: &mut Core<H>,
    process: usize,
    answer: Answer,
) -> (Outcome, Option<End>)
    requires { HasAnswered (family K.Kinds) K.admits net.now core.old process answer 3 }
    ensures { WorksTo (family K.Kinds) K.admits net.now core.old process answer result.0 result.1 core.new }
{
    // One call for each act, so that once inlined the act is tested only once.
    let next = answer.next;
    let reaction = match answer.act {
        Act::Read(port) => {
            let act = Act::Read(port);
            react(net, core, process, Answer { next, act })
        }
        Act::Write(port, token) => {
            let act = Act::Write(port, token);
            react(net, core, process, Answer { next, act })
        }
        Act::Stop => {
            let act = Act::Stop;
            react(net, core, process, Answer { next, act })
        }
    };
    let (resolution, end) = settle(net, core);
    (outcome_of(reaction, resolution), end)
}

/// Works on the answer of a ready or out process, but leaves the process's standing to the caller, who makes
/// it ready or sends it out again. Returns the outcome; or `None`, with nothing changed, if the answer is a
/// stop or can't be done, or if the budget has no room for three more entries. The history must have room for
/// three entries.
#[inline(always)]
pub fn work_on<K: Kinds, H: Keeper>(
    net: &Net<K>,
    core: &mut Core<H>,
    process: usize,
    answer: Answer,
) -> Option<Outcome>
    requires { HasAnswered (family K.Kinds) K.admits net.now core.old process answer 3 }
    ensures works { IfSome result (WorksOnReady (family K.Kinds) net.now core.old process answer core.new) }
    ensures stays { standing core.new.standings process ≡ standing core.old.standings process }
    ensures many { length core.new.standings ≡ length core.old.standings }
    ensures coherent { IfSome result (λ _. IsCoherent (family K.Kinds) K.admits net.now (made_ready core.new process)) }
    ensures cannot { IfNone result (CannotGoOnInBudget (family K.Kinds) net.now core.old process answer) }
    ensures same { IfNone result (core.new ≡ core.old) }
{
    let entries = core.store.entries() as u64;
    if net.budget() <= entries.saturating_add(2) {
        return None;
    }
    let reaction = react_on(net, core, process, answer)?;
    Some(outcome_of(reaction, Resolution::Busy))
}
