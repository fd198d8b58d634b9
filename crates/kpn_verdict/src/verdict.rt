//! The verdict on a run.
ghost use Rattle.std.specs.Prelude.{◌≡◌, ◌<◌, false, IfSome, length};
ghost use Rattle.kpn_model.specs.Waits.{is_on_cycle};
ghost use Rattle.kpn_model.specs.Verdicts.{HasNoCycle, IsFirstOnCycle, IsVerdict};

use crate::waits::is_on_cycle;
use kpn_model::{End, Kinds, Place, Verdict};
use kpn_network::Net;

/// Returns what the end of a run says of the network, given each process's place, in order (`places_of` of
/// `kpn_report`).
pub fn verdict_of<K: Kinds>(net: &Net<K>, places: &[Place], end: End) -> Verdict
    ensures { IsVerdict net.now places.now end result }
{
    match end {
        End::Terminated => Verdict::Finished,
        End::Deadlock => verdict_of_deadlock(net, places),
        End::Budget => Verdict::Cut,
        End::Ceiling => Verdict::Full,
        End::Memory => Verdict::Memory,
    }
}

fn verdict_of_deadlock<K: Kinds>(net: &Net<K>, places: &[Place]) -> Verdict
    ensures { IsVerdict net.now places.now End.Deadlock result }
{
    match first_on_cycle(net, places) {
        Some(process) => Verdict::Cycle(process),
        None => Verdict::RanDry,
    }
}

fn first_on_cycle<K: Kinds>(net: &Net<K>, places: &[Place]) -> Option<usize>
    ensures some { IfSome result (IsFirstOnCycle net.now places.now) }
    ensures none { result ≡ None → HasNoCycle net.now places.now }
{
    for process in 0..net.processes() {
        if is_on_cycle(net, places, process) {
            return Some(process);
        }
    }
    None
}
