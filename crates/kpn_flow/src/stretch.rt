//! One stretch of a flow.
ghost use Rattle.std.specs.Prelude.{◌≡◌, ◌+◌, ◌≤◌, [], false, IfSome, IfNone};
ghost use Rattle.std.specs.List.{list_any};
ghost use Rattle.kpn_model.specs.Families.{family};
ghost use Rattle.kpn_state.specs.declared.standing.Standing.TheVariants.{Ready};
ghost use Rattle.kpn_state.specs.Standings.{standing, is_busy};
ghost use Rattle.kpn_flow.specs.Flows.{IsSettled};
ghost use Rattle.kpn_flow.specs.Pauses.{IsAwaited};
ghost use Rattle.kpn_flow.specs.Stretches.{MayStretchFrom, StretchesTo};
ghost use Rattle.kpn_flow.specs.Waits.{holds_up, starves};

use crate::open_net::OpenNet;
use crate::pause::Pause;
use crate::waits::{any_holds_up, any_starves};
use kpn_body::Body;
use kpn_commit::Core;
use kpn_commit::resolution::Resolution;
use kpn_commit::work::settle;
use kpn_machine::asking::ask_ready;
use kpn_model::Kinds;
use kpn_network::Net;
use kpn_state::{Standing, Unkept};

/// Returns what the standings await from outside: a token in an input, or else room in an output.
pub(crate) fn awaited<K: Kinds>(
    net: &Net<K>,
    standings: &[Standing],
    inputs: &[usize],
    outputs: &[usize],
) -> Option<Pause>
    ensures some { IfSome result (IsAwaited net.now standings.now inputs.now outputs.now) }
    ensures not_fed { IfNone result (list_any (starves net.now standings.now) inputs.now ≡ false) }
    ensures not_drained { IfNone result (list_any (holds_up net.now standings.now) outputs.now ≡ false) }
{
    if any_starves(net, standings, inputs) {
        return Some(Pause::Starved);
    }
    if any_holds_up(net, standings, outputs) {
        return Some(Pause::Blocked);
    }
    None
}

/// Finds why nothing can be done, or grows the chosen channel if neither feeding nor draining lets a process
/// continue (after Parks 1995).
#[cold]
#[inline(never)]
fn rest<K: Kinds>(opened: &OpenNet<'_, K>, core: &mut Core<Unkept>) -> Option<Pause>
    requires settled { IsSettled (family K.Kinds) K.admits opened.now.net.now core.old }
    requires idle { list_any is_busy core.old.standings ≡ false }
    requires room { 2 ≤ core.old.store.limit }
    requires emptied { core.old.store.history ≡ [] }
    ensures { StretchesTo K.Kinds opened.now core.old 2 result core.new }
{
    let found = awaited(
        opened.net,
        core.standings.as_slice(),
        opened.inputs,
        opened.outputs,
    );
    if let Some(pause) = found {
        return Some(pause);
    }
    match settle(opened.net, core).0 {
        Resolution::Ended(end) => Some(Pause::Over(end)),
        Resolution::Enlarged => None,
        Resolution::Busy => unreachable!(),
    }
}

/// Asks ready processes until there are `until` entries or none is ready. If none is ready at first, grows
/// the chosen channel, or returns why nothing can be done. The history then has only this stretch's entries.
/// `again` is the process to ask first, and then the one to ask next.
pub(crate) fn stretch<B: Body>(
    opened: &OpenNet<'_, B::Kinds>,
    core: &mut Core<Unkept>,
    bodies: &[Option<B>],
    again: &mut Option<usize>,
    until: usize,
) -> Option<Pause>
    requires { MayStretchFrom B.Kinds.Kinds opened.now.net.now core.old B.card bodies.now again.old until }
    ensures stretches { StretchesTo B.Kinds.Kinds opened.now core.old (until + 1) result core.new }
    ensures again { IfSome again.new (λ p. standing core.new.standings p ≡ Ready) }
{
    core.store.forget();
    let asked = ask_ready(opened.net, core, bodies, again, u64::MAX, until);
    if asked > 0 {
        return None;
    }
    *again = None;
    rest(opened, core)
}
