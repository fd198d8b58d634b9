//! Asks ready processes in place: the one loop of machines and flows.
ghost use Rattle.std.specs.Prelude.{◌≡◌, ◌≢◌, ◌<◌, ◌≤◌, ◌+◌, length, get_or, map, option_map, Some, None, IfSome};
ghost use Rattle.kpn_model.specs.Network.{card_of};
ghost use Rattle.kpn_model.specs.Families.{family};
ghost use Rattle.kpn_model.specs.Semantics.{status};
ghost use Rattle.kpn_model.specs.declared.history.Status.TheVariants.{Done, Live};
ghost use Rattle.kpn_commit.specs.Coherent.{IsCoherent};
ghost use Rattle.kpn_machine.specs.Asking.{AsksReady};
ghost use Rattle.kpn_machine.specs.MachineView.{HasBodies};
ghost use Rattle.kpn_state.specs.declared.standing.Standing.TheVariants.{Ready};
ghost use Rattle.kpn_state.specs.Standings.{standing};

use kpn_body::Body;
use kpn_commit::Core;
use kpn_commit::react::react_ready;
use kpn_model::{Act, Local, Status, Token};
use kpn_network::Net;
use kpn_state::{Keeper, Store};

/// Asks ready processes in place, and does or parks their acts, until `most` answers were taken, there are `until`
/// entries or no process is ready. Returns how many answers were taken.
///
/// `again` is the process to ask first, and afterwards the one to ask next. The history must have room for
/// `until + 1` entries.
#[inline(always)]
pub fn ask_ready<B: Body, H: Keeper>(
    net: &Net<B::Kinds>,
    core: &mut Core<H>,
    bodies: &[Option<B>],
    again: &mut Option<usize>,
    most: u64,
    until: usize,
) -> u64
    requires coherent { IsCoherent (family B.Kinds.Kinds) B.Kinds.admits net.now core.old }
    requires slots { length bodies.now ≡ length net.now.processes }
    requires bodies { HasBodies net.now core.old.standings (map (option_map B.card) bodies.now) }
    requires again { IfSome again.old (λ p. standing core.old.standings p ≡ Ready) }
    requires room { until + 1 ≤ core.old.store.limit }
    ensures { AsksReady (family B.Kinds.Kinds) B.Kinds.admits net.now until most core.old result again.new core.new }
{
    let mut left = most;
    while left > 0 {
        if core.store.entries() >= until {
            return most - left;
        }
        let Some(process) = core.standings.turn(*again) else {
            return most - left;
        };
        let Question { body, local, last } = question_to(net, &core.store, bodies, process);
        let answer = body.answer(local, last);
        let is_ready = react_ready(net, core, process, answer);
        *again = if is_ready && goes_on_after(answer.act, last) {
            Some(process)
        } else {
            None
        };
        left -= 1;
    }
    most
}

/// The body of a process, with its local state and last token.
struct Question<'a, B: Body> {
    body: &'a B,
    local: Local,
    last: Option<Token>,
}

#[inline(always)]
fn question_to<'a, B: Body, H: Keeper>(
    net: &Net<B::Kinds>,
    store: &Store<H>,
    bodies: &'a [Option<B>],
    process: usize,
) -> Question<'a, B>
    requires slot { process < length bodies.now }
    requires body { get_or (map (option_map B.card) bodies.now) process None ≡ Some (card_of net.now process) }
    requires within { process < length store.now.state.processes }
    requires live { status store.now.state process ≢ Done }
    ensures card { B.card result.body.now ≡ card_of net.now process }
    ensures status { status store.now.state process ≡ Live result.local result.last }
{
    let Status::Live { local, last } = store.status(process) else {
        unreachable!()
    };
    let Some(body) = &bodies[process] else {
        unreachable!()
    };
    Question {
        body,
        local: *local,
        last: *last,
    }
}

/// Whether a process is likely to do its next act at once after this one, before which it read `last`. After a read most
/// processes write, or read their next port. After a write they wait for their reader; after a read of port 0 that
/// follows another read, for its writer.
#[inline(always)]
fn goes_on_after(act: Act, last: Option<Token>) -> bool {
    match act {
        Act::Read(port) => last.is_none() || port > 0,
        Act::Write(..) | Act::Stop => false,
    }
}
