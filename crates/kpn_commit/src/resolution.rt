//! What follows if no process is ready or out.
ghost use Rattle.std.specs.Prelude.{◌≡◌, ◌<◌, ◌+◌, min};
ghost use Rattle.kpn_model.specs.Families.{family};
ghost use Rattle.kpn_commit.specs.Answering.{IsIdle, ResolvesTo};

use crate::act::advance;
use crate::choose::choose;
use crate::cores::Core;
use crate::parking::unlist;
use kpn_model::{End, Kinds};
use kpn_network::Net;
use kpn_state::Keeper;
use kpn_state::standing::parked;

/// How a run continues. `Busy`: some process is ready or out. `Ended`: none is, and the run ended. `Enlarged`:
/// none was, a channel grew, and its writer's put was done.
#[derive(Clone, Copy, Debug, PartialEq, Eq)]
pub enum Resolution {
    Busy,
    Ended(End),
    Enlarged,
}

fn enlarged(capacity: usize, step: usize, ceiling: usize) -> usize
    requires { capacity < ceiling }
    ensures { result ≡ min (capacity + step) ceiling }
{
    if step < ceiling - capacity {
        capacity + step
    } else {
        ceiling
    }
}

/// Ends the run, or grows the chosen channel and does its writer's put (Parks 1995). The run also ends if out of memory
/// for the growth.
#[cold]
#[inline(never)]
pub(crate) fn resolve_idle<K: Kinds, H: Keeper>(net: &Net<K>, core: &mut Core<H>) -> Resolution
    requires { IsIdle (family K.Kinds) K.admits net.now core.old }
    ensures { ResolvesTo (family K.Kinds) K.admits net.now core.old result core.new }
{
    net.assure_valid();
    if core.standings.all_stopped() {
        return Resolution::Ended(End::Terminated);
    }
    let Some((channel, writer)) = choose(net, &core.waiting.candidates) else {
        return Resolution::Ended(End::Deadlock);
    };
    let (_, capacity) = core.store.tokens_and_capacity(channel);
    if capacity >= net.ceiling() {
        return Resolution::Ended(End::Ceiling);
    }
    let Some(answer) = parked(core.standings.as_slice(), writer) else {
        unreachable!()
    };
    let to = enlarged(capacity, net.step(), net.ceiling());
    let Ok(()) = core.store.grow(channel, to) else {
        return Resolution::Ended(End::Memory);
    };
    unlist(&mut core.waiting, capacity, channel);
    let Some(_) = advance(net, &mut core.store, &mut core.standings, writer, answer) else {
        unreachable!()
    };
    Resolution::Enlarged
}
