//! How a flow stands, without running it.
ghost use Rattle.kpn_model.specs.Families.{family};
ghost use Rattle.kpn_flow.specs.Flows.{IsSettledIn};
ghost use Rattle.kpn_flow.specs.Stands.{IsStand};

use crate::pause::Pause;
use crate::stretch::awaited;
use crate::waits::all_wait_to_read;
use kpn_commit::Core;
use kpn_model::{End, Kinds};
use kpn_network::Net;
use kpn_state::Unkept;

/// Returns why nothing can be done; `Cut` if something may.
pub(crate) fn stand<K: Kinds>(
    net: &Net<K>,
    core: &Core<Unkept>,
    inputs: &[usize],
    outputs: &[usize],
) -> Pause
    requires { IsSettledIn (family K.Kinds) K.admits net.now core.now.store.state core.now.standings }
    ensures { IsStand (family K.Kinds) net.now inputs.now outputs.now core.now.store.state core.now.standings result }
{
    if core.standings.any_busy() {
        return Pause::Cut;
    }
    let standings = core.standings.as_slice();
    if let Some(pause) = awaited(net, standings, inputs, outputs) {
        return pause;
    }
    if core.standings.all_stopped() {
        return Pause::Over(End::Terminated);
    }
    if all_wait_to_read(standings) {
        Pause::Over(End::Deadlock)
    } else {
        Pause::Cut
    }
}
