//! The laws of a run.
ghost use Rattle.kpn_model.specs.Families.{family};
ghost use Rattle.kpn_run.specs.Runs.{IsWatchedRun};

use kpn_laws::{determinacy_of, least_room_of, least_solution_of, moments_of, valid_runs};
use kpn_model::Kinds;
use kpn_monitor::BookedRun;
use kpn_state::Keeper;

/// Ghost lemma: the laws hold of a run, over or not.
pub fn told_by_laws<K: Kinds, H: Keeper>(run: &BookedRun<K, H>)
    ensures { IsWatchedRun (family K.Kinds) K.admits run.now.machine.network run.now }
{
    determinacy_of::<K>();
    moments_of::<K>();
    least_room_of::<K>();
    least_solution_of::<K>();
    valid_runs();
    run.net().assure_valid();
    run.end();
}
