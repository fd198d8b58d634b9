//! The report of a run by any threads.
ghost use Rattle.std.specs.Prelude.{◌≡◌, is_some, IfOk};
ghost use Rattle.kpn_model.specs.Families.{family};
ghost use Rattle.kpn_observe.specs.WatchedReports.{TellsIfEnded};

use kpn_machine::Chronicle;
use kpn_model::Kinds;
use kpn_report::Report;
use kpn_run::report_at;
use std::alloc::{AllocError, Global};

/// Returns the report of what a machine left, like `kpn_run::report`: of a run that was watched or run by a
/// crew (`WatchedRun::chronicle`), or of a monitor that you closed (`Closed`'s `chronicle`). Returns `None`
/// exactly if the run has no end.
///
/// If the run is over, the detail is that of every such run of the network. Its streams are below every
/// solution of the network's equations, and are the least solution if the run terminated or deadlocked (Kahn
/// 1974, Parks 1995). Errors: out of memory.
///
/// ```text
/// let report = chronicle_report(alloc, run.chronicle()).expect(rt, "memory");
/// ```
pub fn chronicle_report<K: Kinds>(
    alloc: Global,
    chronicle: &Chronicle<K>,
) -> Result<Option<Report>, AllocError>
    ensures some { IfOk result (λ r. is_some r ≡ is_some chronicle.now.end) }
    ensures tells { TellsIfEnded (family K.Kinds) chronicle.now result }
{
    let Some(end) = chronicle.end() else {
        return Ok(None);
    };
    let report = report_at(alloc, chronicle, end)?;
    Ok(Some(report))
}
