//! The report of a run that has ended.
ghost use Rattle.std.specs.Prelude.{◌≡◌, Some, IfOk};
ghost use Rattle.kpn_model.specs.Families.{family};
ghost use Rattle.kpn_run.specs.Reports.{IsReportOf, TellsOwn, TellsEvery, TellsAnyCapacities, TellsLeast};

use crate::finish::Finish;
use kpn_laws::{determinacy_of, least_solution_of};
use kpn_machine::Chronicle;
use kpn_model::{End, Kinds};
use kpn_report::{Report, places_of, report_of};
use std::alloc::{AllocError, Global};

/// Returns why a run ended, and its detail exactly if it ended with `Terminated`, `Deadlock` or `Ceiling`.
/// Errors: out of memory.
///
/// The detail is that of every run of the network that is over (`every`). If the run terminated or
/// deadlocked, every run that does so, from any starting capacities, has the same deeds, streams and places
/// (`any_capacities`; Kahn 1974, Parks 1995). The streams are below every solution of the network's
/// equations, and are the least solution if the run terminated or deadlocked (`streams`; Kahn 1974,
/// docs/least-solution.md).
///
/// ```text
/// let Report { end, detail } = report(alloc, finish).expect(rt, "no memory");
/// ```
pub fn report<K: Kinds>(alloc: Global, finish: &Finish<K>) -> Result<Report, AllocError>
    ensures end { IfOk result (λ r. r.end ≡ finish.now.cause) }
    ensures own { IfOk result (λ r. TellsOwn (family K.Kinds) finish.now r.detail) }
    ensures every { IfOk result (λ r. TellsEvery (family K.Kinds) finish.now r.detail) }
    ensures any_capacities { IfOk result (λ r. TellsAnyCapacities (family K.Kinds) finish.now r.detail) }
    ensures streams { IfOk result (λ r. TellsLeast (family K.Kinds) finish.now r.detail) }
{
    report_at(alloc, finish.chronicle(), finish.end())
}

/// Returns the report of a machine that ended so, like [`report`].
pub fn report_at<K: Kinds>(
    alloc: Global,
    chronicle: &Chronicle<K>,
    end: End,
) -> Result<Report, AllocError>
    requires { chronicle.now.end ≡ Some end }
    ensures { IfOk result (λ r. IsReportOf (family K.Kinds) chronicle.now end r.end r.detail) }
{
    determinacy_of::<K>();
    least_solution_of::<K>();
    chronicle.end();
    let net = chronicle.net();
    let places = places_of(alloc, net, chronicle.standings())?;
    let report = report_of(alloc, net, chronicle.history(), places, end)?;
    Ok(report)
}
