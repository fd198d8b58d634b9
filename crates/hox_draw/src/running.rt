//! Runs a network, and draws it as the run left it.
ghost use Rattle.std.specs.Prelude.{◌≡◌, ◌<◌, ◌≤◌, Err, IfOk, IsSome};
ghost use Rattle.hox_draw.specs.Drawing.{ShowsReport, ShowsRun};

use hox_network::NoResult;
use kpn_compute::{Computes, bodies_of};
use kpn_laws::determinacy_of;
use kpn_machine::{Chronicle, Machine};
use kpn_network::Net;
use kpn_picture::{Left, Style, Titled, picture_of};
use kpn_report::{Report, places_of, report_of};
use kpn_run::starting::MOST_WORKERS;
use kpn_run::{Prompt, RunFault, run};
use std::alloc::{AllocError, Global};
use std::rt::Clock;
use std::sync::Wait;
use std::thread::Threads;

/// Runs a network with so many workers, but at least 1 and at most 16, and returns the picture of how the run left
/// it, however it ended. A single worker is the calling thread. Errors: `Memory`: out of memory, before the run or
/// for the picture. `Lost`: the machine rejected an answer of one of several workers.
pub(crate) fn draw_run<K: Computes + Titled, R: Wait + Clock + Threads + Sync>(
    rt: &R,
    alloc: Global,
    net: Net<K>,
    style: &Style<'_>,
    workers: usize,
) -> Result<String, NoResult>
    ensures drawn { IfOk result (ShowsRun K.Kinds K.title style.now net) }
    ensures lost { result ≡ Err NoResult.Lost → 1 < workers }
{
    if workers > 1 {
        return draw_by_workers(rt, alloc, net, style, workers.min(MOST_WORKERS));
    }
    let Ok(bodies) = bodies_of(alloc, &net) else {
        return Err(NoResult::Memory);
    };
    let Ok(mut machine) = Machine::open(alloc, net, bodies) else {
        return Err(NoResult::Memory);
    };
    machine.finish_alone();
    picture_of_run(alloc, &machine.into_chronicle(), style).map_err(|_| NoResult::Memory)
}

fn draw_by_workers<K: Computes + Titled, R: Wait + Clock + Threads + Sync>(
    rt: &R,
    alloc: Global,
    net: Net<K>,
    style: &Style<'_>,
    workers: usize,
) -> Result<String, NoResult>
    requires { (1 < workers) × (workers ≤ 16) }
    ensures { IfOk result (ShowsRun K.Kinds K.title style.now net) }
{
    let Ok(bodies) = bodies_of(alloc, &net) else {
        return Err(NoResult::Memory);
    };
    match run(rt, alloc, net, bodies, workers, &Prompt) {
        Ok(finish) => {
            picture_of_run(alloc, finish.chronicle(), style).map_err(|_| NoResult::Memory)
        }
        Err(RunFault::Memory { .. }) => Err(NoResult::Memory),
        Err(RunFault::Lost { .. }) => Err(NoResult::Lost),
        Err(RunFault::Workers { .. }) => unreachable!(),
        Err(RunFault::Open { .. }) => unreachable!(),
    }
}

fn picture_of_run<K: Titled>(
    alloc: Global,
    chronicle: &Chronicle<K>,
    style: &Style<'_>,
) -> Result<String, AllocError>
    requires { IsSome chronicle.now.end }
    ensures { IfOk result (ShowsRun K.Kinds K.title style.now chronicle.now.network) }
{
    let Some(end) = chronicle.end() else {
        unreachable!()
    };
    determinacy_of::<K>();
    let net = chronicle.net();
    let places = places_of(alloc, net, chronicle.standings())?;
    let report = report_of(alloc, net, chronicle.history(), places, end)?;
    let picture = picture_of_report(alloc, net, style, &report)?;
    Ok(picture)
}

fn picture_of_report<K: Titled>(
    alloc: Global,
    net: &Net<K>,
    style: &Style<'_>,
    report: &Report,
) -> Result<String, AllocError>
    ensures { IfOk result (ShowsReport K.Kinds K.title style.now net.now report.now.end report.now.detail) }
{
    let left = match &report.detail {
        Some(detail) => Left {
            places: detail.places.as_slice(),
            capacities: detail.capacities.as_slice(),
            rests: detail.rests.as_slice(),
        },
        None => Left {
            places: &[],
            capacities: &[],
            rests: &[],
        },
    };
    picture_of(alloc, net, style, Some(report.end), &left)
}
