//! Runs a network with several workers.
ghost use Rattle.std.specs.Prelude.{◌≡◌, ◌<◌, ◌⊎◌, [], map, vec_capacity, Err, IfErr, IfOk, IsSome, OnOk};
ghost use Rattle.kpn_model.specs.Families.{family};
ghost use Rattle.kpn_machine.specs.Opening.{cards_of};
ghost use Rattle.kpn_monitor.specs.Views.{AreNamesOf};
ghost use Rattle.kpn_monitor.specs.Kept.{IsClosed};
ghost use Rattle.kpn_laws.specs.RoomOfRun.{TakesLeastRoom};
ghost use Rattle.kpn_run.specs.Runs.{IsFinish, IsComparable, SparesBudget, StaysWithinCapacities, ApproachesSolution};
ghost use Rattle.kpn_run.specs.Refusals.{FailsOpened, FailsRun, Runs, IsFaultOfFailure, RefusedFit, FinishesBodies};

use crate::boxed::{BoxedBody, Boxes, box_all, unbox_all};
use crate::fault::{Failure, RunFault, fault_of};
use crate::finish::Finish;
use crate::gate::Gate;
use crate::laws::told_by_laws;
use crate::starting::{RunRequest, WorkerCount, no_memory, opening_of};
use crate::stop_signal::{NeverStops, Orders};
use crate::workforce::seat_workers;
use kpn_body::Body;
use kpn_machine::OpenRefused;
use kpn_model::Kinds;
use kpn_monitor::{Closed, EntryLedger, Opening};
use kpn_network::Net;
use kpn_state::{Keeper, Wide};
use std::alloc::Global;
use std::marker::Brand;
use std::rt::Clock;
use std::sync::Wait;
use std::sync::ledger::Ledger;
use std::thread::Threads;

/// Runs a network from its start to an end, with 1 to 16 workers and a body for each process, in order.
///
/// - `finish`: the history is a run with as many entries as receipts and a justified end.
/// - `budget`: the end is not `Budget` if some run that is over has fewer entries than the budget.
/// - `within`: no channel ever holds more tokens than its capacity.
/// - `comparable`: deeds and streams are prefix-comparable with those of any run, from any starting
///   capacities (Kahn 1974).
/// - `room`: if capacity b suffices for the network, no channel of capacity b or more grows (Parks 1995;
///   docs/least-room.md).
/// - `streams`: the streams are below every solution of the network's equations, and are the least solution
///   if the run terminated or deadlocked (Kahn 1974; docs/least-solution.md).
///
/// The calling thread is one worker. Each other has its own thread, or the calling thread if that can't be
/// started. Returns when all workers have met the end.
///
/// Errors: see [`RunFault`].
///
/// ```text
/// match run(rt, alloc, net, bodies, workers, &Prompt) {
///     Ok(finish) => Ok(finish.receipts()),
///     Err(_) => Err(AllocError),
/// }
/// ```
pub fn run<B: Body, R: Wait + Clock + Threads + Sync, G: Gate>(
    rt: &R,
    alloc: Global,
    net: Net<B::Kinds>,
    bodies: Vec<B>,
    workers: usize,
    gate: &G,
) -> Result<Finish<B::Kinds>, RunFault<B>>
    ensures finish { IfOk result (IsFinish (family B.Kinds.Kinds) net) }
    ensures within { IfOk result (λ f. StaysWithinCapacities (family B.Kinds.Kinds) net f.machine.history) }
    ensures budget { IfOk result (λ f. SparesBudget (family B.Kinds.Kinds) net f.cause) }
    ensures comparable { IfOk result (λ f. IsComparable (family B.Kinds.Kinds) net f.machine.history) }
    ensures room { IfOk result (λ f. TakesLeastRoom (family B.Kinds.Kinds) net f.machine.history f.machine.state) }
    ensures streams { IfOk result (λ f. ApproachesSolution (family B.Kinds.Kinds) net f.machine) }
    ensures cards { OnOk result (map B.card bodies.items ≡ cards_of net.processes) }
    ensures many { (workers ≡ 0) ⊎ (16 < workers) → result ≡ Err (RunFault.Workers net bodies) }
    ensures failed { IfErr result (FailsRun B.card net bodies.items workers) }
{
    run_with_keeper::<B, Wide, R, G>(rt, alloc, net, bodies, workers, gate)
}

/// Runs a network like [`run`], with the entries kept by `H`: `Packed` takes 16 bytes for each, `run` 48.
///
/// ```text
/// let ran = run_with_keeper::<CardBody<Standard>, Packed, R, Open>(
///     rt, alloc, net, bodies, workers, &Open,
/// );
/// ```
pub fn run_with_keeper<B: Body, H: Keeper + Send, R: Wait + Clock + Threads + Sync, G: Gate>(
    rt: &R,
    alloc: Global,
    net: Net<B::Kinds>,
    bodies: Vec<B>,
    workers: usize,
    gate: &G,
) -> Result<Finish<B::Kinds, H>, RunFault<B>>
    ensures { Runs (family B.Kinds.Kinds) B.card net bodies.items workers (RunFault.Workers net bodies) result }
{
    let Some(workers) = WorkerCount::new(workers) else {
        return Err(RunFault::Workers { net, bodies });
    };
    match box_all(alloc, bodies) {
        Ok(Boxes { boxed, spare }) => {
            let request = RunRequest {
                net,
                bodies: boxed,
                workers,
            };
            match run_bodies(rt, alloc, request, gate) {
                Ok(finish) => Ok(finish),
                Err(failure) => Err(unboxed(failure, spare)),
            }
        }
        Err(bodies) => {
            let request = RunRequest {
                net,
                bodies,
                workers,
            };
            match run_bodies(rt, alloc, request, gate) {
                Ok(finish) => Ok(finish),
                Err(failure) => Err(fault_of(failure)),
            }
        }
    }
}

fn unboxed<B: Body>(failure: Failure<BoxedBody<B>>, spare: Vec<B>) -> RunFault<B>
    requires spare { spare.items ≡ [] }
    requires room { RefusedFit failure (vec_capacity spare) }
    ensures { IsFaultOfFailure B.card failure result }
{
    match failure {
        Failure::NotRun(OpenRefused { net, bodies, fault }) => {
            let bodies = unbox_all(bodies, spare);
            fault_of(Failure::NotRun(OpenRefused { net, bodies, fault }))
        }
        Failure::Lost(finished) => {
            let (answered, body) = finished.into_parts();
            RunFault::Lost {
                answered,
                body: body.into_inner(),
            }
        }
    }
}

fn run_bodies<B: Body, H: Keeper + Send, R: Wait + Clock + Threads + Sync, G: Gate>(
    rt: &R,
    alloc: Global,
    request: RunRequest<B>,
    gate: &G,
) -> Result<Finish<B::Kinds, H>, Failure<B>>
    ensures { FinishesBodies (family B.Kinds.Kinds) B.card request.net request.bodies.items result }
{
    let RunRequest {
        net,
        bodies,
        workers,
    } = request;
    let opening = match opening_of::<B, H>(alloc, net, bodies) {
        Ok(opening) => opening,
        Err(refused) => return Err(Failure::NotRun(refused)),
    };
    let finish = run_named::<B, H, Brand, Brand, R, G>(rt, alloc, opening, workers, gate)?;
    told_by_laws(&finish);
    finish.end();
    Ok(finish)
}

/// Generic over the ledgers, so that a call with `Brand` names them.
fn run_named<
    B: Body,
    H: Keeper + Send,
    E: EntryLedger + Send + Sync,
    O: Ledger + Send + Sync,
    R: Wait + Clock + Threads + Sync,
    G: Gate,
>(
    rt: &R,
    alloc: Global,
    opening: Opening<B, H>,
    workers: WorkerCount,
    gate: &G,
) -> Result<Finish<B::Kinds, H>, Failure<B>>
    requires { AreNamesOf E.EntryLedger O.Ledger opening }
    ensures finish { IfOk result (IsFinish (family B.Kinds.Kinds) E.net) }
    ensures failed { IfErr result (FailsOpened B.card opening.machine.network) }
{
    let (monitor, mut workforce) = match seat_workers::<B, H, E, O, R>(
        rt, alloc, opening, workers,
    ) {
        Ok(seated) => seated,
        Err(machine) => return Err(Failure::NotRun(no_memory(machine))),
    };
    let orders = Orders {
        gate,
        signal: &NeverStops,
    };
    workforce.work(rt, &monitor, &orders);
    match workforce.close(monitor) {
        Ok(closed) => Ok(finish_of(closed)),
        Err(finished) => Err(Failure::Lost(finished)),
    }
}

fn finish_of<K: Kinds, E: EntryLedger, H: Keeper>(closed: Closed<K, E, H>) -> Finish<K, H>
    requires closed { IsClosed (family K.Kinds) K.admits E.net closed }
    requires ended { IsSome closed.machine.end }
    ensures { IsFinish (family K.Kinds) E.net result }
{
    let Some(finish) = Finish::of(closed) else {
        unreachable!()
    };
    finish.end();
    finish
}
