//! Runs a network with workers beside an observer.
ghost use Rattle.std.specs.Prelude.{◌≡◌, ◌<◌, ◌≤◌, ◌⊎◌, map, Err, IfErr, IfOk, OnOk};
ghost use Rattle.kpn_model.specs.Families.{family};
ghost use Rattle.kpn_machine.specs.Opening.{cards_of};
ghost use Rattle.kpn_laws.specs.RoomOfRun.{TakesLeastRoom};
ghost use Rattle.kpn_monitor.specs.Views.{AreNamesOf};
ghost use Rattle.kpn_monitor.specs.Kept.{IsClosed};
ghost use Rattle.kpn_run.specs.Refusals.{FailsOpened};
ghost use Rattle.kpn_run.specs.Runs.{EndSparesBudget, IsComparable, StaysWithinCapacities, ApproachesSolution};
ghost use Rattle.kpn_observe.specs.WatchedFaults.{FailsWatched, WatchesRun, WatchesBodies};

use crate::WatchedRun;
use crate::bell::Bell;
use crate::observer::{Observation, Observer, Wish, observe};
use kpn_body::Body;
use kpn_monitor::{EntryLedger, Monitor, Opening};
use kpn_network::Net;
use kpn_run::fault::{Failure, fault_of};
use kpn_run::laws::told_by_laws;
use kpn_run::starting::{RunRequest, WorkerCount, no_memory, opening_of};
use kpn_run::stop_signal::Orders;
use kpn_run::workforce::{Workforce, seat_workers};
use kpn_run::{Gate, RunFault};
use kpn_state::{Keeper, Wide};
use kpn_watch::{Phase, Progress};
use std::alloc::Global;
use std::marker::Brand;
use std::rt::Clock;
use std::sync::Wait;
use std::sync::ledger::Ledger;
use std::thread::{Threads, join};
use std::time::Duration;

/// Why a watched run failed.
#[derive(Drop)]
pub enum WatchedFault<B: Body> {
    /// The observer stopped the run before its start. Nothing has run; returns everything unchanged.
    Stopped { net: Net<B::Kinds>, bodies: Vec<B> },
    /// The run failed, as one without an observer may.
    Failed(RunFault<B>),
}

/// Runs a network from its start, with 1 to 16 workers and a body for each process, in order, until its end
/// or until the observer, called once per `period`, stops it.
///
/// Stopped or not, the history is a run with as many entries as receipts, and an end, if any, is justified
/// (`closed`). The other clauses are those of `kpn_run::run`. So every run that terminates or deadlocks has
/// at least its deeds and streams (`comparable`; Kahn 1974); and if capacity b suffices for the network, no
/// channel of capacity b or more grows (`room`; Parks 1995). The streams are below every solution of the
/// network's equations (`streams`).
///
/// The observer is called before the start, with no entries, then in its own thread, and once more when the
/// workers are done; no contract says how often. Once it returns `Stop`, workers finish what they hold and
/// take nothing more. The calling thread is one worker, and does the work of each that can't be started.
///
/// Errors: see [`WatchedFault`].
///
/// ```text
/// match run_watched(rt, alloc, net, bodies, 4, &Open, period, &Ticker { rt }) {
///     Ok(run) => print_streams(rt, alloc, &run),
///     Err(_) => Err(AllocError),
/// }
/// ```
pub fn run_watched<B: Body, R: Wait + Clock + Threads + Sync, G: Gate, V: Observer>(
    rt: &R,
    alloc: Global,
    net: Net<B::Kinds>,
    bodies: Vec<B>,
    workers: usize,
    gate: &G,
    period: Duration,
    observer: &V,
) -> Result<WatchedRun<B::Kinds>, WatchedFault<B>>
    ensures closed { IfOk result (IsClosed (family B.Kinds.Kinds) B.Kinds.admits net) }
    ensures within { IfOk result (λ r. StaysWithinCapacities (family B.Kinds.Kinds) net r.machine.history) }
    ensures budget { IfOk result (λ r. EndSparesBudget (family B.Kinds.Kinds) net r.machine.end) }
    ensures comparable { IfOk result (λ r. IsComparable (family B.Kinds.Kinds) net r.machine.history) }
    ensures room { IfOk result (λ r. TakesLeastRoom (family B.Kinds.Kinds) net r.machine.history r.machine.state) }
    ensures streams { IfOk result (λ r. ApproachesSolution (family B.Kinds.Kinds) net r.machine) }
    ensures cards { OnOk result (map B.card bodies.items ≡ cards_of net.processes) }
    ensures many { (workers ≡ 0) ⊎ (16 < workers) → result ≡ Err (WatchedFault.Failed (RunFault.Workers net bodies)) }
    ensures failed { IfErr result (FailsWatched B.card net bodies.items workers (WatchedFault.Stopped net bodies)) }
{
    run_watched_with_keeper::<B, Wide, R, G, V>(
        rt, alloc, net, bodies, workers, gate, period, observer,
    )
}

/// Runs a network like [`run_watched`], with the entries kept by `H`: `Packed` takes 16 bytes for each,
/// `run_watched` 48.
///
/// ```text
/// let ran = run_watched_with_keeper::<CardBody<Standard>, Packed, R, Open, Witness>(
///     rt,
///     alloc,
///     net,
///     bodies,
///     workers,
///     &Open,
///     often(),
///     witness,
/// );
/// ```
pub fn run_watched_with_keeper<
    B: Body,
    H: Keeper + Send,
    R: Wait + Clock + Threads + Sync,
    G: Gate,
    V: Observer,
>(
    rt: &R,
    alloc: Global,
    net: Net<B::Kinds>,
    bodies: Vec<B>,
    workers: usize,
    gate: &G,
    period: Duration,
    observer: &V,
) -> Result<WatchedRun<B::Kinds, H>, WatchedFault<B>>
    ensures { WatchesRun B.Kinds.Kinds B.card net bodies.items workers (WatchedFault.Stopped net bodies) result }
{
    let Some(workers) = WorkerCount::new(workers) else {
        return Err(WatchedFault::Failed(RunFault::Workers { net, bodies }));
    };
    if stops_at_start(observer) {
        return Err(WatchedFault::Stopped { net, bodies });
    }
    let watch = Watch {
        gate,
        period,
        observer,
    };
    let request = RunRequest {
        net,
        bodies,
        workers,
    };
    match run_bodies(rt, alloc, request, &watch) {
        Ok(ran) => Ok(ran),
        Err(failure) => Err(WatchedFault::Failed(fault_of(failure))),
    }
}

#[derive(Drop)]
struct Watch<'a, G: Gate, V: Observer> {
    gate: &'a G,
    period: Duration,
    observer: &'a V,
}

fn stops_at_start<V: Observer>(observer: &V) -> bool {
    let progress = Progress {
        entries: 0,
        growths: 0,
        phase: Phase::Running,
    };
    observer.see(progress) == Wish::Stop
}

fn run_bodies<B: Body, H: Keeper + Send, R: Wait + Clock + Threads + Sync, G: Gate, V: Observer>(
    rt: &R,
    alloc: Global,
    request: RunRequest<B>,
    watch: &Watch<G, V>,
) -> Result<WatchedRun<B::Kinds, H>, Failure<B>>
    ensures { WatchesBodies B.Kinds.Kinds B.card request.net request.bodies.items result }
{
    let RunRequest {
        net,
        bodies,
        workers,
    } = request;
    let opening = match opening_of::<B, H>(alloc, net, bodies) {
        Ok(opening) => opening,
        Err(refused) => return Err(Failure::NotRun(refused)),
    };
    let ran = run_named::<B, H, Brand, Brand, R, G, V>(rt, alloc, opening, workers, watch)?;
    told_by_laws(&ran);
    Ok(ran)
}

/// Generic over the ledgers, so that a call with `Brand` names them.
fn run_named<
    B: Body,
    H: Keeper + Send,
    E: EntryLedger + Send + Sync,
    O: Ledger + Send + Sync,
    R: Wait + Clock + Threads + Sync,
    G: Gate,
    V: Observer,
>(
    rt: &R,
    alloc: Global,
    opening: Opening<B, H>,
    workers: WorkerCount,
    watch: &Watch<G, V>,
) -> Result<WatchedRun<B::Kinds, H>, Failure<B>>
    requires { AreNamesOf E.EntryLedger O.Ledger opening }
    ensures closed { IfOk result (IsClosed (family B.Kinds.Kinds) B.Kinds.admits E.net) }
    ensures failed { IfErr result (FailsOpened B.card opening.machine.network) }
{
    let (monitor, workforce) = match seat_workers::<B, H, E, O, R>(rt, alloc, opening, workers) {
        Ok(seated) => seated,
        Err(machine) => return Err(Failure::NotRun(no_memory(machine))),
    };
    let workforce = work_watched(rt, &monitor, watch, workforce);
    match workforce.close(monitor) {
        Ok(closed) => Ok(closed.into_run()),
        Err(finished) => Err(Failure::Lost(finished)),
    }
}

/// Works without the observer if the monitor has no watcher for it.
fn work_watched<
    B: Body,
    H: Keeper + Send,
    E: EntryLedger + Send + Sync,
    O: Ledger + Send + Sync,
    R: Wait + Clock + Threads + Sync,
    G: Gate,
    V: Observer,
>(
    rt: &R,
    monitor: &Monitor<B, E, O, H>,
    watch: &Watch<G, V>,
    workforce: Workforce<B, E, O>,
) -> Workforce<B, E, O> {
    let bell = Bell::new();
    let orders = Orders {
        gate: watch.gate,
        signal: &bell,
    };
    match monitor.watch(rt) {
        Ok(watcher) => {
            let observation = Observation {
                observer: watch.observer,
                watcher,
                period: watch.period,
            };
            let (_, workforce) = join(
                rt,
                || -> ()
                    requires { observation.watcher.board ≡ E.board }
                { observe(rt, monitor, observation, &bell) },
                || work_and_ring(rt, monitor, &orders, workforce),
            );
            workforce
        }
        Err(_) => work_and_ring(rt, monitor, &orders, workforce),
    }
}

fn work_and_ring<
    B: Body,
    H: Keeper + Send,
    E: EntryLedger + Send + Sync,
    O: Ledger + Send + Sync,
    R: Wait + Clock + Threads + Sync,
    G: Gate,
>(
    rt: &R,
    monitor: &Monitor<B, E, O, H>,
    orders: &Orders<G, Bell>,
    workforce: Workforce<B, E, O>,
) -> Workforce<B, E, O> {
    let mut workforce = workforce;
    workforce.work(rt, monitor, orders);
    orders.signal.ring(rt);
    workforce
}
