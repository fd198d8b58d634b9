//! Runs a network.
ghost use Rattle.std.specs.Prelude.{◌≡◌, ◌≢◌, ◌+◌, ◌<◌, ◌≤◌, ℕ, IfOk, IsSome, None, Err, length, map};
ghost use Rattle.std.specs.List.{All};
ghost use Rattle.kpn_state.specs.declared.standing.Standing.TheVariants.{Out};
ghost use Rattle.kpn_state.specs.Standings.{standing};
ghost use Rattle.hox_run.specs.Cuts.{IsWithin};
ghost use Rattle.hox_run.specs.Telling.{IsOfRun, MayShareFor, TellsWanted};

use crate::progress::{OnBoard, ProgressReceiver, tell_of};
use crate::shown::{WantedRun, WantedStreams};
use crate::telling::{Told, tell_run};
use hox_network::NoResult;
use kpn_body::Body;
use kpn_compute::{CardBody, Computes, bodies_of};
use kpn_machine::Machine;
use kpn_network::Net;
use kpn_observe::{WatchedFault, WatchedRun, run_watched_with_keeper};
use kpn_report::Tallied;
use kpn_run::starting::MOST_WORKERS;
use kpn_run::{Prompt, RunFault, run_with_keeper};
use kpn_state::{Keeper, Packed};
use std::alloc::{AllocError, Global};
use std::rt::Clock;
use std::sync::Wait;
use std::thread::Threads;
use std::time::Duration;

/// After how many answers one worker asks whether progress is due.
const PIECE: u64 = 100_000;

/// The milliseconds between two looks at several workers.
const PERIOD: u64 = 100;

/// Runs a network as is wanted, but with at least 1 and at most 16 workers, and returns its exit status, its report
/// with the verdict, and the wanted streams. A single worker is the calling thread.
///
/// If the run ends by itself, every run of the network that is over gives the same result, whatever the
/// schedule and the number of workers (Kahn 1974). If the budget cuts the run, each of its streams is a
/// prefix of any other run's, or the reverse.
///
/// Errors: see [`NoResult`].
pub fn execute<K: Computes, R: Wait + Clock + Threads + Sync, P: ProgressReceiver>(
    rt: &R,
    alloc: Global,
    net: Net<K>,
    wanted: &WantedRun<'_, '_, P>,
) -> Result<Told, NoResult>
    requires { All (IsWithin net) wanted.now.streams.outputs.now }
    ensures told { IfOk result (TellsWanted K.Kinds net wanted.now.streams) }
    ensures lost { result ≡ Err NoResult.Lost → 1 < wanted.now.workers }
{
    let Ok(bodies) = bodies_of(alloc, &net) else {
        return Err(NoResult::Memory);
    };
    if wanted.workers > 1 {
        return execute_by_workers(rt, alloc, net, bodies, wanted);
    }
    execute_alone(alloc, net, bodies, wanted).map_err(|_| NoResult::Memory)
}

/// Runs a network in the calling thread.
fn execute_alone<K: Computes, P: ProgressReceiver>(
    alloc: Global,
    net: Net<K>,
    bodies: Vec<CardBody<K>>,
    wanted: &WantedRun<'_, '_, P>,
) -> Result<Told, AllocError>
    requires { All (IsWithin net) wanted.now.streams.outputs.now }
    ensures { IfOk result (TellsWanted K.Kinds net wanted.now.streams) }
{
    let Ok(mut machine) = Machine::<CardBody<K>, Tallied>::open_with_keeper(alloc, net, bodies)
    else {
        return Err(AllocError);
    };
    finish(&mut machine, wanted.progress);
    let chronicle = machine.into_chronicle();
    tell_run(alloc, &chronicle, chronicle.keeper(), &wanted.streams)
}

/// Runs to an end in the calling thread, a piece at a time. No process may be out.
fn finish<B: Body, H: Keeper, P: ProgressReceiver>(machine: &mut Machine<B, H>, progress: &P)
    requires { (p : ℕ) → standing machine.old.standings p ≢ Out }
    ensures network { machine.new.network ≡ machine.old.network }
    ensures ended { IsSome machine.new.end }
{
    while machine.end().is_none() {
        go_on(machine);
        tell_of(machine, progress);
    }
}

/// Continues a run by some answers.
fn go_on<B: Body, H: Keeper>(machine: &mut Machine<B, H>)
    requires on { machine.old.end ≡ None }
    requires none_out { (p : ℕ) → standing machine.old.standings p ≢ Out }
    ensures network { machine.new.network ≡ machine.old.network }
    ensures none_out { (p : ℕ) → standing machine.new.standings p ≢ Out }
    ensures more { machine.old.commits < machine.new.commits }
    ensures few { machine.new.commits ≤ machine.new.network.budget + 2 + length machine.new.network.processes }
{
    machine.assure_faithful();
    machine.ask_in_place(PIECE);
}

/// Runs a network with several workers, at most 16, and with a thread that shows their progress if that is wanted.
fn execute_by_workers<K: Computes, R: Wait + Clock + Threads + Sync, P: ProgressReceiver>(
    rt: &R,
    alloc: Global,
    net: Net<K>,
    bodies: Vec<CardBody<K>>,
    wanted: &WantedRun<'_, '_, P>,
) -> Result<Told, NoResult>
    requires { MayShareFor net (map ⟦<CardBody<K> as Body>⟧.card bodies.items) wanted.now.workers wanted.now.streams }
    ensures { IfOk result (TellsWanted K.Kinds net wanted.now.streams) }
{
    let workers = wanted.workers.min(MOST_WORKERS);
    if !wanted.progress.is_wanted() {
        return match run_with_keeper::<CardBody<K>, Packed, R, Prompt>(
            rt, alloc, net, bodies, workers, &Prompt,
        ) {
            Ok(finish) => tell_watched_run(alloc, &finish, &wanted.streams),
            Err(fault) => Err(no_result_of(fault)),
        };
    }
    let observer = OnBoard {
        progress: wanted.progress,
    };
    let period = Duration::from_millis(PERIOD);
    match run_watched_with_keeper::<CardBody<K>, Packed, R, Prompt, OnBoard<'_, P>>(
        rt, alloc, net, bodies, workers, &Prompt, period, &observer,
    ) {
        Ok(ran) => tell_watched_run(alloc, &ran, &wanted.streams),
        Err(fault) => match fault {
            WatchedFault::Stopped { .. } => Err(NoResult::Lost),
            WatchedFault::Failed(fault) => Err(no_result_of(fault)),
        },
    }
}

/// Returns why a run of fitting bodies by 1 to 16 workers has no result.
fn no_result_of<B: Body>(fault: RunFault<B>) -> NoResult
    requires few { IsOfRun fault }
{
    match fault {
        RunFault::Memory { .. } => NoResult::Memory,
        RunFault::Lost { .. } => NoResult::Lost,
        RunFault::Workers { .. } => unreachable!(),
        RunFault::Open { .. } => unreachable!(),
    }
}

/// Returns the result of a run by several workers. A watched run without an end is lost: the observer never stops
/// the run, but no contract says that it then has an end.
fn tell_watched_run<K: Computes>(
    alloc: Global,
    ran: &WatchedRun<K, Packed>,
    wanted: &WantedStreams<'_>,
) -> Result<Told, NoResult>
    requires { All (IsWithin ran.now.machine.network) wanted.now.outputs.now }
    ensures { IfOk result (TellsWanted K.Kinds ran.now.machine.network wanted.now) }
{
    if ran.end().is_none() {
        return Err(NoResult::Lost);
    }
    let chronicle = ran.chronicle();
    tell_run(alloc, chronicle, chronicle.keeper(), wanted).map_err(|_| NoResult::Memory)
}
