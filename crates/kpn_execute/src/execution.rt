//! Runs a network and writes the report.
ghost use Rattle.std.specs.Prelude.{◌≡◌, ◌<◌, ◌≤◌, Some, None, IfOk, IfErr, IsSome, map};
ghost use Rattle.kpn_model.specs.Families.{family};
ghost use Rattle.kpn_machine.specs.Opening.{cards_of};
ghost use Rattle.kpn_execute.specs.Execution.{status_of_end, IsChannelToShow, TellsEnded, Writes, ExecutesNet, IsUnknownName, WritesEnded, WritesShown, name_shown};

use kpn_args::MAX_WORKERS;
use kpn_body::Body;
use kpn_front::{ExitStatus, Sink, say, say_lost, say_no_channel, say_refused};
use kpn_laws::{determinacy_of, least_room_of, least_solution_of};
use kpn_machine::{Chronicle, Machine};
use kpn_net::{End, Kinds, Net, NetFault};
use kpn_report::{Entries, Tallied, places_of, text_of_entries};
use kpn_run::{Open, RunFault, run_with_keeper};
use kpn_state::{Keeper, Packed};
use std::alloc::Global;
use std::rt::Clock;
use std::sync::Wait;
use std::thread::Threads;

/// A network, its bodies, and how many workers run it.
#[derive(Drop)]
struct WorkersRequest<B: Body> {
    net: Net<B::Kinds>,
    bodies: Vec<B>,
    workers: usize,
}

/// Runs a network with a body for each process and `workers` workers, but at least 1 and at most 16, and writes
/// the report, with the stream of the channel named by `show`. A single worker is the calling thread, without a
/// lock. Several call the bodies outside the lock, so a body may wait for another.
///
/// If the run is over, each run of the network that is over has the same text. If capacity b suffices for the
/// network, no channel of capacity b or more grows (Parks 1995; docs/least-room.md). The streams are below
/// every solution of the network's equations, and are the least solution if the run terminated or deadlocked
/// (Kahn 1974; docs/least-solution.md).
///
/// Returns the exit status:
///
/// - 0 if the run terminated, 5 if it deadlocked, 6 at the ceiling, 3 if its budget was spent;
/// - 1 if no channel has the name `show` (writes `no channel NAME` and runs nothing);
/// - 4 if out of memory: before the run or for the report (`refused 14`), or for a growth (`end memory`);
/// - 7 if the write fails;
/// - 8 if the machine refused an answer of one of several workers (`lost`).
pub fn execute<B: Body, S: Sink, R: Wait + Clock + Threads + Sync>(
    rt: &R,
    alloc: Global,
    net: Net<B::Kinds>,
    bodies: Vec<B>,
    workers: usize,
    show: Option<&str>,
    sink: &mut S,
) -> u8
    requires cards { map B.card bodies.items ≡ cards_of net.processes }
    ensures { ExecutesNet B.Kinds.Kinds net workers show.entry (S.seen sink.old) (S.seen sink.new) result }
{
    match channel_to_show(&net, show) {
        Ok(channel) => {
            if workers <= 1 {
                return tell_alone(alloc, net, bodies, channel, sink);
            }
            let request = WorkersRequest {
                net,
                bodies,
                workers: workers.min(MAX_WORKERS),
            };
            tell_by_workers(rt, alloc, request, channel, sink)
        }
        Err(name) => say_no_channel(name, sink),
    }
}

/// Returns the channel to show, if any; or a name that no channel has.
fn channel_to_show<'a, K: Kinds>(
    net: &Net<K>,
    show: Option<&'a str>,
) -> Result<Option<usize>, &'a str>
    ensures channel { IfOk result (IsChannelToShow net.now (name_shown show.entry)) }
    ensures unknown { IfErr result (λ name. IsUnknownName net.now (name_shown show.entry) name.now) }
{
    match show {
        None => Ok(None),
        Some(name) => match net.find_channel(name) {
            Some(channel) => Ok(Some(channel)),
            None => Err(name),
        },
    }
}

/// `execute` calls it with bodies that fit, so opening a machine fails only if out of memory.
#[inline(never)]
fn tell_alone<B: Body, S: Sink>(
    alloc: Global,
    net: Net<B::Kinds>,
    bodies: Vec<B>,
    channel: Option<usize>,
    sink: &mut S,
) -> u8
    ensures { Writes (TellsEnded (family B.Kinds.Kinds) net channel) (S.seen sink.old) (S.seen sink.new) result }
{
    let Ok(mut machine) = Machine::<B, Tallied>::open_with_keeper(alloc, net, bodies) else {
        return say_refused(&NetFault::Memory, sink);
    };
    machine.finish_alone();
    let chronicle = machine.into_chronicle();
    say_told(alloc, &chronicle, chronicle.keeper(), channel, sink)
}

#[inline(never)]
fn tell_by_workers<B: Body, S: Sink, R: Wait + Clock + Threads + Sync>(
    rt: &R,
    alloc: Global,
    request: WorkersRequest<B>,
    channel: Option<usize>,
    sink: &mut S,
) -> u8
    requires cards { map B.card request.bodies.items ≡ cards_of request.net.processes }
    requires workers { (1 < request.workers) × (request.workers ≤ 16) }
    ensures { WritesShown B.Kinds.Kinds request.net request.workers channel (S.seen sink.old) (S.seen sink.new) result }
{
    let WorkersRequest {
        net,
        bodies,
        workers,
    } = request;
    match run_with_keeper::<B, Packed, R, Open>(rt, alloc, net, bodies, workers, &Open) {
        Ok(finish) => {
            let chronicle = finish.chronicle();
            say_told(alloc, chronicle, chronicle.keeper(), channel, sink)
        }
        Err(RunFault::Memory { .. }) => say_refused(&NetFault::Memory, sink),
        Err(RunFault::Lost { .. }) => say_lost(sink),
        Err(RunFault::Workers { .. }) => unreachable!(),
        Err(RunFault::Open { .. }) => unreachable!(),
    }
}

/// Writes the report of a run that has ended.
fn say_told<K: Kinds, H: Keeper, E: Entries, S: Sink>(
    alloc: Global,
    chronicle: &Chronicle<K, H>,
    entries: &E,
    channel: Option<usize>,
    sink: &mut S,
) -> u8
    requires ended { IsSome chronicle.now.end }
    requires entries { E.entries entries.now ≡ chronicle.now.history }
    ensures { WritesEnded K.Kinds chronicle.now.network channel (S.seen sink.old) (S.seen sink.new) result }
{
    let Some(end) = chronicle.end() else {
        unreachable!()
    };
    determinacy_of::<K>();
    least_room_of::<K>();
    least_solution_of::<K>();
    let net = chronicle.net();
    let Ok(places) = places_of(alloc, net, chronicle.standings()) else {
        return say_refused(&NetFault::Memory, sink);
    };
    let written = text_of_entries(alloc, net, entries, places.as_slice(), end, channel);
    let Ok(text) = written else {
        return say_refused(&NetFault::Memory, sink);
    };
    say(sink, text.as_str(), status_of(end))
}

fn status_of(end: End) -> ExitStatus
    ensures { result ≡ status_of_end end }
{
    match end {
        End::Terminated => ExitStatus::Success,
        End::Budget => ExitStatus::BudgetSpent,
        End::Memory => ExitStatus::MemoryRefused,
        End::Deadlock => ExitStatus::Deadlocked,
        End::Ceiling => ExitStatus::AtCeiling,
    }
}
