//! Starts runs.
ghost use Rattle.std.specs.Prelude.{◌≡◌, ◌<◌, ◌≤◌, ◌⊎◌, MatchOption};
ghost use Rattle.kpn_machine.specs.MachineView.{IsFresh};
ghost use Rattle.kpn_run.specs.Refusals.{LacksMemory, Opens};

use kpn_body::Body;
use kpn_machine::{Machine, OpenFault, OpenRefused};
use kpn_monitor::Opening;
use kpn_network::Net;
use kpn_state::Keeper;
use std::alloc::Global;
use std::marker::Model;

/// The most workers of a run.
pub const MOST_WORKERS: usize = 16;

/// A number of workers that a run may have: 1 to 16.
#[derive(Drop)]
pub struct WorkerCount {
    count: usize,
}

impl Model for WorkerCount {
    ghost use Rattle.std.specs.Prelude.{ℕ, ◌<◌, ◌≤◌};

    ghost Value = { ℕ };

    ghost view = { λ w. w.count };

    ghost invariant = { λ w. (0 < w.count) × (w.count ≤ 16) };
}

impl WorkerCount {
    /// Returns the count of this many workers; `None` if a run may not have so many.
    pub fn new(workers: usize) -> Option<WorkerCount>
        ensures { MatchOption result ((workers ≡ 0) ⊎ (16 < workers)) (λ count. count ≡ workers) }
    {
        if workers > 0 && workers <= MOST_WORKERS {
            Some(WorkerCount { count: workers })
        } else {
            None
        }
    }

    /// Returns the count as a number.
    pub fn get(&self) -> usize
        ensures is { result ≡ self.now }
        ensures few { (0 < result) × (result ≤ 16) }
    {
        self.count
    }
}

/// What is to be run: a network, a body for each process, in order, and the number of workers.
#[derive(Drop)]
pub struct RunRequest<B: Body> {
    pub net: Net<B::Kinds>,
    pub bodies: Vec<B>,
    pub workers: WorkerCount,
}

/// Opens a machine, and makes what its monitor is opened with.
///
/// Errors: those of [`Machine::open`]. If out of memory, returns bodies of the same cards.
pub fn opening_of<B: Body, H: Keeper>(
    alloc: Global,
    net: Net<B::Kinds>,
    bodies: Vec<B>,
) -> Result<Opening<B, H>, OpenRefused<B>>
    ensures { Opens B.card net bodies.items result }
{
    match Machine::<B, H>::open_with_keeper(alloc, net, bodies) {
        Ok(machine) => match Opening::new(alloc, machine) {
            Ok(opening) => Ok(opening),
            Err(machine) => Err(no_memory(machine)),
        },
        Err(refused) => Err(refused),
    }
}

/// What is returned of a machine that has not run, if out of memory.
pub fn no_memory<B: Body, H: Keeper>(machine: Machine<B, H>) -> OpenRefused<B>
    requires { IsFresh machine }
    ensures { LacksMemory B.card machine.network result }
{
    let (net, bodies) = machine.into_parts();
    OpenRefused {
        net,
        bodies,
        fault: OpenFault::Memory,
    }
}
