//! Why a run failed.
ghost use Rattle.std.specs.Prelude.{◌≡◌};
ghost use Rattle.kpn_model.specs.Network.{Network as NetV};
ghost use Rattle.kpn_machine.specs.declared.opening.OpenFault.{OpenFault as OpenFaultV};
ghost use Rattle.kpn_body.specs.Input.{Input};
ghost use Rattle.kpn_run.specs.Refusals.{IsFaultOfFailure};

use kpn_body::{Answered, Body, Finished};
use kpn_machine::{OpenFault, OpenRefused};
use kpn_network::Net;

/// Why a run failed.
#[derive(Drop)]
pub enum RunFault<B: Body> {
    /// The number of workers is not 1 to 16. Nothing has run; returns everything unchanged.
    Workers {
        net: Net<B::Kinds>,
        bodies: Vec<B>,
    },
    /// The bodies are not one for each process, with its card. Nothing has run; returns everything unchanged.
    Open {
        net: Net<B::Kinds>,
        bodies: Vec<B>,
        fault: OpenFault,
    },
    /// Out of memory; the bodies fit. Nothing has run; returns bodies with the same cards, in order.
    Memory {
        net: Net<B::Kinds>,
        bodies: Vec<B>,
    },
    /// The machine refused a worker's answer. It is unproved that this never happens: the monitor's contracts
    /// can't name what the lock guards.
    Lost {
        answered: Answered<B::Kinds>,
        body: B,
    },
}

impl<B: Body> RunFault<B> {
    /// Returns the fault's number: 1 to 4, in the order above.
    pub fn number(&self) -> u8
        ensures workers { (n : NetV) (bs : _) → self.now ≡ RunFault.Workers n bs → result ≡ 1 }
        ensures open { (n : NetV) (bs : _) (fault : OpenFaultV) → self.now ≡ RunFault.Open n bs fault → result ≡ 2 }
        ensures memory { (n : NetV) (bs : _) → self.now ≡ RunFault.Memory n bs → result ≡ 3 }
        ensures lost { (a : Input) (b : _) → self.now ≡ RunFault.Lost a b → result ≡ 4 }
    {
        match self {
            RunFault::Workers { .. } => 1,
            RunFault::Open { .. } => 2,
            RunFault::Memory { .. } => 3,
            RunFault::Lost { .. } => 4,
        }
    }
}

/// Why a run by 1 to 16 workers failed.
#[derive(Drop)]
pub enum Failure<B: Body> {
    /// Nothing has run.
    NotRun(OpenRefused<B>),
    /// The machine refused this answer.
    Lost(Finished<B>),
}

/// The fault of a run that failed so.
pub fn fault_of<B: Body>(failure: Failure<B>) -> RunFault<B>
    ensures { IsFaultOfFailure B.card failure result }
{
    match failure {
        Failure::NotRun(OpenRefused { net, bodies, fault }) => match fault {
            OpenFault::Memory => RunFault::Memory { net, bodies },
            OpenFault::Bodies | OpenFault::Card => RunFault::Open { net, bodies, fault },
        },
        Failure::Lost(finished) => {
            let (answered, body) = finished.into_parts();
            RunFault::Lost { answered, body }
        }
    }
}
