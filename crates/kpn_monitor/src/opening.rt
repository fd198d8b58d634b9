//! A machine before it is shared.
ghost use Rattle.std.specs.Prelude.{◌≡◌, [], MatchResult};
ghost use Rattle.kpn_watch.specs.declared.progress.Phase.TheVariants.{Running};
ghost use Rattle.kpn_machine.specs.MachineView.{IsFresh};
ghost use Rattle.kpn_monitor.specs.Views.{IsOpeningOf, new_publisher, AreOfLedger};

use kpn_body::Body;
use kpn_machine::Machine;
use kpn_state::{Keeper, Wide};
use kpn_watch::{Board, Publisher};
use std::alloc::Global;
use std::marker::Model;
use std::sync::ledger::Blank;

/// A fresh machine, with a board and two ledgers that no type names yet. Contracts see the machine, the
/// board, and the name and parts of each ledger. `H` keeps the entries.
#[derive(Drop)]
pub struct Opening<B: Body, H: Keeper = Wide> {
    machine: Machine<B, H>,
    board: Board,
    publisher: Publisher,
    entries: Blank,
    overs: Blank,
}

impl<B: Body, H: Keeper> Model for Opening<B, H> {
    ghost use Rattle.std.specs.Prelude.{◌≡◌, []};
    ghost use Rattle.kpn_watch.specs.declared.progress.Phase.TheVariants.{Running};
    ghost use Rattle.kpn_machine.specs.MachineView.{IsFresh};
    ghost use Rattle.kpn_monitor.specs.Views.{Unopened};

    ghost Value = { Unopened };

    ghost view = { λ o. record { machine = o.machine; board = o.board; entries = record { name = o.entries.name; parts = o.entries.parts }; overs = record { name = o.overs.name; parts = o.overs.parts } } };

    ghost invariant = { λ o. IsFresh o.machine × (o.publisher ≡ record { board = o.board; entries = []; phase = Running; watchers = 0 }) × (o.entries.parts ≡ 65536) × (o.overs.parts ≡ 65536) };
}

impl<B: Body, H: Keeper> Opening<B, H> {
    /// Makes an opening of a fresh machine, with a new board and ledgers of 65,536 parts.
    ///
    /// Errors: out of memory. Returns the machine unchanged.
    pub fn new(alloc: Global, machine: Machine<B, H>) -> Result<Opening<B, H>, Machine<B, H>>
        requires { IsFresh machine }
        ensures { MatchResult result (IsOpeningOf machine) (λ m. m ≡ machine) }
    {
        let Ok((board, publisher)) = Board::new(alloc) else {
            return Err(machine);
        };
        Ok(Opening {
            machine,
            board,
            publisher,
            entries: Blank::new(65536),
            overs: Blank::new(65536),
        })
    }

    /// Returns the machine, unchanged.
    pub fn into_machine(self) -> Machine<B, H>
        ensures machine { result ≡ self.machine }
        ensures fresh { IsFresh result }
    {
        let Opening {
            machine,
            board: _,
            publisher: _,
            entries: _,
            overs: _,
        } = self;
        machine
    }

    pub(crate) fn into_parts(self) -> OpeningParts<B, H>
        ensures machine { (result.machine ≡ self.machine) × IsFresh result.machine }
        ensures board { result.board ≡ self.board }
        ensures publisher { result.publisher ≡ new_publisher self.board }
        ensures entries { AreOfLedger result.entries.name result.entries.parts self.entries }
        ensures overs { AreOfLedger result.overs.name result.overs.parts self.overs }
    {
        let Opening {
            machine,
            board,
            publisher,
            entries,
            overs,
        } = self;
        OpeningParts {
            machine,
            board,
            publisher,
            entries,
            overs,
        }
    }
}

/// The parts of an opening.
#[derive(Drop)]
pub(crate) struct OpeningParts<B: Body, H: Keeper> {
    pub(crate) machine: Machine<B, H>,
    pub(crate) board: Board,
    pub(crate) publisher: Publisher,
    pub(crate) entries: Blank,
    pub(crate) overs: Blank,
}
