//! The parts with which a machine starts.
ghost use Rattle.std.specs.Prelude.{◌≡◌, length, [], All, IsSome, IfOk, OnOk, IfSome, IfNone, map, option_map, replicate};
ghost use Rattle.std.specs.Vec.{vec_capacity};
ghost use Rattle.kpn_model.specs.Families.{family};
ghost use Rattle.kpn_state.specs.declared.standing.Standing.TheVariants.{Ready};
ghost use Rattle.kpn_state.specs.Candidates.{candidate_list};
ghost use Rattle.kpn_machine.specs.OpenFaults.{number_of_open_fault};
ghost use Rattle.kpn_machine.specs.Opening.{starting, filled, cards_of, IsOpenFault, AreSeated, StartsAreAdmitted, started_store, no_marks};

use crate::equality::same_card;
use kpn_body::Body;
use kpn_commit::Core;
use kpn_model::{Card, Kinds, Status};
use kpn_network::Net;
use kpn_state::{Keeper, Ring, Roster, Store, Waiting};
use std::alloc::{AllocError, Global};

/// Why a machine was not opened. `Bodies`: there are not as many bodies as processes. `Card`: a body's card is
/// not that of its process. `Memory`: out of memory.
#[derive(Clone, Copy, Debug, PartialEq, Eq)]
pub enum OpenFault {
    Bodies,
    Card,
    Memory,
}

impl OpenFault {
    /// Returns the number of a fault, 1 to 3, in the order above.
    pub fn number(&self) -> u8
        ensures { result ≡ number_of_open_fault self.now }
    {
        match self {
            OpenFault::Bodies => 1,
            OpenFault::Card => 2,
            OpenFault::Memory => 3,
        }
    }
}

/// Returns the cards that a network's bodies must have, in order. Each has a signature. Errors: out of memory.
pub fn cards_of<K: Kinds>(alloc: Global, net: &Net<K>) -> Result<Vec<Card>, AllocError>
    ensures cards { IfOk result (λ v. v.items ≡ cards_of net.now.processes) }
    ensures signed { IfOk result (λ v. All (λ card. IsSome (K.signature card)) v.items) }
{
    let mut cards = Vec::with_capacity(alloc, net.processes())?;
    for process in 0..net.processes() {
        cards.push(net.card(process))?;
    }
    Ok(cards)
}

/// Returns what is wrong with the bodies, `Bodies` or `Card`; `None` if nothing is.
pub fn bodies_fault<B: Body>(net: &Net<B::Kinds>, bodies: &[B]) -> Option<OpenFault>
    ensures some { IfSome result (IsOpenFault net.now.processes (map B.card bodies.now)) }
    ensures none { IfNone result (map B.card bodies.now ≡ cards_of net.now.processes) }
{
    if bodies.len() != net.processes() {
        return Some(OpenFault::Bodies);
    }
    for p in 0..net.processes() {
        if !same_card(bodies[p].card(), net.card(p)) {
            return Some(OpenFault::Card);
        }
    }
    None
}

/// Returns each process's status, live with its card's start. Errors: out of memory.
pub fn start_statuses<K: Kinds>(alloc: Global, net: &Net<K>) -> Result<Vec<Status>, AllocError>
    ensures items { IfOk result (λ v. v.items ≡ map (starting (family K.Kinds)) net.now.processes) }
    ensures admitted { OnOk result (StartsAreAdmitted K.Kinds net.now) }
{
    let mut statuses = Vec::with_capacity(alloc, net.processes())?;
    for p in 0..net.processes() {
        let card = net.card(p);
        K::starts(card);
        statuses.push(Status::Live {
            local: K::start(&card),
            last: None,
        })?;
    }
    Ok(statuses)
}

/// Returns each channel with its start tokens and its capacity. Errors: out of memory.
pub fn start_rings<K: Kinds>(alloc: Global, net: &Net<K>) -> Result<Vec<Ring>, AllocError>
    ensures { IfOk result (λ v. v.items ≡ map filled net.now.channels) }
{
    net.assure_valid();
    let mut rings = Vec::with_capacity(alloc, net.channels())?;
    for c in 0..net.channels() {
        rings.push(Ring::new(alloc, net.tokens(c), net.capacity(c))?)?;
    }
    Ok(rings)
}

fn empty_slots<B: Body>(alloc: Global, count: usize) -> Result<Vec<Option<B>>, AllocError>
    ensures { IfOk result (λ v. length v.items ≡ count) }
{
    let mut slots = Vec::with_capacity(alloc, count)?;
    for _p in 0..count {
        slots.push(None)?;
    }
    Ok(slots)
}

/// The start of a machine or a flow: the core, and an empty slot for each body.
#[derive(Drop)]
pub struct Start<B: Body, H: Keeper> {
    pub core: Core<H>,
    pub slots: Vec<Option<B>>,
}

/// Makes the start for this network, with room for `limit` entries. Errors: out of memory.
pub fn prepare<B: Body, H: Keeper>(
    alloc: Global,
    net: &Net<B::Kinds>,
    limit: usize,
) -> Result<Start<B, H>, AllocError>
    ensures store { IfOk result (λ r. r.core.store ≡ started_store (family B.Kinds.Kinds) net.now limit) }
    ensures standings { IfOk result (λ r. r.core.standings ≡ replicate (length net.now.processes) Ready) }
    ensures candidates { IfOk result (λ r. r.core.waiting.candidates ≡ candidate_list [] (length net.now.processes)) }
    ensures marks { IfOk result (λ r. r.core.waiting.marks ≡ no_marks (length net.now.channels)) }
    ensures slots { IfOk result (λ r. length r.slots.items ≡ length net.now.processes) }
    ensures admitted { OnOk result (StartsAreAdmitted B.Kinds.Kinds net.now) }
{
    net.assure_valid();
    let statuses = start_statuses(alloc, net)?;
    let rings = start_rings(alloc, net)?;
    let core = Core {
        store: Store::new(alloc, statuses, rings, limit)?,
        standings: Roster::new(alloc, net.processes())?,
        waiting: Waiting::new(alloc, net.processes(), net.channels())?,
    };
    let slots = empty_slots(alloc, net.processes())?;
    Ok(Start { core, slots })
}

/// Moves each body into the slot of its number. There must be as many slots as bodies.
pub fn seat_all<B: Body>(bodies: &mut Vec<B>, slots: &mut Vec<Option<B>>)
    requires { length slots.old.items ≡ length bodies.old.items }
    ensures seated { AreSeated (map B.card bodies.old.items) (map (option_map B.card) slots.new.items) }
    ensures slots { length slots.new.items ≡ length slots.old.items }
    ensures emptied { bodies.new.items ≡ [] }
    ensures room { vec_capacity bodies.new ≡ vec_capacity bodies.old }
{
    while let Some(body) = bodies.pop() {
        let process = bodies.len();
        slots[process] = Some(body);
    }
}
