//! Joins two families.
ghost use Rattle.std.specs.Prelude.{◌≡◌, ◌⊎◌, ◌↔◌, ◌<◌, true, false, None, IsSome, IfSome};
ghost use Rattle.kpn_model.specs.Families.{family};
ghost use Rattle.kpn_compute.specs.Both.{is_first, own_card, both_named, both_ports, both_family, BothAdmit, number_in_both, IsSharedRefused, MeansOwnAlone};

use crate::computes::Computes;
use kpn_model::{Answer, Card, Kinds, Local, Signature, Token};
use std::marker::PhantomData;

/// The number for rejected names: no kind of two joined families has it.
pub const NO_KIND: u16 = 65535;

/// The family of all kinds of two families. Either may itself be a `Both`.
///
/// Kind k of the first is kind 2k here, of the second 2k + 1, if k is below 2^15 - 1; else it has no number.
pub struct Both<A: Kinds, B: Kinds> {
    first: PhantomData<A>,
    second: PhantomData<B>,
}

/// Whether a card of two joined families is one of the first.
pub fn is_first(card: Card) -> bool
    ensures { result ≡ is_first card }
{
    card.kind % 2 == 0
}

/// Returns the card that a card of two joined families has in its own family.
///
/// It copies word by word, so that a run keeps the words that it uses in registers. Copied whole, with the padding
/// before them, all arguments would go through memory at each act.
pub fn own_card(card: Card) -> Card
    ensures { result ≡ own_card card }
{
    let [first, second, third] = card.args;
    Card {
        kind: card.kind / 2,
        args: [first, second, third],
    }
}

/// Returns a kind's number here. `place` is 0 for the first family, 1 for the second.
fn number_in_both(place: u16, kind: u16) -> u16
    requires { place < 2 }
    ensures { result ≡ number_in_both place kind }
{
    if kind < 32767 {
        2 * kind + place
    } else {
        NO_KIND
    }
}

impl<A: Kinds, B: Kinds> Kinds for Both<A, B> {
    ghost named = { both_named A.named B.named };

    ghost signature = { both_ports A.signature B.signature };

    ghost start = { (both_family (family A.Kinds) (family B.Kinds)).start };

    ghost answer_of = { (both_family (family A.Kinds) (family B.Kinds)).answer };

    ghost admits = { BothAdmit A.admits B.admits };

    /// Returns what a name means; `None` if neither family has it.
    ///
    /// A name that only one family has means its kind there, if that kind's number is below 2^15 - 1. Any
    /// other name that a family has is rejected: no card of its number has ports, so a description that uses
    /// it is no network. This also holds of a name that several families of a nested `Both` have.
    fn named(name: &str) -> Option<(u16, usize)>
        ensures is { result ≡ both_named A.named B.named name.now }
        ensures known { IsSome result ↔ (IsSome (A.named name.now) ⊎ IsSome (B.named name.now)) }
        ensures shared { IsSharedRefused A.signature B.signature (A.named name.now) (B.named name.now) result }
        ensures first { IfSome (A.named name.now) (MeansOwnAlone true (B.named name.now) result) }
        ensures second { IfSome (B.named name.now) (MeansOwnAlone false (A.named name.now) result) }
    {
        match (A::named(name), B::named(name)) {
            (None, None) => None,
            (Some((kind, args)), None) => Some((number_in_both(0, kind), args)),
            (None, Some((kind, args))) => Some((number_in_both(1, kind), args)),
            (Some(_), Some(_)) => Some((NO_KIND, 0)),
        }
    }

    fn signature(card: &Card) -> Option<Signature> {
        if card.kind == NO_KIND {
            return None;
        }
        let own = own_card(*card);
        if is_first(*card) {
            A::signature(&own)
        } else {
            B::signature(&own)
        }
    }

    fn start(card: &Card) -> Local {
        let own = own_card(*card);
        if is_first(*card) {
            A::start(&own)
        } else {
            B::start(&own)
        }
    }

    #[tactic(auto, using(crate::proofs::BothLawful::both_lawful))]
    fn lawful() {
        A::lawful();
        B::lawful();
    }
}

impl<A: Computes, B: Computes> Computes for Both<A, B> {
    #[inline(always)]
    fn answer(card: Card, local: Local, last: Option<Token>) -> Answer {
        let own = own_card(card);
        if is_first(card) {
            A::answer(own, local, last)
        } else {
            B::answer(own, local, last)
        }
    }
}
