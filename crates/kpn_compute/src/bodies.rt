//! Bodies that are only a card.
ghost use Rattle.std.specs.Prelude.{◌≡◌, IsSome, IfOk, map};
ghost use Rattle.kpn_compute.specs.Bodies.{process_cards};

use crate::computes::Computes;
use kpn_body::Body;
use kpn_model::{Answer, Card, Local, Token};
use kpn_network::Net;
use std::alloc::{AllocError, Global};
use std::marker::{Model, PhantomData};

/// A body that is only a card with a signature; its family's function answers. Contracts see the card.
///
/// ```text
/// for body in bodies_of(alloc, net)? {
///     let card = body.card();
///     K::starts(card);
///     answers.push(body.answer(K::start(&card), None))?;
/// }
/// ```
#[derive(Drop)]
pub struct CardBody<K: Computes> {
    card: Card,
    kinds: PhantomData<K>,
}

impl<K: Computes> Model for CardBody<K> {
    ghost use Rattle.std.specs.Prelude.{IsSome};
    ghost use Rattle.kpn_model.specs.declared.kinds.Card.{Card};

    ghost Value = { Card };

    ghost view = { λ b. b.card };

    ghost invariant = { λ b. IsSome (K.signature b.card) };
}

impl<K: Computes> CardBody<K> {
    /// Makes the body of a card that has a signature.
    pub fn new(card: Card) -> Self
        requires { IsSome (K.signature card) }
        ensures { result ≡ card }
    {
        CardBody {
            card,
            kinds: PhantomData,
        }
    }
}

impl<K: Computes> Body for CardBody<K> {
    type Kinds = K;

    ghost card = { λ body. body };

    fn card(&self) -> Card {
        self.card
    }

    #[inline(always)]
    fn answer(&self, local: Local, last: Option<Token>) -> Answer {
        K::answer(self.card, local, last)
    }
}

/// Makes a body for each process of a network, in order.
///
/// Errors: out of memory.
///
/// ```text
/// let bodies = bodies_of(alloc, &net)?;
/// ```
pub fn bodies_of<K: Computes>(alloc: Global, net: &Net<K>) -> Result<Vec<CardBody<K>>, AllocError>
    ensures { IfOk result (λ bodies. map ⟦<CardBody<K> as Body>⟧.card bodies.items ≡ process_cards net.now) }
{
    let mut bodies = Vec::with_capacity(alloc, net.processes())?;
    for process in 0..net.processes() {
        bodies.push(CardBody::new(net.card(process)))?;
    }
    Ok(bodies)
}
