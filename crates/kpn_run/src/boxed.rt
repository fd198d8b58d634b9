//! Bodies that stay in place while their tasks move between the machine and the workers.
ghost use Rattle.std.specs.Prelude.{◌≡◌, ◌≤◌, ◌+◌, ◌++◌, [], length, vec_capacity, IfOk, IfErr};
ghost use Rattle.std.specs.VecDeque.{deque_len};

use kpn_body::Body;
use kpn_model::{Answer, Card, Local, Token};
use std::alloc::{AllocFailed, Global};
use std::collections::VecDeque;
use std::marker::Model;

/// A body on the heap; contracts see the body. A move copies one word, and workers call the body in place.
#[derive(Drop)]
pub(crate) struct BoxedBody<B: Body> {
    body: Box<B>,
}

impl<B: Body> Model for BoxedBody<B> {
    ghost Value = { B };

    ghost coded = { B.code };

    ghost view = { λ b. b.body.value };
}

impl<B: Body> BoxedBody<B> {
    pub(crate) fn into_inner(self) -> B
        ensures { result ≡ self }
    {
        let BoxedBody { body } = self;
        Box::into_inner(body)
    }
}

impl<B: Body> Body for BoxedBody<B> {
    type Kinds = B::Kinds;

    ghost card = { λ b. B.card b };

    #[inline(always)]
    fn card(&self) -> Card {
        self.body.as_ref().card()
    }

    #[inline(always)]
    fn answer(&self, local: Local, last: Option<Token>) -> Answer {
        self.body.as_ref().answer(local, last)
    }
}

/// Bodies on the heap, and the emptied vector that they came from.
#[derive(Drop)]
pub(crate) struct Boxes<B: Body> {
    pub(crate) boxed: Vec<BoxedBody<B>>,
    pub(crate) spare: Vec<B>,
}

/// Moves bodies to the heap. Errors: out of memory; returns the bodies.
pub(crate) fn box_all<B: Body>(alloc: Global, mut bodies: Vec<B>) -> Result<Boxes<B>, Vec<B>>
    ensures boxed { IfOk result (λ r. r.boxed.items ≡ bodies.items) }
    ensures spare { IfOk result (λ r. r.spare.items ≡ []) }
    ensures room { IfOk result (λ r. length bodies.items ≤ vec_capacity r.spare) }
    ensures back { IfErr result (λ v. v.items ≡ bodies.items) }
{
    let Ok(mut boxed) = VecDeque::with_capacity(alloc, bodies.len()) else {
        return Err(bodies);
    };
    // The last first, each to the front of `boxed`.
    while let Some(body) = bodies.pop() {
        match Box::new(alloc, body) {
            Ok(body) => boxed.push_front_reserved(BoxedBody { body }),
            Err(AllocFailed { value }) => {
                bodies.push_reserved(value);
                unbox_each(&mut boxed, &mut bodies);
                return Err(bodies);
            }
        }
    }
    Ok(Boxes {
        boxed: boxed.into_vec(),
        spare: bodies,
    })
}

/// Moves bodies from the heap back into the emptied vector that they came from.
pub(crate) fn unbox_all<B: Body>(boxed: Vec<BoxedBody<B>>, spare: Vec<B>) -> Vec<B>
    requires empty { spare.items ≡ [] }
    requires room { length boxed.items ≤ vec_capacity spare }
    ensures { result.items ≡ boxed.items }
{
    let mut boxed = VecDeque::from_vec(boxed);
    let mut bodies = spare;
    unbox_each(&mut boxed, &mut bodies);
    bodies
}

fn unbox_each<B: Body>(boxed: &mut VecDeque<BoxedBody<B>>, bodies: &mut Vec<B>)
    requires { length bodies.old.items + deque_len boxed.old ≤ vec_capacity bodies.old }
    ensures { bodies.new.items ≡ bodies.old.items ++ boxed.old.items }
{
    while let Some(one) = boxed.pop_front() {
        bodies.push_reserved(one.into_inner());
    }
}
