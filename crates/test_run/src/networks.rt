//! Networks of the standard kinds.
use kpn_body::Body;
use kpn_compute::{CardBody, bodies_of};
use kpn_front::load;
use kpn_net::{Net, NetFault};
use kpn_standard::Standard;
use std::alloc::{AllocError, Global};
use std::fs;
use std::rt::Files;

/// A network and its bodies.
#[derive(Drop)]
pub(crate) struct NetAndBodies<B: Body> {
    pub(crate) net: Net<B::Kinds>,
    pub(crate) bodies: Vec<B>,
}

/// A network of the standard kinds and its stateless bodies.
pub(crate) type StandardParts = NetAndBodies<CardBody<Standard>>;

/// Loads the description in a file. If memory is refused, the answer says so, and it is loaded once more.
///
/// Errors: out of memory again, or another fault.
pub(crate) fn network<R: Files + AllocGlobal>(
    rt: &R,
    name: &str,
    answer: &mut String,
) -> Result<Net<Standard>, NetFault> {
    let Ok(text) = fs::read_to_string(rt, name) else {
        return Err(NetFault::Memory);
    };
    let first = load_text(rt.alloc(), text.as_str());
    if let Err(NetFault::Memory) = first {
        let _ = answer.push_str("load refused, ");
        return load_text(rt.alloc(), text.as_str());
    }
    first
}

fn load_text(alloc: Global, text: &str) -> Result<Net<Standard>, NetFault> {
    let mut source = text.as_bytes();
    load(alloc, &mut source)
}

/// Errors: there is no such network, or memory is refused.
pub(crate) fn parts_of<R: Files + AllocGlobal>(
    rt: &R,
    name: &str,
    answer: &mut String,
) -> Result<StandardParts, AllocError> {
    let Ok(net) = network(rt, name, answer) else {
        return Err(AllocError);
    };
    let bodies = bodies_of(rt.alloc(), &net)?;
    Ok(NetAndBodies { net, bodies })
}
