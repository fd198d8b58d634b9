//! A network that is open to the outside.

use kpn_model::Kinds;
use kpn_network::Net;

/// A network, its inputs that may still be fed, and its outputs.
#[derive(Drop)]
pub(crate) struct OpenNet<'a, K: Kinds> {
    pub(crate) net: &'a Net<K>,
    pub(crate) inputs: &'a [usize],
    pub(crate) outputs: &'a [usize],
}
