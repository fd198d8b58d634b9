//! A run that ended, as reports see it.

use kpn_model::{End, Kinds, Place};
use kpn_network::Net;
use kpn_report::Entries;
use kpn_state::Standing;

/// A run that ended: its network and entries, the standing and place of each process, and the end.
#[derive(Drop)]
pub(crate) struct Ended<'a, K: Kinds, E: Entries> {
    pub(crate) net: &'a Net<K>,
    pub(crate) history: &'a E,
    pub(crate) standings: &'a [Standing],
    pub(crate) places: &'a [Place],
    pub(crate) end: End,
}
