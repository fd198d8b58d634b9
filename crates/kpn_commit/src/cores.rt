//! A machine without its network and its bodies.

use kpn_state::{Keeper, Roster, Store, Waiting, Wide};

/// The part that a run changes: channels and history, standings, and who waits at which channel.
#[derive(Drop)]
pub struct Core<H: Keeper = Wide> {
    pub store: Store<H>,
    pub standings: Roster,
    pub waiting: Waiting,
}
