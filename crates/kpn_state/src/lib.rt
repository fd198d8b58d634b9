//! The state of a network, its history, the standings of its processes, and who waits at its channels.
#![tactic(auto)]

pub mod candidates;
pub mod keeper;
pub mod marks;
pub mod packed;
pub mod ring;
pub mod roster;
pub mod standing;
pub mod store;
pub mod waiting;

pub use candidates::Candidates;
pub use keeper::{Keeper, Recall, Unkept, Wide};
pub use marks::Marks;
pub use packed::Packed;
pub use ring::Ring;
pub use roster::Roster;
pub use standing::Standing;
pub use store::Store;
pub use waiting::Waiting;
