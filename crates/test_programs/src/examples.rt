//! The examples example_own_kinds and example_least_room.
mod flips;
pub(crate) mod least_room;
pub(crate) mod own_kinds;
