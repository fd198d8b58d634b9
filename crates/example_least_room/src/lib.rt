//! How to use the law of least room on a network of standard kinds.
//!
//! `longer_parks_case` makes a network for which capacities of two suffice, and `finish` runs it: whatever
//! the schedule, no channel grows to three. docs/least-room.md explains the law.
#![tactic(auto)]

mod networks;
mod running;

pub use networks::longer_parks_case;
pub use running::finish;
