//! The text of a network as a description for `hox`, with copies, sorts and tokens written out.
#![tactic(auto)]

mod channels;
mod description;
mod processes;

pub use description::description_of;
