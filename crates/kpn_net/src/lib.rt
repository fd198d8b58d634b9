//! Descriptions of Kahn process networks (Kahn 1974), and the check that makes a network of one. It re-exports
//! `Net` and the types of the model.
//!
//! ```text
//! let sketch = read_sketch(alloc, text.as_bytes())?;
//! Net::check(alloc, &sketch)
//! ```
#![tactic(auto)]

pub mod check;
pub mod faults;
mod limits;
mod names;
mod ports;

pub use check::Check;
pub use kpn_model::{
    Act, Answer, Card, Channel, Deed, End, Ends, Entry, Kinds, Listed, Local, Place, Process,
    Signature, Sort, Status, Text, Token, version,
};
pub use kpn_network::Net;
pub use kpn_sketch::{
    ChannelSketch, Delay, Delayed, NetFault, ProcessSketch, Sketch, TokenSketch, fault, read,
    read_delayed, read_sketch, sketch,
};
