//! Makes the network of a description as requested: with sorts from ports, negative arguments and start
//! tokens, tokens from files and another budget.
#![tactic(auto)]

mod budget;
mod copies;
mod delays;
mod described;
mod family;
mod formulas;
mod names;
mod parts;
mod preparing;
mod presets;
mod reading;
mod request;
mod signs;
mod sorts;

pub use described::{load_by_ports, sketch_by_ports};
pub use family::{AllKinds, KINDS};
pub use names::channel_names;
pub use preparing::prepare;
pub use presets::{FileFault, PresetFault};
pub use reading::{LONGEST_FILE, ReadFault, read_whole};
pub use request::{Fault, NoResult, Request, StreamAs, TokenFile};
