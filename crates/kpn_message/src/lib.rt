//! Messages for people: what is wrong with a description, and where. `kpn_net` finds the fault.
//!
//! ```text
//! if let Some(message) = message_of::<Mixed>(rt.alloc(), text, refused.fault, KINDS) {
//!     let _ = eprintln!(rt; "example_mixed: {message}");
//! }
//! ```
#![tactic(auto)]

mod channels;
mod every_fault;
mod keys;
mod lines;
pub mod location;
mod message;
mod processes;
mod quoted;

pub use every_fault::{MOST_MESSAGES, Message, Messages, messages_of_sketch};
pub use lines::line_of_table;
pub use location::{Location, locate};
pub use message::{message_of, message_of_delayed, message_of_sketch};
