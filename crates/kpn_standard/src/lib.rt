//! The family of the twelve standard kinds: names, arguments, ports, answers and bodies.
//!
//! ```text
//! let net: Net<Standard> = made.check().expect(&rt, "a fault");
//! ```
#![tactic(auto)]

pub mod answers;
pub mod arithmetic;
pub mod body;
pub mod copies;
pub mod ends;
pub mod flags;
pub mod help;
pub mod kind;
pub mod merging;
pub mod standard;
mod token;

pub use answers::answer;
pub use arithmetic::{add, scale};
pub use body::{Call, StandardBody, by_words};
pub use copies::{copy, prefix, take};
pub use ends::{count, sink};
pub use flags::{divides, select, switch};
pub use help::{HELP, Help};
pub use kind::Kind;
pub use merging::{merge, weave};
pub use standard::Standard;
