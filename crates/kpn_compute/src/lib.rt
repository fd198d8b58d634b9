//! Families with a plain function that answers: bodies without closures, kinds that are one step, and `Both`.
//!
//! ```text
//! type Mixed = Both<Standard, Both<Gains, Filtered<MovingSums>>>;
//!
//! let bodies = bodies_of(alloc, &net)?;
//! ```
#![tactic(auto)]

pub mod bodies;
pub mod both;
pub mod computes;
pub mod filters;

pub use bodies::{CardBody, bodies_of};
pub use both::{Both, NO_KIND};
pub use computes::Computes;
pub use filters::{Filtered, Filters};
