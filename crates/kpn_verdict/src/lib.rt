//! What the end of a run says of the network: finished, ran dry, or waits in a cycle; and which process waits
//! for which.
#![tactic(auto)]

mod text;
mod verdict;
mod waits;

pub use kpn_model::Verdict;
pub use text::{push_verdict, verdict_text};
pub use verdict::verdict_of;
pub use waits::{is_jammed, is_on_cycle, place_at};
