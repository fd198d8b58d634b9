//! The verdict on a flow that ended. At the ceiling it ran dry if nothing more can come out.
#![tactic(auto)]

mod judging;
mod law;

pub use judging::{Judged, judge};
pub use law::flow_dryness;
