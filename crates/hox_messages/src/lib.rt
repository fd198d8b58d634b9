//! What `hox` says on standard error: why something is not done, where, and what would do; and the list of kinds. The
//! functions print on any runtime that has a standard error. No contract covers the words.
#![tactic(auto)]

mod failing;
mod formats;
mod formulas;
mod hints;
mod kinds;
mod messages;
mod reasons;
mod sinks;

pub use failing::Failing;
pub use formats::{lines_before, record_name, say_clipped, say_head, say_misfit};
pub use hints::say_no_channel;
pub use kinds::list_kinds;
pub use messages::{input_name, needed, say_no_memory, say_record, say_refused, say_stop};
pub use reasons::{say_undescribed, say_unreadable, say_unwritten};
pub use sinks::{
    Written, all_written, failure_at, say_all_clipped, say_apart, say_output_unwritten, say_token,
};
