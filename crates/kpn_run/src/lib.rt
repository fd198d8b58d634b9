//! Runs a network with 1 to 16 workers over a monitor.
//!
//! ```text
//! match run(rt, alloc, net, bodies, workers, &Prompt) {
//!     Ok(finish) => Ok(finish.receipts()),
//!     Err(_) => Err(AllocError),
//! }
//! ```
//!
//! Whatever the number of workers and their timing, the history of a `Finish` is a run of the sequential
//! machine from the start of the network (Kahn 1974, Parks 1995).
#![tactic(auto)]

mod boxed;
pub mod fault;
mod finish;
mod gate;
mod hold_gate;
pub mod laws;
mod own_thread;
mod pace;
mod reporting;
mod running;
mod slot;
pub mod starting;
pub mod stop_signal;
mod worker;
pub mod workforce;

pub use fault::RunFault;
pub use finish::Finish;
pub use gate::{Gate, Open, Prompt};
pub use hold_gate::Hold;
pub use kpn_model::Place;
pub use kpn_report::{Detail, Growths, Places, Report, Sizes, Steps, Stream, Streams, stream_of};
pub use own_thread::{Worked, work, work_with};
pub use reporting::{report, report_at};
pub use running::{run, run_with_keeper};
