//! Runs that an observer watches and may stop: `run_watched` is `kpn_run::run` with an observer.
//!
//! ```text
//! impl<'a, R: Eprint + Sync> Observer for Ticker<'a, R> {
//!     fn see(&self, progress: Progress) -> Wish {
//!         let _ = eprintln!(self.rt;
//!             "{} entries, {} growths",
//!             progress.entries, progress.growths
//!         );
//!         Wish::GoOn
//!     }
//! }
//!
//! match run_watched(rt, alloc, net, bodies, 4, &Open, period, &Ticker { rt }) {
//!     Ok(run) => print_streams(rt, alloc, &run),
//!     Err(_) => Err(AllocError),
//! }
//! ```
//!
//! `run_by_crew` runs a network with threads of the caller's own.
#![tactic(auto)]

mod bell;
mod crew;
mod observer;
mod reporting;
mod running;

pub use crew::{Crew, CrewSeat, run_by_crew};
pub use kpn_machine::{OpenFault, OpenRefused, Outcome, Stranger};
pub use kpn_monitor::{BookedRun as WatchedRun, EntryLedger, Monitor, Taken};
pub use kpn_run::RunFault;
pub use kpn_watch::{Phase, Progress};
pub use observer::{Observer, Wish};
pub use reporting::chronicle_report;
pub use running::{WatchedFault, run_watched, run_watched_with_keeper};
