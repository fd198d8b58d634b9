//! A Parks machine that threads share under a lock, with ledgers of their entries, and a board that watchers
//! read without the lock.
//!
//! ```text
//! match monitor.take(rt, seat) {
//!     Taken::Over(_) => return None,
//!     Taken::Task(task) => match answer(rt, monitor, gate, seat, task) {
//!         None => {}
//!         Some(finished) => return Some(finished),
//!     },
//! }
//! ```
//!
//! where `answer` calls the task and commits:
//!
//! ```text
//! let finished = task.call();
//! gate.before_commit(finished.process());
//! match monitor.commit(rt, finished, seat) {
//!     Ok(_) => None,
//!     Err(Stranger { finished }) => Some(finished),
//! }
//! ```
//!
//! A worker has a `Seat`. It takes a task from the `Monitor`, calls it outside the lock, and commits the
//! answer. At the end `Monitor::close` compares the seats with the books, and returns the history.
#![tactic(auto)]

mod booked;
mod closed;
mod giving;
mod guarded;
mod hand;
mod monitor;
mod naming;
mod opening;
mod places;
mod resting;
mod seat;

pub use booked::BookedRun;
pub use closed::{CloseFault, Closed, Unclosed};
pub use guarded::{Next, Taken, Went};
pub use hand::Hand;
pub use monitor::Monitor;
pub use naming::EntryLedger;
pub use opening::Opening;
pub use resting::Rest;
pub use seat::Seat;
