//! The progress of a history, published in one word that watchers read without a lock.
//!
//! ```text
//! let (board, mut publisher) = Board::new(rt.alloc())?;
//! let mut watcher = board.split(&mut publisher)?;
//! board.publish(&mut publisher, &[put], 0, Phase::Running);
//! let early = board.look(&mut watcher);
//! board.join(watcher, &mut publisher);
//! ```
//!
//! A `Board` holds the word. A history only grows at its end, so one number identifies a prefix of it: the
//! word is `entries * 2^25 + growths * 8 + phase`. The phase is 0 during the run, else the number of its end.
//! Each board has one `Publisher` and at most 64 `Watcher`s. What a watcher sees continues all that it saw
//! before.
#![tactic(auto)]

mod board;
mod counting;
mod progress;
mod rule;

pub use board::{Board, MOST_WATCHERS, Publisher, WatchFault, Watcher};
pub use counting::CountingPublisher;
pub use progress::{Phase, Progress};
