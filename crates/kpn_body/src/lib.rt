//! Bodies, which answer for the processes of a card, tasks, which call them, and their answers.
//!
//! ```text
//! impl Body for Burning {
//!     type Kinds = Standard;
//!
//!     ghost card = { λ body. body };
//!
//!     fn card(&self) -> Card {
//!         self.card
//!     }
//!
//!     fn answer(&self, local: Local, last: Option<Token>) -> Answer {
//!         if burn(self.numbers) == 0 {
//!             spin_loop();
//!         }
//!         answer(self.card, local, last)
//!     }
//! }
//! ```
#![tactic(auto)]

pub mod answered;
pub mod body;
pub mod task;

pub use answered::Answered;
pub use body::Body;
pub use task::{Finished, Task};
