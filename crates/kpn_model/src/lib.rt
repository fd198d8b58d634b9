//! The model of Kahn process networks (Kahn 1974): tokens, cards, families of kinds and histories, and, in
//! specs/, the definitions of networks and runs. It depends on std alone.
#![tactic(auto)]

pub mod history;
pub mod kinds;
pub mod limits;
pub mod parts;
pub mod small;
pub mod token;
pub mod verdict;
pub mod version;

pub use history::{Deed, End, Entry, Place, Status};
pub use kinds::{Act, Answer, Card, Kinds, Local, Signature};
pub use parts::{Channel, Ends, Process};
pub use small::{Listed, Text};
pub use token::{Sort, Token};
pub use verdict::Verdict;
