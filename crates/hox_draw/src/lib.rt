//! The command `hox draw`, from the bytes of a description to the text of a picture.
#![tactic(auto)]

mod drawing;
mod running;
mod titles;

pub use drawing::{WantedPicture, draw};
pub use kpn_picture::Direction;
