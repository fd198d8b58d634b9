//! To what lines assign.
use crate::symbol::Symbol;

/// To what a line assigns: a state or an output; and the start value, if it gives one.
#[derive(Clone, Copy, Debug, PartialEq, Eq)]
pub struct LeftSide {
    pub target: Symbol,
    pub start: Option<u64>,
}
