//! What is read of lines.
use crate::fragment::Fragment;
use crate::left_side::LeftSide;
use kpn_formula::Instruction;

/// A line: what is assigned to, its place, and the code of what it becomes.
#[derive(Drop)]
pub struct Assignment {
    pub head: LeftSide,
    pub place: u8,
    pub fragment: Fragment,
}

/// Lines.
#[derive(Drop)]
pub struct Lines {
    /// Does what the lines say.
    pub code: Vec<Instruction>,
    pub heads: Vec<LeftSide>,
    /// Which values are used as words, by place.
    pub words: [bool; 6],
    /// Which outputs become flags alone.
    pub flags: [bool; 3],
}
