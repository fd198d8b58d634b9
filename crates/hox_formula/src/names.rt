//! The names of a formula, and the places of their values.
ghost use Rattle.std.specs.Prelude.{◌≤◌, ◌+◌, length};

/// The names of a formula.
#[derive(Drop)]
pub struct Names {
    /// The states, as numbers of names, in the order of their first assignment.
    pub states: Vec<usize>,
    pub outputs: u8,
    pub inputs: u8,
    pub ghost few: { length states.items + outputs + inputs ≤ 6 },
}
