//! The places of values.
ghost use Rattle.std.specs.Prelude.{◌≡◌, ◌<◌, ◌≤◌, ◌+◌, ◌^◌, IfSome, Some, ◌==◌, position, length};
ghost use Rattle.hox_formula.specs.Grammar.{place_of};
ghost use Rattle.hox_formula.specs.Parsing.{naming};

use crate::names::Names;
use crate::symbol::Symbol;

/// Returns which of the states has this name.
fn state_place(states: &[usize], name: usize) -> Option<usize>
    ensures { result ≡ position (λ state. state == name) states.now }
{
    states.iter().position(|state| *state == name)
}

/// Returns the place of a name's value: that of a state, else of an output, else of an input. There is none for what
/// isn't a name of the formula.
pub fn place(names: &Names, symbol: Symbol) -> Option<u8>
    ensures { result ≡ place_of (naming names.now) symbol }
{
    let states = names.states.len() as u8;
    match symbol {
        Symbol::State(name) => match state_place(&names.states, name) {
            Some(state) => Some(state as u8),
            None => None,
        },
        Symbol::Output(k) if k < names.outputs => Some(states + k),
        Symbol::Input(k) if k < names.inputs => Some(states + names.outputs + k),
        _ => None,
    }
}
