//! Which names a formula has.
ghost use Rattle.std.specs.Prelude.{◌≡◌, ◌==◌, nat_lt, IfOk, IfSome, OnOk};
ghost use Rattle.std.specs.List.{list_any};
ghost use Rattle.hox_formula.specs.Parsing.{naming};
ghost use Rattle.hox_formula.specs.Formulas.{IsNaming, is_input, is_output, with_state, states_of};

use crate::fault::{ParseFault, Wrong};
use crate::names::Names;
use crate::reading::is_output;
use crate::symbol::{Mark, Symbol};
use std::alloc::{AllocError, Global};

/// Whether this is input k.
fn is_input(k: u8, symbol: Symbol) -> bool
    ensures { result ≡ is_input k symbol }
{
    match symbol {
        Symbol::Input(j) => j == k,
        _ => false,
    }
}

fn has_input(k: u8, symbols: &[Symbol]) -> bool
    ensures { result ≡ list_any (is_input k) symbols.now }
{
    symbols.iter().any(|symbol| is_input(k, *symbol))
}

fn has_output(k: u8, symbols: &[Symbol]) -> bool
    ensures { result ≡ list_any (is_output k) symbols.now }
{
    symbols.iter().any(|symbol| is_output(k, *symbol))
}

/// Returns how many ports there are, if none before another is missing.
fn count(first: bool, second: bool, third: bool) -> Option<u8>
    ensures first { IfSome result (λ n. first ≡ nat_lt 0 n) }
    ensures second { IfSome result (λ n. second ≡ nat_lt 1 n) }
    ensures third { IfSome result (λ n. third ≡ nat_lt 2 n) }
{
    match (first, second, third) {
        (false, false, false) => Some(0),
        (true, false, false) => Some(1),
        (true, true, false) => Some(2),
        (true, true, true) => Some(3),
        _ => None,
    }
}

/// Adds a state that isn't there yet.
fn add_state(states: &mut Vec<usize>, symbol: Symbol) -> Result<(), AllocError>
    ensures { OnOk result (states.new.items ≡ with_state states.old.items symbol) }
{
    let Symbol::State(name) = symbol else {
        return Ok(());
    };
    if !has_state(states, name) {
        states.push(name)?;
    }
    Ok(())
}

fn has_state(states: &[usize], name: usize) -> bool
    ensures { result ≡ list_any (λ state. state == name) states.now }
{
    states.iter().any(|state| *state == name)
}

/// Returns the states in the order of their first assignment.
fn states_of(alloc: Global, targets: &[Symbol]) -> Result<Vec<usize>, AllocError>
    ensures { IfOk result (λ states. states.items ≡ states_of targets.now) }
{
    let mut states = Vec::new(alloc);
    for target in targets {
        add_state(&mut states, *target)?;
    }
    Ok(states)
}

/// Returns what is assigned to: what stands first or behind a `;`.
pub fn targets_of(alloc: Global, symbols: &[Symbol]) -> Result<Vec<Symbol>, AllocError> {
    let mut targets = Vec::new(alloc);
    let mut begins = true;
    for symbol in symbols {
        if begins {
            targets.push(*symbol)?;
        }
        begins = matches!(symbol, Symbol::Mark(Mark::Semicolon));
    }
    Ok(targets)
}

/// Returns the names of a formula with these symbols and targets.
pub fn names_of(alloc: Global, symbols: &[Symbol], targets: &[Symbol]) -> Result<Names, ParseFault>
    ensures { IfOk result (λ names. IsNaming (naming names) symbols.now targets.now) }
{
    let states = states_of(alloc, targets)?;
    let Some(outputs) = count(
        has_output(0, targets),
        has_output(1, targets),
        has_output(2, targets),
    ) else {
        return Err(ParseFault::at(&[], Wrong::Gap));
    };
    let Some(inputs) = count(
        has_input(0, symbols),
        has_input(1, symbols),
        has_input(2, symbols),
    ) else {
        return Err(ParseFault::at(&[], Wrong::Gap));
    };
    let words = states.len() + usize::from(outputs) + usize::from(inputs);
    if words > 6 {
        return Err(ParseFault::at(&[], Wrong::TooManyWords(words - 6)));
    }
    Ok(Names {
        states,
        outputs,
        inputs,
    })
}
