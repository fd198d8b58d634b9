//! From symbols to cards.
ghost use Rattle.std.specs.Prelude.{◌≡◌, ◌<◌, ◌≤◌, ◌+◌, Bool, true, false, List, Some, length, map, IsTrue, IfOk, MatchOption, [], ◌∷◌, if◌then◌else◌};
ghost use Rattle.kpn_formula.specs.Encoding.{IsEncodable, AreEncodable};
ghost use Rattle.hox_formula.specs.Parsing.{naming};
ghost use Rattle.hox_formula.specs.Formulas.{Line, first_start, in_sort, out_sort, is_state, AreFlagsOf, AreWordsOf, IsCardOfSymbols, IsShapeOf};
ghost use Rattle.hox_formula.specs.Collecting.{IsFormulaRead};
ghost use Rattle.hox_formula.specs.Compiling.{Opens};

use crate::expression::Parser;
use crate::fault::{ParseFault, Wrong};
use crate::left_side::LeftSide;
use crate::lines::Lines;
use crate::names::Names;
use crate::naming::{names_of, targets_of};
use crate::number::{is_short, number_code};
use crate::reading::read_lines;
use crate::symbol::Symbol;
use kpn_formula::{Excess, Instruction, Shape, card_of};
use kpn_model::{Card, Sort};
use std::alloc::{AllocError, Global};

/// Whether this is the state of that name.
fn is_state(name: usize, symbol: Symbol) -> bool
    ensures { result ≡ is_state name symbol }
{
    match symbol {
        Symbol::State(other) => other == name,
        _ => false,
    }
}

/// Returns what a state is at first.
fn first_start(heads: &[LeftSide], state: usize) -> u64
    ensures { result ≡ first_start heads.now state }
{
    for head in heads {
        if is_state(state, head.target) {
            return head.start.unwrap_or(0);
        }
    }
    0
}

fn split_state(states: &[usize]) -> Option<(usize, &[usize])>
    ensures { MatchOption result (states.now ≡ []) (λ r. states.now ≡ r.0 ∷ r.1.now) }
{
    match states {
        [first, rest @ ..] => Some((*first, rest)),
        [] => None,
    }
}

/// Returns the code that gives the states their start values, the first of them at this place.
fn opening_code(
    alloc: Global,
    states: &[usize],
    heads: &[LeftSide],
    place: u8,
) -> Result<Vec<Instruction>, AllocError>
    requires { place + length states.now ≤ 6 }
    ensures { IfOk result (λ code. Opens code.items place (map (first_start heads.now) states.now)) }
{
    let Some((state, rest)) = split_state(states) else {
        return Ok(Vec::new(alloc));
    };
    let others = opening_code(alloc, rest, heads, place + 1)?;
    let start = first_start(heads, state);
    if start == 0 {
        return Ok(others);
    }
    let mut code = number_code(alloc, start)?;
    code.push(Instruction::Store(place))?;
    code.extend_from_slice(&others)?;
    Ok(code)
}

/// Whether a card has room for the parts of an instruction.
fn is_encodable(instruction: Instruction) -> bool
    ensures { IsTrue result → IsEncodable instruction }
{
    match instruction {
        Instruction::End => false,
        Instruction::Push(word) | Instruction::Times(word) => is_short(word),
        Instruction::Shift(bits) => bits < 32,
        Instruction::Load(place) => place < 6,
        Instruction::Store(place) => place < 5,
        _ => true,
    }
}

fn are_encodable(code: &[Instruction]) -> bool
    ensures { IsTrue result → AreEncodable code.now }
{
    code.iter().all(|instruction| is_encodable(*instruction))
}

/// Returns the sort of an input, if it is there, given which values are used as words.
fn in_sort(names: &Names, words: [bool; 6], k: u8) -> Option<Sort>
    ensures { (lines : List Line) → AreWordsOf words lines → result ≡ in_sort (naming names.now) lines k }
{
    if k >= names.inputs {
        return None;
    }
    let place = names.states.len() + usize::from(names.outputs) + usize::from(k);
    let sort = if words[place] {
        Sort::Words
    } else {
        Sort::Flags
    };
    Some(sort)
}

/// Returns the sort of an output, if it is there, given which outputs become flags alone.
fn out_sort(names: &Names, flags: [bool; 3], k: u8) -> Option<Sort>
    requires { k < 3 }
    ensures { (lines : List Line) → AreFlagsOf flags lines → result ≡ out_sort (naming names.now) lines k }
{
    if k >= names.outputs {
        return None;
    }
    let sort = if flags[usize::from(k)] {
        Sort::Flags
    } else {
        Sort::Words
    };
    Some(sort)
}

/// Returns the shape of a formula.
fn shape(names: &Names, words: [bool; 6], flags: [bool; 3]) -> Shape
    ensures { IsShapeOf (naming names.now) words flags result }
{
    let ins = [
        in_sort(names, words, 0),
        in_sort(names, words, 1),
        in_sort(names, words, 2),
    ];
    let outs = [
        out_sort(names, flags, 0),
        out_sort(names, flags, 1),
        out_sort(names, flags, 2),
    ];
    let states = names.states.len() as u8;
    Shape { states, ins, outs }
}

fn targets_of_heads(alloc: Global, heads: &[LeftSide]) -> Result<Vec<Symbol>, AllocError>
    ensures { IfOk result (λ targets. targets.items ≡ map (λ head. head.target) heads.now) }
{
    heads.iter().map(|head| head.target).collect(alloc)
}

fn are_same(first: &Names, second: &Names) -> bool
    ensures { IsTrue result → naming first.now ≡ naming second.now }
{
    first.states.as_slice() == second.states.as_slice()
        && first.outputs == second.outputs
        && first.inputs == second.inputs
}

/// Returns what is wrong with a shape that has no ports or too many words, or with programs that have too many digits.
fn wrong_of(excess: Excess, shape: Shape) -> Wrong {
    match excess {
        Excess::Digits { by } => Wrong::TooManyDigits(by),
        Excess::NotAllowed => match (count(shape.ins), count(shape.outs)) {
            (0, 0) => Wrong::NoPort,
            (inputs, outputs) => Wrong::TooManyWords(surplus(
                usize::from(shape.states),
                inputs,
                outputs,
            )),
        },
    }
}

fn count(ports: [Option<Sort>; 3]) -> usize
    ensures { result ≤ 3 }
{
    ports.iter().filter(|port| port.is_some()).count()
}

/// Returns how many states, inputs and outputs there are too many, at least 1.
fn surplus(states: usize, inputs: usize, outputs: usize) -> usize
    requires { (states < 256) × (inputs ≤ 3) × (outputs ≤ 3) }
{
    let most = if inputs <= 1 && outputs <= 1 {
        4
    } else if inputs == 3 || outputs == 3 {
        1
    } else {
        2
    };
    let kept = states.saturating_sub(most);
    let stored = (states + outputs).saturating_sub(5);
    let all = (states + outputs + inputs).saturating_sub(6);
    kept.max(stored).max(all).max(1)
}

/// Whether a start value stands behind another assignment of its state.
fn starts_late(heads: &[LeftSide]) -> bool {
    for (k, head) in heads.iter().enumerate() {
        let earlier = heads.iter().take(k).any(|other| is_same(*other, *head));
        if earlier && head.start.is_some() {
            return true;
        }
    }
    false
}

fn is_same(first: LeftSide, second: LeftSide) -> bool {
    first.target == second.target
}

/// Returns the lines of a formula, with its names.
fn formula_of(alloc: Global, symbols: &[Symbol]) -> Result<(Names, Lines), ParseFault>
    ensures { IfOk result (λ r. IsFormulaRead (naming r.0) symbols.now r.1) }
{
    let guessed = names_of(alloc, symbols, &targets_of(alloc, symbols)?)?;
    let lines = {
        let parser = Parser {
            alloc,
            names: &guessed,
        };
        read_lines(&parser, symbols)?
    };
    let targets = targets_of_heads(alloc, &lines.heads)?;
    let names = names_of(alloc, symbols, &targets)?;
    if !are_same(&guessed, &names) {
        return Err(ParseFault::at(&[], Wrong::UnknownName));
    }
    Ok((guessed, lines))
}

/// Returns the card of a formula's symbols, where a `;` stands behind each line.
pub fn card_of_symbols(alloc: Global, symbols: &[Symbol]) -> Result<Card, ParseFault>
    ensures { IfOk result (IsCardOfSymbols symbols.now) }
{
    let (names, lines) = formula_of(alloc, symbols)?;
    if starts_late(&lines.heads) {
        return Err(ParseFault::at(&[], Wrong::GivenTwice));
    }
    let opening = opening_code(alloc, &names.states, &lines.heads, 0)?;
    let shape = shape(&names, lines.words, lines.flags);
    if !are_encodable(&lines.code) || !are_encodable(&opening) {
        return Err(ParseFault::at(&[], wrong_of(Excess::NotAllowed, shape)));
    }
    match card_of(shape, &lines.code, &opening) {
        Ok(card) => Ok(card),
        Err(excess) => Err(ParseFault::at(&[], wrong_of(excess, shape))),
    }
}
