//! From symbols to lines.
ghost use Rattle.std.specs.Prelude.{◌≡◌, ℕ, ◌<◌, ◌∷◌, false, ◌||◌, ◌&&◌, not, Bool, get_or, true, List, length, IfOk};
ghost use Rattle.hox_formula.specs.Grammar.{Naming};
ghost use Rattle.hox_formula.specs.Parsing.{naming};
ghost use Rattle.hox_formula.specs.Formulas.{is_output};
ghost use Rattle.hox_formula.specs.Collecting.{HeadRead, LineRead, LinesRead, IsWithLine};

use crate::expression::{DEEPEST, Parser, after, expect, front};
use crate::fault::{Expected, ParseFault, Wrong};
use crate::fragment::{either_words, followed};
use crate::left_side::LeftSide;
use crate::lines::{Assignment, Lines};
use crate::places::place;
use crate::symbol::{Mark, Symbol};
use kpn_formula::Instruction;
use std::alloc::{AllocError, Global};

/// Reads to what a line assigns.
fn read_head(symbols: &[Symbol]) -> Result<(LeftSide, &[Symbol]), ParseFault>
    ensures { IfOk result (λ r. HeadRead symbols.now r.1.now r.0) }
{
    let Some((target, rest)) = front(symbols) else {
        return Err(ParseFault::at(symbols, Wrong::Expected(Expected::Target)));
    };
    match target {
        Symbol::Output(_) => {
            let head = LeftSide {
                target,
                start: None,
            };
            Ok((head, rest))
        }
        Symbol::State(name) => read_start(name, rest),
        Symbol::Input(_) => Err(ParseFault::at(symbols, Wrong::AssignsInput)),
        _ => Err(ParseFault::at(symbols, Wrong::Expected(Expected::Target))),
    }
}

/// Reads the start value of a state, if it is given, behind the name.
fn read_start(name: usize, symbols: &[Symbol]) -> Result<(LeftSide, &[Symbol]), ParseFault>
    ensures { IfOk result (λ r. HeadRead (Symbol.State name ∷ symbols.now) r.1.now r.0) }
{
    let target = Symbol::State(name);
    let Some(rest) = after(symbols, Mark::Open) else {
        let head = LeftSide {
            target,
            start: None,
        };
        return Ok((head, symbols));
    };
    match after(rest, Mark::Minus) {
        None => {
            let (number, rest) = read_number(rest)?;
            let rest = expect(rest, Mark::Close, Expected::Close)?;
            let head = LeftSide {
                target,
                start: Some(number),
            };
            Ok((head, rest))
        }
        Some(rest) => {
            let (number, rest) = read_number(rest)?;
            let rest = expect(rest, Mark::Close, Expected::Close)?;
            let start = 0u64.wrapping_sub(number);
            let head = LeftSide {
                target,
                start: Some(start),
            };
            Ok((head, rest))
        }
    }
}

/// Reads a number.
fn read_number(symbols: &[Symbol]) -> Result<(u64, &[Symbol]), ParseFault>
    ensures { IfOk result (λ r. symbols.now ≡ Symbol.Number r.0 ∷ r.1.now) }
{
    match symbols {
        [Symbol::Number(number), rest @ ..] => Ok((*number, rest)),
        _ => Err(ParseFault::at(symbols, Wrong::Expected(Expected::Number))),
    }
}

/// Reads a line, without the `;` behind it.
fn read_line<'s>(
    parser: &Parser,
    symbols: &'s [Symbol],
) -> Result<(Assignment, &'s [Symbol]), ParseFault>
    ensures { IfOk result (λ r. LineRead (naming parser.now.names.now) symbols.now r.1.now r.0) }
{
    let (head, rest) = read_head(symbols)?;
    let Some(place) = place(parser.names, head.target) else {
        return Err(ParseFault::at(symbols, Wrong::UnknownName));
    };
    let rest = expect(rest, Mark::Assign, Expected::Assign)?;
    let (fragment, rest) = parser.whole(rest, DEEPEST)?;
    let assignment = Assignment {
        head,
        place,
        fragment,
    };
    Ok((assignment, rest))
}

/// Whether this is output k.
pub fn is_output(k: u8, symbol: Symbol) -> bool
    ensures { result ≡ is_output k symbol }
{
    match symbol {
        Symbol::Output(j) => j == k,
        _ => false,
    }
}

/// Returns which outputs become flags alone, with one more assignment.
fn with_flags(flags: [bool; 3], target: Symbol, is_flag: bool) -> [bool; 3]
    ensures { (k : ℕ) → k < 3 → get_or result k true ≡ ((not (is_output k target) || is_flag) && get_or flags k true) }
{
    [
        (!is_output(0, target) || is_flag) && flags[0],
        (!is_output(1, target) || is_flag) && flags[1],
        (!is_output(2, target) || is_flag) && flags[2],
    ]
}

/// Returns a line and then others.
fn with_line(line: Assignment, others: Lines) -> Result<Lines, AllocError>
    ensures { IfOk result (IsWithLine line others) }
{
    let facts = line.fragment.facts;
    let words = either_words(facts.words, others.words);
    let flags = with_flags(others.flags, line.head.target, facts.is_flag);
    let code = followed(line.fragment.code, &[Instruction::Store(line.place)])?;
    let code = followed(code, &others.code)?;
    let mut heads = others.heads;
    heads.insert(0, line.head)?;
    Ok(Lines {
        code,
        heads,
        words,
        flags,
    })
}

/// Reads lines, each with a `;` behind it, up to the end.
pub fn read_lines(parser: &Parser, symbols: &[Symbol]) -> Result<Lines, ParseFault>
    ensures { IfOk result (λ r. LinesRead (naming parser.now.names.now) symbols.now r) }
{
    if symbols.is_empty() {
        return Ok(Lines {
            code: Vec::new(parser.alloc),
            heads: Vec::new(parser.alloc),
            words: [false; 6],
            flags: [true; 3],
        });
    }
    let (line, rest) = read_line(parser, symbols)?;
    let rest = expect(rest, Mark::Semicolon, Expected::Semicolon)?;
    let others = read_lines(parser, rest)?;
    Ok(with_line(line, others)?)
}
