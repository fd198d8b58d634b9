//! What is told of a fault.
ghost use Rattle.std.specs.Prelude.{◌≡◌, string_bytes, IfOk};
ghost use Rattle.hox_formula.specs.Messages.{needed, line_of, IsPart, Tells};

use crate::fault::{Expected, FormulaFault, Wrong};
use std::alloc::{AllocError, Global};

/// Returns what the text needs at a place, in words.
fn expected_text(expected: Expected) -> &'static str
    ensures { result.now ≡ needed expected }
{
    match expected {
        Expected::Operand => "a number, a name or \"(\"",
        Expected::Open => "\"(\"",
        Expected::Close => "\")\"",
        Expected::Comma => "\",\"",
        Expected::Colon => "\":\" and what holds else",
        Expected::Target => "a state or an output to assign",
        Expected::Assign => "\"=\"",
        Expected::Number => "a number",
        Expected::Semicolon => "an operator, \";\" or the end",
    }
}

/// Returns the part of a text that a fault is about, empty if it is no text.
fn part(text: &str, fault: FormulaFault) -> &str
    ensures { IsPart text.now fault result.now }
{
    let bytes = text.as_bytes();
    if fault.at > bytes.len() || fault.length > bytes.len() - fault.at {
        return "";
    }
    match str::from_utf8(&bytes[fault.at..fault.at + fault.length]) {
        Ok(part) => part,
        Err(_) => "",
    }
}

/// Returns the line of what is wrong with a part of a text.
fn line_of(alloc: Global, wrong: Wrong, part: &str) -> Result<String, AllocError>
    ensures { IfOk result (λ line. string_bytes line ≡ line_of wrong part.now) }
{
    match wrong {
        Wrong::UnknownName => format!(in alloc; "unknown name \"{part}\"; states are assigned"),
        Wrong::NotAssigned => format!(in alloc; "output \"{part}\" is never assigned"),
        Wrong::AssignsInput => format!(in alloc; "\"{part}\" is an input, which isn't assigned"),
        Wrong::Expected(expected) => {
            let needed = expected_text(expected);
            format!(in alloc; "expected {needed}")
        }
        Wrong::StrangeCharacter => format!(in alloc; "unexpected character"),
        Wrong::NumberTooLarge => format!(in alloc; "number of 2^64 or more"),
        Wrong::Gap => format!(in alloc; "inputs and outputs are used from 0 on, without gaps"),
        Wrong::TooManyWords(by) => format!(in alloc;
            "too many states, inputs and outputs, by {by}"
        ),
        Wrong::TooManyDigits(by) => format!(in alloc; "too many digits in the program, by {by}"),
        Wrong::TooDeep => format!(in alloc; "nested more than 60 deep"),
        Wrong::TooLong => format!(in alloc; "longer than 1000 bytes"),
        Wrong::NoPort => format!(in alloc; "neither inputs nor outputs"),
        Wrong::GivenTwice => format!(in alloc;
            "a start value stands in the first assignment alone"
        ),
        Wrong::Memory => format!(in alloc; "out of memory"),
    }
}

/// Returns what a fault of a formula is, in one line.
pub fn text_of_fault(alloc: Global, text: &str, fault: FormulaFault) -> Result<String, AllocError>
    ensures { IfOk result (λ line. Tells text.now fault (string_bytes line)) }
{
    let part = part(text, fault);
    line_of(alloc, fault.what, part)
}
