//! From texts to cards.
ghost use Rattle.std.specs.Prelude.{◌≤◌, ◌+◌, length, IfOk, IfErr};
ghost use Rattle.hox_formula.specs.Texts.{IsCardOfText, Ends};

use crate::compiling::card_of_symbols;
use crate::fault::{FormulaFault, ParseFault, Wrong};
use crate::lexing::{Lexed, Span, lex};
use crate::symbol::{Mark, Symbol};
use kpn_model::Card;
use std::alloc::{AllocError, Global};

/// How many bytes a formula may have.
pub const LONGEST: usize = 1000;

/// Adds a `;` at the end if none is there.
fn ended(mut symbols: Vec<Symbol>) -> Result<Vec<Symbol>, AllocError>
    ensures { IfOk result (λ all. Ends symbols.items all.items) }
{
    if !ends(&symbols) {
        symbols.push(Symbol::Mark(Mark::Semicolon))?;
    }
    Ok(symbols)
}

fn ends(symbols: &[Symbol]) -> bool {
    matches!(symbols, [.., Symbol::Mark(Mark::Semicolon)])
}

/// Returns the fault where the reading of symbols stopped.
fn at_symbol(stop: ParseFault, count: usize, spans: &[Span], text_length: usize) -> FormulaFault
    ensures { result.at + result.length ≤ text_length }
{
    match spans.get(count.saturating_sub(stop.left)) {
        Some(span) => FormulaFault::within(text_length, span.at, span.length, stop.wrong),
        None => FormulaFault::within(text_length, text_length, 0, stop.wrong),
    }
}

/// Compiles a formula, such as `y = y + (in - y) / 8; out = y`, into the card of a process.
///
/// # Errors
///
/// The text is no formula, or no card has room for it. The fault says what is wrong, and where.
pub fn compile(alloc: Global, text: &str) -> Result<Card, FormulaFault>
    ensures card { IfOk result (λ card. IsCardOfText text.now card) }
    ensures within { IfErr result (λ fault. fault.at + fault.length ≤ length text.now) }
{
    let bytes = text.as_bytes();
    if bytes.len() > LONGEST {
        return Err(FormulaFault::within(bytes.len(), LONGEST, 1, Wrong::TooLong));
    }
    let Lexed {
        symbols,
        spans,
        names,
    } = match lex(alloc, bytes) {
        Ok(lexed) => lexed,
        Err(stop) => {
            let at = bytes.len().saturating_sub(stop.left);
            return Err(FormulaFault::within(bytes.len(), at, 1, stop.wrong));
        }
    };
    let symbols = match ended(symbols) {
        Ok(symbols) => symbols,
        Err(_) => return Err(FormulaFault::within(bytes.len(), 0, 0, Wrong::Memory)),
    };
    match card_of_symbols(alloc, &symbols) {
        Ok(card) => Ok(card),
        Err(stop) => Err(at_symbol(stop, symbols.len(), &spans, bytes.len())),
    }
}
