//! What the rows of tests of the engine have in their cells: bytes and tokens.
#![tactic(auto)]

use kpn_model::Token;
use std::alloc::Global;
use std::fmt::Write;
use test_kit::{Cells, number};

/// Reads a cell of bytes. After a backslash stand `n` for a line feed, `_` for a blank, `-` for nothing, or two digits in
/// base 16.
pub fn bytes_in(alloc: Global, cells: &mut Cells<'_>) -> Vec<u8> {
    let mut bytes = Vec::new(alloc);
    if put_bytes(cells.word(), &mut bytes).is_none() {
        cells.is_bad();
    }
    bytes
}

fn put_bytes(cell: &str, bytes: &mut Vec<u8>) -> Option<()> {
    for (place, part) in cell.split("\\").enumerate() {
        let mut rest = part;
        if place > 0 {
            let (byte, after) = escaped(part)?;
            rest = after;
            if let Some(byte) = byte {
                bytes.push(byte).ok()?;
            }
        }
        bytes.extend_from_slice(rest.as_bytes()).ok()?;
    }
    Some(())
}

/// Reads what follows a backslash: the byte, or none; and the rest.
fn escaped(part: &str) -> Option<(Option<u8>, &str)> {
    if let Some(rest) = part.strip_prefix("n") {
        return Some((Some(b'\n'), rest));
    }
    if let Some(rest) = part.strip_prefix("_") {
        return Some((Some(b' '), rest));
    }
    if let Some(rest) = part.strip_prefix("-") {
        return Some((None, rest));
    }
    let byte = u8::from_str_radix(part.get(..2)?, 16).ok()?;
    Some((Some(byte), part.get(2..)?))
}

/// Appends bytes as a cell.
pub fn show_bytes(answer: &mut String, bytes: &[u8]) {
    if bytes.is_empty() {
        let _ = answer.push_str("\\-");
    }
    for byte in bytes {
        let _ = match *byte {
            b'\n' => answer.push_str("\\n"),
            b' ' => answer.push_str("\\_"),
            b'\\' => answer.push_str("\\5c"),
            0x21..=0x7e => answer.push(char::from(*byte)),
            other => write!(answer, "\\{other:02x}"),
        };
    }
}

/// Reads a number below 2^16.
pub fn small_in(cells: &mut Cells<'_>) -> u16 {
    let Ok(number) = u16::try_from(cells.number()) else {
        cells.is_bad();
        return 0;
    };
    number
}

/// Reads a token: a number, `true` or `false`.
pub fn token_in(cells: &mut Cells<'_>) -> Token {
    let Some(token) = token_of(cells.word()) else {
        cells.is_bad();
        return Token::Flag(false);
    };
    token
}

fn token_of(word: &str) -> Option<Token> {
    match word {
        "true" => Some(Token::Flag(true)),
        "false" => Some(Token::Flag(false)),
        _ => Some(Token::Word(number(word)?)),
    }
}

/// Reads all tokens that are left.
pub fn tokens_in(alloc: Global, cells: &mut Cells<'_>) -> Vec<Token> {
    let mut tokens = Vec::new(alloc);
    for word in cells.rest().split(" ") {
        let is_kept = match token_of(word) {
            Some(token) => tokens.push(token).is_ok(),
            None => word.is_empty(),
        };
        if !is_kept {
            cells.is_bad();
        }
    }
    tokens
}
