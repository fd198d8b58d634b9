//! The symbols of bytes.
ghost use Rattle.std.specs.Prelude.{◌≡◌, ◌<◌, ◌∷◌, [], IfOk, OnOk, ◌++◌, false, IfSome, MatchOption, IsTrue, ◌≤◌, ◌+◌, length, Some};
ghost use Rattle.hox_formula.specs.Lexing.{is_blank, is_digit, is_word_byte, front_word, behind_word, same, pair_mark, single_mark, fixed, number_of, word_number, begins_with_digit, is_hexadecimal, place_in, EndsWord, texts, begins_pair, begins_with_word_byte, PairAt, SpellsMark, SpellsNothing, IsPlaceOf, IsWordOf, IsNext, Spells};

use crate::fault::{ParseFault, Wrong};
use crate::symbol::{Mark, Symbol};
use std::alloc::{AllocError, Global};

/// Whether a byte separates symbols.
fn is_blank(byte: u8) -> bool
    ensures { result ≡ is_blank byte }
{
    byte == b' ' || byte == b'\t' || byte == b'\n' || byte == b'\r'
}

fn is_digit(byte: u8) -> bool
    ensures { result ≡ is_digit byte }
{
    b'0' <= byte && byte <= b'9'
}

/// Whether a byte belongs to a name or a number: a letter, a digit or `_`.
fn is_word_byte(byte: u8) -> bool
    ensures { result ≡ is_word_byte byte }
{
    is_digit(byte) || b'A' <= byte && byte <= b'Z' || b'a' <= byte && byte <= b'z' || byte == b'_'
}

fn same(first: &[u8], second: &[u8]) -> bool
    ensures { result ≡ same first.now second.now }
{
    match (front_byte(first), front_byte(second)) {
        (None, None) => true,
        (Some((x, xs)), Some((y, ys))) => x == y && same(xs, ys),
        _ => false,
    }
}

fn front_byte(bytes: &[u8]) -> Option<(u8, &[u8])>
    ensures { MatchOption result (bytes.now ≡ []) (λ r. bytes.now ≡ r.0 ∷ r.1.now) }
{
    match bytes {
        [first, rest @ ..] => Some((*first, rest)),
        [] => None,
    }
}

/// Returns the sign of two bytes.
fn pair_mark(first: u8, second: u8) -> Option<Mark>
    ensures { result ≡ pair_mark first second }
{
    if first == b'|' && second == b'|' {
        Some(Mark::OrElse)
    } else if first == b'&' && second == b'&' {
        Some(Mark::AndAlso)
    } else if first == b'=' && second == b'=' {
        Some(Mark::Equal)
    } else if first == b'!' && second == b'=' {
        Some(Mark::NotEqual)
    } else if first == b'<' && second == b'=' {
        Some(Mark::LessEqual)
    } else if first == b'>' && second == b'=' {
        Some(Mark::GreaterEqual)
    } else if first == b'<' && second == b'<' {
        Some(Mark::ShiftLeft)
    } else if first == b'>' && second == b'>' {
        Some(Mark::ShiftRight)
    } else {
        None
    }
}

/// Returns the sign of one byte.
fn single_mark(byte: u8) -> Option<Mark>
    ensures { result ≡ single_mark byte }
{
    match byte {
        b';' => Some(Mark::Semicolon),
        b',' => Some(Mark::Comma),
        b'(' => Some(Mark::Open),
        b')' => Some(Mark::Close),
        b'=' => Some(Mark::Assign),
        b'?' => Some(Mark::Question),
        b':' => Some(Mark::Colon),
        b'|' => Some(Mark::Or),
        b'^' => Some(Mark::ExclusiveOr),
        b'&' => Some(Mark::And),
        b'<' => Some(Mark::Less),
        b'>' => Some(Mark::Greater),
        b'+' => Some(Mark::Plus),
        b'-' => Some(Mark::Minus),
        b'*' => Some(Mark::Times),
        b'/' => Some(Mark::Divide),
        b'%' => Some(Mark::Remain),
        b'~' => Some(Mark::Invert),
        b'!' => Some(Mark::Not),
        _ => None,
    }
}

/// Returns the symbol of a word that isn't the name of a state.
fn fixed(word: &[u8]) -> Option<Symbol>
    ensures { result ≡ fixed word.now }
{
    if same(word, b"min") {
        Some(Symbol::Mark(Mark::Min))
    } else if same(word, b"max") {
        Some(Symbol::Mark(Mark::Max))
    } else if same(word, b"abs") {
        Some(Symbol::Mark(Mark::Abs))
    } else if same(word, b"in") {
        Some(Symbol::Input(0))
    } else if same(word, b"in0") {
        Some(Symbol::Input(0))
    } else if same(word, b"in1") {
        Some(Symbol::Input(1))
    } else if same(word, b"in2") {
        Some(Symbol::Input(2))
    } else if same(word, b"out") {
        Some(Symbol::Output(0))
    } else if same(word, b"out0") {
        Some(Symbol::Output(0))
    } else if same(word, b"out1") {
        Some(Symbol::Output(1))
    } else if same(word, b"out2") {
        Some(Symbol::Output(2))
    } else {
        None
    }
}

/// Returns the number of digits, behind those of a number.
fn number_of(base: u64, number: u64, digits: &[u8]) -> Result<u64, Wrong>
    ensures { IfOk result (λ n. number_of base number digits.now ≡ Some n) }
{
    let Some((first, rest)) = front_byte(digits) else {
        return Ok(number);
    };
    let digit = match first {
        b'0'..=b'9' => u64::from(first - b'0'),
        b'a'..=b'f' => u64::from(first - 87),
        b'A'..=b'F' => u64::from(first - 55),
        _ => return Err(Wrong::StrangeCharacter),
    };
    if digit >= base {
        return Err(Wrong::StrangeCharacter);
    }
    let Some(product) = number.checked_mul(base) else {
        return Err(Wrong::NumberTooLarge);
    };
    match product.checked_add(digit) {
        Some(sum) => number_of(base, sum, rest),
        None => Err(Wrong::NumberTooLarge),
    }
}

/// Returns how long the word at the front is.
fn word_length(bytes: &[u8]) -> usize
    ensures { EndsWord result bytes.now }
{
    match front_byte(bytes) {
        Some((first, rest)) if is_word_byte(first) => word_length(rest) + 1,
        _ => 0,
    }
}

/// Returns the word at the front, and the bytes behind it.
fn split_word(bytes: &[u8]) -> (&[u8], &[u8])
    ensures word { result.0.now ≡ front_word bytes.now }
    ensures behind { result.1.now ≡ behind_word bytes.now }
{
    bytes.split_at(word_length(bytes))
}

fn is_hexadecimal(word: &[u8]) -> bool
    ensures is { result ≡ is_hexadecimal word.now }
    ensures long { IsTrue result → 2 ≤ length word.now }
{
    match word {
        [first, second, _, ..] => *first == b'0' && *second == b'x',
        _ => false,
    }
}

/// Returns the number of a word: decimal, or hexadecimal behind 0x.
fn word_number(word: &[u8]) -> Result<u64, Wrong>
    ensures { IfOk result (λ n. word_number word.now ≡ Some n) }
{
    if is_hexadecimal(word) {
        return number_of(16, 0, &word[2..]);
    }
    number_of(10, 0, word)
}

fn begins_with_digit(word: &[u8]) -> bool
    ensures { result ≡ begins_with_digit word.now }
{
    match word {
        [first, ..] => is_digit(*first),
        [] => false,
    }
}

/// Returns where a word stands in a table.
fn place_in(names: &[Vec<u8>], word: &[u8]) -> Option<usize>
    ensures is { result ≡ place_in (texts names.now) word.now }
    ensures bound { IfSome result (λ place. place < length names.now) }
{
    match names {
        [] => None,
        [first, ..] if same(first, word) => Some(0),
        [_, rest @ ..] => match place_in(rest, word) {
            Some(place) => Some(place + 1),
            None => None,
        },
    }
}

/// Returns the sign of two bytes at the front, and the bytes behind it.
fn pair_at(bytes: &[u8]) -> Option<(Mark, &[u8])>
    ensures { MatchOption result (begins_pair bytes.now ≡ false) (λ r. PairAt bytes.now r.1.now r.0) }
{
    let (first, rest) = front_byte(bytes)?;
    let (second, behind) = front_byte(rest)?;
    match pair_mark(first, second) {
        Some(mark) => Some((mark, behind)),
        None => None,
    }
}

/// Returns the sign at the front, and the bytes behind it.
fn mark_at(bytes: &[u8]) -> Option<(Mark, &[u8])>
    ensures { IfSome result (λ r. SpellsMark bytes.now r.1.now r.0) }
{
    if let Some(found) = pair_at(bytes) {
        return Some(found);
    }
    let (first, behind) = front_byte(bytes)?;
    match single_mark(first) {
        Some(mark) => Some((mark, behind)),
        None => None,
    }
}

/// Returns the place of a name in the table, which it adds if it isn't there.
fn name_place(alloc: Global, names: &mut Vec<Vec<u8>>, word: &[u8]) -> Result<usize, AllocError>
    ensures { IfOk result (λ place. IsPlaceOf (texts names.old.items) (texts names.new.items) word.now place) }
{
    if let Some(place) = place_in(names, word) {
        return Ok(place);
    }
    let name = Vec::from_slice(alloc, word)?;
    let place = names.len();
    names.push(name)?;
    Ok(place)
}

/// Returns the symbol of a word, and adds the name of a state to the table.
fn word_symbol(alloc: Global, names: &mut Vec<Vec<u8>>, word: &[u8]) -> Result<Symbol, Wrong>
    ensures { IfOk result (λ s. IsWordOf (texts names.old.items) (texts names.new.items) word.now s) }
{
    if begins_with_digit(word) {
        let number = word_number(word)?;
        return Ok(Symbol::Number(number));
    }
    if let Some(symbol) = fixed(word) {
        return Ok(symbol);
    }
    let place = name_place(alloc, names, word)?;
    Ok(Symbol::State(place))
}

/// Returns the symbol at the front, and the bytes behind it.
fn next<'t>(
    alloc: Global,
    names: &mut Vec<Vec<u8>>,
    bytes: &'t [u8],
) -> Result<(Symbol, &'t [u8]), Wrong>
    ensures { IfOk result (λ r. IsNext (texts names.old.items) (texts names.new.items) bytes.now r.1.now r.0) }
{
    if begins_with_word_byte(bytes) {
        let (word, behind) = split_word(bytes);
        let symbol = word_symbol(alloc, names, word)?;
        return Ok((symbol, behind));
    }
    match mark_at(bytes) {
        Some((mark, behind)) => Ok((Symbol::Mark(mark), behind)),
        None => Err(Wrong::StrangeCharacter),
    }
}

fn begins_with_word_byte(bytes: &[u8]) -> bool
    ensures { result ≡ begins_with_word_byte bytes.now }
{
    match bytes {
        [first, ..] => is_word_byte(*first),
        [] => false,
    }
}

/// Returns the bytes behind blanks.
fn skip_blanks(bytes: &[u8]) -> &[u8]
    ensures { SpellsNothing bytes.now result.now }
{
    match front_byte(bytes) {
        Some((first, rest)) if is_blank(first) => skip_blanks(rest),
        _ => bytes,
    }
}

/// Where a symbol stands in a text, in bytes.
#[derive(Clone, Copy, Debug, PartialEq, Eq)]
pub struct Span {
    pub at: usize,
    pub length: usize,
}

/// The symbols of a text, where they stand, and the names of states.
#[derive(Drop)]
pub struct Lexed {
    pub symbols: Vec<Symbol>,
    pub spans: Vec<Span>,
    pub names: Vec<Vec<u8>>,
}

/// Reads the symbols of a text. An error has the number of bytes that are left.
pub fn lex(alloc: Global, text: &[u8]) -> Result<Lexed, ParseFault>
    ensures { IfOk result (λ r. Spells (texts r.names.items) text.now r.symbols.items) }
{
    let mut symbols = Vec::new(alloc);
    let mut spans = Vec::new(alloc);
    let mut names = Vec::new(alloc);
    let mut rest = skip_blanks(text);
    while !rest.is_empty() {
        let (symbol, left) = match next(alloc, &mut names, rest) {
            Ok(found) => found,
            Err(wrong) => {
                return Err(ParseFault {
                    left: rest.len(),
                    wrong,
                });
            }
        };
        push(&mut symbols, symbol)?;
        let at = text.len().saturating_sub(rest.len());
        let length = rest.len().saturating_sub(left.len());
        push(&mut spans, Span { at, length })?;
        rest = skip_blanks(left);
    }
    Ok(Lexed {
        symbols,
        spans,
        names,
    })
}

fn push<T: Drop>(all: &mut Vec<T>, one: T) -> Result<(), AllocError>
    ensures { OnOk result (all.new.items ≡ all.old.items ++ one ∷ []) }
{
    all.push(one)?;
    Ok(())
}
