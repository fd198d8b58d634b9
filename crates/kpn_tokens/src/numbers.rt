//! Words and flags as text.
ghost use Rattle.std.specs.Prelude.{◌≡◌, ◌==◌, ◌+◌, ◌*◌, ◌^◌, ◌/◌, ◌<◌, ◌++◌, ◌||◌, [], ◌∷◌, OnOk, codes, decimal, length, true, false, Ok};
ghost use Rattle.std.specs.Char.{digit_value};
ghost use Rattle.std.specs.List.{after_first, before_first, list_all, list_any, position};
ghost use Rattle.std.specs.Str.Parse.{digits_value, digits_value_after};
ghost use Rattle.kpn_tokens.specs.Numbers.{digits_said, flag_said, is_digit, is_point, is_underscore, last_digits, number_said, token_said, token_text, units_text, word_of, word_said, word_text, SomeIfWord};

use crate::layouts::{Decimals, RecordFault};
use itoa::{Buffer, write_digits};
use kpn_model::{Sort, Token};
use std::alloc::AllocError;

pub(crate) fn token_in(
    decimals: Decimals,
    sort: Sort,
    text: &str,
) -> Result<Option<Token>, RecordFault>
    ensures { result ≡ token_said decimals sort text.now }
{
    match sort {
        Sort::Words => match word_in(decimals.digits, text.as_bytes()) {
            Ok(word) => Ok(Some(Token::Word(word))),
            Err(fault) => Err(fault),
        },
        Sort::Flags => match flag_in(text) {
            Ok(flag) => Ok(Some(Token::Flag(flag))),
            Err(fault) => Err(fault),
        },
    }
}

fn flag_in(text: &str) -> Result<bool, RecordFault>
    ensures { result ≡ flag_said text.now }
{
    match text {
        "true" => Ok(true),
        "false" => Ok(false),
        _ => Err(RecordFault::NotAFlag),
    }
}

/// Reads a word in units of 10^-places.
fn word_in(places: u8, text: &[u8]) -> Result<u64, RecordFault>
    ensures { result ≡ word_said places text.now }
{
    match text.first() {
        Some(b'-') => match number_in(places, &text[1..]) {
            Ok(number) => word_below_zero(number),
            Err(fault) => Err(fault),
        },
        Some(b'+') => number_in(places, &text[1..]),
        _ => number_in(places, text),
    }
}

/// Returns the word for the number below zero with this magnitude.
fn word_below_zero(number: u64) -> Result<u64, RecordFault>
    ensures { result ≡ word_of (Ok number) true }
{
    if number <= 1 << 63 {
        Ok(0u64.wrapping_sub(number))
    } else {
        Err(RecordFault::OutOfRange)
    }
}

/// Reads a number without a sign in units of 10^-places.
fn number_in(places: u8, text: &[u8]) -> Result<u64, RecordFault>
    ensures { result ≡ word_of (number_said places text.now) false }
{
    if text.len() > 1 && text[0] == b'0' && (text[1] == b'x' || text[1] == b'X') {
        return number_of(0, 16, &text[2..], &[]);
    }
    let (whole, part) = at_point(text);
    number_of(places, 10, whole, part)
}

fn point_in(text: &[u8]) -> Option<usize>
    ensures { result ≡ position is_point text.now }
{
    text.iter().position(|b| *b == b'.')
}

/// Returns the text before the first point, and after it.
fn at_point(text: &[u8]) -> (&[u8], &[u8])
    ensures before { result.0.now ≡ before_first is_point text.now }
    ensures after { result.1.now ≡ after_first is_point text.now }
{
    match point_in(text) {
        Some(place) => (&text[..place], &text[place + 1..]),
        None => (text, &[]),
    }
}

/// Reads digits before and after a point in units of 10^-places.
fn number_of(places: u8, base: u8, whole: &[u8], part: &[u8]) -> Result<u64, RecordFault>
    ensures { result ≡ word_of (digits_said places base (whole.now ++ part.now) (length part.now)) false }
{
    if !(has_digit(base, whole) || has_digit(base, part)) {
        return Err(RecordFault::NotAWord);
    }
    if !(has_only_digits(base, whole) && has_only_digits(base, part)) {
        return Err(RecordFault::NotAWord);
    }
    if whole.contains(&b'_') || part.contains(&b'_') {
        return Err(RecordFault::Underscore);
    }
    if part.len() > places as usize {
        return Err(RecordFault::TooPrecise);
    }
    match value_of(places - part.len() as u8, base, whole, part) {
        Some(value) => Ok(value),
        None => Err(RecordFault::OutOfRange),
    }
}

fn has_digit(base: u8, text: &[u8]) -> bool
    ensures { result ≡ list_any (is_digit base) text.now }
{
    text.iter().any(|b| value_of_digit(*b) < base)
}

/// Whether there are only digits and `_`.
fn has_only_digits(base: u8, text: &[u8]) -> bool
    ensures { result ≡ list_all (λ b. is_digit base b || is_underscore b) text.now }
{
    text.iter().all(|b| value_of_digit(*b) < base || *b == b'_')
}

/// Returns the value of a digit in any base; 36 if it is none.
fn value_of_digit(byte: u8) -> u8
    ensures { result ≡ digit_value byte }
{
    match byte {
        b'0'..=b'9' => byte - b'0',
        b'A'..=b'Z' => byte - b'A' + 10,
        b'a'..=b'z' => byte - b'a' + 10,
        _ => 36,
    }
}

fn value_of(zeros: u8, base: u8, whole: &[u8], part: &[u8]) -> Option<u64>
    ensures { SomeIfWord result (digits_value base (whole.now ++ part.now) * 10 ^ zeros) }
{
    let Some(start) = value_after(0, base, whole) else {
        return None;
    };
    let Some(value) = value_after(start, base, part) else {
        return None;
    };
    scaled(value, zeros)
}

/// Continues a number with more digits; `None` past 64 bits.
fn value_after(start: u64, base: u8, digits: &[u8]) -> Option<u64>
    ensures { SomeIfWord result (digits_value_after base start digits.now) }
{
    let mut value = start;
    for digit in digits {
        match with_digit(value, base, *digit) {
            Some(next) => value = next,
            None => return None,
        }
    }
    Some(value)
}

fn with_digit(value: u64, base: u8, digit: u8) -> Option<u64>
    ensures { SomeIfWord result (value * base + digit_value digit) }
{
    value
        .checked_mul(base as u64)?
        .checked_add(value_of_digit(digit) as u64)
}

/// Returns `value` times 10^zeros; `None` past 64 bits.
fn scaled(value: u64, zeros: u8) -> Option<u64>
    ensures { SomeIfWord result (value * 10 ^ zeros) }
{
    if value == 0 {
        return Some(0);
    }
    value.checked_mul(10u64.checked_pow(zeros as u32)?)
}

/// Appends the text of a token, such that [`token_of_record`](crate::token_of_record) can read it in a line.
///
/// Errors: out of memory. Some of the text may have been appended.
pub fn append_token(out: &mut Vec<u8>, decimals: Decimals, token: Token) -> Result<(), AllocError>
    ensures { OnOk result (out.new.items ≡ out.old.items ++ token_text decimals token) }
{
    match token {
        Token::Word(word) => append_word(out, decimals, word),
        Token::Flag(true) => out.extend_from_slice(b"true"),
        Token::Flag(false) => out.extend_from_slice(b"false"),
    }
}

pub(crate) fn append_line(
    out: &mut Vec<u8>,
    decimals: Decimals,
    token: Token,
) -> Result<(), AllocError>
    ensures { OnOk result (out.new.items ≡ out.old.items ++ (token_text decimals token ++ codes "\n")) }
{
    match token {
        Token::Word(word) if decimals.digits == 0 => append_whole_line(out, decimals, word),
        _ => {
            append_token(out, decimals, token)?;
            out.extend_from_slice(b"\n")
        }
    }
}

/// Room for the line of a number.
const LONGEST_LINE: usize = 24;

fn append_whole_line(out: &mut Vec<u8>, decimals: Decimals, word: u64) -> Result<(), AllocError>
    requires { decimals.digits ≡ 0 }
    ensures { OnOk result (out.new.items ≡ out.old.items ++ (word_text decimals word ++ codes "\n")) }
{
    if !decimals.is_unsigned && word >= 1 << 63 {
        append_byte(out, b'-')?;
        return append_number_line(out, 0u64.wrapping_sub(word));
    }
    append_number_line(out, word)
}

fn append_number_line(out: &mut Vec<u8>, number: u64) -> Result<(), AllocError>
    ensures { OnOk result (out.new.items ≡ out.old.items ++ (decimal number ++ codes "\n")) }
{
    let mut line = [b'\n'; LONGEST_LINE];
    let start = write_digits(number, &mut line, LONGEST_LINE - 1);
    out.extend_from_slice(&line[start..])
}

fn append_word(out: &mut Vec<u8>, decimals: Decimals, word: u64) -> Result<(), AllocError>
    ensures { OnOk result (out.new.items ≡ out.old.items ++ word_text decimals word) }
{
    if decimals.is_unsigned || word < 1 << 63 {
        return append_units(out, decimals.digits, word);
    }
    out.extend_from_slice(b"-")?;
    append_units(out, decimals.digits, 0u64.wrapping_sub(word))
}

fn append_units(out: &mut Vec<u8>, places: u8, number: u64) -> Result<(), AllocError>
    ensures { OnOk result (out.new.items ≡ out.old.items ++ units_text places number) }
{
    if places == 0 {
        return append_decimal(out, number);
    }
    append_decimal(out, whole_of(number, places))?;
    out.extend_from_slice(b".")?;
    append_last_digits(out, places, number)
}

fn whole_of(number: u64, places: u8) -> u64
    ensures { result ≡ number / 10 ^ places }
{
    match 10u64.checked_pow(places as u32) {
        Some(units) => number / units,
        None => 0,
    }
}

fn append_decimal(out: &mut Vec<u8>, number: u64) -> Result<(), AllocError>
    ensures { OnOk result (out.new.items ≡ out.old.items ++ decimal number) }
{
    let mut digits = Buffer::new();
    out.extend_from_slice(digits.format(number).as_bytes())
}

fn append_last_digits(out: &mut Vec<u8>, count: u8, number: u64) -> Result<(), AllocError>
    ensures { OnOk result (out.new.items ≡ out.old.items ++ last_digits count number) }
{
    if count == 0 {
        return Ok(());
    }
    append_last_digits(out, count - 1, number / 10)?;
    append_byte(out, b'0' + (number % 10) as u8)
}

pub(crate) fn append_byte(out: &mut Vec<u8>, byte: u8) -> Result<(), AllocError>
    ensures { OnOk result (out.new.items ≡ out.old.items ++ byte ∷ []) }
{
    match out.push(byte) {
        Ok(()) => Ok(()),
        Err(_) => Err(AllocError),
    }
}
