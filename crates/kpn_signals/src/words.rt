//! What is made of words in two's complement, modulo 2^64.
ghost use Rattle.std.specs.Prelude.{◌≡◌, ◌<◌};
ghost use Rattle.kpn_signals.specs.Arithmetic.{right_shift, least, greatest, quotient, remainder};

use crate::wide::{floor_div, signed, wrapped};

/// Shifts a word right by `bits`, less than 64, as a signed number.
#[inline]
pub fn right_shift(bits: u64, word: u64) -> u64
    requires { bits < 64 }
    ensures { result ≡ right_shift bits word }
{
    (word.cast_signed() >> bits).cast_unsigned()
}

/// Returns the lesser word, signed.
#[inline]
pub fn least(first: u64, second: u64) -> u64
    ensures { result ≡ least first second }
{
    first
        .cast_signed()
        .min(second.cast_signed())
        .cast_unsigned()
}

/// Returns the greater word, signed.
#[inline]
pub fn greatest(first: u64, second: u64) -> u64
    ensures { result ≡ greatest first second }
{
    first
        .cast_signed()
        .max(second.cast_signed())
        .cast_unsigned()
}

/// Divides a word by another, both signed, and rounds down. Division by 0 gives 0.
pub fn quotient(word: u64, divisor: u64) -> u64
    ensures { result ≡ quotient word divisor }
{
    if divisor == 0 {
        0
    } else {
        wrapped(floor_div(signed(word), signed(divisor)))
    }
}

/// Returns what the quotient leaves of a word: it has the sign of the divisor, and is the word if that is 0.
#[inline]
pub fn remainder(word: u64, divisor: u64) -> u64
    ensures { result ≡ remainder word divisor }
{
    let whole = divisor.wrapping_mul(quotient(word, divisor));
    word.wrapping_sub(whole)
}
