//! The kinds that compute words: each function returns its kind's answer.
ghost use Rattle.std.specs.Prelude.{◌≡◌, ◌<◌, ◌^◌};
ghost use Rattle.kpn_signals.specs.Shapes.{step_answer, join_answer};
ghost use Rattle.kpn_signals.specs.Words.{signed};
ghost use Rattle.kpn_signals.specs.Arithmetic.{sub_join, mul_join, scale_step, shift_step, left_step, min_join, max_join, abs_step, offset_step, gain_step, div_join, mod_join};

use crate::bits::Bits;
use crate::turns::{joined, latest, reads, word, writes_word};
use crate::wide::{floor_div, signed, wrapped};
use crate::words;
use crate::words::{greatest, least, quotient, right_shift};
use kpn_model::{Answer, Local, Token};

/// Reads two words, and writes the first minus the second modulo 2^64, forever.
pub(crate) fn sub(local: Local, last: Option<Token>) -> Answer
    ensures { result ≡ join_answer sub_join local last }
{
    let [_, first, kept, _] = local;
    let difference = first.wrapping_sub(word(latest(last)));
    joined(local, last, kept, Token::Word(difference))
}

pub(crate) fn mul(local: Local, last: Option<Token>) -> Answer
    ensures { result ≡ join_answer mul_join local last }
{
    let [_, first, kept, _] = local;
    let product = first.wrapping_mul(word(latest(last)));
    joined(local, last, kept, Token::Word(product))
}

pub(crate) fn scale(factor: u64, local: Local, last: Option<Token>) -> Answer
    ensures { result ≡ step_answer (scale_step factor) local last }
{
    match last {
        None => reads(local),
        Some(token) => writes_word(local, word(token).wrapping_mul(factor)),
    }
}

/// Reads a word, and writes it shifted right by `bits` as a signed number, forever.
pub(crate) fn shift(bits: Bits, local: Local, last: Option<Token>) -> Answer
    ensures { result ≡ step_answer (shift_step bits) local last }
{
    match last {
        None => reads(local),
        Some(token) => writes_word(local, right_shift(bits.number, word(token))),
    }
}

pub(crate) fn left(bits: Bits, local: Local, last: Option<Token>) -> Answer
    ensures { result ≡ step_answer (left_step bits) local last }
{
    match last {
        None => reads(local),
        Some(token) => writes_word(local, word(token) << bits.number),
    }
}

/// Reads two words, and writes the lesser one, signed, forever.
pub(crate) fn min(local: Local, last: Option<Token>) -> Answer
    ensures { result ≡ join_answer min_join local last }
{
    let [_, first, kept, _] = local;
    let least = least(first, word(latest(last)));
    joined(local, last, kept, Token::Word(least))
}

/// Reads two words, and writes the greater one, signed, forever.
pub(crate) fn max(local: Local, last: Option<Token>) -> Answer
    ensures { result ≡ join_answer max_join local last }
{
    let [_, first, kept, _] = local;
    let greatest = greatest(first, word(latest(last)));
    joined(local, last, kept, Token::Word(greatest))
}

/// Reads a word, and writes its absolute value, forever.
pub(crate) fn abs(local: Local, last: Option<Token>) -> Answer
    ensures { result ≡ step_answer abs_step local last }
{
    match last {
        None => reads(local),
        Some(token) => writes_word(local, word(token).cast_signed().unsigned_abs()),
    }
}

/// Reads a word, and writes it plus `by`, modulo 2^64, forever.
pub(crate) fn offset(by: u64, local: Local, last: Option<Token>) -> Answer
    ensures { result ≡ step_answer (offset_step by) local last }
{
    match last {
        None => reads(local),
        Some(token) => writes_word(local, word(token).wrapping_add(by)),
    }
}

/// Reads a word, and writes its product with `factor`, both signed, divided by `divisor` and rounded down,
/// forever. Only the result is modulo 2^64.
pub(crate) fn gain(factor: u64, divisor: u64, local: Local, last: Option<Token>) -> Answer
    requires { 0 < divisor }
    ensures { result ≡ step_answer (gain_step factor divisor) local last }
{
    match last {
        None => reads(local),
        Some(token) => {
            let product = signed(word(token)) * signed(factor);
            writes_word(local, wrapped(floor_div(product, i128::from(divisor))))
        }
    }
}

/// Reads two words, and writes the first divided by the second, rounded down, signed, forever: 0 if the
/// second is 0.
pub(crate) fn div(local: Local, last: Option<Token>) -> Answer
    ensures { result ≡ join_answer div_join local last }
{
    let [_, first, kept, _] = local;
    let quotient = quotient(first, word(latest(last)));
    joined(local, last, kept, Token::Word(quotient))
}

/// Reads two words, and writes what their quotient leaves of the first, forever: it has the sign of the second,
/// and is the first if the second is 0.
pub(crate) fn remainder(local: Local, last: Option<Token>) -> Answer
    ensures { result ≡ join_answer mod_join local last }
{
    let [_, first, kept, _] = local;
    let rest = words::remainder(first, word(latest(last)));
    joined(local, last, kept, Token::Word(rest))
}
