//! The kinds that keep words, and one that clips them: each function returns its kind's answer.
ghost use Rattle.std.specs.Prelude.{◌≡◌, ◌<◌, ◌≤◌, ◌≤ℤ◌, length};
ghost use Rattle.kpn_signals.specs.Words.{signed};
ghost use Rattle.kpn_signals.specs.Shapes.{step_answer, join_answer};
ghost use Rattle.kpn_signals.specs.Filters.{hold_join, delay_step, low_pass_step, clip_step, sum_step, difference_step, mean, average_step, counter_step};

use crate::bits::Bits;
use crate::times::Times;
use crate::turns::{flag, joined, latest, number, reads, word, writes_word};
use crate::wide::{floor_div, signed, wrapped};
use kpn_model::{Answer, Local, Token};

/// Reads a word and a flag, and writes the word if the flag is true, else the last written one, forever.
pub(crate) fn hold(local: Local, last: Option<Token>) -> Answer
    ensures { result ≡ join_answer hold_join local last }
{
    let [_, first, kept, _] = local;
    let choice = if flag(latest(last)) { first } else { kept };
    joined(local, last, choice, Token::Word(choice))
}

/// Reads a word, and writes the one so many words earlier (1 to 4), or 0 if there is none, forever.
pub(crate) fn delay(words: Times, local: Local, last: Option<Token>) -> Answer
    requires { words.number ≤ 4 }
    ensures { result ≡ step_answer (delay_step words.number) local last }
{
    let n = words.number;
    let [first, second, third, _] = local;
    match last {
        None => reads(local),
        Some(token) => {
            let before = local[(n - 1) as usize];
            writes_word([word(token), first, second, third], before)
        }
    }
}

/// Reads a word x, writes y + (x - y) / 2^bits, rounded down, signed, forever. y is the word it wrote last.
pub(crate) fn low_pass(bits: Bits, local: Local, last: Option<Token>) -> Answer
    ensures { result ≡ step_answer (low_pass_step bits) local last }
{
    match last {
        None => reads(local),
        Some(token) => {
            let level = i128::from(local[0].cast_signed());
            let word = i128::from(word(token).cast_signed());
            let next = level + ((word - level) >> bits.number);
            let next = (next as i64).cast_unsigned();
            writes_word([next, 0, 0, 0], next)
        }
    }
}

/// Reads a word, and writes the nearest one from `least` to `greatest`, as signed numbers, forever.
pub(crate) fn clip(least: u64, greatest: u64, local: Local, last: Option<Token>) -> Answer
    requires { signed least ≤ℤ signed greatest }
    ensures { result ≡ step_answer (clip_step least greatest) local last }
{
    match last {
        None => reads(local),
        Some(token) => {
            let word = word(token).cast_signed();
            let nearest = word.clamp(least.cast_signed(), greatest.cast_signed());
            writes_word(local, nearest.cast_unsigned())
        }
    }
}

/// Reads a word, and writes the sum of all words so far, modulo 2^64, forever.
pub(crate) fn sum(local: Local, last: Option<Token>) -> Answer
    ensures { result ≡ step_answer sum_step local last }
{
    match last {
        None => reads(local),
        Some(token) => {
            let total = local[0].wrapping_add(word(token));
            writes_word([total, 0, 0, 0], total)
        }
    }
}

/// Reads a word, and writes it minus the word before, 0 at first, modulo 2^64, forever.
pub(crate) fn difference(local: Local, last: Option<Token>) -> Answer
    ensures { result ≡ step_answer difference_step local last }
{
    match last {
        None => reads(local),
        Some(token) => {
            let [before, _, _, _] = local;
            writes_word([word(token), 0, 0, 0], word(token).wrapping_sub(before))
        }
    }
}

/// Reads a word, and writes the mean of the last so many words (1 to 5), rounded down, signed, forever. Before the
/// first word there were zeros.
pub(crate) fn average(words: Times, local: Local, last: Option<Token>) -> Answer
    requires { words.number ≤ 5 }
    ensures { result ≡ step_answer (average_step words.number) local last }
{
    let n = words.number;
    match last {
        None => reads(local),
        Some(token) => {
            let [first, second, third, fourth] = local;
            let latest = [word(token), first, second, third, fourth];
            writes_word(
                [word(token), first, second, third],
                mean(&latest[..n as usize]),
            )
        }
    }
}

fn mean(words: &[u64]) -> u64
    requires least { 0 < length words.now }
    requires greatest { length words.now ≤ 5 }
    ensures { result ≡ mean (length words.now) words.now }
{
    let mut total = 0;
    for word in words {
        total += signed(*word);
    }
    wrapped(floor_div(total, words.len() as i128))
}

/// Reads a flag, and writes how many were true so far, modulo 2^64, forever.
pub(crate) fn counter(local: Local, last: Option<Token>) -> Answer
    ensures { result ≡ step_answer counter_step local last }
{
    match last {
        None => reads(local),
        Some(token) => {
            let count = local[0].wrapping_add(number(Token::Flag(flag(token))));
            writes_word([count, 0, 0, 0], count)
        }
    }
}
