//! Kinds that only write, one that copies, and one that writes a word, then copies: each function returns its
//! kind's answer.
ghost use Rattle.std.specs.Prelude.{◌≡◌};
ghost use Rattle.kpn_signals.specs.Ends.{constant_answer, count_up_answer, copy_flags_answer, prefix_answer};

use crate::turns::{TRUE, flag, number, reads, word, writes, writes_word};
use kpn_model::{Act, Answer, Local, Token};

pub(crate) fn constant(value: u64, local: Local) -> Answer
    ensures { result ≡ constant_answer value local }
{
    writes_word(local, value)
}

pub(crate) fn count_up(local: Local) -> Answer
    ensures { result ≡ count_up_answer local }
{
    let [count, _, _, _] = local;
    writes_word([count.wrapping_add(1), 0, 0, 0], count)
}

/// Writes each flag that it reads to output 0, then to output 1, forever.
pub(crate) fn copy_flags(local: Local, last: Option<Token>) -> Answer
    ensures { result ≡ copy_flags_answer local last }
{
    let [turn, kept, _, _] = local;
    match last {
        Some(token) => {
            let copied = Token::Flag(flag(token));
            writes([1, number(copied), 0, 0], copied)
        }
        None if turn == 0 => reads([0; 4]),
        None => Answer {
            next: [0; 4],
            act: Act::Write(1, Token::Flag(kept == TRUE)),
        },
    }
}

/// Writes `first`, then each word that it reads, forever.
pub(crate) fn prefix(first: u64, local: Local, last: Option<Token>) -> Answer
    ensures { result ≡ prefix_answer first local last }
{
    let begun = [1, 0, 0, 0];
    match last {
        Some(token) => writes_word(begun, word(token)),
        None if local[0] == 0 => writes_word(begun, first),
        None => reads(begun),
    }
}
