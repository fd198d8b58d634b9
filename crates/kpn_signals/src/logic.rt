//! The kinds that write flags: each function returns its kind's answer.
ghost use Rattle.std.specs.Prelude.{◌≡◌};
ghost use Rattle.kpn_signals.specs.Shapes.{step_answer, join_answer};
ghost use Rattle.kpn_signals.specs.Logic.{less_join, equal_join, not_step, and_join, or_join, edge_step};

use crate::turns::{TRUE, flag, joined, latest, number, reads, word, writes};
use kpn_model::{Answer, Local, Token};

/// Reads two words, and writes whether the first is less than the second as signed numbers, forever.
pub(crate) fn less(local: Local, last: Option<Token>) -> Answer
    ensures { result ≡ join_answer less_join local last }
{
    let [_, first, kept, _] = local;
    let is_less = first.cast_signed() < word(latest(last)).cast_signed();
    joined(local, last, kept, Token::Flag(is_less))
}

pub(crate) fn equal(local: Local, last: Option<Token>) -> Answer
    ensures { result ≡ join_answer equal_join local last }
{
    let [_, first, kept, _] = local;
    let is_equal = first == word(latest(last));
    joined(local, last, kept, Token::Flag(is_equal))
}

pub(crate) fn not(local: Local, last: Option<Token>) -> Answer
    ensures { result ≡ step_answer not_step local last }
{
    match last {
        None => reads(local),
        Some(token) => writes(local, Token::Flag(!flag(token))),
    }
}

pub(crate) fn and(local: Local, last: Option<Token>) -> Answer
    ensures { result ≡ join_answer and_join local last }
{
    let [_, first, kept, _] = local;
    let second = flag(latest(last));
    let are_both = first == TRUE && second;
    joined(local, last, kept, Token::Flag(are_both))
}

pub(crate) fn or(local: Local, last: Option<Token>) -> Answer
    ensures { result ≡ join_answer or_join local last }
{
    let [_, first, kept, _] = local;
    let second = flag(latest(last));
    let is_one = first == TRUE || second;
    joined(local, last, kept, Token::Flag(is_one))
}

/// Reads a flag, and writes whether it is true and the flag before is not, forever. Before the first is false.
pub(crate) fn edge(local: Local, last: Option<Token>) -> Answer
    ensures { result ≡ step_answer edge_step local last }
{
    match last {
        None => reads(local),
        Some(token) => {
            let [before, _, _, _] = local;
            let now = flag(token);
            let turns = now && before == 0;
            writes([number(Token::Flag(now)), 0, 0, 0], Token::Flag(turns))
        }
    }
}
