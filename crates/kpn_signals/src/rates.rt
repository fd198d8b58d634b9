//! The kinds that write fewer or more words than they read: each function returns its kind's answer.
ghost use Rattle.std.specs.Prelude.{◌≡◌};
ghost use Rattle.kpn_signals.specs.Rates.{decimate_answer, repeat_answer, gate_answer};

use crate::times::Times;
use crate::turns::{READS_FIRST, READS_SECOND, WRITES, flag, latest, reads, word, writes_word};
use kpn_model::{Act, Answer, Local, Token};

/// Writes the first of each so many words, forever.
pub(crate) fn decimate(times: Times, local: Local, last: Option<Token>) -> Answer
    ensures { result ≡ decimate_answer times.number local last }
{
    let n = times.number;
    let [passes_over, _, _, _] = local;
    match last {
        None => reads([passes_over, 0, 0, 0]),
        Some(token) if passes_over == 0 => writes_word([n - 1, 0, 0, 0], word(token)),
        Some(_) => reads([passes_over - 1, 0, 0, 0]),
    }
}

/// Writes each word this many times, forever.
pub(crate) fn repeat(times: Times, local: Local, last: Option<Token>) -> Answer
    ensures { result ≡ repeat_answer times.number local last }
{
    let n = times.number;
    let [times, value, _, _] = local;
    match last {
        None if times == 0 => reads([0, value, 0, 0]),
        None => writes_word([times - 1, value, 0, 0], value),
        Some(token) => writes_word([n - 1, word(token), 0, 0], word(token)),
    }
}

/// Reads a word and a flag, and writes the word if the flag is true, forever.
pub(crate) fn gate(local: Local, last: Option<Token>) -> Answer
    ensures { result ≡ gate_answer local last }
{
    let [turn, first, _, _] = local;
    match turn {
        READS_FIRST => reads([READS_SECOND, 0, 0, 0]),
        READS_SECOND => Answer {
            next: [WRITES, word(latest(last)), 0, 0],
            act: Act::Read(1),
        },
        _ if flag(latest(last)) => writes_word([READS_FIRST, 0, 0, 0], first),
        _ => reads([READS_SECOND, 0, 0, 0]),
    }
}
