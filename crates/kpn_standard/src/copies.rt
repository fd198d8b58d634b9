//! The kinds that write what they read: each function returns its kind's answer.
ghost use Rattle.std.specs.Prelude.{◌≡◌};
ghost use Rattle.kpn_standard.specs.Locals.{got as got_of};
ghost use Rattle.kpn_standard.specs.Copies.{take_answer, copy_answer, prefix_answer};
ghost use Rattle.kpn_standard.specs.Signatures.{card_of_kind};
ghost use Rattle.kpn_standard.specs.Admitted.{Admitted};

use crate::kind::Kind;
use crate::token::{got, reads, stops, word, writes};
use kpn_model::{Answer, Local, Token};

/// Reads and writes `args[0]` words, then stops.
pub fn take(args: [u64; 3], local: Local, last: Option<Token>) -> Answer
    requires { Admitted (card_of_kind Kind.Take args) local last }
    ensures { result ≡ take_answer args local (got_of last) }
{
    let i = local[1];
    if local[0] == 1 {
        writes([0, i + 1, 0, 0], 0, got(last))
    } else if i < args[0] {
        reads([1, i, 0, 0], 0)
    } else {
        stops(local)
    }
}

/// Reads a word, and writes it to output 0, then to output 1, forever.
pub fn copy(args: [u64; 3], local: Local, last: Option<Token>) -> Answer
    ensures { result ≡ copy_answer args local (got_of last) }
{
    match local[0] {
        0 => reads([1, 0, 0, 0], 0),
        1 => writes([2, word(last), 0, 0], 0, got(last)),
        _ => writes([0, 0, 0, 0], 1, Token::Word(local[1])),
    }
}

/// Writes the word `args[0]`, then reads and writes forever.
pub fn prefix(args: [u64; 3], local: Local, last: Option<Token>) -> Answer
    ensures { result ≡ prefix_answer args local (got_of last) }
{
    match local[0] {
        0 => writes([1, 0, 0, 0], 0, Token::Word(args[0])),
        1 => reads([2, 0, 0, 0], 0),
        _ => writes([1, 0, 0, 0], 0, got(last)),
    }
}
