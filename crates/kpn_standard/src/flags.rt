//! The kinds that write or read flags: each function returns its kind's answer.
ghost use Rattle.std.specs.Prelude.{◌≡◌, IsSome};
ghost use Rattle.kpn_standard.specs.Locals.{got as got_of};
ghost use Rattle.kpn_standard.specs.Flags.{divides_answer, switch_answer, select_answer};
ghost use Rattle.kpn_standard.specs.Signatures.{card_of_kind, signature};
ghost use Rattle.kpn_standard.specs.Admitted.{Admitted};

use crate::kind::Kind;
use crate::token::{flag, got, reads, word, writes};
use kpn_model::{Answer, Local, Token};

/// Reads a word, and writes whether `args[0]` divides it, forever.
pub fn divides(args: [u64; 3], local: Local, last: Option<Token>) -> Answer
    requires { IsSome (signature (card_of_kind Kind.Divides args)) }
    ensures { result ≡ divides_answer args local (got_of last) }
{
    match local[0] {
        0 => reads([1, 0, 0, 0], 0),
        _ => {
            let is_divided = word(last) % args[0] == 0;
            writes([0, 0, 0, 0], 0, Token::Flag(is_divided))
        }
    }
}

/// Reads a flag of input 1, then a word of input 0, and writes the word to output 1 if the flag is true, else
/// to output 0, forever.
pub fn switch(args: [u64; 3], local: Local, last: Option<Token>) -> Answer
    requires { Admitted (card_of_kind Kind.Switch args) local last }
    ensures { result ≡ switch_answer args local (got_of last) }
{
    match local[0] {
        0 => reads([1, 0, 0, 0], 1),
        1 if flag(last) => reads([2, 1, 0, 0], 0),
        1 => reads([2, 0, 0, 0], 0),
        _ if local[1] == 0 => writes([0, 0, 0, 0], 0, got(last)),
        _ => writes([0, 0, 0, 0], 1, got(last)),
    }
}

/// Reads a flag of input 2, then a word, of input 1 if the flag is true, else of input 0, and writes the word,
/// forever.
pub fn select(args: [u64; 3], local: Local, last: Option<Token>) -> Answer
    ensures { result ≡ select_answer args local (got_of last) }
{
    match local[0] {
        0 => reads([1, 0, 0, 0], 2),
        1 if flag(last) => reads([2, 0, 0, 0], 1),
        1 => reads([2, 0, 0, 0], 0),
        _ => writes([0, 0, 0, 0], 0, got(last)),
    }
}
