//! The kinds that compute words: each function returns its kind's answer.
ghost use Rattle.std.specs.Prelude.{◌≡◌};
ghost use Rattle.kpn_standard.specs.Locals.{got as got_of};
ghost use Rattle.kpn_standard.specs.Arithmetic.{add_answer, scale_answer};

use crate::token::{reads, word, writes};
use kpn_model::{Answer, Local, Token};

/// Reads a word of each input, 0 first, and writes their sum modulo 2^64, forever.
pub fn add(args: [u64; 3], local: Local, last: Option<Token>) -> Answer
    ensures { result ≡ add_answer args local (got_of last) }
{
    match local[0] {
        0 => reads([1, 0, 0, 0], 0),
        1 => reads([2, word(last), 0, 0], 1),
        _ => {
            let sum = local[1].wrapping_add(word(last));
            writes([0, 0, 0, 0], 0, Token::Word(sum))
        }
    }
}

/// Reads a word, and writes its product with `args[0]` modulo 2^64, forever.
pub fn scale(args: [u64; 3], local: Local, last: Option<Token>) -> Answer
    ensures { result ≡ scale_answer args local (got_of last) }
{
    match local[0] {
        0 => reads([1, 0, 0, 0], 0),
        _ => {
            let product = args[0].wrapping_mul(word(last));
            writes([0, 0, 0, 0], 0, Token::Word(product))
        }
    }
}
