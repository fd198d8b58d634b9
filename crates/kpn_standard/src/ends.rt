//! The kinds that only write or only read: each function returns its kind's answer.
ghost use Rattle.std.specs.Prelude.{◌≡◌, IsSome};
ghost use Rattle.kpn_standard.specs.Locals.{got as got_of};
ghost use Rattle.kpn_standard.specs.Ends.{count_answer, sink_answer};
ghost use Rattle.kpn_standard.specs.Signatures.{card_of_kind, signature};

use crate::kind::Kind;
use crate::token::{reads, stops, writes};
use kpn_model::{Answer, Local, Token};

/// Writes the `args[1]` words from `args[0]` on, then stops.
pub fn count(args: [u64; 3], local: Local, last: Option<Token>) -> Answer
    requires { IsSome (signature (card_of_kind Kind.Count args)) }
    ensures { result ≡ count_answer args local (got_of last) }
{
    let [from, n, _] = args;
    let i = local[0];
    if i < n {
        writes([i + 1, 0, 0, 0], 0, Token::Word(from + i))
    } else {
        stops(local)
    }
}

/// Reads `args[0]` words, then stops.
pub fn sink(args: [u64; 3], local: Local, last: Option<Token>) -> Answer
    ensures { result ≡ sink_answer args local (got_of last) }
{
    let i = local[0];
    if i < args[0] {
        reads([i + 1, 0, 0, 0], 0)
    } else {
        stops(local)
    }
}
