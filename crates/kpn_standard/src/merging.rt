//! The kinds that join two inputs: each function returns its kind's answer.
ghost use Rattle.std.specs.Prelude.{◌≡◌};
ghost use Rattle.kpn_standard.specs.Locals.{got as got_of};
ghost use Rattle.kpn_standard.specs.Merging.{emit, weave_answer, merge_answer};
ghost use Rattle.kpn_standard.specs.Signatures.{card_of_kind};
ghost use Rattle.kpn_standard.specs.Admitted.{Admitted};

use crate::kind::Kind;
use crate::token::{got, reads, word, writes};
use kpn_model::{Answer, Local, Token};
use std::cmp::Ordering;

/// The first number of `weave`'s local state: whose turn it is, and whether a word was just read. The second
/// counts the words copied in this turn.
const FIRST_TURN: u64 = 0;

const FIRST_TURN_READ: u64 = 1;

const SECOND_TURN: u64 = 2;

const SECOND_TURN_READ: u64 = 3;

/// The first number of `merge`'s local state: which head it keeps (that of input 0 as second number, that of
/// input 1 as third), and which it has just read.
const NONE_KEPT: u64 = 0;

const FIRST_READ: u64 = 1;

const FIRST_KEPT_SECOND_READ: u64 = 2;

const SECOND_KEPT: u64 = 3;

const FIRST_KEPT: u64 = 4;

const SECOND_KEPT_FIRST_READ: u64 = 5;

/// Copies `args[0]` words of input 0, then `args[1]` of input 1, forever.
pub fn weave(args: [u64; 3], local: Local, last: Option<Token>) -> Answer
    requires { Admitted (card_of_kind Kind.Weave args) local last }
    ensures { result ≡ weave_answer args local (got_of last) }
{
    let [a, b, _] = args;
    let i = local[1];
    match local[0] {
        FIRST_TURN => reads([FIRST_TURN_READ, i, 0, 0], 0),
        FIRST_TURN_READ if i + 1 < a => writes([FIRST_TURN, i + 1, 0, 0], 0, got(last)),
        FIRST_TURN_READ => writes([SECOND_TURN, 0, 0, 0], 0, got(last)),
        SECOND_TURN => reads([SECOND_TURN_READ, i, 0, 0], 1),
        _ if i + 1 < b => writes([SECOND_TURN, i + 1, 0, 0], 0, got(last)),
        _ => writes([FIRST_TURN, 0, 0, 0], 0, got(last)),
    }
}

/// Keeps the next word of each input, writes the lesser, and reads that input again, forever. Of two equal
/// words it writes one and reads both inputs again, input 0 first.
pub fn merge(args: [u64; 3], local: Local, last: Option<Token>) -> Answer
    ensures { result ≡ merge_answer args local (got_of last) }
{
    match local[0] {
        NONE_KEPT => reads([FIRST_READ, 0, 0, 0], 0),
        FIRST_READ => reads([FIRST_KEPT_SECOND_READ, word(last), 0, 0], 1),
        FIRST_KEPT_SECOND_READ => lesser(local[1], word(last)),
        SECOND_KEPT => reads([SECOND_KEPT_FIRST_READ, 0, local[2], 0], 0),
        FIRST_KEPT => reads([FIRST_KEPT_SECOND_READ, local[1], 0, 0], 1),
        _ => lesser(word(last), local[2]),
    }
}

fn lesser(x: u64, y: u64) -> Answer
    ensures { result ≡ emit x y }
{
    match x.cmp(&y) {
        Ordering::Less => writes([SECOND_KEPT, 0, y, 0], 0, Token::Word(x)),
        Ordering::Greater => writes([FIRST_KEPT, x, 0, 0], 0, Token::Word(y)),
        Ordering::Equal => writes([NONE_KEPT, 0, 0, 0], 0, Token::Word(x)),
    }
}
