//! Answers, and the turns of a process with two inputs.
ghost use Rattle.std.specs.Prelude.{◌≡◌};
ghost use Rattle.kpn_standard.specs.Locals.{got, word as word_of, flag as flag_of};
ghost use Rattle.kpn_signals.specs.Shapes.{join_answer, number_of};

use kpn_model::{Act, Answer, Local, Token};

/// The first number of the local state of a process with two inputs, before it reads input 0.
pub const READS_FIRST: u64 = 0;

/// The first number before it reads input 1.
pub const READS_SECOND: u64 = 1;

/// The first number before it writes.
pub const WRITES: u64 = 2;

/// A true flag, as it is kept.
pub(crate) const TRUE: u64 = 1;

pub(crate) fn reads(next: Local) -> Answer
    ensures { result ≡ record { next = next; act = Act.Read 0 } }
{
    Answer {
        next,
        act: Act::Read(0),
    }
}

pub(crate) fn writes(next: Local, token: Token) -> Answer
    ensures { result ≡ record { next = next; act = Act.Write 0 token } }
{
    Answer {
        next,
        act: Act::Write(0, token),
    }
}

pub(crate) fn writes_word(next: Local, word: u64) -> Answer
    ensures { result ≡ record { next = next; act = Act.Write 0 (Token.Word word) } }
{
    writes(next, Token::Word(word))
}

pub(crate) fn stops(local: Local) -> Answer
    ensures { result ≡ record { next = local; act = Act.Stop } }
{
    Answer {
        next: local,
        act: Act::Stop,
    }
}

/// Returns the word of a token; 0 if it is a flag.
pub(crate) fn word(token: Token) -> u64
    ensures { result ≡ word_of token }
{
    match token {
        Token::Word(word) => word,
        Token::Flag(_) => 0,
    }
}

/// Returns the flag of a token; false if it is a word.
pub(crate) fn flag(token: Token) -> bool
    ensures { result ≡ flag_of token }
{
    match token {
        Token::Word(_) => false,
        Token::Flag(flag) => flag,
    }
}

/// Returns the last token; the word 0 if there is none.
pub(crate) fn latest(last: Option<Token>) -> Token
    ensures { result ≡ got last }
{
    last.unwrap_or(Token::Word(0))
}

/// Returns a token as a number: a true flag is 1, a false one 0.
pub(crate) fn number(token: Token) -> u64
    ensures { result ≡ number_of token }
{
    match token {
        Token::Word(word) => word,
        Token::Flag(true) => 1,
        Token::Flag(false) => 0,
    }
}

/// Returns the answer of a process with two inputs: it reads both, then writes `token` and keeps `kept`.
pub(crate) fn joined(local: Local, last: Option<Token>, kept: u64, token: Token) -> Answer
    ensures { result ≡ join_answer (λ _ _ _. (kept, token)) local last }
{
    let [turn, _, kept_until_now, _] = local;
    match turn {
        READS_FIRST => Answer {
            next: [READS_SECOND, 0, kept_until_now, 0],
            act: Act::Read(0),
        },
        READS_SECOND => Answer {
            next: [WRITES, number(latest(last)), kept_until_now, 0],
            act: Act::Read(1),
        },
        _ => writes([READS_FIRST, 0, kept, 0], token),
    }
}
