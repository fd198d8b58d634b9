//! Answers and last tokens.
ghost use Rattle.std.specs.Prelude.{◌≡◌};
ghost use Rattle.kpn_standard.specs.Locals.{got as got_token, word as word_of, flag as flag_of};

use kpn_model::{Act, Answer, Local, Token};

/// Returns the answer that reads input `port`.
pub fn reads(next: Local, port: u8) -> Answer
    ensures { result ≡ record { next = next; act = Act.Read port } }
{
    Answer {
        next,
        act: Act::Read(port),
    }
}

/// Returns the answer that writes a token to output `port`.
pub fn writes(next: Local, port: u8, token: Token) -> Answer
    ensures { result ≡ record { next = next; act = Act.Write port token } }
{
    Answer {
        next,
        act: Act::Write(port, token),
    }
}

/// Returns the answer that stops.
pub fn stops(local: Local) -> Answer
    ensures { result ≡ record { next = local; act = Act.Stop } }
{
    Answer {
        next: local,
        act: Act::Stop,
    }
}

/// Returns the last token, or the word 0 if there is none.
pub fn got(last: Option<Token>) -> Token
    ensures { result ≡ got_token last }
{
    last.unwrap_or(Token::Word(0))
}

/// Returns the last token's word, or 0 if it is no word.
pub fn word(last: Option<Token>) -> u64
    ensures { result ≡ word_of (got_token last) }
{
    match last {
        Some(Token::Word(w)) => w,
        _ => 0,
    }
}

/// Returns the last token's flag, or false if it is no flag.
pub fn flag(last: Option<Token>) -> bool
    ensures { result ≡ flag_of (got_token last) }
{
    match last {
        Some(Token::Flag(f)) => f,
        _ => false,
    }
}
