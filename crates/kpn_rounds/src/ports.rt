//! Ports, and tokens as numbers.
ghost use Rattle.std.specs.Prelude.{◌≡◌, ◌<◌, ◌≤◌};
ghost use Rattle.kpn_rounds.specs.Steps.{count};
ghost use Rattle.kpn_rounds.specs.Rounds.{number_of, token_of, token_at, is_narrow, is_wide};

use kpn_model::{Signature, Sort, Token};

/// Returns how many ports there are.
#[inline(always)]
pub(crate) fn count(ports: &[Option<Sort>; 3]) -> u8
    ensures is { result ≡ count ports.now }
    ensures few { result ≤ 3 }
{
    match ports {
        [None, _, _] => 0,
        [Some(_), None, _] => 1,
        [Some(_), Some(_), None] => 2,
        [Some(_), Some(_), Some(_)] => 3,
    }
}

/// Whether there are at most one input and one output.
#[inline(always)]
pub(crate) fn is_narrow(ports: &Signature) -> bool
    ensures { result ≡ is_narrow ports.now }
{
    count(&ports.ins) < 2 && count(&ports.outs) < 2
}

/// Whether there are three inputs or three outputs.
#[inline(always)]
pub(crate) fn is_wide(ports: &Signature) -> bool
    ensures { result ≡ is_wide ports.now }
{
    count(&ports.ins) > 2 || count(&ports.outs) > 2
}

/// Returns a token as a number: a true flag is 1, a false one 0.
#[inline(always)]
pub(crate) fn number(token: Token) -> u64
    ensures { result ≡ number_of token }
{
    match token {
        Token::Word(word) => word,
        Token::Flag(true) => 1,
        Token::Flag(false) => 0,
    }
}

/// Returns a number as a token of this sort: a flag is true unless the number is 0.
#[inline(always)]
fn token(sort: Sort, number: u64) -> Token
    ensures { result ≡ token_of sort number }
{
    match sort {
        Sort::Words => Token::Word(number),
        Sort::Flags => Token::Flag(number != 0),
    }
}

/// Returns a number as a token of a port's sort.
#[inline(always)]
pub(crate) fn token_at(ports: &[Option<Sort>; 3], port: u8, number: u64) -> Token
    requires { port < 3 }
    ensures { result ≡ token_at ports.now port number }
{
    let [first, second, third] = *ports;
    let sort = match port {
        0 => first,
        1 => second,
        _ => third,
    };
    match sort {
        Some(sort) => token(sort, number),
        None => Token::Word(number),
    }
}
