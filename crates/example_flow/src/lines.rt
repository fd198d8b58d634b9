//! Parses lines.
use anyhow::{Result, bail};
use kpn_net::Token;
use std::alloc::Global;

/// A command. `Word`: a number to feed into the first input. `Feed`: `feed NAME TOKEN..`. `Drain`: `drain
/// NAME MOST`. `Advance`: `advance MOST`. `End`: `end NAME` ends an input.
pub enum Command<'a> {
    Word(u64),
    Feed(&'a str),
    Drain(&'a str, usize),
    Advance(u64),
    End(&'a str),
}

/// Parses a line; returns `None` if it is no command.
pub fn read_line(line: &str) -> Option<Command<'_>> {
    match line.parse::<u64>() {
        Ok(word) => Some(Command::Word(word)),
        Err(_) => read_words(line),
    }
}

fn read_words(line: &str) -> Option<Command<'_>> {
    let mut words = line.split_whitespace();
    match (words.next(), words.next()) {
        (Some(verb), Some(first)) => said(verb, first, words.next().unwrap_or("")),
        _ => None,
    }
}

fn said<'a>(verb: &str, first: &'a str, rest: &str) -> Option<Command<'a>> {
    match verb {
        "feed" => Some(Command::Feed(first)),
        "drain" => Some(Command::Drain(first, rest.parse().ok()?)),
        "advance" => Some(Command::Advance(first.parse().ok()?)),
        "end" => Some(Command::End(first)),
        _ => None,
    }
}

/// Returns the tokens of a line after its first two words.
pub fn read_tokens(alloc: Global, line: &str) -> Result<Vec<Token>> {
    let mut tokens = Vec::new(alloc);
    for word in line.split_whitespace().skip(2) {
        let Some(token) = token_of(word) else {
            bail!("{word} is no token");
        };
        tokens.push(token)?;
    }
    Ok(tokens)
}

fn token_of(word: &str) -> Option<Token> {
    match word {
        "true" => Some(Token::Flag(true)),
        "false" => Some(Token::Flag(false)),
        _ => match word.parse::<u64>() {
            Ok(number) => Some(Token::Word(number)),
            Err(_) => None,
        },
    }
}
