//! Converts between a caller's words and tokens.
ghost use Rattle.std.specs.Prelude.{◌≡◌, true, IfSome, IfNone};
ghost use Rattle.kpn_model.specs.Families.{family};
ghost use Rattle.kpn_model.specs.Valid.{IsOfSort};
ghost use Rattle.kpn_flow.specs.Flows.{is_among};
ghost use Rattle.hox_handle.specs.Words.{word_of, Drains, Feeds, IsNoFlag};

use crate::answers::ReturnCode;
use kpn_body::Body;
use kpn_flow::Flow;
use kpn_model::{Sort, Token};

/// The number of words fed or drained, and the answer.
#[derive(Clone, Copy, Debug, PartialEq, Eq)]
pub struct Transferred {
    pub count: usize,
    pub answer: ReturnCode,
}

fn token_of(sort: Sort, word: u64) -> Option<Token>
    ensures sort { IfSome result (IsOfSort sort) }
    ensures word { IfSome result (λ token. word_of token ≡ word) }
    ensures none { IfNone result (IsNoFlag sort word) }
{
    match sort {
        Sort::Words => Some(Token::Word(word)),
        Sort::Flags => match word {
            0 => Some(Token::Flag(false)),
            1 => Some(Token::Flag(true)),
            _ => None,
        },
    }
}

fn word_of(token: Token) -> u64
    ensures { result ≡ word_of token }
{
    match token {
        Token::Word(word) => word,
        Token::Flag(false) => 0,
        Token::Flag(true) => 1,
    }
}

/// Feeds words into an input, in order, as many as fit. Answers `Done` if all were fed or it is full,
/// `NoFlag` if the next is no flag, and `Ended` if the channel is no input or has ended.
pub(crate) fn feed_words<B: Body>(flow: &mut Flow<B>, channel: usize, words: &[u64]) -> Transferred
    ensures { Feeds (family B.Kinds.Kinds) flow.old flow.new channel words.now result }
{
    if !flow.is_input(channel) {
        return Transferred {
            count: 0,
            answer: ReturnCode::Ended,
        };
    }
    flow.assure_one_run();
    let sort = flow.net().sort(channel);
    let mut count = 0;
    while count < words.len() {
        let Some(token) = token_of(sort, words[count]) else {
            return Transferred {
                count,
                answer: ReturnCode::NoFlag,
            };
        };
        if !flow.feed(channel, token) {
            return Transferred {
                count,
                answer: ReturnCode::Done,
            };
        }
        count += 1;
    }
    Transferred {
        count,
        answer: ReturnCode::Done,
    }
}

/// Moves words of an output to the front of a buffer, in order, until the output is empty or the buffer is
/// full. Returns how many.
pub(crate) fn drain_words<B: Body>(flow: &mut Flow<B>, channel: usize, words: &mut [u64]) -> usize
    requires { is_among flow.old.outputs channel ≡ true }
    ensures { Drains (family B.Kinds.Kinds) flow.old flow.new channel words.old words.new result }
{
    let mut count = 0;
    while count < words.len() {
        let Some(token) = flow.drain(channel) else {
            return count;
        };
        words[count] = word_of(token);
        count += 1;
    }
    count
}
