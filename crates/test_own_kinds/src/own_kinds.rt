//! The kinds of example_signals.
use crate::checks::same;
use example_signals::{Gains, MovingSums};
use kpn_compute::{Computes, Filtered, Filters};
use kpn_net::{Act, Answer, Card, Token};

#[test]
fn gain_multiplies(rt: HostRuntime) {
    let card = Card {
        kind: 0,
        args: [3, 0, 0],
    };
    let writes = Answer {
        next: [0; 4],
        act: Act::Write(0, Token::Word(42)),
    };
    let answer = Gains::answer(card, [1, 0, 0, 0], Some(Token::Word(14)));
    same(&rt, "writes", answer, writes);
}

#[test]
fn moving_sum_adds_four_words(rt: HostRuntime) {
    let card = Card {
        kind: 0,
        args: [0; 3],
    };
    let (kept, sum) = MovingSums::step(card, [3, 2, 1, 0], 4);
    same(&rt, "kept, sum", (kept, sum), ([4, 3, 2, 0], 10));
    let writes = Answer {
        next: [4, 3, 2, 0],
        act: Act::Write(0, Token::Word(10)),
    };
    let answer = Filtered::<MovingSums>::answer(card, [3, 2, 1, 0], Some(Token::Word(4)));
    same(&rt, "writes", answer, writes);
}
