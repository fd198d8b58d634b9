//! A filter: `moving_sum` writes the sum of each word and the three before it, modulo 2^64.
ghost use Rattle.example_signals.specs.MovingSum.{number_named, accepts, start, step};

use kpn_compute::Filters;
use kpn_net::{Card, Local};

/// The filter `moving_sum`, of number 0, with no argument.
pub struct MovingSums;

impl Filters for MovingSums {
    ghost named = { number_named };

    ghost accepts = { accepts };

    ghost start = { start };

    ghost step = { step };

    fn named(name: &str) -> Option<(u16, usize)> {
        match name {
            "moving_sum" => Some((0, 0)),
            _ => None,
        }
    }

    fn accepts(card: &Card) -> bool {
        matches!(
            card,
            Card {
                kind: 0,
                args: [0, 0, 0],
            }
        )
    }

    fn start(_card: &Card) -> Local {
        [0; 4]
    }

    fn step(_card: Card, kept: Local, word: u64) -> (Local, u64) {
        let [first, second, third, _] = kept;
        let sum = word
            .wrapping_add(first)
            .wrapping_add(second)
            .wrapping_add(third);
        ([word, first, second, 0], sum)
    }

    fn lawful() {}
}
