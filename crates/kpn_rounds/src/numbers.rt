//! Up to three numbers: inputs that were read, or outputs that are left.
ghost use Rattle.std.specs.Prelude.{◌≡◌, ◌<◌, ◌++◌, length, take};
ghost use Rattle.kpn_rounds.specs.Numbers.{list_of};
ghost use Rattle.kpn_rounds.specs.Rounds.{latest, three_of, packed, held};

use crate::ports::number;
use kpn_model::{Local, Token};

/// Numbers in the order of the ports.
#[derive(Clone, Copy)]
pub(crate) enum Numbers {
    None,
    One(u64),
    Two(u64, u64),
    Three(u64, u64, u64),
}

impl Numbers {
    /// Returns the first `count` of three words.
    #[inline(always)]
    pub(crate) fn first(count: u8, words: [u64; 3]) -> Self
        ensures { list_of result ≡ take count (three_of words) }
    {
        let [first, second, third] = words;
        match count {
            0 => Numbers::None,
            1 => Numbers::One(first),
            2 => Numbers::Two(first, second),
            _ => Numbers::Three(first, second, third),
        }
    }

    /// Returns how many there are.
    #[inline(always)]
    pub(crate) fn count(self) -> u8
        ensures { result ≡ length (list_of self) }
    {
        match self {
            Numbers::None => 0,
            Numbers::One(_) => 1,
            Numbers::Two(_, _) => 2,
            Numbers::Three(_, _, _) => 3,
        }
    }

    /// Returns three words; missing ones are 0.
    #[inline(always)]
    pub(crate) fn words(self) -> [u64; 3]
        ensures { result ≡ three_of (list_of self) }
    {
        match self {
            Numbers::None => [0, 0, 0],
            Numbers::One(first) => [first, 0, 0],
            Numbers::Two(first, second) => [first, second, 0],
            Numbers::Three(first, second, third) => [first, second, third],
        }
    }
}
