//! How far words are shifted.
ghost use Rattle.std.specs.Prelude.{◌≡◌, ◌<◌};

use std::marker::Model;

/// How many bits a word is shifted by: less than 64.
#[derive(Clone, Copy)]
pub(crate) struct Bits {
    pub(crate) number: u64,
}

impl Model for Bits {
    ghost use Rattle.std.specs.Prelude.{ℕ, ◌<◌};

    ghost Value = { ℕ };

    ghost view = { λ b. b.number };

    ghost inverse = { λ n. record { number = n } };

    ghost invariant = { λ b. b.number < 64 };
}

impl Bits {
    #[inline(always)]
    pub(crate) fn new(number: u64) -> Self
        requires { number < 64 }
        ensures { result ≡ number }
    {
        Bits { number }
    }
}
