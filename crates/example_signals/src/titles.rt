//! The titles of the kinds, by which pictures call them.
ghost use Rattle.std.specs.Prelude.{codes};

use crate::gain::Gains;
use crate::moving_sum::MovingSums;
use kpn_net::Card;
use kpn_picture::{Title, Titled, TitledFilters};

impl Titled for Gains {
    ghost title = { λ kind. (codes "gain", 1) };

    fn title(_card: &Card) -> Title {
        Title::new("gain", 1)
    }
}

impl TitledFilters for MovingSums {
    ghost title = { λ kind. (codes "moving_sum", 0) };

    fn title(_card: &Card) -> (&'static str, usize) {
        ("moving_sum", 0)
    }
}
