//! What the version of a description decides.
ghost use Rattle.std.specs.Prelude.{◌≡◌};
ghost use Rattle.kpn_model.specs.texts.Version.{is_two, ceiling_in, greatest_budget_in};

use crate::limits::{CEILING, GREATEST_BUDGET, GREATEST_HIGH_BUDGET, HIGH_CEILING};

/// Whether the version is 2, which allows start tokens and a step.
pub fn is_two(version: i64) -> bool
    ensures { result ≡ is_two version }
{
    version == 2
}

/// Returns the capacity in tokens above which no channel grows.
pub fn ceiling_in(version: i64) -> u32
    ensures { result ≡ ceiling_in version }
{
    if is_two(version) {
        HIGH_CEILING
    } else {
        CEILING
    }
}

/// Returns the greatest budget, in entries.
pub fn greatest_budget_in(version: i64) -> u32
    ensures { result ≡ greatest_budget_in version }
{
    if is_two(version) {
        GREATEST_HIGH_BUDGET
    } else {
        GREATEST_BUDGET
    }
}
