//! False bounds.
ghost use Rattle.test_laws.specs.ChangedRules.{EarlyGrowth};
ghost use Rattle.test_laws.specs.ChangedBounds.{GrowsBelowBy, GreatestGrows, EachBelowItsOwn, StaysUpTo};

/// Ghost lemma: four changes make the bound of `least_room` false for networks of the standard kinds.
///
/// `greatest_first`: if the greatest full channel grows, one may grow from a capacity that suffices. `early`:
/// so may one that grows while a process is enabled. `each_its_own`: the chosen channel may already have the
/// capacity that suffices for it together with the others'. `no_step`: with a step above one a channel may
/// grow beyond a capacity that suffices.
pub fn changed_bounds()
    ensures greatest_first { GrowsBelowBy GreatestGrows → ⊥ }
    ensures early { GrowsBelowBy EarlyGrowth → ⊥ }
    ensures each_its_own { EachBelowItsOwn → ⊥ }
    ensures no_step { StaysUpTo → ⊥ }
{}
