//! False definitions.
ghost use Rattle.test_laws.specs.ChangedRules.{OneDigestBy, AlwaysWithinBy, EarlyGrowth, PutIntoFull, AnyOfEqual, TakenTells};

/// Ghost lemma: four changed definitions each make a law false for networks of the standard kinds.
///
/// `early_growth`: if a channel may grow while a process is enabled, runs that are over differ.
/// `put_into_full`: if a put needs no room, a channel holds more than its capacity; `put_into_full_digest`:
/// and runs that are over differ. `any_of_equal`: if any of several smallest channels may grow, runs that are
/// over differ in the order of growths. `taken_tells`: streams of the tokens taken don't determine what the
/// channels hold.
pub fn changed_definitions()
    ensures early_growth { OneDigestBy EarlyGrowth → ⊥ }
    ensures put_into_full { AlwaysWithinBy PutIntoFull → ⊥ }
    ensures put_into_full_digest { OneDigestBy PutIntoFull → ⊥ }
    ensures any_of_equal { OneDigestBy AnyOfEqual → ⊥ }
    ensures taken_tells { TakenTells → ⊥ }
{}
