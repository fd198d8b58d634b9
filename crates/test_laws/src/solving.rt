//! False laws of solving a network's equations.
ghost use Rattle.test_laws.specs.ChangedSolving.{AllSolvedAreComputed, LimitFromAnyIsLeast};

/// Ghost lemma: two changed laws of solving a network's equations are false, as a copy that waits for its own
/// output shows.
///
/// `with_a_loop`: with a loop, tokens that solve the equations need not be what the network computes.
/// `from_any`: approximations that don't begin empty need not lead to the least solution.
pub fn changed_solving()
    ensures with_a_loop { AllSolvedAreComputed → ⊥ }
    ensures from_any { LimitFromAnyIsLeast → ⊥ }
{}
