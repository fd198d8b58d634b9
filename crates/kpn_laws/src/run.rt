//! What holds at each moment of a run.
ghost use Rattle.std.specs.Prelude.{Option};
ghost use Rattle.kpn_model.specs.declared.kinds.Card.{Card};
ghost use Rattle.kpn_model.specs.declared.kinds.Signature.{Signature};
ghost use Rattle.kpn_model.specs.Network.{Family};
ghost use Rattle.kpn_model.specs.Families.{family};
ghost use Rattle.kpn_laws.specs.Laws.{LawsOfMoments};
ghost use Rattle.kpn_model.specs.Valid.{StaysWellTyped};
ghost use Rattle.kpn_laws.specs.ValidRuns.{StartsWithin, StaysWithin};

use kpn_model::Kinds;

/// Ghost lemma: the laws of the moments of a run.
///
/// `one_state`: a history leads from a state to one state. `prefixes`: each prefix of a history is a run, and
/// the rest continues from its state. `within`: a network that starts with no channel above its capacity never
/// has one. `told`: the history determines each channel's tokens and capacity. `budget`: no run spends the
/// budget if one that is over has fewer entries. `enabled`: a process is enabled exactly when it can do a
/// deed. `one_cause`: a run is over for at most one cause.
pub fn moments()
    ensures { (kinds : Family) → LawsOfMoments kinds }
{}

/// Ghost lemma: the laws of [`moments`] for the family of a type.
pub fn moments_of<K: Kinds>()
    ensures { LawsOfMoments (family K.Kinds) }
{
    moments();
}

/// Ghost lemma: no channel of a valid network ever exceeds its capacity.
pub fn valid_runs()
    ensures start { (signature : Card → Option Signature) (kinds : Family) → StartsWithin signature kinds }
    ensures within { (signature : Card → Option Signature) (kinds : Family) → StaysWithin signature kinds }
{}

/// Ghost lemma: each run of a valid network is well-typed at each moment: tokens fit and have their channels'
/// sorts, and live processes are in admitted states. It follows from `K::lawful`.
pub fn typed_runs<K: Kinds>()
    ensures { StaysWellTyped K.signature K.admits (family K.Kinds) }
{
    K::lawful();
}
