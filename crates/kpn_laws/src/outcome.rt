//! The outcome does not depend on the schedule.
ghost use Rattle.kpn_model.specs.Network.{Family};
ghost use Rattle.kpn_model.specs.Families.{family};
ghost use Rattle.kpn_laws.specs.Laws.{LawsOfDeterminacy};

use kpn_model::Kinds;

/// Ghost lemma: the laws of determinacy (Kahn 1974, for finite runs).
///
/// `one_digest`: two runs that are over have the same digest: cause, places, numbers of deeds, streams, rests,
/// growths in order, last capacities and number of entries. `none_longer`: no run is longer than one that is
/// over. `one_outcome`: whatever the starting capacities, natural ends have the same deeds, streams and places
/// (growth is Parks's, 1995). `all_comparable`: in any two runs, over or not, from any starting capacities,
/// the deeds of each process are prefix-comparable, and so are the streams.
pub fn determinacy()
    ensures { (kinds : Family) → LawsOfDeterminacy kinds }
{}

/// Ghost lemma: the laws of [`determinacy`] for the family of a type.
pub fn determinacy_of<K: Kinds>()
    ensures { LawsOfDeterminacy (family K.Kinds) }
{
    determinacy();
}
