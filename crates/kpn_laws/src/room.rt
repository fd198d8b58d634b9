//! No run takes more room than the network needs.
ghost use Rattle.kpn_model.specs.Network.{Family};
ghost use Rattle.kpn_model.specs.Families.{family};
ghost use Rattle.kpn_laws.specs.Laws.{LawsOfRoom};

use kpn_model::Kinds;

/// Ghost lemma: the laws of the least room. Growing the smallest full channel (Parks 1995) takes, but for the
/// step, no more room than any capacities that suffice.
///
/// Capacity b suffices if some run, from some starting capacities, with or without growths, ends naturally
/// with no capacity above b, or if there are runs of any number of deeds with no capacity above b. Then
/// `chosen_has_fewer`: in each artificial deadlock, from the network's own capacities, the chosen channel has
/// less capacity than b; `grows_below`: so each growth is from below b to below b plus a step; `stays_below`:
/// so each channel always has its starting capacity, or one below b plus a step; `least_possible`: with a step
/// of one no channel exceeds b, if none does at the start; `few_growths`: if the step is not 0, there are at
/// most b growths times the number of channels; `ceiling_suffices`: no run is over at a ceiling of b or more.
///
/// `dominates`: in a run to an artificial deadlock each process does all that it does in any run, from any
/// starting capacities, in which no channel has more capacity than the chosen one. `own_end`: a natural end of
/// the network itself shows which capacity suffices. `keeps_capacities`: without growths, no capacity rises.
/// `each_run`: what this says of one run.
pub fn least_room()
    ensures { (kinds : Family) → LawsOfRoom kinds }
{}

/// Ghost lemma: the laws of [`least_room`] for the family of a type.
pub fn least_room_of<K: Kinds>()
    ensures { LawsOfRoom (family K.Kinds) }
{
    least_room();
}
