//! A network that can end, or run forever, in bounded room does so.
ghost use Rattle.kpn_model.specs.Network.{Family};
ghost use Rattle.kpn_model.specs.Families.{family};
ghost use Rattle.kpn_laws.specs.Laws.{LawsOfCompletion};

use kpn_model::Kinds;

/// Ghost lemma: the laws of completion. A network that can end in bounded room does so, and one that can run
/// forever does so, whatever the schedule.
///
/// `goes_on`: in every state an entry can follow, or it is over, or the chosen channel is above the ceiling.
/// `few_entries`: if capacity b suffices for a run to its end, and the step is not 0, each run has at most
/// that run's entries plus b for each channel. If b is within the ceiling, each run can continue until a
/// natural end (`completes`), and so reaches one (`has_end`). `never_ends`: if b suffices for any number of
/// deeds and is within the ceiling, each run can continue.
pub fn completion()
    ensures { (kinds : Family) → LawsOfCompletion kinds }
{}

/// Ghost lemma: the laws of [`completion`] for the family of a type.
pub fn completion_of<K: Kinds>()
    ensures { LawsOfCompletion (family K.Kinds) }
{
    completion();
}
