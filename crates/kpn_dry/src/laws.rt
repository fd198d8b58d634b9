//! What is dry stays dry.
ghost use Rattle.kpn_model.specs.Network.{Family};
ghost use Rattle.kpn_model.specs.Families.{family};
ghost use Rattle.kpn_dry.specs.Dry.{CompleteIsWhole, DryHasDoneAll, DryStaysDry};

use kpn_model::Kinds;

/// Ghost lemma: the laws of dry processes.
///
/// A process is dry if it has stopped, or waits to read an empty channel whose writer is dry. `stays`: in each
/// longer run it is dry too, and has done nothing more. `done_all`: it has done all that it does in any run, from
/// any starting capacities (Kahn 1974). `whole`: so the stream of a channel whose writer is dry is that of each
/// longer run, and begins with that of every other run.
pub fn dryness()
    ensures stays { (kinds : Family) → DryStaysDry kinds }
    ensures done_all { (kinds : Family) → DryHasDoneAll kinds }
    ensures whole { (kinds : Family) → CompleteIsWhole kinds }
{}

/// Ghost lemma: the laws of [`dryness`] for the family of a type.
pub fn dryness_of<K: Kinds>()
    ensures stays { DryStaysDry (family K.Kinds) }
    ensures done_all { DryHasDoneAll (family K.Kinds) }
    ensures whole { CompleteIsWhole (family K.Kinds) }
{
    dryness();
}
