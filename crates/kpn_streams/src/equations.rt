//! Solves a network's equations with functions on streams.
ghost use Rattle.kpn_model.specs.Network.{Family};
ghost use Rattle.kpn_model.specs.Families.{family};
ghost use Rattle.kpn_streams.specs.Solving.{TestTellsPorts, TestTellsOrder, LawsOfSolving};

use kpn_model::Kinds;

/// Ghost lemma: how functions on streams solve a network's equations, without a machine, for every family and
/// network.
///
/// What a process of a card writes, if it is fed with certain tokens, is a function (`Writes`). In a network
/// it writes this alone, for streams that begin with these tokens (`fed_alone`), and no more, for streams
/// without others (`fed_all`). So the equation of a channel is: its start tokens, then what that function
/// makes of the tokens of other channels (`HasEquation`). Tests find the ports of a process (`ports`) and
/// whether channels are in order, without loops (`order`). So the equation of a written-out network needs only
/// what the channel's writer writes (`equation`).
///
/// Approximations start empty; the equations make each of the one before. `limit`: their limit is the least
/// solution (Kleene 1952, Kahn 1974). `grow`: each begins with the one before. `below`: each pre-fixed point,
/// so each solution, begins with each of them. `approximated`: the streams of any run, over or not, are
/// prefixes of some approximation; so what holds of all prefixes of approximations holds of what is written.
///
/// Finite streams that are the least solution are computed by the network (`HasStreams`): natural ends have
/// exactly these, every run prefixes of them. `fixed`: so is an approximation that equals the one before.
/// `solved`, `solves`: tokens that solve the equations are a solution, and conversely. `computed`: the network
/// computes them if each pre-fixed point begins with them; `step` helps to show this by induction: streams
/// that begin with certain tokens begin with what an equation makes of these. `ordered`: without loops the
/// network computes any tokens that solve the equations. `alike`: names, sorts and capacities don't matter.
pub fn solving()
    ensures ports { TestTellsPorts }
    ensures order { TestTellsOrder }
    ensures laws { (kinds : Family) → LawsOfSolving kinds }
{}

/// Ghost lemma: the laws of [`solving`] for the family of a type.
pub fn solving_of<K: Kinds>()
    ensures { LawsOfSolving (family K.Kinds) }
{
    solving();
}
