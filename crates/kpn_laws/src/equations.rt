//! The streams of a network are the least solution of its equations (Kahn 1974).
ghost use Rattle.kpn_model.specs.Network.{Family};
ghost use Rattle.kpn_model.specs.Families.{family};
ghost use Rattle.kpn_laws.specs.Laws.{LawsOfSolution};

use kpn_model::Kinds;

/// Ghost lemma: the streams of a network are the least solution of its equations (Kahn 1974).
///
/// The equation of a channel: its stream is its start tokens, then what its writer alone writes for the
/// streams that it reads. A process alone does what it wants for given streams: a read takes the next token,
/// or waits if there is none, and a write is always possible. What it does is a function of the streams
/// (`function`), and each finite part of it depends on a finite part of them (`continuous`).
///
/// `below`: the streams of every run, over or not, from any starting capacities, are prefixes of those of each
/// pre-fixed point of the equations, so of each solution. `end_is_least`, `digest_is_least`: at a natural end
/// the streams, also as reported, are the least solution. `below_digest`: at any end they are below each
/// pre-fixed point. `end_is_least_from_any`: the least solution does not depend on the starting capacities.
/// `one_least`: there is only one.
///
/// `all_reached`: what a process alone does for streams that runs reach, it does in some run, from large
/// enough capacities. `limit_is_least`: so the limit of the streams of all runs is the least solution, even if
/// none ends. `common_run`: all deeds of two runs are done in one. `each_run`: what this says of one run.
pub fn least_solution()
    ensures { (kinds : Family) → LawsOfSolution kinds }
{}

/// Ghost lemma: the laws of [`least_solution`] for the family of a type.
pub fn least_solution_of<K: Kinds>()
    ensures { LawsOfSolution (family K.Kinds) }
{
    least_solution();
}
