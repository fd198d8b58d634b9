//! Networks whose streams are known.
ghost use Rattle.example_streams.specs.RunningSums.{RunningSums, SumsAreSums};
ghost use Rattle.example_streams.specs.RunningTable.{RunningTable};
ghost use Rattle.example_streams.specs.MovingSum.{MovingSum};
ghost use Rattle.example_streams.specs.Sieve.{Sieve};
ghost use Rattle.example_streams.specs.Hamming.{FewAreSmall, HammingInRun, HammingAtEnd};
ghost use Rattle.example_streams.specs.Endless.{EndlessLoop};

use kpn_laws::least_solution;
use kpn_streams::{solving, standard_functions};

/// Ghost lemma: what five networks of examples/ compute, for any numbers that arrive and any starting capacities.
///
/// `running_sums`: the sums so far, modulo 2^64; `sums`: each is the sum of the numbers up to its place; `table`: how
/// the equations are solved for 1, 2 and 3, step by step. `moving_sum`: the sum of each number and the one before it.
/// `sieve`: each of three stages passes on what its number doesn't divide, in order. `hamming`: each run has written
/// the first of Hamming's numbers, in order, none twice and none left out, while products fit into 64 bits;
/// `few_are_small`: they do for the first 62. `hamming_at_end`: a run that terminates or deadlocks has written as
/// many as the gate lets through. `endless`: a loop that copies its own output has endless streams.
///
/// It uses only what the three calls ensure.
pub fn worked_streams()
    ensures running_sums { RunningSums }
    ensures sums { SumsAreSums }
    ensures table { RunningTable }
    ensures moving_sum { MovingSum }
    ensures sieve { Sieve }
    ensures few_are_small { FewAreSmall }
    ensures hamming { HammingInRun }
    ensures hamming_at_end { HammingAtEnd }
    ensures endless { EndlessLoop }
{
    standard_functions();
    solving();
    least_solution();
}
