//! The functions of the kinds for signals.
ghost use Rattle.kpn_model.specs.Network.{Family};
ghost use Rattle.kpn_streams.specs.Signals.{StepsScan, JoinsScan, ShiftWrites, LeftWrites, ClipWrites, AbsWrites, OffsetWrites, GainWrites, DelayWrites, LowPassWrites, SumWrites, DifferenceWrites, AverageWrites, SubWrites, MulWrites, MinWrites, MaxWrites, DivWrites, ModWrites, LessWrites, EqualWrites, HoldWrites, GateWrites, CopyFlagsWrites, CounterWrites, EdgeWrites};

/// Ghost lemma: what kinds for signals write, as a function of what they are fed with, for all arguments and
/// tokens, as in [`crate::standard_functions`].
///
/// In every family: a process that reads a token, then writes what a step makes of it, writes the scan of the
/// step (`steps`); one that reads a token of both inputs, then writes what it makes of them, writes this of both
/// streams side by side (`joins`).
///
/// So: `shift` to `gain` what they make of each word. `delay`: the word n before, `average`: the mean of the last
/// n, each with zeros before the first. `low_pass`: the levels. `sum`: the running sums. `difference`: each word
/// minus the one before. `sub` to `equal`: what they make of each two words. `hold`: the word, or the last one
/// that was written. `gate`: the words whose flag is true. `copy_flags`: the flags, on both outputs. `counter`:
/// how many were true so far. `edge`: whether a flag is true and the one before is not.
pub fn signal_functions()
    ensures steps { (kinds : Family) → StepsScan kinds }
    ensures joins { (kinds : Family) → JoinsScan kinds }
    ensures shift { ShiftWrites }
    ensures left { LeftWrites }
    ensures clip { ClipWrites }
    ensures abs { AbsWrites }
    ensures offset { OffsetWrites }
    ensures gain { GainWrites }
    ensures delay { DelayWrites }
    ensures low_pass { LowPassWrites }
    ensures sum { SumWrites }
    ensures difference { DifferenceWrites }
    ensures average { AverageWrites }
    ensures sub { SubWrites }
    ensures mul { MulWrites }
    ensures min { MinWrites }
    ensures max { MaxWrites }
    ensures div { DivWrites }
    ensures modulo { ModWrites }
    ensures less { LessWrites }
    ensures equal { EqualWrites }
    ensures hold { HoldWrites }
    ensures gate { GateWrites }
    ensures copy_flags { CopyFlagsWrites }
    ensures counter { CounterWrites }
    ensures edge { EdgeWrites }
{}
