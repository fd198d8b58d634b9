//! The functions of the standard kinds, of filters and of rounds, and laws of every family.
ghost use Rattle.std.specs.Prelude.{ℕ, List};
ghost use Rattle.kpn_model.specs.declared.kinds.Card.{Card};
ghost use Rattle.kpn_model.specs.Network.{Family};
ghost use Rattle.kpn_streams.specs.Kinds.{CountWrites, SinkWrites, TakeWrites, CopyWrites, PrefixWrites, AddWrites, ScaleWrites, WeaveWrites, MergeWrites, DividesWrites, SwitchWrites, SelectWrites, WeaveTakesTurns, MergeIsUnion};
ghost use Rattle.kpn_streams.specs.Filters.{FiltersScan};
ghost use Rattle.kpn_streams.specs.Rounds.{RoundsScan, AllRoundsScan};
ghost use Rattle.kpn_streams.specs.Families.{AreFunctions, WriteAsTheirOwn};

use kpn_compute::Filters;
use kpn_rounds::Rounds;

/// Ghost lemma: what each standard kind writes, as a function of what it is fed with, for all arguments and
/// words.
///
/// Fed with these tokens on each input and no more, a process of the card writes those on each output and no
/// more. How many tokens it takes, and whether it then stops or waits, is not said.
///
/// `count`: the n numbers from its first on. `sink`: nothing. `take`: the first n words. `copy`: the words, on
/// both outputs. `prefix`: its word, then the words. `add`, `scale`: sums and products modulo 2^64, place by
/// place. `weave`: a words of the first stream, then b of the second, in turn. `merge`: the lesser of the two
/// heads, one of two equal ones. `divides`: whether m divides each word. `switch`: the words whose flag is
/// false, and those whose flag is true. `select`: for each flag the next word of the stream that it selects.
///
/// Two functions without their recursion: `turns`: weave takes turns, and waits where a stream ends within its
/// turn. `union`: merge makes of two strictly rising streams a strictly rising one with each of their
/// numbers, up to where one of them ends.
pub fn standard_functions()
    ensures count { CountWrites }
    ensures sink { SinkWrites }
    ensures take { TakeWrites }
    ensures copy { CopyWrites }
    ensures prefix { PrefixWrites }
    ensures add { AddWrites }
    ensures scale { ScaleWrites }
    ensures weave { WeaveWrites }
    ensures merge { MergeWrites }
    ensures divides { DividesWrites }
    ensures switch { SwitchWrites }
    ensures select { SelectWrites }
    ensures turns { WeaveTakesTurns }
    ensures union { MergeIsUnion }
{}

/// Ghost lemma: every filter writes a scan: it steps the first word with what is kept at the start, each other
/// word with what the step before kept.
pub fn filter_functions()
    ensures scans { (start : Card → List ℕ) (step : Card → List ℕ → ℕ → List ℕ × ℕ) → FiltersScan start step }
{}

/// Ghost lemma: the law of [`filter_functions`] for the filters of a type.
pub fn filter_function_of<F: Filters>()
    ensures scans { FiltersScan F.start F.step }
{}

/// Ghost lemma: every process that goes in rounds, and has an input, writes what its steps make of the streams side by
/// side: of the first tokens with what is kept at the start, of all later ones with what the step before kept. There are
/// as many rounds as the shortest stream has tokens.
pub fn round_functions()
    ensures scans { AllRoundsScan }
{}

/// Ghost lemma: the law of [`round_functions`] for the rounds of a type.
pub fn round_function_of<R: Rounds>()
    ensures scans { RoundsScan R.ports R.start R.step }
{}

/// Ghost lemmas for every family. `functions`: what a process writes is a function of what it is fed with.
/// `joined`: a process of two joined families, as in `kpn_compute::Both`, writes what it writes in its own.
pub fn family_functions()
    ensures functions { (kinds : Family) → AreFunctions kinds }
    ensures joined { (first second : Family) → WriteAsTheirOwn first second }
{}
