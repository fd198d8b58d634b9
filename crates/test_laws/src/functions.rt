//! What the standard kinds, a filter and rounds write, worked out by hand, and what they don't.
ghost use Rattle.std.specs.Prelude.{None, true};
ghost use Rattle.test_laws.specs.WorkedFunctions.{at_none, total, tally_ports, tally, CountsFourFromThree, SinksAll, TakesTwo, CopiesToBoth, BeginsWithNine, AddsAndWraps, ScalesAndWraps, WeavesTwoAndOne, MergesUpToFour, ThreeDivides, SwitchesByFlags, SelectsByFlags, TotalsSoFar, TalliesTwoRounds, TwoAndOneAreTurns, FourIsUnion};
ghost use Rattle.test_laws.specs.ChangedFunctions.{CountsUpTo, TakesOneMore, CopiesInTurn, ForgetsItsWord, SumsDoNotWrap, StopsTakingTurns, MergeKeepsBoth, MergeDrains, DividesOtherWay, SwitchesOtherWay, SelectReadsBoth, FiltersKeepNothing, RoundsKeepNothing, TurnsOfNone, MergeHasAll};

use kpn_compute::Filters;
use kpn_model::{Card, Local, Signature, Sort};
use kpn_rounds::Rounds;
use kpn_streams::{filter_function_of, round_function_of, standard_functions};

/// Filters that keep and write the total so far, modulo 2^64. Descriptions have no name for them.
struct Totals;

impl Filters for Totals {
    ghost named = { λ name. None };

    ghost accepts = { λ card. true };

    ghost start = { at_none };

    ghost step = { total };

    fn named(_name: &str) -> Option<(u16, usize)> {
        None
    }

    fn accepts(_card: &Card) -> bool {
        true
    }

    fn start(_card: &Card) -> Local {
        [0; 4]
    }

    fn step(_card: Card, kept: Local, word: u64) -> (Local, u64) {
        let total = kept[0].wrapping_add(word);
        ([total, 0, 0, 0], total)
    }

    fn lawful() {}
}

/// Rounds of three inputs, which keep and write the total so far of all, modulo 2^64, and write the second, a flag.
struct Tallies;

impl Rounds for Tallies {
    ghost named = { λ name. None };

    ghost ports = { tally_ports };

    ghost start = { at_none };

    ghost step = { tally };

    fn named(_name: &str) -> Option<(u16, usize)> {
        None
    }

    fn ports(card: &Card) -> Option<Signature> {
        Some(Self::known_ports(card))
    }

    fn known_ports(_card: &Card) -> Signature {
        Signature {
            ins: [Some(Sort::Words), Some(Sort::Flags), Some(Sort::Words)],
            outs: [Some(Sort::Words), Some(Sort::Flags), None],
        }
    }

    fn start(_card: &Card) -> Local {
        [0; 4]
    }

    fn step(_card: Card, kept: Local, inputs: [u64; 3]) -> (Local, [u64; 3]) {
        let [total, lost, _, _] = kept;
        let [first, flag, last] = inputs;
        let sum = total
            .wrapping_add(lost)
            .wrapping_add(first)
            .wrapping_add(flag)
            .wrapping_add(last);
        ([sum, 9, 0, 0], [sum, flag, 0])
    }

    fn lawful() {}
}

/// Ghost lemma: what a process of each standard kind writes, a filter that keeps a total, and rounds of three inputs
/// that do, fed with given words and flags. `turns` and `union` meet the premises of two laws. The proof uses only
/// `standard_functions`, `filter_function_of` and `round_function_of`.
pub fn worked_functions()
    ensures count { CountsFourFromThree }
    ensures sink { SinksAll }
    ensures take { TakesTwo }
    ensures copy { CopiesToBoth }
    ensures prefix { BeginsWithNine }
    ensures add { AddsAndWraps }
    ensures scale { ScalesAndWraps }
    ensures weave { WeavesTwoAndOne }
    ensures merge { MergesUpToFour }
    ensures divides { ThreeDivides }
    ensures switch { SwitchesByFlags }
    ensures select { SelectsByFlags }
    ensures filter { TotalsSoFar }
    ensures round { TalliesTwoRounds }
    ensures turns { TwoAndOneAreTurns }
    ensures union { FourIsUnion }
{
    standard_functions();
    filter_function_of::<Totals>();
    round_function_of::<Tallies>();
}

/// Ghost lemma: the standard kinds don't write by slightly changed functions.
///
/// `count`: the numbers up to n. `take`: one word more. `copy`: to its outputs in turn. `prefix`: without its
/// word. `add`: sums of more than 64 bits. `weave`: the second stream for ever, after one turn of the first.
/// `keeps_both`: merge writes both of two equal heads. `drains`: it writes the rest of one stream where the
/// other has ended. `divides`: whether the word divides m. `switch`: to output 0 for a true flag. `select`: a
/// word of each stream for each flag. `filter`: each word with the local state of the start. `round`: each round with
/// what is kept at the start.
///
/// Two laws need their premises. `no_turn`: weave doesn't take turns of no word. `has_all`: the merge of two
/// rising streams may lack what follows where one has ended.
pub fn changed_functions()
    ensures count { CountsUpTo → ⊥ }
    ensures take { TakesOneMore → ⊥ }
    ensures copy { CopiesInTurn → ⊥ }
    ensures prefix { ForgetsItsWord → ⊥ }
    ensures add { SumsDoNotWrap → ⊥ }
    ensures weave { StopsTakingTurns → ⊥ }
    ensures keeps_both { MergeKeepsBoth → ⊥ }
    ensures drains { MergeDrains → ⊥ }
    ensures divides { DividesOtherWay → ⊥ }
    ensures switch { SwitchesOtherWay → ⊥ }
    ensures select { SelectReadsBoth → ⊥ }
    ensures filter { FiltersKeepNothing → ⊥ }
    ensures round { RoundsKeepNothing → ⊥ }
    ensures no_turn { TurnsOfNone → ⊥ }
    ensures has_all { MergeHasAll → ⊥ }
{}
