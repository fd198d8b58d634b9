//! The kinds of formulas.
ghost use Rattle.std.specs.Prelude.{◌≡◌, ◌≢◌, ◌<◌, ◌≤◌, ◌+◌, ◌^◌, ℕ, take, decimal, IsSome, MatchOption};
ghost use Rattle.kpn_formula.specs.Cards.{before_end};
ghost use Rattle.kpn_formula.specs.Formulas.{kind_name, named, results, start, step, results_in};
ghost use Rattle.kpn_formula.specs.Running.{begun, cleared, laid};
ghost use Rattle.kpn_formula.specs.Reading.{program_at};
ghost use Rattle.kpn_formula.specs.Shapes.{inputs_of, outputs_of, ports, states_of};

use crate::reading::Cursor;
use crate::running::{opening_start, run};
use crate::shape::Shape;
use kpn_model::{Card, Local, Signature};
use kpn_rounds::{Rounded, Rounds};

/// The kinds `formula N`: in each round a process runs the program of its card on the words that it keeps and reads.
pub struct Programs;

/// The family of formulas.
pub type Formulas = Rounded<Programs>;

/// How many states, inputs and outputs a formula has.
#[derive(Clone, Copy)]
struct FormulaSizes {
    states: usize,
    inputs: usize,
    outputs: usize,
}

#[inline(always)]
fn counts_of(kind: u16) -> FormulaSizes
    ensures { result ≡ record { states = states_of kind; inputs = inputs_of kind; outputs = outputs_of kind } }
{
    let kind = usize::from(kind);
    FormulaSizes {
        states: kind % 8,
        inputs: kind / 8 % 4,
        outputs: kind / 32 % 4,
    }
}

/// Lays three words from a place on.
#[inline(always)]
fn lay(values: &mut [u64; 16], place: usize, words: [u64; 3])
    requires { place ≤ 13 }
    ensures { values.new ≡ laid place words values.old }
{
    let [first, second, third] = words;
    values[place] = first;
    values[place + 1] = second;
    values[place + 2] = third;
}

/// Lays four zeros from a place on.
#[inline(always)]
fn clear(values: &mut [u64; 16], place: usize)
    requires { place ≤ 12 }
    ensures { values.new ≡ cleared place values.old }
{
    values[place] = 0;
    lay(values, place + 1, [0; 3]);
}

/// Lays what a round begins with over words that were kept, with zeros behind them: each part goes over what stands behind
/// the one before, whatever their lengths.
#[inline(always)]
fn begin(counts: FormulaSizes, values: &mut [u64; 16], inputs: [u64; 3])
    requires states { counts.states < 8 }
    requires inputs { counts.inputs < 4 }
    requires outputs { counts.outputs < 4 }
    ensures { values.new ≡ begun counts.states counts.outputs counts.inputs inputs values.old }
{
    clear(values, counts.states);
    let behind_outputs = counts.states + counts.outputs;
    lay(values, behind_outputs, inputs);
    lay(values, behind_outputs + counts.inputs, [0; 3]);
}

/// Returns the states, which stand first, and the outputs behind them.
#[inline(always)]
fn results(counts: FormulaSizes, values: &mut [u64; 16]) -> (Local, [u64; 3])
    requires { counts.states + counts.outputs ≤ 6 }
    ensures { result ≡ results_in counts.states counts.outputs (take 6 values.old) }
{
    let states = counts.states;
    lay(values, states + counts.outputs, [0; 3]);
    let made = [values[states], values[states + 1], values[states + 2]];
    clear(values, states);
    ([values[0], values[1], values[2], values[3]], made)
}

impl Rounds for Programs {
    ghost named = { named };

    ghost ports = { ports };

    ghost start = { start };

    ghost step = { step };

    fn named(name: &str) -> Option<(u16, usize)> {
        let Some(number) = number_in(name) else {
            return None;
        };
        match Shape::numbered(number) {
            Some(_) => Some((number, 3)),
            None => None,
        }
    }

    #[inline(always)]
    fn ports(card: &Card) -> Option<Signature> {
        let Shape { ins, outs, .. } = Shape::of(card)?;
        Some(Signature { ins, outs })
    }

    #[inline(always)]
    fn known_ports(card: &Card) -> Signature {
        let Shape { ins, outs, .. } = Shape::of_kind(card.kind);
        Signature { ins, outs }
    }

    #[tactic(auto, using(crate::proofs::Zeros::values_of_zeros))]
    fn start(card: &Card) -> Local {
        let (kept, _) = computed(card, opening_start(card), [0; 4], [0; 3]);
        kept
    }

    #[inline(always)]
    fn step(card: Card, kept: Local, inputs: [u64; 3]) -> (Local, [u64; 3]) {
        computed(&card, 0, kept, inputs)
    }

    #[tactic(auto, using(crate::proofs::LawfulFormulas::formulas_lawful))]
    fn lawful() {}
}

/// Runs the program of a card that begins at digit `start`, and returns the states and the outputs after it.
///
/// The values stay in one place, since to copy them would wait for each word that was laid.
///
/// It is a call, so that what asks bodies of all families stays small enough to be put in place.
#[inline(never)]
fn computed(card: &Card, start: usize, kept: Local, inputs: [u64; 3]) -> (Local, [u64; 3])
    requires { IsSome (ports card.now) }
    ensures { result ≡ results card.now (before_end (program_at card.now start)) kept inputs }
{
    let counts = counts_of(card.kind);
    let [first, second, third, fourth] = kept;
    let mut values = [
        first, second, third, fourth, 0, 0, 0, 0, 0, 0, 0, 0, 0, 0, 0, 0,
    ];
    begin(counts, &mut values, inputs);
    run(Cursor::at(card, start), &mut values);
    results(counts, &mut values)
}

/// Returns the number in a name of a kind; `None` if no kind has this name.
fn number_in(name: &str) -> Option<u16>
    ensures { MatchOption result ((n : ℕ) → 0 < n → n < 2 ^ 16 → name.now ≢ kind_name n) (λ n. name.now ≡ kind_name n) }
{
    match name.strip_prefix("formula ") {
        Some(digits) => numeral(digits),
        None => None,
    }
}

/// Returns the number that decimal digits say; `None` if it is 0, too large, or written otherwise.
fn numeral(digits: &str) -> Option<u16>
    ensures { MatchOption result ((n : ℕ) → 0 < n → n < 2 ^ 16 → digits.now ≢ decimal n) (λ n. digits.now ≡ decimal n) }
{
    if digits.starts_with('0') {
        return None;
    }
    if digits.starts_with('+') {
        return None;
    }
    match digits.parse() {
        Ok(number) => Some(number),
        Err(_) => None,
    }
}
