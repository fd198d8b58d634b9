//! What a process holds within a round, and what it then does.
ghost use Rattle.std.specs.Prelude.{◌≡◌, ◌<◌, ◌≤◌, ◌++◌, ℕ, List, true, false, [], length};
ghost use Rattle.kpn_rounds.specs.Steps.{count};
ghost use Rattle.kpn_rounds.specs.Numbers.{list_of};
ghost use Rattle.kpn_rounds.specs.Rounds.{latest, carried, packed, with_inputs, with_outputs, left_in, read_in, reading, write_answer};
ghost use Rattle.kpn_rounds.specs.Turns.{IsTurn, LeavesFew};

use crate::numbers::Numbers;
use crate::ports::{count, is_narrow, is_wide, number, token_at};
use kpn_model::{Act, Answer, Local, Signature, Token};

/// The last word of the local state of a process with two or more inputs or outputs, between two rounds.
pub const NONE_HELD: u64 = 0;

/// The last word after the first of the inputs was read, while others are left.
pub const ONE_READ: u64 = 1;

/// The last word after two of three inputs were read.
pub const TWO_READ: u64 = 2;

/// The last word while the last of several outputs is left to be written.
pub const ONE_LEFT: u64 = 3;

/// The last word while the last two of three outputs are left.
pub const TWO_LEFT: u64 = 4;

/// What a process does next: it reads the next input after these, writes the first of these outputs, or steps with these
/// inputs. (An answer in it would go through memory, with all its padding.)
#[derive(Clone, Copy)]
pub(crate) enum Turn {
    Reads(Numbers),
    Writes(Numbers),
    Steps(Numbers),
}

/// Returns the kept words as the next step gets them.
#[inline(always)]
pub(crate) fn carried(ports: &Signature, kept: Local) -> Local
    ensures { result ≡ carried ports.now kept }
{
    let [first, second, third, fourth] = kept;
    if is_narrow(ports) {
        return [first, second, third, fourth];
    }
    if is_wide(ports) {
        [first, 0, 0, 0]
    } else {
        [first, second, 0, 0]
    }
}

/// Returns the last token as a number, if there is one.
#[inline(always)]
fn latest(last: Option<Token>) -> Numbers
    ensures { list_of result ≡ latest last }
{
    match last {
        Some(token) => Numbers::One(number(token)),
        None => Numbers::None,
    }
}

/// Returns the inputs that were read in this round, with the last token.
#[inline(always)]
fn inputs_of(ports: &Signature, local: Local, last: Option<Token>) -> Numbers
    ensures { list_of result ≡ read_in ports.now local ++ latest last }
{
    if is_narrow(ports) {
        return latest(last);
    }
    let [_, second, first, phase] = local;
    match (phase, last) {
        (ONE_READ, None) => Numbers::One(first),
        (ONE_READ, Some(token)) => Numbers::Two(first, number(token)),
        (TWO_READ, None) => Numbers::Two(first, second),
        (TWO_READ, Some(token)) => Numbers::Three(first, second, number(token)),
        (_, None) => Numbers::None,
        (_, Some(token)) => Numbers::One(number(token)),
    }
}

/// Returns the outputs that are left to be written in this round.
#[inline(always)]
fn left_in(ports: &Signature, local: Local) -> Numbers
    ensures { list_of result ≡ left_in ports.now local }
{
    if is_narrow(ports) {
        return Numbers::None;
    }
    let [_, second, first, phase] = local;
    match phase {
        ONE_LEFT => Numbers::One(first),
        TWO_LEFT => Numbers::Two(first, second),
        _ => Numbers::None,
    }
}

/// Returns a local state that keeps words and holds these numbers. Its last word is `one_held` or `two_held`, for one or
/// two numbers; a third is ignored.
#[inline(always)]
fn packed(one_held: u64, two_held: u64, kept: Local, numbers: Numbers) -> Local
    ensures { result ≡ packed one_held two_held kept (list_of numbers) }
{
    let [first, second, _, _] = kept;
    match numbers {
        Numbers::None => [first, second, 0, NONE_HELD],
        Numbers::One(x) => [first, second, x, one_held],
        Numbers::Two(x, y) | Numbers::Three(x, y, _) => [first, y, x, two_held],
    }
}

/// Returns the local state that keeps these words after these inputs of a round were read.
#[inline(always)]
pub(crate) fn with_inputs(ports: &Signature, kept: Local, inputs: Numbers) -> Local
    ensures { result ≡ with_inputs ports.now kept (list_of inputs) }
{
    if is_narrow(ports) {
        kept
    } else {
        packed(ONE_READ, TWO_READ, kept, inputs)
    }
}

/// Returns the local state that keeps these words while these outputs of a round are left.
#[inline(always)]
fn with_outputs(ports: &Signature, kept: Local, outputs: Numbers) -> Local
    ensures { result ≡ with_outputs ports.now kept (list_of outputs) }
{
    if is_narrow(ports) {
        kept
    } else {
        packed(ONE_LEFT, TWO_LEFT, kept, outputs)
    }
}

/// Returns the answer that begins the next round: it reads the first input, or stops if there is none.
#[inline(always)]
fn begins(ports: &Signature, kept: Local) -> Answer
    ensures { result ≡ write_answer ports.now kept [] }
{
    let act = if count(&ports.ins) > 0 {
        Act::Read(0)
    } else {
        Act::Stop
    };
    Answer {
        next: with_outputs(ports, kept, Numbers::None),
        act,
    }
}

/// Returns the answer that writes the first of the outputs that are left; if none is, it begins the next round.
#[inline(always)]
pub(crate) fn writes(ports: &Signature, kept: Local, outputs: Numbers) -> Answer
    requires { length (list_of outputs) ≤ count ports.now.outs }
    ensures { result ≡ write_answer ports.now kept (list_of outputs) }
{
    let (word, left) = match outputs {
        Numbers::None => return begins(ports, kept),
        Numbers::One(word) => (word, Numbers::None),
        Numbers::Two(word, second) => (word, Numbers::One(second)),
        Numbers::Three(word, second, third) => (word, Numbers::Two(second, third)),
    };
    let port = count(&ports.outs) - outputs.count();
    Answer {
        next: with_outputs(ports, kept, left),
        act: Act::Write(port, token_at(&ports.outs, port, word)),
    }
}

/// Returns the answer that reads the next input after these.
#[inline(always)]
pub(crate) fn reading(ports: &Signature, kept: Local, inputs: Numbers) -> Answer
    ensures { result ≡ reading ports.now kept (list_of inputs) }
{
    Answer {
        next: with_inputs(ports, kept, inputs),
        act: Act::Read(inputs.count()),
    }
}

/// Returns the turn of a process in this local state, after it read `last` (`None` if its last act was no read): it reads
/// the next input, steps, or writes. No more outputs may be left than there are.
#[inline(always)]
pub(crate) fn next_turn(ports: &Signature, local: Local, last: Option<Token>) -> Turn
    requires { length (left_in ports.now local) ≤ count ports.now.outs }
    ensures is { IsTurn ports.now local last result }
    ensures few { LeavesFew ports.now result }
{
    match left_in(ports, local) {
        Numbers::None => {
            let inputs = inputs_of(ports, local, last);
            let port = inputs.count();
            if port < count(&ports.ins) {
                Turn::Reads(inputs)
            } else {
                Turn::Steps(inputs)
            }
        }
        left => Turn::Writes(left),
    }
}
