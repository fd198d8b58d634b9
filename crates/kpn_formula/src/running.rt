//! Runs the programs of cards.
ghost use Rattle.std.specs.Prelude.{true, ◌≡◌, ◌<◌, ◌≤◌, ◌+◌, ◌-◌, ◌*◌, ◌^◌, ◌==◌, set, min, not};
ghost use Rattle.kpn_standard.specs.Locals.{at};
ghost use Rattle.kpn_formula.specs.Programs.{chosen};
ghost use Rattle.kpn_formula.specs.Cards.{after_end, instruction};
ghost use Rattle.kpn_formula.specs.Reading.{IsReadable, program_at};
ghost use Rattle.kpn_formula.specs.Running.{HasRoom, PushesOne, RunsFrom, passed, ExecutesTo, decoded};

use crate::instruction::Instruction::{self, Apply};
use crate::instruction::Operation;
use crate::operations::applied;
use crate::reading::{Cursor, code_at, operands};
use kpn_model::Card;
use kpn_signals::words;

/// How many words there are for the stack of a program of up to 12 digits, with a 0 behind them.
const FEW: usize = 15;

/// How many words there are for that of every other program: it pushes one for each of 36 digits at most.
const MANY: usize = 41;

/// The stack of a program that runs: its last word, and the place of the word before it in an array, in which the stack
/// grows downwards. The array's last word stays 0, and is read where nothing was pushed.
///
/// The array is a variable of its own: a struct with an array that is indexed by a variable stays in memory, and each
/// instruction would wait for what the one before stored.
#[derive(Drop)]
struct Stack {
    last: u64,
    top: usize,
}

impl Stack {
    #[inline(always)]
    fn push<const N: usize>(&mut self, words: &mut [u64; N], word: u64)
        requires room { 0 < self.old.top }
        requires within { self.old.top < N }
        ensures last { self.new.last ≡ word }
        ensures top { self.new.top ≡ self.old.top - 1 }
        ensures words { words.new ≡ set words.old (self.old.top - 1) self.old.last }
    {
        self.top -= 1;
        words[self.top] = self.last;
        self.last = word;
    }

    /// Takes the word before the last one.
    #[inline(always)]
    fn pop<const N: usize>(&mut self, words: &[u64; N]) -> u64
        requires within { self.old.top < N }
        ensures is { result ≡ at words.now self.old.top }
        ensures last { self.new.last ≡ self.old.last }
        ensures top { self.new.top ≡ min (self.old.top + 1) (N - 1) }
    {
        let word = words[self.top];
        self.top += usize::from(self.top < N - 1);
        word
    }

    /// Executes an instruction, and returns true.
    #[inline(always)]
    fn does<const N: usize>(
        &mut self,
        words: &mut [u64; N],
        values: &mut [u64; 16],
        instruction: Instruction,
    ) -> bool
        requires readable { IsReadable instruction }
        requires stack { HasRoom N words.old self.old.top }
        ensures is { ExecutesTo instruction words.old self.old values.old words.new self.new values.new }
        ensures stack { PushesOne N self.old.top words.new self.new.top }
        ensures goes_on { result ≡ true }
    {
        match instruction {
            Instruction::End => {}
            Instruction::Push(word) => self.push(words, word),
            Instruction::Times(word) => self.last = self.last.wrapping_mul(word),
            Instruction::Shift(bits) => self.last = words::right_shift(bits, self.last),
            Instruction::Not => self.last = u64::from(self.last == 0),
            Instruction::Abs => self.last = self.last.cast_signed().unsigned_abs(),
            Instruction::Choose => {
                let first = self.pop(words);
                let condition = self.pop(words);
                self.last = chosen(condition, first, self.last);
            }
            Instruction::Apply(op) => {
                let first = self.pop(words);
                self.last = applied(op, first, self.last);
            }
            Instruction::Load(place) => self.push(words, values[usize::from(place)]),
            Instruction::Store(place) => {
                values[usize::from(place)] = self.last;
                self.last = self.pop(words);
            }
        }
        true
    }

    /// Executes the instruction of a code, and passes both; returns false at the code of an End.
    #[inline(always)]
    fn perform<const N: usize>(
        &mut self,
        words: &mut [u64; N],
        values: &mut [u64; 16],
        code: u64,
        cursor: &mut Cursor,
    ) -> bool
        requires code { code < 32 }
        requires stack { HasRoom N words.old self.old.top }
        ensures is { ExecutesTo (decoded code cursor.old) words.old self.old values.old words.new self.new values.new }
        ensures rest { cursor.new ≡ passed code cursor.old }
        ensures stack { PushesOne N self.old.top words.new self.new.top }
        ensures goes_on { result ≡ not (code == 0) }
    {
        match code {
            0 => false,
            1 => self.does(words, values, Instruction::Push(cursor.operand())),
            2 => self.does(words, values, Instruction::Push(cursor.long_operand())),
            3 => self.does(words, values, Instruction::Times(cursor.long_operand())),
            4 => self.does(words, values, Instruction::Shift(cursor.operand())),
            5 => self.does(words, values, cursor.alone(Instruction::Not)),
            6 => self.does(words, values, cursor.alone(Instruction::Abs)),
            7 => self.does(words, values, cursor.alone(Instruction::Choose)),
            8 => self.does(words, values, cursor.alone(Apply(Operation::Add))),
            9 => self.does(words, values, cursor.alone(Apply(Operation::Subtract))),
            10 => self.does(words, values, cursor.alone(Apply(Operation::Multiply))),
            11 => self.does(words, values, cursor.alone(Apply(Operation::Divide))),
            12 => self.does(words, values, cursor.alone(Apply(Operation::Remain))),
            13 => self.does(words, values, cursor.alone(Apply(Operation::ShiftLeft))),
            14 => self.does(words, values, cursor.alone(Apply(Operation::ShiftRight))),
            15 => self.does(words, values, cursor.alone(Apply(Operation::And))),
            16 => self.does(words, values, cursor.alone(Apply(Operation::Or))),
            17 => self.does(words, values, cursor.alone(Apply(Operation::ExclusiveOr))),
            18 => self.does(words, values, cursor.alone(Apply(Operation::Min))),
            19 => self.does(words, values, cursor.alone(Apply(Operation::Max))),
            20 => self.does(words, values, cursor.alone(Apply(Operation::IsLess))),
            21 => self.does(words, values, cursor.alone(Instruction::Load(0))),
            22 => self.does(words, values, cursor.alone(Instruction::Load(1))),
            23 => self.does(words, values, cursor.alone(Instruction::Load(2))),
            24 => self.does(words, values, cursor.alone(Instruction::Load(3))),
            25 => self.does(words, values, cursor.alone(Instruction::Load(4))),
            26 => self.does(words, values, cursor.alone(Instruction::Load(5))),
            27 => self.does(words, values, cursor.alone(Instruction::Store(0))),
            28 => self.does(words, values, cursor.alone(Instruction::Store(1))),
            29 => self.does(words, values, cursor.alone(Instruction::Store(2))),
            30 => self.does(words, values, cursor.alone(Instruction::Store(3))),
            _ => self.does(words, values, cursor.alone(Instruction::Store(4))),
        }
    }
}

#[inline(always)]
fn chosen(condition: u64, first: u64, second: u64) -> u64
    ensures { result ≡ chosen condition first second }
{
    if condition == 0 { second } else { first }
}

/// Runs a program, up to an End, on the values that stand in the first six places.
#[inline(always)]
pub(crate) fn run(program: Cursor, values: &mut [u64; 16])
    ensures { RunsFrom program values.old values.new }
{
    let (low, middle, high) = program.words();
    if middle == 0 && high == 0 {
        run_within::<FEW>(low, 0, 0, values);
    } else {
        run_within::<MANY>(low, middle, high, values);
    }
}

/// Runs the program whose digits three words hold, with `N` words for its stack and the 0 behind them.
///
/// It alone runs programs, so that the compiler makes one loop of it, with the instructions in place; and one more for
/// short programs, which looks at the first word alone.
#[inline(never)]
fn run_within<const N: usize>(low: u64, middle: u64, high: u64, values: &mut [u64; 16])
    requires some { 2 ≤ N }
    requires few { N ≤ 64 }
    requires short { low + 2 ^ 64 * middle + 2 ^ 128 * high < 32 ^ (N - 2) }
    ensures { RunsFrom (low + 2 ^ 64 * middle + 2 ^ 128 * high) values.old values.new }
{
    let mut stack = Stack {
        last: 0,
        top: N - 1,
    };
    let mut words = [0; N];
    let mut cursor = Cursor::of(low, middle, high);
    while stack.perform(&mut words, values, cursor.code(), &mut cursor) {}
}

/// Returns the place of the digit behind the first End, where the opening begins.
pub(crate) fn opening_start(card: &Card) -> usize
    ensures { program_at card.now result ≡ after_end (program_at card.now 0) }
{
    let mut place = 0;
    while let Some(code) = code_at(card, place) {
        place += 1 + operands(code);
    }
    place + 1
}
