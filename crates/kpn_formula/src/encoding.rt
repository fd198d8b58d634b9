//! Cards that hold given programs.
ghost use Rattle.std.specs.Prelude.{◌≡◌, ◌<◌, ◌≤◌, ◌+◌, ◌-◌, ◌^◌, ℕ, List, [], ◌∷◌, ◌++◌, All, length, take, drop, replicate, MatchResult};
ghost use Rattle.kpn_formula.specs.Encoding.{AreEncodable, IsEncodable, IsCardOf, opening_size, size, width, HasExcess};
ghost use Rattle.kpn_formula.specs.Spelling.{IsDigit, code_of, spelled, spelling, short_digits, packed, args_of, filled, opening_digits};

use crate::instruction::{Instruction, Operation};
use crate::shape::Shape;
use kpn_model::Card;
use std::marker::Model;

/// Why no card holds a program.
#[derive(Clone, Copy, Debug, PartialEq, Eq)]
pub enum Excess {
    /// No formula has this shape.
    NotAllowed,
    /// The programs take this many digits more than the 36 that a card has, at least one.
    Digits { by: usize },
}

/// The digits of a card, as they are written.
#[derive(Drop)]
struct Tape {
    digits: [u64; 36],
    used: usize,
}

impl Model for Tape {
    ghost Value = { List ℕ };

    ghost view = { λ t. take t.used t.digits };

    ghost invariant = { λ t. (t.used ≤ 36) × (drop t.used t.digits ≡ replicate (36 - t.used) 0) × All IsDigit t.digits };
}

impl Tape {
    fn new() -> Tape
        ensures { result ≡ [] }
    {
        Tape {
            digits: [0; 36],
            used: 0,
        }
    }

    fn push(&mut self, digit: u64)
        requires digit { digit < 32 }
        requires room { length self.old < 36 }
        ensures { self.new ≡ self.old ++ digit ∷ [] }
    {
        self.digits[self.used] = digit;
        self.used += 1;
    }

    fn push_short(&mut self, word: u64)
        requires { length self.old + 3 ≤ 36 }
        ensures { self.new ≡ self.old ++ short_digits word }
    {
        self.push(word % 32);
        self.push(word / 32 % 32);
        self.push(word / 1024 % 32);
    }

    fn write(&mut self, instruction: Instruction)
        requires encodable { IsEncodable instruction }
        requires room { length self.old + width instruction ≤ 36 }
        ensures { self.new ≡ self.old ++ spelled instruction }
    {
        match instruction {
            Instruction::End => self.push(0),
            Instruction::Push(word) if word < 32 => {
                self.push(1);
                self.push(word);
            }
            Instruction::Push(word) => {
                self.push(2);
                self.push_short(word);
            }
            Instruction::Times(word) => {
                self.push(3);
                self.push_short(word);
            }
            Instruction::Shift(bits) => {
                self.push(4);
                self.push(bits);
            }
            Instruction::Not => self.push(5),
            Instruction::Abs => self.push(6),
            Instruction::Choose => self.push(7),
            Instruction::Apply(op) => self.push(code_of(op)),
            Instruction::Load(place) => self.push(21 + u64::from(place)),
            Instruction::Store(place) => self.push(27 + u64::from(place)),
        }
    }

    fn write_all(&mut self, program: &[Instruction])
        requires encodable { AreEncodable program.now }
        requires room { length self.old + size program.now ≤ 36 }
        ensures { self.new ≡ self.old ++ spelling program.now }
    {
        for instruction in program {
            self.write(*instruction);
        }
    }

    /// Writes an End and an opening, if there is one.
    fn write_opening(&mut self, opening: &[Instruction])
        requires encodable { AreEncodable opening.now }
        requires room { length self.old + opening_size opening.now ≤ 36 }
        ensures { self.new ≡ self.old ++ opening_digits opening.now }
    {
        if !opening.is_empty() {
            self.push(0);
            self.write_all(opening);
        }
    }

    /// Returns the arguments of a card with these digits, and zeros behind them.
    fn args(&self) -> [u64; 3]
        ensures { result ≡ args_of (filled self.now) }
    {
        [
            packed(&self.digits[..12]),
            packed(&self.digits[12..24]),
            packed(&self.digits[24..]),
        ]
    }
}

/// Returns the number of digits, the least first.
fn packed(digits: &[u64]) -> u64
    requires few { length digits.now ≤ 12 }
    requires digits { All IsDigit digits.now }
    ensures is { result ≡ packed digits.now }
{
    match digits.split_first() {
        None => 0,
        Some((first, rest)) => first + 32 * packed(rest),
    }
}

fn code_of(op: Operation) -> u64
    ensures is { result ≡ code_of op }
    ensures bound { result ≤ 20 }
{
    match op {
        Operation::Add => 8,
        Operation::Subtract => 9,
        Operation::Multiply => 10,
        Operation::Divide => 11,
        Operation::Remain => 12,
        Operation::ShiftLeft => 13,
        Operation::ShiftRight => 14,
        Operation::And => 15,
        Operation::Or => 16,
        Operation::ExclusiveOr => 17,
        Operation::Min => 18,
        Operation::Max => 19,
        Operation::IsLess => 20,
    }
}

/// Returns the card that holds these programs: what a process runs in each round, and what it runs once, at first.
///
/// # Errors
///
/// No formula has this shape, or the programs have too many digits.
pub fn card_of(shape: Shape, round: &[Instruction], opening: &[Instruction]) -> Result<Card, Excess>
    requires round { AreEncodable round.now }
    requires opening { AreEncodable opening.now }
    ensures { MatchResult result (IsCardOf shape round.now opening.now) (HasExcess shape round.now opening.now) }
{
    let Some(kind) = shape.number() else {
        return Err(Excess::NotAllowed);
    };
    let needed = size(round) + opening_size(opening);
    if needed > 36 {
        return Err(Excess::Digits { by: needed - 36 });
    }
    let mut tape = Tape::new();
    tape.write_all(round);
    tape.write_opening(opening);
    let args = tape.args();
    Ok(Card { kind, args })
}

fn opening_size(opening: &[Instruction]) -> usize
    ensures is { result ≡ opening_size opening.now }
    ensures bound { result ≤ 2 ^ 62 + 1 }
{
    if opening.is_empty() {
        0
    } else {
        1 + size(opening)
    }
}

fn size(program: &[Instruction]) -> usize
    ensures is { result ≡ size program.now }
    ensures bound { result ≤ 2 ^ 62 }
{
    let mut total = 0;
    for instruction in program {
        total += width(*instruction);
    }
    total
}

/// Returns how many digits an instruction takes.
fn width(instruction: Instruction) -> usize
    ensures is { result ≡ width instruction }
    ensures bound { result ≤ 4 }
{
    match instruction {
        Instruction::Push(word) if word < 32 => 2,
        Instruction::Push(_) | Instruction::Times(_) => 4,
        Instruction::Shift(_) => 2,
        _ => 1,
    }
}
