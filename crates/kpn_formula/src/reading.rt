//! Reads the digits of a card.
ghost use Rattle.std.specs.Prelude.{◌≡◌, ◌<◌, ◌≤◌, ◌+◌, ◌*◌, ◌/◌, ◌%◌, ◌^◌, ℕ, length, IfSome, MatchOption};
ghost use Rattle.kpn_formula.specs.Cards.{digit, extended, operands, three};
ghost use Rattle.kpn_formula.specs.Reading.{EndsAt, HoldsFrom, StandsAt, first_three};

use crate::instruction::Instruction;
use kpn_model::Card;
use std::marker::Model;

/// How many digits a card has.
pub(crate) const DIGITS: usize = 36;

/// Returns the code of the instruction that stands at a digit; `None` if there is an End, or no digit.
#[inline(always)]
pub(crate) fn code_at(card: &Card, place: usize) -> Option<u64>
    ensures stands { MatchOption result (EndsAt card.now place) (StandsAt card.now place) }
    ensures bound { IfSome result (λ code. code < 32) }
{
    if place >= DIGITS {
        return None;
    }
    let code = digit(card, place);
    if code == 0 {
        return None;
    }
    Some(code)
}

/// Returns digit `place`, below 32: 0 beyond the last.
#[inline(always)]
fn digit(card: &Card, place: usize) -> u64
    ensures is { result ≡ digit card.now place }
    ensures bound { result < 32 }
    ensures arguments { length card.now.args ≡ 3 }
{
    match card.args.get(place / 12) {
        Some(arg) => (arg >> (5 * (place % 12))) % 32,
        None => 0,
    }
}

/// Returns how many digits behind a code belong to its instruction.
pub(crate) fn operands(code: u64) -> usize
    ensures is { result ≡ operands code }
    ensures bound { result ≤ 3 }
{
    match code {
        1 | 4 => 1,
        2 | 3 => 3,
        _ => 0,
    }
}

/// The digits of a card from a place on, as one number, the first digit least.
#[derive(Drop)]
pub(crate) struct Cursor {
    low: u64,
    middle: u64,
    high: u64,
}

impl Model for Cursor {
    ghost Value = { ℕ };

    ghost view = { λ c. c.low + 2 ^ 64 * c.middle + 2 ^ 128 * c.high };
}

impl Cursor {
    #[inline(always)]
    fn new(card: &Card) -> Cursor
        ensures { HoldsFrom card.now 0 result }
    {
        let (first, second, third) = (card.args[0], card.args[1], card.args[2]);
        Cursor {
            low: first % (1 << 60) + ((second % 16) << 60),
            middle: second % (1 << 60) / 16 + ((third % 256) << 56),
            high: third % (1 << 60) / 256,
        }
    }

    /// Returns the digits from `place` on.
    #[inline(always)]
    pub(crate) fn at(card: &Card, place: usize) -> Cursor
        ensures { HoldsFrom card.now place result }
    {
        let mut cursor = Cursor::new(card);
        for _ in 0..place {
            cursor.pass();
        }
        cursor
    }

    /// Returns the digits that three words hold.
    #[inline(always)]
    pub(crate) fn of(low: u64, middle: u64, high: u64) -> Cursor
        ensures { result ≡ low + 2 ^ 64 * middle + 2 ^ 128 * high }
    {
        Cursor { low, middle, high }
    }

    /// Returns the three words.
    #[inline(always)]
    pub(crate) fn words(self) -> (u64, u64, u64)
        ensures { self ≡ result.0 + 2 ^ 64 * result.1 + 2 ^ 128 * result.2 }
    {
        let Cursor { low, middle, high } = self;
        (low, middle, high)
    }

    /// Returns the first digit, the code of an instruction.
    #[inline(always)]
    pub(crate) fn code(&self) -> u64
        ensures { result ≡ self.now % 32 }
    {
        self.low % 32
    }

    /// Passes one digit.
    #[inline(always)]
    fn pass(&mut self)
        ensures { self.new ≡ self.old / 32 }
    {
        self.low = self.low / 32 + ((self.middle % 32) << 59);
        self.middle = self.middle / 32 + ((self.high % 32) << 59);
        self.high /= 32;
    }

    /// Passes a code, whose instruction has no operand, and returns that.
    #[inline(always)]
    pub(crate) fn alone(&mut self, instruction: Instruction) -> Instruction
        ensures is { result ≡ instruction }
        ensures rest { self.new ≡ self.old / 32 }
    {
        self.pass();
        instruction
    }

    /// Passes a code and its operand of one digit, and returns that.
    #[inline(always)]
    pub(crate) fn operand(&mut self) -> u64
        ensures is { result ≡ self.old / 32 % 32 }
        ensures rest { self.new ≡ self.old / 1024 }
    {
        let digit = self.low / 32 % 32;
        self.low = self.low / 1024 + ((self.middle % 1024) << 54);
        self.middle = self.middle / 1024 + ((self.high % 1024) << 54);
        self.high /= 1024;
        digit
    }

    /// Passes a code and its operand of three digits, and returns that.
    #[inline(always)]
    pub(crate) fn long_operand(&mut self) -> u64
        ensures is { result ≡ extended (three (first_three (self.old / 32))) }
        ensures rest { self.new ≡ self.old / 1048576 }
    {
        let number = self.low / 32 % 0x8000;
        self.low = self.low / 0x10_0000 + ((self.middle % 0x10_0000) << 44);
        self.middle = self.middle / 0x10_0000 + ((self.high % 0x10_0000) << 44);
        self.high /= 0x10_0000;
        if number < 0x4000 {
            number
        } else {
            number + 0xffff_ffff_ffff_8000
        }
    }
}
