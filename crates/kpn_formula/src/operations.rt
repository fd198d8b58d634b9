//! What operations make.
ghost use Rattle.std.specs.Prelude.{◌≡◌};
ghost use Rattle.kpn_formula.specs.Operations.{applied};
ghost use Rattle.kpn_formula.specs.declared.instruction.Operation.TheVariants.{ShiftLeft};

use crate::instruction::Operation;
use kpn_signals::words;

/// Returns what an operation makes of two words.
#[inline(always)]
pub fn applied(op: Operation, first: u64, second: u64) -> u64
    ensures { result ≡ applied op first second }
{
    match op {
        Operation::Add => first.wrapping_add(second),
        Operation::Subtract => first.wrapping_sub(second),
        Operation::Multiply => first.wrapping_mul(second),
        Operation::Divide => words::quotient(first, second),
        Operation::Remain => words::remainder(first, second),
        Operation::ShiftLeft => shifted_left(first, second),
        Operation::ShiftRight => words::right_shift(second.min(63), first),
        Operation::And => first & second,
        Operation::Or => first | second,
        Operation::ExclusiveOr => first ^ second,
        Operation::Min => words::least(first, second),
        Operation::Max => words::greatest(first, second),
        Operation::IsLess => u64::from(first.cast_signed() < second.cast_signed()),
    }
}

#[inline(always)]
fn shifted_left(word: u64, bits: u64) -> u64
    ensures { result ≡ applied ShiftLeft word bits }
{
    if bits < 64 { word << bits } else { 0 }
}
