//! Code that pushes a number.
ghost use Rattle.std.specs.Prelude.{◌≡◌, ℕ, ◌<◌, ◌≤◌, ◌-◌, ◌^◌, ◌⊎◌, ◌↔◌, IsTrue, IfOk};
ghost use Rattle.hox_formula.specs.Expressions.{Constant};
ghost use Rattle.hox_formula.specs.Fragments.{Computes};

use kpn_formula::{Instruction, Operation};
use std::alloc::{AllocError, Global};

/// A number of this size or more isn't pushed by one instruction, unless it is negative.
const TOO_LARGE: u64 = 1 << 14;

/// The number of bits that one instruction pushes for sure.
const STEP: u32 = 14;

/// Whether one instruction has room for a number, in two's complement.
pub fn is_short(number: u64) -> bool
    ensures { IsTrue result ↔ ((number < 2 ^ 14) ⊎ (2 ^ 64 - 2 ^ 14 ≤ number)) }
{
    number < TOO_LARGE || number >= 0u64.wrapping_sub(TOO_LARGE)
}

/// Returns the code that pushes a number.
pub fn number_code(alloc: Global, number: u64) -> Result<Vec<Instruction>, AllocError>
    ensures { IfOk result (λ code. Computes code.items (Constant number)) }
{
    if is_short(number) {
        return Ok(vec![in alloc; Instruction::Push(number)]?);
    }
    if number < 1 << 63 {
        return large_code(alloc, number);
    }
    let mut code = vec![in alloc; Instruction::Push(0)]?;
    let size = large_code(alloc, 0u64.wrapping_sub(number))?;
    code.extend_from_slice(&size)?;
    code.push(Instruction::Apply(Operation::Subtract))?;
    Ok(code)
}

/// Returns the code that pushes a number with pieces of 14 bits, or with a shift where one does.
fn large_code(alloc: Global, number: u64) -> Result<Vec<Instruction>, AllocError>
    ensures { IfOk result (λ code. Computes code.items (Constant number)) }
{
    if number < TOO_LARGE {
        return Ok(vec![in alloc; Instruction::Push(number)]?);
    }
    let zeros = number.trailing_zeros();
    let odd = number >> zeros;
    if odd < TOO_LARGE && odd << zeros == number {
        return Ok(vec![in alloc;
            Instruction::Push(odd),
            Instruction::Push(u64::from(zeros)),
            Instruction::Apply(Operation::ShiftLeft),
        ]?);
    }
    let mut code = large_code(alloc, number >> STEP)?;
    let low = number % TOO_LARGE;
    code.extend_from_slice(&[
        Instruction::Push(14),
        Instruction::Apply(Operation::ShiftLeft),
        Instruction::Push(low),
        Instruction::Apply(Operation::Add),
    ])?;
    Ok(code)
}
