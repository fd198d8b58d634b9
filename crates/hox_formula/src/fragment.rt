//! Code that computes an expression.
ghost use Rattle.std.specs.Prelude.{◌≡◌, ℕ, ◌<◌, ◌^◌, ◌||◌, ◌&&◌, ◌++◌, ◌∷◌, [], Bool, false, get_or, List, IfOk, IfSome};
ghost use Rattle.kpn_formula.specs.Operations.{applied};
ghost use Rattle.kpn_formula.specs.declared.instruction.Operation.{Operation};
ghost use Rattle.hox_formula.specs.Expressions.{Expression, Constant, Place, Negation, Size, Both, Either, Applied, Choice, is_place};
ghost use Rattle.hox_formula.specs.Fragments.{StandsFor, Computes, Knows, Means, ComputesApplied, MeansChoice, MeansJoined, uses_in_condition};

use crate::number::{is_short, number_code};
use kpn_formula::{Instruction, Operation};
use std::alloc::{AllocError, Global};

/// What is known of an expression.
#[derive(Clone, Copy, Debug, PartialEq, Eq)]
pub struct Facts {
    /// What it is always worth, if that is known.
    pub number: Option<u64>,
    /// Whether it is a comparison or the like, which is 1 or 0.
    pub is_flag: bool,
    /// Whether it is a value alone.
    pub is_place: bool,
    /// Which values it uses as words.
    pub words: [bool; 6],
}

/// Code that computes an expression, and what is known of that.
#[derive(Drop)]
pub struct Fragment {
    pub code: Vec<Instruction>,
    pub facts: Facts,
}

/// Returns which values two expressions use as words, the one or the other.
pub fn either_words(first: [bool; 6], second: [bool; 6]) -> [bool; 6]
    ensures { (k : ℕ) → k < 6 → get_or result k false ≡ (get_or first k false || get_or second k false) }
{
    [
        first[0] || second[0],
        first[1] || second[1],
        first[2] || second[2],
        first[3] || second[3],
        first[4] || second[4],
        first[5] || second[5],
    ]
}

/// Returns the facts of a number.
fn facts_of_number(number: u64) -> Facts
    ensures { Knows result (Constant number) }
{
    Facts {
        number: Some(number),
        is_flag: false,
        is_place: false,
        words: [false; 6],
    }
}

/// Returns the facts of a value alone.
fn facts_of_place(place: u8) -> Facts
    ensures { Knows result (Place place) }
{
    Facts {
        number: None,
        is_flag: false,
        is_place: true,
        words: [
            place == 0,
            place == 1,
            place == 2,
            place == 3,
            place == 4,
            place == 5,
        ],
    }
}

/// Returns which values an expression uses as words if it is a condition.
fn condition_words(facts: Facts) -> [bool; 6]
    ensures { (e : Expression) → Knows facts e → (k : ℕ) → k < 6 → get_or result k false ≡ uses_in_condition k e }
{
    if facts.is_place {
        [false; 6]
    } else {
        facts.words
    }
}

/// Returns what an operation makes of two numbers, if it is one that is computed here.
fn folded(operation: Operation, first: u64, second: u64) -> Option<u64>
    ensures { IfSome result (λ n. n ≡ applied operation first second) }
{
    match operation {
        Operation::Add => Some(first.wrapping_add(second)),
        Operation::Subtract => Some(first.wrapping_sub(second)),
        Operation::Multiply => Some(first.wrapping_mul(second)),
        Operation::And => Some(first & second),
        Operation::Or => Some(first | second),
        Operation::ExclusiveOr => Some(first ^ second),
        _ => None,
    }
}

/// Returns the facts of what an operation makes of two expressions.
fn facts_of_applied(operation: Operation, first: Facts, second: Facts) -> Facts
    ensures { (d e : Expression) → Knows first d → Knows second e → Knows result (Applied operation d e) }
{
    let number = match (first.number, second.number) {
        (Some(first), Some(second)) => folded(operation, first, second),
        _ => None,
    };
    Facts {
        number,
        is_flag: matches!(operation, Operation::IsLess),
        is_place: false,
        words: either_words(first.words, second.words),
    }
}

/// Returns the facts of a negation.
fn facts_of_negation(facts: Facts) -> Facts
    ensures { (e : Expression) → Knows facts e → Knows result (Negation e) }
{
    Facts {
        number: facts.number.map(|number| if number == 0 { 1 } else { 0 }),
        is_flag: true,
        is_place: false,
        words: condition_words(facts),
    }
}

/// Returns the facts of an absolute value.
fn facts_of_size(facts: Facts) -> Facts
    ensures { (e : Expression) → Knows facts e → Knows result (Size e) }
{
    let words = facts.words;
    Facts {
        number: None,
        is_flag: false,
        is_place: false,
        words,
    }
}

/// Returns the facts of two conditions of which both or one hold.
fn facts_of_conditions(first: Facts, second: Facts) -> Facts
    ensures both { (d e : Expression) → Knows first d → Knows second e → Knows result (Both d e) }
    ensures either { (d e : Expression) → Knows first d → Knows second e → Knows result (Either d e) }
{
    Facts {
        number: None,
        is_flag: true,
        is_place: false,
        words: either_words(condition_words(first), condition_words(second)),
    }
}

/// Returns the facts of a choice.
fn facts_of_choice(condition: Facts, first: Facts, second: Facts) -> Facts
    ensures { (c d e : Expression) → Knows condition c → Knows first d → Knows second e → Knows result (Choice c d e) }
{
    let words = either_words(condition_words(condition), first.words);
    Facts {
        number: None,
        is_flag: first.is_flag && second.is_flag,
        is_place: false,
        words: either_words(words, second.words),
    }
}

/// Returns code and then further instructions.
pub fn followed(
    mut code: Vec<Instruction>,
    tail: &[Instruction],
) -> Result<Vec<Instruction>, AllocError>
    ensures { IfOk result (λ all. all.items ≡ code.items ++ tail.now) }
{
    code.extend_from_slice(tail)?;
    Ok(code)
}

/// Returns code of two expressions and then further instructions.
fn followed_two(
    first: Vec<Instruction>,
    second: Vec<Instruction>,
    tail: &[Instruction],
) -> Result<Vec<Instruction>, AllocError>
    ensures { IfOk result (λ all. all.items ≡ (first.items ++ second.items) ++ tail.now) }
{
    let code = followed(first, &second)?;
    followed(code, tail)
}

/// Returns by how many bits to shift in place of a division by this number, if it is a power of two below 2^32. Both
/// round down.
fn halvings(number: u64) -> Option<u64>
    ensures { IfSome result (λ bits. (bits < 32) × (number ≡ 2 ^ bits)) }
{
    let bits = number.trailing_zeros();
    if bits < 32 && number == 1 << bits {
        Some(u64::from(bits))
    } else {
        None
    }
}

/// Returns the one instruction that stands for an operation with this second operand, if there is one.
fn short(operation: Operation, second: Option<u64>) -> Option<Instruction>
    ensures { IfSome result (StandsFor operation second) }
{
    match (operation, second) {
        (Operation::Multiply, Some(number)) if number >= 32 && is_short(number) => Some(
            Instruction::Times(number),
        ),
        (Operation::ShiftRight, Some(number)) if number < 32 => Some(Instruction::Shift(number)),
        (Operation::Divide, Some(number)) => match halvings(number) {
            Some(bits) => Some(Instruction::Shift(bits)),
            None => None,
        },
        _ => None,
    }
}

/// Returns the code of an operation, given that of its two expressions.
fn applied_code(
    operation: Operation,
    first: Vec<Instruction>,
    second: Fragment,
) -> Result<Vec<Instruction>, AllocError>
    ensures { IfOk result (λ code. ComputesApplied operation first.items second code.items) }
{
    match short(operation, second.facts.number) {
        Some(instruction) => followed(first, &[instruction]),
        None => followed_two(first, second.code, &[Instruction::Apply(operation)]),
    }
}

/// Returns code that is 1 if the expression counts as true, else 0.
fn truth_code(operand: Fragment) -> Result<Vec<Instruction>, AllocError>
    ensures { IfOk result (λ code. (e : Expression) → Means operand e → Computes code.items (Negation (Negation e))) }
{
    if operand.facts.is_flag {
        return Ok(operand.code);
    }
    followed(operand.code, &[Instruction::Not, Instruction::Not])
}

impl Fragment {
    /// Returns the code of a number.
    pub fn number(alloc: Global, number: u64) -> Result<Fragment, AllocError>
        ensures { IfOk result (λ f. Means f (Constant number)) }
    {
        let facts = facts_of_number(number);
        let code = number_code(alloc, number)?;
        Ok(Fragment { code, facts })
    }

    /// Returns the code of a value.
    pub fn place(alloc: Global, place: u8) -> Result<Fragment, AllocError>
        ensures { IfOk result (λ f. Means f (Place place)) }
    {
        let facts = facts_of_place(place);
        let code = vec![in alloc; Instruction::Load(place)]?;
        Ok(Fragment { code, facts })
    }

    // Returns the code of an expression with these facts, which is always worth this number.
    fn known(alloc: Global, number: u64, facts: Facts) -> Result<Fragment, AllocError>
        ensures { IfOk result (λ f. (e : Expression) → facts.number ≡ Some number → Knows facts e → Means f e) }
    {
        let code = number_code(alloc, number)?;
        Ok(Fragment { code, facts })
    }

    /// Returns the code of an operation on two expressions.
    pub fn applied(
        alloc: Global,
        operation: Operation,
        first: Fragment,
        second: Fragment,
    ) -> Result<Fragment, AllocError>
        ensures { IfOk result (MeansJoined (λ d e. Applied operation d e) first second) }
    {
        let facts = facts_of_applied(operation, first.facts, second.facts);
        if let Some(number) = facts.number {
            return Fragment::known(alloc, number, facts);
        }
        let code = applied_code(operation, first.code, second)?;
        Ok(Fragment { code, facts })
    }

    /// Returns the code of a negation.
    pub fn negation(operand: Fragment) -> Result<Fragment, AllocError>
        ensures { IfOk result (λ f. (e : Expression) → Means operand e → Means f (Negation e)) }
    {
        let facts = facts_of_negation(operand.facts);
        let code = followed(operand.code, &[Instruction::Not])?;
        Ok(Fragment { code, facts })
    }

    /// Returns the code of whether two expressions are equal.
    pub fn equality(
        alloc: Global,
        first: Fragment,
        second: Fragment,
    ) -> Result<Fragment, AllocError>
        ensures { IfOk result (MeansJoined (λ d e. Negation (Applied Operation.Subtract d e)) first second) }
    {
        let difference = Fragment::applied(alloc, Operation::Subtract, first, second)?;
        Fragment::negation(difference)
    }

    /// Returns the code of whether the first expression isn't less than the second.
    pub fn unless(alloc: Global, first: Fragment, second: Fragment) -> Result<Fragment, AllocError>
        ensures { IfOk result (MeansJoined (λ d e. Negation (Applied Operation.IsLess d e)) first second) }
    {
        let less = Fragment::applied(alloc, Operation::IsLess, first, second)?;
        Fragment::negation(less)
    }

    /// Returns the code of an absolute value.
    pub fn size(operand: Fragment) -> Result<Fragment, AllocError>
        ensures { IfOk result (λ f. (e : Expression) → Means operand e → Means f (Size e)) }
    {
        let facts = facts_of_size(operand.facts);
        let code = followed(operand.code, &[Instruction::Abs])?;
        Ok(Fragment { code, facts })
    }

    /// Returns the code of two conditions of which both hold.
    pub fn both(first: Fragment, second: Fragment) -> Result<Fragment, AllocError>
        ensures { IfOk result (λ f. (d e : Expression) → Means first d → Means second e → Means f (Both d e)) }
    {
        let facts = facts_of_conditions(first.facts, second.facts);
        let first = truth_code(first)?;
        let second = truth_code(second)?;
        let code = followed_two(first, second, &[Instruction::Apply(Operation::And)])?;
        Ok(Fragment { code, facts })
    }

    /// Returns the code of two conditions of which one holds.
    pub fn either(first: Fragment, second: Fragment) -> Result<Fragment, AllocError>
        ensures { IfOk result (λ f. (d e : Expression) → Means first d → Means second e → Means f (Either d e)) }
    {
        let facts = facts_of_conditions(first.facts, second.facts);
        let first = truth_code(first)?;
        let second = truth_code(second)?;
        let code = followed_two(first, second, &[Instruction::Apply(Operation::Or)])?;
        Ok(Fragment { code, facts })
    }

    /// Returns the code of a choice between two expressions.
    pub fn choice(
        condition: Fragment,
        first: Fragment,
        second: Fragment,
    ) -> Result<Fragment, AllocError>
        ensures { IfOk result (MeansChoice condition first second) }
    {
        let facts = facts_of_choice(condition.facts, first.facts, second.facts);
        let both = followed(first.code, &second.code)?;
        let code = followed_two(condition.code, both, &[Instruction::Choose])?;
        Ok(Fragment { code, facts })
    }
}
