//! From symbols to code, without a tree.
ghost use Rattle.std.specs.Prelude.{◌≡◌, ℕ, ◌<◌, ◌≤◌, ◌+◌, ◌^◌, ◌∷◌, length, true, IfOk, IfSome};
ghost use Rattle.hox_formula.specs.declared.symbol.Symbol.{Symbol};
ghost use Rattle.hox_formula.specs.Expressions.{Expression};
ghost use Rattle.hox_formula.specs.Grammar.{level_of, joined, sign, is_front, fronted, called};
ghost use Rattle.hox_formula.specs.Fragments.{Means};
ghost use Rattle.hox_formula.specs.Parsing.{naming, Parsed, ParsesCall, ParsesChoice};

use crate::fault::{Expected, ParseFault, Wrong};
use crate::fragment::Fragment;
use crate::names::Names;
use crate::places::place;
use crate::symbol::{Mark, Symbol};
use kpn_formula::Operation;
use std::alloc::{AllocError, Global};

/// How deep expressions may nest.
pub const DEEPEST: u8 = 60;

/// The level of operators in front.
const FRONT: u8 = 11;

/// Returns how tightly an operator between two expressions holds them, from 1 on; 0 for what is none.
fn level_of(mark: Mark) -> u8
    ensures { result ≡ level_of mark }
{
    match mark {
        Mark::OrElse => 1,
        Mark::AndAlso => 2,
        Mark::Or => 3,
        Mark::ExclusiveOr => 4,
        Mark::And => 5,
        Mark::Equal | Mark::NotEqual => 6,
        Mark::Less | Mark::LessEqual | Mark::Greater | Mark::GreaterEqual => 7,
        Mark::ShiftLeft | Mark::ShiftRight => 8,
        Mark::Plus | Mark::Minus => 9,
        Mark::Times | Mark::Divide | Mark::Remain => 10,
        _ => 0,
    }
}

/// Returns the code of an operator between two expressions.
fn join(
    alloc: Global,
    mark: Mark,
    first: Fragment,
    second: Fragment,
) -> Result<Fragment, AllocError>
    ensures { IfOk result (λ f. (d e : Expression) → Means first d → Means second e → Means f (joined mark d e)) }
{
    match mark {
        Mark::OrElse => Fragment::either(first, second),
        Mark::AndAlso => Fragment::both(first, second),
        Mark::Or => Fragment::applied(alloc, Operation::Or, first, second),
        Mark::ExclusiveOr => Fragment::applied(alloc, Operation::ExclusiveOr, first, second),
        Mark::And => Fragment::applied(alloc, Operation::And, first, second),
        Mark::Equal => Fragment::equality(alloc, first, second),
        Mark::NotEqual => Fragment::negation(Fragment::equality(alloc, first, second)?),
        Mark::Less => Fragment::applied(alloc, Operation::IsLess, first, second),
        Mark::Greater => Fragment::applied(alloc, Operation::IsLess, second, first),
        Mark::LessEqual => Fragment::unless(alloc, second, first),
        Mark::GreaterEqual => Fragment::unless(alloc, first, second),
        Mark::ShiftLeft => Fragment::applied(alloc, Operation::ShiftLeft, first, second),
        Mark::ShiftRight => Fragment::applied(alloc, Operation::ShiftRight, first, second),
        Mark::Plus => Fragment::applied(alloc, Operation::Add, first, second),
        Mark::Minus => Fragment::applied(alloc, Operation::Subtract, first, second),
        Mark::Times => Fragment::applied(alloc, Operation::Multiply, first, second),
        Mark::Divide => Fragment::applied(alloc, Operation::Divide, first, second),
        Mark::Remain => Fragment::applied(alloc, Operation::Remain, first, second),
        _ => Ok(first),
    }
}

/// Returns the symbols behind a sign, if it comes first.
pub fn after(symbols: &[Symbol], mark: Mark) -> Option<&[Symbol]>
    ensures { IfSome result (λ rest. symbols.now ≡ sign mark ∷ rest.now) }
{
    match symbols {
        [Symbol::Mark(first), rest @ ..] if *first == mark => Some(rest),
        _ => None,
    }
}

/// Returns the symbols behind a sign, which has to come first.
pub fn expect(symbols: &[Symbol], mark: Mark, expected: Expected) -> Result<&[Symbol], ParseFault>
    ensures { IfOk result (λ rest. symbols.now ≡ sign mark ∷ rest.now) }
{
    match after(symbols, mark) {
        Some(rest) => Ok(rest),
        None => Err(ParseFault::at(symbols, Wrong::Expected(expected))),
    }
}

/// Returns the operator of a level that comes first, and the symbols behind it.
fn operator(symbols: &[Symbol], level: u8) -> Option<(Mark, &[Symbol])>
    ensures { IfSome result (λ r. (symbols.now ≡ sign r.0 ∷ r.1.now) × (level_of r.0 ≡ level)) }
{
    match symbols {
        [Symbol::Mark(mark), rest @ ..] if level_of(*mark) == level => Some((*mark, rest)),
        _ => None,
    }
}

/// Whether a sign stands in front of an expression.
fn is_front(mark: Mark) -> bool
    ensures { result ≡ is_front mark }
{
    matches!(mark, Mark::Minus | Mark::Invert | Mark::Not)
}

/// Returns the operator that stands in front of an expression, and the symbols behind it.
fn front_operator(symbols: &[Symbol]) -> Option<(Mark, &[Symbol])>
    ensures { IfSome result (λ r. (symbols.now ≡ sign r.0 ∷ r.1.now) × (is_front r.0 ≡ true)) }
{
    match symbols {
        [Symbol::Mark(mark), rest @ ..] if is_front(*mark) => Some((*mark, rest)),
        _ => None,
    }
}

/// Returns the first symbol, and the others.
pub fn front(symbols: &[Symbol]) -> Option<(Symbol, &[Symbol])>
    ensures { IfSome result (λ r. symbols.now ≡ r.0 ∷ r.1.now) }
{
    match symbols {
        [first, rest @ ..] => Some((*first, rest)),
        [] => None,
    }
}

/// Returns the code of an operator in front of an expression.
fn fronted(alloc: Global, mark: Mark, operand: Fragment) -> Result<Fragment, AllocError>
    ensures { IfOk result (λ f. (e : Expression) → Means operand e → Means f (fronted mark e)) }
{
    match mark {
        Mark::Minus => {
            let zero = Fragment::number(alloc, 0)?;
            Fragment::applied(alloc, Operation::Subtract, zero, operand)
        }
        Mark::Invert => {
            let ones = Fragment::number(alloc, u64::MAX)?;
            Fragment::applied(alloc, Operation::ExclusiveOr, operand, ones)
        }
        Mark::Not => Fragment::negation(operand),
        _ => Ok(operand),
    }
}

/// Returns the operation that a word calls.
fn called(mark: Mark) -> Option<Operation>
    ensures { result ≡ called mark }
{
    match mark {
        Mark::Min => Some(Operation::Min),
        Mark::Max => Some(Operation::Max),
        _ => None,
    }
}

/// Returns how much deeper the nesting may go below the symbols.
fn deeper(symbols: &[Symbol], depth: u8) -> Result<u8, ParseFault>
    ensures { IfOk result (λ d. d + 1 ≡ depth) }
{
    if depth == 0 {
        return Err(ParseFault::at(symbols, Wrong::TooDeep));
    }
    Ok(depth - 1)
}

/// Returns what is wrong with a name that the formula doesn't have.
fn unknown(name: Symbol) -> Wrong {
    match name {
        Symbol::Output(_) => Wrong::NotAssigned,
        _ => Wrong::UnknownName,
    }
}

/// Reads expressions. A result has the code and the symbols that are left.
#[derive(Clone, Copy)]
pub struct Parser<'a> {
    pub alloc: Global,
    pub names: &'a Names,
}

impl<'a> Parser<'a> {
    /// Reads an expression at the front, which may nest this deep.
    #[cycle(expression)]
    pub fn whole<'s>(
        &self,
        symbols: &'s [Symbol],
        depth: u8,
    ) -> Result<(Fragment, &'s [Symbol]), ParseFault>
        ensures { IfOk result (λ r. Parsed (naming self.now.names.now) 0 symbols.now r.1.now r.0) }
    {
        let (condition, rest) = self.level(symbols, 1, depth)?;
        match after(rest, Mark::Question) {
            Some(rest) => self.branches(condition, rest, depth),
            None => Ok((condition, rest)),
        }
    }

    // Reads the two branches of a choice.
    #[cycle(expression)]
    fn branches<'s>(
        &self,
        condition: Fragment,
        symbols: &'s [Symbol],
        depth: u8,
    ) -> Result<(Fragment, &'s [Symbol]), ParseFault>
        ensures { IfOk result (λ r. ParsesChoice (naming self.now.names.now) condition symbols.now r.1.now r.0) }
    {
        let depth = deeper(symbols, depth)?;
        let (first, rest) = self.whole(symbols, depth)?;
        let rest = expect(rest, Mark::Colon, Expected::Colon)?;
        let (second, rest) = self.whole(rest, depth)?;
        Ok((Fragment::choice(condition, first, second)?, rest))
    }

    // Reads an expression of operators from this level on.
    #[cycle(expression)]
    fn level<'s>(
        &self,
        symbols: &'s [Symbol],
        level: u8,
        depth: u8,
    ) -> Result<(Fragment, &'s [Symbol]), ParseFault>
        requires { (0 < level) × (level ≤ 11) }
        ensures { IfOk result (λ r. Parsed (naming self.now.names.now) level symbols.now r.1.now r.0) }
    {
        if level == FRONT {
            return self.unary(symbols, depth);
        }
        let (mut first, mut rest) = self.level(symbols, level + 1, depth)?;
        while let Some((mark, more)) = operator(rest, level) {
            let (second, left) = self.level(more, level + 1, depth)?;
            first = join(self.alloc, mark, first, second)?;
            rest = left;
        }
        Ok((first, rest))
    }

    // Reads what holds together by itself, with operators in front.
    #[cycle(expression)]
    fn unary<'s>(
        &self,
        symbols: &'s [Symbol],
        depth: u8,
    ) -> Result<(Fragment, &'s [Symbol]), ParseFault>
        ensures { IfOk result (λ r. Parsed (naming self.now.names.now) 11 symbols.now r.1.now r.0) }
    {
        let Some((mark, rest)) = front_operator(symbols) else {
            return self.primary(symbols, depth);
        };
        let depth = deeper(symbols, depth)?;
        let (operand, left) = self.unary(rest, depth)?;
        Ok((fronted(self.alloc, mark, operand)?, left))
    }

    // Reads a number, a name, or what stands between parentheses.
    #[cycle(expression)]
    fn primary<'s>(
        &self,
        symbols: &'s [Symbol],
        depth: u8,
    ) -> Result<(Fragment, &'s [Symbol]), ParseFault>
        ensures { IfOk result (λ r. Parsed (naming self.now.names.now) 12 symbols.now r.1.now r.0) }
    {
        let Some((first, rest)) = front(symbols) else {
            return Err(ParseFault::at(symbols, Wrong::Expected(Expected::Operand)));
        };
        match first {
            Symbol::Number(number) => Ok((Fragment::number(self.alloc, number)?, rest)),
            Symbol::Mark(mark) => self.marked(mark, rest, depth),
            name => match place(self.names, name) {
                Some(place) => Ok((Fragment::place(self.alloc, place)?, rest)),
                None => Err(ParseFault::at(symbols, unknown(name))),
            },
        }
    }

    // Reads what begins with a sign or a word, behind that.
    #[cycle(expression)]
    fn marked<'s>(
        &self,
        mark: Mark,
        symbols: &'s [Symbol],
        depth: u8,
    ) -> Result<(Fragment, &'s [Symbol]), ParseFault>
        ensures { IfOk result (λ r. Parsed (naming self.now.names.now) 12 (sign mark ∷ symbols.now) r.1.now r.0) }
    {
        if let Some(operation) = called(mark) {
            return self.call(mark, operation, symbols, depth);
        }
        match mark {
            Mark::Open => {
                let depth = deeper(symbols, depth)?;
                let (inner, rest) = self.whole(symbols, depth)?;
                let rest = expect(rest, Mark::Close, Expected::Close)?;
                Ok((inner, rest))
            }
            Mark::Abs => self.absolute(symbols, depth),
            _ => Err(ParseFault {
                left: symbols.len() + 1,
                wrong: Wrong::Expected(Expected::Operand),
            }),
        }
    }

    // Reads the expression of an absolute value, with its parentheses.
    #[cycle(expression)]
    fn absolute<'s>(
        &self,
        symbols: &'s [Symbol],
        depth: u8,
    ) -> Result<(Fragment, &'s [Symbol]), ParseFault>
        ensures { IfOk result (λ r. Parsed (naming self.now.names.now) 12 (sign Mark.Abs ∷ symbols.now) r.1.now r.0) }
    {
        let depth = deeper(symbols, depth)?;
        let rest = expect(symbols, Mark::Open, Expected::Open)?;
        let (inner, rest) = self.whole(rest, depth)?;
        let rest = expect(rest, Mark::Close, Expected::Close)?;
        Ok((Fragment::size(inner)?, rest))
    }

    // Reads the two expressions of a call, with their parentheses.
    #[cycle(expression)]
    fn call<'s>(
        &self,
        mark: Mark,
        operation: Operation,
        symbols: &'s [Symbol],
        depth: u8,
    ) -> Result<(Fragment, &'s [Symbol]), ParseFault>
        ensures { IfOk result (λ r. ParsesCall (naming self.now.names.now) mark operation symbols.now r.1.now r.0) }
    {
        let depth = deeper(symbols, depth)?;
        let rest = expect(symbols, Mark::Open, Expected::Open)?;
        let (first, rest) = self.whole(rest, depth)?;
        let rest = expect(rest, Mark::Comma, Expected::Comma)?;
        let (second, rest) = self.whole(rest, depth)?;
        let rest = expect(rest, Mark::Close, Expected::Close)?;
        Ok((
            Fragment::applied(self.alloc, operation, first, second)?,
            rest,
        ))
    }
}
