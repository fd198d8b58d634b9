//! The shapes of formulas.
ghost use Rattle.std.specs.Prelude.{◌≡◌, ◌<◌, ◌≤◌, ◌^◌, nat_lt, [], ◌∷◌, Some, None, IfSome, if◌then◌else◌};
ghost use Rattle.kpn_model.specs.Lawful.{is_filled};
ghost use Rattle.kpn_rounds.specs.Steps.{count};
ghost use Rattle.kpn_formula.specs.Shapes.{flags, has_digits, is_allowed, is_allowed_with, is_kind, most_states, number_of, ports_of, port, shape_numbered, shape_of};

use kpn_model::{Card, Sort};

/// How many states a formula keeps, 0 to 4, and the sorts of its ports: port k exists if item k of its list is `Some`.
#[derive(Clone, Copy, Debug, PartialEq, Eq)]
pub struct Shape {
    pub states: u8,
    pub ins: [Option<Sort>; 3],
    pub outs: [Option<Sort>; 3],
}

impl Shape {
    /// Returns the number of the kind that has this shape, below 2^13; `None` if no formula has it.
    pub fn number(self) -> Option<u16>
        ensures { result ≡ (if is_allowed self then Some (number_of self) else None) }
    {
        let states = u16::from(self.states);
        let (inputs, in_flags) = numbers_of(self.ins)?;
        let (outputs, out_flags) = numbers_of(self.outs)?;
        if !is_allowed_with(states, inputs, outputs) {
            return None;
        }
        let flags = in_flags + 8 * out_flags;
        Some(states + 8 * (inputs + 4 * (outputs + 4 * flags)))
    }

    /// Returns the shape of a card's formula; `None` if the card holds none.
    #[inline(always)]
    pub fn of(card: &Card) -> Option<Shape>
        ensures { result ≡ shape_of card.now }
    {
        if has_digits(card) {
            Shape::numbered(card.kind)
        } else {
            None
        }
    }

    /// Returns the shape of a kind of formulas; `None` if the kind is none of them.
    #[inline(always)]
    pub fn numbered(kind: u16) -> Option<Shape>
        ensures { result ≡ (if is_kind kind then Some (shape_numbered kind) else None) }
    {
        if !is_kind(kind) {
            return None;
        }
        Some(Shape::of_kind(kind))
    }

    /// Returns the shape that the digits of a kind's number say.
    #[inline(always)]
    pub(crate) fn of_kind(kind: u16) -> Shape
        ensures { result ≡ shape_numbered kind }
    {
        Shape {
            states: (kind % 8) as u8,
            ins: ports_of(kind / 8 % 4, kind / 128 % 8),
            outs: ports_of(kind / 32 % 4, kind / 1024 % 8),
        }
    }
}

/// Whether a number is that of a kind of formulas.
#[inline(always)]
#[tactic(auto, using(crate::proofs::Shapes::kind_tests))]
fn is_kind(kind: u16) -> bool
    ensures { result ≡ is_kind kind }
{
    let inputs = kind / 8 % 4;
    let outputs = kind / 32 % 4;
    let is_short = kind < 0x2000;
    let in_flags = is_below_power(kind / 128 % 8, inputs);
    let out_flags = is_below_power(kind / 1024 % 8, outputs);
    let has_room = is_allowed_with(kind % 8, inputs, outputs);
    is_short & in_flags & out_flags & has_room
}

/// Whether a number has at most so many bits.
#[inline(always)]
fn is_below_power(number: u16, bits: u16) -> bool
    requires { bits < 8 }
    ensures { result ≡ nat_lt number (2 ^ bits) }
{
    number < 1 << bits
}

/// Whether the arguments have 60 bits.
#[inline(always)]
fn has_digits(card: &Card) -> bool
    ensures { result ≡ has_digits card.now }
{
    let [first, second, third] = card.args;
    first >> 60 == 0 && second >> 60 == 0 && third >> 60 == 0
}

/// Returns how many ports there are, and as bits which of them carry flags; `None` if a port is missing before another.
fn numbers_of(ports: [Option<Sort>; 3]) -> Option<(u16, u16)>
    ensures is { result ≡ (if is_filled ports then Some (count ports, flags ports) else None) }
    ensures bounds { IfSome result (λ numbers. (numbers.0 < 4) × (numbers.1 < 8)) }
{
    match ports {
        [None, None, None] => Some((0, 0)),
        [Some(first), None, None] => Some((1, bit(first))),
        [Some(first), Some(second), None] => Some((2, bit(first) + 2 * bit(second))),
        [Some(first), Some(second), Some(third)] => {
            Some((3, bit(first) + 2 * (bit(second) + 2 * bit(third))))
        }
        _ => None,
    }
}

/// Whether there is room for so many states, inputs and outputs, and a port.
#[inline(always)]
fn is_allowed_with(states: u16, inputs: u16, outputs: u16) -> bool
    requires inputs { inputs < 4 }
    requires outputs { outputs < 4 }
    requires states { states < 256 }
    ensures { result ≡ is_allowed_with states inputs outputs }
{
    inputs + outputs > 0
        && states + outputs <= 5
        && states + outputs + inputs <= 6
        && states <= most_states(inputs, outputs)
}

#[inline(always)]
fn most_states(inputs: u16, outputs: u16) -> u16
    ensures { result ≡ most_states inputs outputs }
{
    if inputs <= 1 && outputs <= 1 {
        4
    } else if inputs == 3 || outputs == 3 {
        1
    } else {
        2
    }
}

fn bit(sort: Sort) -> u16
    ensures is { result ≡ flags (Some sort ∷ []) }
    ensures bound { result ≤ 1 }
{
    match sort {
        Sort::Words => 0,
        Sort::Flags => 1,
    }
}

/// Returns the first `count` ports, of flags where the bit is 1.
#[inline(always)]
fn ports_of(count: u16, bits: u16) -> [Option<Sort>; 3]
    ensures { result ≡ ports_of count bits }
{
    [
        port(0 < count, bits),
        port(1 < count, bits / 2),
        port(2 < count, bits / 4),
    ]
}

#[inline(always)]
fn port(there: bool, bits: u16) -> Option<Sort>
    ensures { result ≡ port there bits }
{
    if !there {
        None
    } else if bits % 2 == 1 {
        Some(Sort::Flags)
    } else {
        Some(Sort::Words)
    }
}
