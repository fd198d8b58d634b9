//! Kinds that go in rounds.
ghost use Rattle.std.specs.Prelude.{◌≡◌, IsSome, IfSome, IsTrue, Some};

use kpn_model::{Card, Kinds, Local, Signature};

/// Kinds that read each input once, in the order of the ports, then write each output once, in order, and so on,
/// forever: a step makes of what is kept and of the inputs what is kept next and the outputs. `Rounded` of an
/// implementation is a family, with its table and laws.
///
/// Inputs and outputs are words; a flag is 1 or 0, and an output of flags is true unless it is 0. With at most one input
/// and at most one output a process keeps four words; with three inputs or three outputs one; else two. What is kept
/// beyond is 0 at the next step.
pub trait Rounds: Send + Sync {
    ghost use Rattle.std.specs.Prelude.{ℕ, List, Option};
    ghost use Rattle.kpn_model.specs.declared.kinds.Card.{Card};
    ghost use Rattle.kpn_model.specs.declared.kinds.Signature.{Signature};
    ghost use Rattle.kpn_model.specs.Lawful.{is_filled};
    ghost use Rattle.kpn_rounds.specs.Steps.{HasPort, StepWords};

    ghost named: { List ℕ → Option (ℕ × ℕ) };

    ghost ports: { Card → Option Signature };

    ghost start: { Card → List ℕ };

    ghost step: { Card → List ℕ → List ℕ → List ℕ × List ℕ };

    /// Returns the kind's number and its number of arguments; `None` if no kind has this name.
    fn named(name: &str) -> Option<(u16, usize)>
        ensures { result ≡ named name.now };

    /// Returns the ports of a card, at least one; `None` if the kinds lack it.
    fn ports(card: &Card) -> Option<Signature>
        ensures is { result ≡ ports card.now }
        ensures filled { IfSome result (λ s. IsTrue (is_filled s.ins) × IsTrue (is_filled s.outs)) }
        ensures some { IfSome result HasPort };

    /// Returns the ports of a card that has some. A run asks for them at each act.
    fn known_ports(card: &Card) -> Signature
        requires { IsSome (ports card.now) }
        ensures { Some result ≡ ports card.now };

    /// Returns the words that a process of a card keeps at first. The card must have ports.
    fn start(card: &Card) -> Local
        requires { IsSome (ports card.now) }
        ensures { result ≡ start card.now };

    /// Returns what a process keeps after it kept `kept` and read `inputs`, and what it writes. Missing inputs are 0, and
    /// missing outputs are ignored.
    fn step(card: Card, kept: Local, inputs: [u64; 3]) -> (Local, [u64; 3])
        requires { IsSome (ports card) }
        ensures { result ≡ step card kept inputs };

    /// The law of rounds, which each implementation proves here: the start keeps four words, and a step from words keeps
    /// four words and makes three.
    fn lawful()
        ensures { StepWords ports start step };
}
