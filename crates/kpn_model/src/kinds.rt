//! Cards, answers, and families of kinds.
ghost use Rattle.std.specs.Prelude.{◌≡◌, ℕ, List, Option, None, IsSome, IfSome, IsTrue};
ghost use Rattle.kpn_model.specs.Lawful.{CardFits};

use crate::token::{Sort, Token};

/// An instance of a kind: the kind's number, and three arguments. Unused arguments are 0.
#[derive(Clone, Copy, Debug, PartialEq, Eq)]
pub struct Card {
    pub kind: u16,
    pub args: [u64; 3],
}

/// The sorts of a card's ports: port k exists if item k of its list is `Some`. Lists are filled from the
/// front.
#[derive(Clone, Copy, Debug, PartialEq, Eq)]
pub struct Signature {
    pub ins: [Option<Sort>; 3],
    pub outs: [Option<Sort>; 3],
}

/// The local state of a process: four words, with a meaning that depends on the kind.
pub type Local = [u64; 4];

/// The next act of a process: it reads an input, writes a token to an output (ports 0 to 2), or stops.
#[derive(Clone, Copy, Debug, PartialEq, Eq)]
pub enum Act {
    Read(u8),
    Write(u8, Token),
    Stop,
}

/// A process's next act, and its local state once the act is done.
#[derive(Clone, Copy, Debug, PartialEq, Eq)]
pub struct Answer {
    pub next: Local,
    pub act: Act,
}

/// A family of kinds of processes. Callers may implement their own.
///
/// A process is a function of what it has read (Kahn 1974): its card, its local state and the token of the
/// read just done determine its answer. `admits` says with which local states and last tokens it may be asked:
/// only with local states of four numbers and with words, all below 2^64.
///
/// The laws of a family are functions that do nothing: a caller may use what they ensure. An implementation
/// proves them in `lawful`; the others state them for given values.
pub trait Kinds: Send + Sync {
    ghost use Rattle.kpn_model.specs.declared.kinds.Card.{Card};
    ghost use Rattle.kpn_model.specs.declared.kinds.Signature.{Signature};
    ghost use Rattle.kpn_model.specs.declared.token.Token.{Token};
    ghost use Rattle.kpn_model.specs.declared.kinds.Answer.{Answer};
    ghost use Rattle.kpn_model.specs.Network.{Admits, family_of};
    ghost use Rattle.kpn_model.specs.Lawful.{AreLawful, NamesPort, LeadsOn, is_filled};

    ghost named: { List ℕ → Option (ℕ × ℕ) };

    ghost signature: { Card → Option Signature };

    ghost start: { Card → List ℕ };

    ghost answer_of: { Card → List ℕ → Option Token → Answer };

    ghost admits: { Admits };

    /// Returns the kind's number and its number of arguments; `None` if no kind has this name.
    fn named(name: &str) -> Option<(u16, usize)>
        ensures { result ≡ named name.now };

    /// Returns the ports of a card; `None` if the family lacks the kind, or the kind rejects the arguments.
    fn signature(card: &Card) -> Option<Signature>
        ensures is { result ≡ signature card.now }
        ensures filled { IfSome result (λ s. IsTrue (is_filled s.ins) × IsTrue (is_filled s.outs)) };

    /// Returns the local state in which a process of a card begins. The card must have a signature.
    fn start(card: &Card) -> Local
        requires { IsSome (signature card.now) }
        ensures { result ≡ start card.now };

    /// For each card with a signature: an admitted answer names a port of the card, and a written token has
    /// the port's sort; what follows an admitted answer is admitted; the start is admitted.
    fn lawful()
        ensures { AreLawful signature admits (family_of start answer_of) };

    /// An admitted answer names a port of the card, and a written token has the port's sort.
    fn names_port(card: Card, local: Local, last: Option<Token>)
        requires signed { IsSome (signature card) }
        requires admitted { admits card local last }
        ensures { NamesPort signature card (answer_of card local last).act }
    {
        Self::lawful();
        card_fits(card);
    }

    /// What follows an admitted answer is admitted: after a read, with any token of the port's sort; after a
    /// write, with none.
    fn leads_on(card: Card, local: Local, last: Option<Token>, token: Token)
        requires signed { IsSome (signature card) }
        requires admitted { admits card local last }
        ensures { LeadsOn signature admits card (answer_of card local last) token }
    {
        Self::lawful();
        card_fits(card);
    }

    /// The start is admitted, with no token read.
    fn starts(card: Card)
        requires { IsSome (signature card) }
        ensures { admits card (start card) None }
    {
        Self::lawful();
        card_fits(card);
    }
}

/// Ghost lemma: the card's numbers fit.
fn card_fits(card: Card)
    ensures { CardFits card }
{
    let _kind = card.kind;
    let [_first, _second, _third] = card.args;
}
