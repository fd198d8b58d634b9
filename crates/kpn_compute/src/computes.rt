//! Families for which a plain function answers.
ghost use Rattle.std.specs.Prelude.{◌≡◌, IsSome};

use kpn_model::{Answer, Card, Kinds, Local, Token};

/// A family with a function that answers for all its cards. Its bodies are only cards (`CardBody`), and
/// `bodies_of` makes those of a network.
pub trait Computes: Kinds {
    /// Returns the answer of a process of this card in this local state, after it read `last` (`None` if its
    /// last act was no read). The card must have a signature, and admit the two.
    fn answer(card: Card, local: Local, last: Option<Token>) -> Answer
        requires signed { IsSome (Self.signature card) }
        requires admitted { Self.admits card local last }
        ensures { result ≡ Self.answer_of card local last };
}
