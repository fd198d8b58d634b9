//! Bodies: the code that answers for processes.
ghost use Rattle.std.specs.Prelude.{◌≡◌, IsSome};

use kpn_model::{Answer, Card, Kinds, Local, Token};

/// The code that answers for a process, and the card of that process.
///
/// A body returns its family's answer for its card. So what a process does depends only on what it has read
/// (Kahn 1974), not on when or how often the body is called, nor on other processes. A call may take any time,
/// in any thread.
///
/// A type that stores boxed closures serves one family, because it keeps facts about that family's answers
/// beside them: `StandardBody` of `kpn_standard` serves the standard kinds. A type that stores none may serve
/// many: `CardBody` of `kpn_compute` serves all families with a plain function that answers.
pub trait Body: Send + Drop {
    ghost use Rattle.kpn_model.specs.declared.kinds.Card.{Card};

    /// The family.
    type Kinds: Kinds;

    ghost card: { Self → Card };

    /// Returns the card. It has a signature.
    fn card(&self) -> Card
        ensures card { result ≡ card self.now }
        ensures signed { IsSome (Self.Kinds.signature (card self.now)) };

    /// Returns the card's answer in this local state, after a process read `last` (`None` if its last act was
    /// no read). The card must admit the two.
    fn answer(&self, local: Local, last: Option<Token>) -> Answer
        requires { Self.Kinds.admits (card self.now) local last }
        ensures { result ≡ Self.Kinds.answer_of (card self.now) local last };
}
