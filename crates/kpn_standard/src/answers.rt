//! The answer of any standard card.
ghost use Rattle.std.specs.Prelude.{◌≡◌, IsSome};
ghost use Rattle.kpn_standard.specs.Standard.{standard};
ghost use Rattle.kpn_standard.specs.Signatures.{signature};
ghost use Rattle.kpn_standard.specs.Admitted.{Admitted};

use crate::arithmetic::{add, scale};
use crate::copies::{copy, prefix, take};
use crate::ends::{count, sink};
use crate::flags::{divides, select, switch};
use crate::kind::Kind;
use crate::merging::{merge, weave};
use crate::token::stops;
use kpn_model::{Answer, Card, Local, Token};

/// Returns the answer of a process of a standard card in this local state, after it read `last` (`None` if its
/// last act was no read). The card must have a signature, and admit the two.
#[inline(always)]
pub fn answer(card: Card, local: Local, last: Option<Token>) -> Answer
    requires signed { IsSome (signature card) }
    requires admitted { Admitted card local last }
    ensures { result ≡ standard.answer card local last }
{
    let args = card.args;
    match Kind::numbered(card.kind) {
        Some(Kind::Count) => count(args, local, last),
        Some(Kind::Sink) => sink(args, local, last),
        Some(Kind::Take) => take(args, local, last),
        Some(Kind::Copy) => copy(args, local, last),
        Some(Kind::Prefix) => prefix(args, local, last),
        Some(Kind::Add) => add(args, local, last),
        Some(Kind::Scale) => scale(args, local, last),
        Some(Kind::Weave) => weave(args, local, last),
        Some(Kind::Merge) => merge(args, local, last),
        Some(Kind::Divides) => divides(args, local, last),
        Some(Kind::Switch) => switch(args, local, last),
        Some(Kind::Select) => select(args, local, last),
        None => stops(local),
    }
}
