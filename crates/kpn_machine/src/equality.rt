//! Comparing cards, and statuses with what a task holds.
ghost use Rattle.std.specs.Prelude.{◌≡◌, ◌↔◌, IsTrue};
ghost use Rattle.kpn_model.specs.declared.history.Status.TheVariants.{Live};

use kpn_model::{Card, Local, Status, Token};

pub(crate) fn same_card(a: Card, b: Card) -> bool
    ensures { IsTrue result ↔ (a ≡ b) }
{
    // The first two arguments are compared in one test, which takes fewer steps than two.
    let [x, y, z] = a.args;
    let [u, v, w] = b.args;
    a.kind == b.kind && (x == u) & (y == v) && z == w
}

/// Whether a status is live, with this local state and this last token.
pub(crate) fn is_live_with(status: &Status, held: Local, read: Option<Token>) -> bool
    ensures { IsTrue result ↔ (status.now ≡ Live held read) }
{
    let Status::Live { local, last } = status else {
        return false;
    };
    let [s, t, x, y] = *local;
    let [u, v, w, z] = held;
    (s == u) & (t == v) & (x == w) & (y == z) && *last == read
}
