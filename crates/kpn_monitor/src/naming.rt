//! What the types of a monitor name.
ghost use Rattle.std.specs.Prelude.{◌≡◌};

use kpn_watch::Board;
use std::marker::{Brand, PhantomData};
use std::ops::Deref;
use std::sync::ledger::Ledger;

/// The ledger of a monitor's entries; the type also names the network and the board. Calling a generic
/// function with `std::marker::Brand` chooses these names.
pub trait EntryLedger: Ledger {
    ghost use Rattle.atomic_table.specs.Seated.{TableId};
    ghost use Rattle.kpn_model.specs.Network.{Network};

    ghost net: { Network };

    ghost board: { TableId };
}

// The values are placeholders: a call that chooses the names for `Brand` doesn't use them.
impl EntryLedger for Brand {
    ghost use Rattle.std.specs.Prelude.{[]};

    ghost net = { record { processes = []; channels = []; budget = 0; step = 0; ceiling = 0 } };

    ghost board = { record { words = 0; slots = 0; views_name = 0; atom = 0; block = 0; offset = 0; slot_names = [] } };
}

/// The board that a type names.
#[derive(Drop)]
pub(crate) struct NamedBoard<E: EntryLedger> {
    board: Board,
    of: PhantomData<E>,
    ghost named: { board ≡ E.board },
}

impl<E: EntryLedger> NamedBoard<E> {
    pub(crate) fn new(board: Board) -> NamedBoard<E>
        requires { board ≡ E.board }
    {
        NamedBoard {
            board,
            of: PhantomData,
        }
    }
}

impl<E: EntryLedger> Deref for NamedBoard<E> {
    ghost use Rattle.std.specs.Prelude.{◌≡◌};

    type Target = Board;

    ghost deref_gives = { λ named board. board ≡ E.board };

    fn deref(&self) -> &Board {
        &self.board
    }
}
