//! A machine after its run.
ghost use Rattle.std.specs.Prelude.{◌≡◌};
ghost use Rattle.kpn_model.specs.Families.{family};
ghost use Rattle.kpn_machine.specs.MachineView.{machine_view, IsFaithful, stored_view};

use kpn_model::{End, Entry, Kinds};
use kpn_network::Net;
use kpn_state::{Keeper, Roster, Standing, Store, Wide};
use std::marker::Model;

/// A machine without its bodies: its network, history, standings and end. Its type names no body, so it
/// outlives the bodies, and can be named if they can't. Only `Machine::into_chronicle` makes one. Contracts
/// see it as the machine.
pub struct Chronicle<K: Kinds, H: Keeper = Wide> {
    net: Net<K>,
    store: Store<H>,
    standings: Roster,
    end: Option<End>,
    commits: u64,
}

// Written out, so that a drop is one call, proved once. Else owners' proofs would mostly drop its fields.
impl<K: Kinds, H: Keeper> Drop for Chronicle<K, H> {
    fn drop(self) {
        let Chronicle {
            net: _,
            store: _,
            standings: _,
            end: _,
            commits: _,
        } = self;
    }
}

impl<K: Kinds, H: Keeper> Model for Chronicle<K, H> {
    ghost use Rattle.kpn_machine.specs.MachineView.{MachineView, machine_view, IsFaithful};
    ghost use Rattle.kpn_model.specs.Families.{family};

    ghost Value = { MachineView };

    ghost view = { λ m. machine_view m.net m.store.state m.store.history m.standings m.end m.commits };

    ghost invariant = { λ m. IsFaithful (family K.Kinds) K.admits (machine_view m.net m.store.state m.store.history m.standings m.end m.commits) };
}

impl<K: Kinds, H: Keeper> Chronicle<K, H> {
    pub(crate) fn new(
        net: Net<K>,
        store: Store<H>,
        standings: Roster,
        ended: Option<End>,
        commits: u64,
    ) -> Self
        requires faithful { IsFaithful (family K.Kinds) K.admits (stored_view net store standings ended commits) }
        ensures { result ≡ machine_view net store.state store.history standings ended commits }
    {
        Chronicle {
            net,
            store,
            standings,
            end: ended,
            commits,
        }
    }

    /// Returns the network.
    pub fn net(&self) -> &Net<K>
        ensures { result.now ≡ self.now.network }
    {
        &self.net
    }

    /// Returns the keeper of the entries.
    pub fn keeper(&self) -> &H
        ensures { H.entries result.now ≡ self.now.history }
    {
        self.store.keeper()
    }

    /// Returns the standing of each process.
    pub fn standings(&self) -> &[Standing]
        ensures { result.now ≡ self.now.standings }
    {
        self.standings.as_slice()
    }

    /// Returns how the run ended; `None` if it did not.
    pub fn end(&self) -> Option<End>
        ensures end { result ≡ self.now.end }
        ensures faithful { IsFaithful (family K.Kinds) K.admits self.now }
    {
        self.end
    }
}

impl<K: Kinds> Chronicle<K> {
    /// Returns the entries.
    pub fn history(&self) -> &[Entry]
        ensures { result.now ≡ self.now.history }
    {
        self.store.history()
    }
}
