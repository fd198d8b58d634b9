//! Runs Parks's case, and bounds its room.
ghost use Rattle.std.specs.Prelude.{◌≡◌, ◌≢◌, ℕ, ◌<◌, ◌≤◌, Some, IsSome, count_by, length};
ghost use Rattle.kpn_model.specs.Families.{family};
ghost use Rattle.kpn_model.specs.declared.history.End.TheVariants.{Budget, Ceiling};
ghost use Rattle.kpn_model.specs.Semantics.{capacity};
ghost use Rattle.kpn_model.specs.History.{growths};
ghost use Rattle.kpn_standard.specs.Standard.{standard};
ghost use Rattle.kpn_state.specs.Standings.{is_out};
ghost use Rattle.test_laws.specs.WorkedRoom.{longer_parks_case};
ghost use Rattle.example_least_room.specs.Growth.{entry_grows};

use kpn_body::Body;
use kpn_machine::Machine;
use kpn_net::Entry;
use test_laws::worked_room;

/// Runs Parks's case with a counter of five to its end in the calling thread, and returns the number of
/// growths. No process may be out.
///
/// Capacities of two suffice, in a run of 46 entries. So, by the contract of `finish_alone`, no channel grows
/// to three; there are at most eight growths, two for each of the four channels, and 54 entries; and neither
/// the ceiling nor the budget ends the run. It ends because all processes have stopped, none can continue, or
/// a growth gets no memory.
pub fn finish<B: Body>(machine: &mut Machine<B>) -> usize
    requires standard { (family B.Kinds.Kinds) ≡ standard }
    requires network { machine.old.network ≡ longer_parks_case }
    requires none_out { count_by is_out machine.old.standings ≡ 0 }
    ensures end { IsSome machine.new.end }
    ensures never_three { (c : ℕ) → capacity machine.new.state c < 3 }
    ensures growths { result ≡ length (growths machine.new.history) }
    ensures few_growths { result ≤ 8 }
    ensures few_entries { length machine.new.history ≤ 54 }
    ensures no_ceiling { machine.new.end ≢ Some Ceiling }
    ensures no_budget { machine.new.end ≢ Some Budget }
{
    worked_room();
    machine.finish_alone();
    count_growths(machine.history())
}

fn count_growths(history: &[Entry]) -> usize
    ensures { result ≡ count_by entry_grows history.now }
{
    history
        .iter()
        .filter(|entry| matches!(entry, Entry::Grew { .. }))
        .count()
}
