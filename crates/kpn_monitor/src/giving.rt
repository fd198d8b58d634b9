//! Commits the answers of a hand to a machine.
ghost use Rattle.std.specs.Prelude.{◌≡◌, ◌+◌, ◌<◌, ◌≤◌, [], length, Some, IsTrue, ◌↔◌};
ghost use Rattle.std.specs.List.{All};
ghost use Rattle.kpn_model.specs.Families.{family};
ghost use Rattle.kpn_machine.specs.MachineView.{IsOut};
ghost use Rattle.kpn_machine.specs.Commits.{Commits, Appends, entries_appended};
ghost use Rattle.kpn_monitor.specs.Kept.{WasCommitted, WasTaken};
ghost use Rattle.kpn_monitor.specs.Hands.{TakesBackAll};
ghost use Rattle.kpn_monitor.specs.Places.{GivesFirst, HasFirst, GivesFrom, CommittedFrom};

use crate::places::Places;
use kpn_body::{Body, Finished};
use kpn_machine::{Machine, Outcome};
use kpn_state::Keeper;

#[inline(always)]
pub(crate) fn give_one<B: Body, H: Keeper>(
    machine: &mut Machine<B, H>,
    finished: Finished<B>,
) -> Outcome
    requires { IsOut machine.old finished }
    ensures commits { Commits (family B.Kinds.Kinds) machine.old finished result machine.new }
    ensures appends { Appends (family B.Kinds.Kinds) machine.old machine.new (entries_appended result) }
    ensures committed { WasCommitted (family B.Kinds.Kinds) B.Kinds.admits machine.old.network finished result }
{
    machine.assure_faithful();
    machine.commit_asked(finished)
}

/// Commits the first answer. Its process does not go out again.
///
/// Not inlined, to keep it out of the way of the answers after which processes do.
#[inline(never)]
fn give_and_leave<B: Body, H: Keeper>(machine: &mut Machine<B, H>, places: &mut Places<B>)
    requires { HasFirst machine.old places.old }
    ensures gave { GivesFirst (family B.Kinds.Kinds) B.Kinds.admits machine.old places.old machine.new places.new }
    ensures again { places.new.again ≡ places.old.again }
{
    let outcome = give_one(machine, places.leave());
    places.note(outcome);
}

/// Commits the answers, one after the other. At most `keep` processes that can continue go out again at once.
/// Stops at an answer that the machine did not ask for, and returns whether there is one.
#[inline(always)]
pub(crate) fn give_all<B: Body, H: Keeper>(
    machine: &mut Machine<B, H>,
    places: &mut Places<B>,
    keep: usize,
) -> bool
    requires none { places.old.outcomes ≡ [] }
    requires kept { places.old.again ≡ [] }
    requires few { length places.old.tasks ≤ 64 }
    requires within { places.old.called ≤ length places.old.tasks }
    ensures machine { GivesFrom (family B.Kinds.Kinds) machine.old places.old machine.new places.new }
    ensures committed { CommittedFrom (family B.Kinds.Kinds) B.Kinds.admits machine.old.network places.old places.new }
    ensures taken { All (WasTaken (family B.Kinds.Kinds) B.Kinds.admits machine.old.network) places.new.again }
    ensures most { length places.new.again ≤ keep }
    ensures called { places.new.called + length places.new.outcomes ≡ places.old.called }
    ensures count { length places.new.tasks + length places.new.outcomes ≡ length places.old.tasks }
    ensures refused { IsTrue result ↔ (0 < places.new.called) }
{
    while places.has_answer() {
        if !machine.has_sent(places.first()) {
            return true;
        }
        machine.assure_faithful();
        if places.kept() < keep {
            if places.stay(machine) {
                machine.assure_faithful();
                continue;
            }
        }
        give_and_leave(machine, places);
    }
    false
}

/// Takes back the tasks that went out again, except any whose process is no longer out.
#[cold]
#[inline(never)]
pub(crate) fn give_back<B: Body, H: Keeper>(machine: &mut Machine<B, H>, places: &mut Places<B>)
    ensures machine { TakesBackAll machine.old places.old.again machine.new }
    ensures end { machine.new.end ≡ machine.old.end }
    ensures none { places.new ≡ record places.old { again = [] } }
{
    while let Some(task) = places.withdraw() {
        if machine.has_sent(&task) {
            machine.take_back(task);
        }
    }
}
