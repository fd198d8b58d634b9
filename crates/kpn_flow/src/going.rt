//! Stretch after stretch.
ghost use Rattle.std.specs.Prelude.{◌≡◌, ◌≤◌, ◌+◌, map, option_map};
ghost use Rattle.kpn_model.specs.Families.{family};
ghost use Rattle.kpn_flow.specs.Flows.{IsSettled, HasAllBodies};
ghost use Rattle.kpn_flow.specs.Pauses.{TellWants, CoreAdvances};

use crate::counts::Counts;
use crate::open_net::OpenNet;
use crate::pause::Pause;
use crate::stretch::stretch;
use kpn_body::Body;
use kpn_commit::Core;
use kpn_state::Unkept;

/// How many entries a flow has room for; each stretch forgets those of the one before.
pub(crate) const ROOM: usize = 1 << 20;

/// Returns at how many entries a stretch ends: one before the last, since an answer may add two.
fn entries_of_stretch(left: u64) -> usize
    requires { 2 ≤ left }
    ensures some { 1 ≤ result }
    ensures few { result + 1 ≤ left }
    ensures room { result + 1 ≤ 1048576 }
{
    if left < ROOM as u64 {
        left as usize - 1
    } else {
        ROOM - 1
    }
}

pub(crate) fn go_on<B: Body>(
    opened: &OpenNet<'_, B::Kinds>,
    core: &mut Core<Unkept>,
    bodies: &[Option<B>],
    counts: &mut Counts,
    most: u64,
) -> Pause
    requires settled { IsSettled (family B.Kinds.Kinds) B.Kinds.admits opened.now.net.now core.old }
    requires bodies { HasAllBodies opened.now.net.now (map (option_map B.card) bodies.now) }
    requires room { 1048576 ≤ core.old.store.limit }
    ensures settled { IsSettled (family B.Kinds.Kinds) B.Kinds.admits opened.now.net.now core.new }
    ensures limit { core.new.store.limit ≡ core.old.store.limit }
    ensures advances { CoreAdvances B.Kinds.Kinds opened.now counts.old counts.new core.old core.new most result }
    ensures told { TellWants (family B.Kinds.Kinds) opened.now.net.now core.new.store.state core.new.standings result }
{
    let mut done = 0;
    let mut grown = 0;
    let mut again = None;
    while most - done >= 2 {
        let pause = stretch(
            opened,
            core,
            bodies,
            &mut again,
            entries_of_stretch(most - done),
        );
        if let Some(pause) = pause {
            counts.add(done, grown);
            return pause;
        }
        done += core.store.entries() as u64;
        grown += core.store.growths() as u64;
    }
    counts.add(done, grown);
    Pause::Cut
}
