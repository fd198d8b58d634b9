//! Parks processes, and notes that one waits no more.
ghost use Rattle.std.specs.Prelude.{◌≡◌, ◌<◌, length, set, true};
ghost use Rattle.kpn_state.specs.declared.standing.Standing.TheVariants.{Parked};
ghost use Rattle.kpn_state.specs.Candidates.{Removes};
ghost use Rattle.kpn_state.specs.Standings.{standing, is_busy};
ghost use Rattle.kpn_commit.specs.Waiting.{AreWaiting, unmark_writer};

use crate::cores::Core;
use kpn_model::{Act, Answer, Kinds};
use kpn_network::Net;
use kpn_state::{Keeper, Standing, Waiting};

/// Parks a ready or out process with its answer, and marks the channel at which it waits. If it waits to
/// write, the channel becomes a candidate. Not inlined, out of the way of a commit that parks nobody.
#[cold]
#[inline(never)]
pub fn park<K: Kinds, H: Keeper>(net: &Net<K>, core: &mut Core<H>, process: usize, answer: Answer)
    requires process { process < length core.old.standings }
    requires busy { is_busy (standing core.old.standings process) ≡ true }
    requires channels { length core.old.store.state.channels ≡ length net.now.channels }
    requires waiting { AreWaiting net.now core.old.store.state core.old.standings core.old.waiting }
    ensures store { core.new.store ≡ core.old.store }
    ensures parked { core.new.standings ≡ set core.old.standings process (Parked answer) }
    ensures waiting { AreWaiting net.now core.new.store.state core.new.standings core.new.waiting }
{
    match answer.act {
        Act::Read(port) => {
            if let Some(channel) = net.in_of(process, usize::from(port)) {
                core.waiting.marks.note_reader(channel, true);
            }
        }
        Act::Write(port, _) => {
            if let Some(channel) = net.out_of(process, usize::from(port)) {
                let (_, capacity) = core.store.tokens_and_capacity(channel);
                core.waiting.candidates.insert(capacity, channel);
                core.waiting.marks.note_writer(channel, true);
            }
        }
        Act::Stop => {}
    }
    core.standings.update(process, Standing::Parked(answer));
}

/// Removes the candidate with this capacity and its writer's mark, when the writer is served.
#[inline(always)]
pub(crate) fn unlist(waiting: &mut Waiting, capacity: usize, channel: usize)
    requires { channel < length waiting.old.marks.writers }
    ensures candidates { Removes waiting.old.candidates (capacity, channel) waiting.new.candidates }
    ensures marks { waiting.new.marks ≡ unmark_writer waiting.old.marks channel }
{
    waiting.candidates.remove(capacity, channel);
    waiting.marks.note_writer(channel, false);
}
