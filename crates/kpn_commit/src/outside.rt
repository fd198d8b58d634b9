//! Tokens that enter or leave a channel from outside the network.
ghost use Rattle.std.specs.Prelude.{◌≡◌, ◌∷◌, length, drop, Some, IsTrue, false};
ghost use Rattle.kpn_model.specs.Families.{family};
ghost use Rattle.kpn_model.specs.Semantics.{tokens, IsPossible};
ghost use Rattle.kpn_commit.specs.Coherent.{IsCoherentBut};
ghost use Rattle.kpn_commit.specs.Outside.{MayFeed, MayDrain, OnlyWakes, fed, drained};

use crate::cores::Core;
use crate::parking::unlist;
use kpn_model::{Act, Kinds, Token};
use kpn_network::Net;
use kpn_state::standing::parked;
use kpn_state::{Keeper, Standing, Store};

fn can_do<K: Kinds, H: Keeper>(net: &Net<K>, store: &Store<H>, process: usize, act: Act) -> bool
    requires { length store.now.state.channels ≡ length net.now.channels }
    ensures can { IsTrue result → IsPossible (family K.Kinds) net.now store.now.state process act }
    ensures cannot { result ≡ false → IsPossible (family K.Kinds) net.now store.now.state process act → ⊥ }
{
    match act {
        Act::Read(port) => {
            let Some(channel) = net.in_of(process, usize::from(port)) else {
                return false;
            };
            let (tokens, _) = store.tokens_and_capacity(channel);
            tokens > 0
        }
        Act::Write(port, _) => {
            let Some(channel) = net.out_of(process, usize::from(port)) else {
                return false;
            };
            let (tokens, capacity) = store.tokens_and_capacity(channel);
            tokens < capacity
        }
        Act::Stop => true,
    }
}

/// Makes a process ready if it is parked and can continue. No other parked process can. Removes its mark and its
/// candidate.
fn wake<K: Kinds, H: Keeper>(net: &Net<K>, core: &mut Core<H>, process: usize)
    requires coherent { IsCoherentBut (family K.Kinds) K.admits net.now (Some process) core.old }
    ensures { OnlyWakes (family K.Kinds) K.admits net.now core.old core.new }
{
    let Some(answer) = parked(core.standings.as_slice(), process) else {
        return;
    };
    if !can_do(net, &core.store, process, answer.act) {
        return;
    }
    match answer.act {
        Act::Read(port) => {
            if let Some(read) = net.in_of(process, usize::from(port)) {
                core.waiting.marks.note_reader(read, false);
            }
        }
        Act::Write(port, _) => {
            if let Some(written) = net.out_of(process, usize::from(port)) {
                let (_, capacity) = core.store.tokens_and_capacity(written);
                unlist(&mut core.waiting, capacity, written);
            }
        }
        Act::Stop => {}
    }
    core.standings.update(process, Standing::Ready);
}

/// Appends a token to a channel from outside the network, without an entry, and makes the channel's reader
/// ready if it is parked and can continue. The channel must have room, and the token must be of its sort.
pub fn feed<K: Kinds, H: Keeper>(net: &Net<K>, core: &mut Core<H>, channel: usize, token: Token)
    requires { MayFeed (family K.Kinds) K.admits net.now core.old channel token }
    ensures { OnlyWakes (family K.Kinds) K.admits net.now (fed core.old channel token) core.new }
{
    core.store.feed(channel, token);
    if core.waiting.marks.reader_waits(channel) {
        let reader = net.ends(channel).reader;
        wake(net, core, reader);
    }
}

/// Removes the first token of a channel, without an entry, and makes the channel's writer ready if it is
/// parked and can continue. Returns the token. There must be one.
pub fn drain<K: Kinds, H: Keeper>(net: &Net<K>, core: &mut Core<H>, channel: usize) -> Token
    requires { MayDrain (family K.Kinds) K.admits net.now core.old channel }
    ensures token { tokens core.old.store.state channel ≡ result ∷ drop 1 (tokens core.old.store.state channel) }
    ensures wakes { OnlyWakes (family K.Kinds) K.admits net.now (drained core.old channel) core.new }
{
    let token = core.store.drain(channel);
    if core.waiting.marks.writer_waits(channel) {
        let writer = net.ends(channel).writer;
        wake(net, core, writer);
    }
    token
}
