//! Does the acts of processes.
ghost use Rattle.std.specs.Prelude.{◌≡◌, ◌<◌, length, set, Some, IfSome, IfNone, IsSome};
ghost use Rattle.kpn_model.specs.Families.{family};
ghost use Rattle.kpn_model.specs.Semantics.{wants, IsPossible, IsDeed};
ghost use Rattle.kpn_state.specs.Standings.{StandingsFit, standing, standing_after, HasChannel};
ghost use Rattle.kpn_commit.specs.Reactions.{HasRoomToAct, EntersDeed, IsLeft, WantsToAct, CannotGoOn, AnswersLeadOn, AnswersNamePorts, FitButPartner, HasActed, IsEntered};

use kpn_model::{Act, Answer, Card, Deed, Kinds};
use kpn_network::Net;
use kpn_state::standing::standing_after;
use kpn_state::{Keeper, Roster, Store};

/// Reads or writes as answered, if that is possible; otherwise, and for a stop, returns `None` and changes nothing.
#[inline(always)]
fn read_or_write<K: Kinds, H: Keeper>(
    net: &Net<K>,
    store: &mut Store<H>,
    process: usize,
    answer: Answer,
) -> Option<Deed>
    requires { HasRoomToAct net.now store.old process }
    ensures does { IfSome result (λ deed. EntersDeed (family K.Kinds) net.now store.old process answer deed store.new) }
    ensures cannot { IfNone result (IsLeft (family K.Kinds) net.now store.old process answer store.new) }
{
    match answer.act {
        Act::Read(port) => {
            let channel = net.input_at(process, usize::from(port))?;
            let (tokens, _) = store.tokens_and_capacity(channel);
            if tokens == 0 {
                return None;
            }
            let token = store.take(process, channel, answer.next);
            Some(Deed::Took { channel, token })
        }
        Act::Write(port, token) => {
            let channel = net.output_at(process, usize::from(port))?;
            let (tokens, capacity) = store.tokens_and_capacity(channel);
            if tokens >= capacity {
                return None;
            }
            store.put(process, channel, answer.next, token);
            Some(Deed::Put { channel, token })
        }
        Act::Stop => None,
    }
}

/// Ghost lemma: the laws of the family for each answer of a card.
fn laws_of<K: Kinds>(card: Card)
    requires signed { IsSome (K.signature card) }
    ensures names { AnswersNamePorts K.Kinds card }
    ensures leads { AnswersLeadOn K.Kinds card }
{
    K::lawful();
    let _kind = card.kind;
    let [_first, _second, _third] = card.args;
}

/// Does the act of an answer and updates the standing of its process, if the act is possible; otherwise returns `None`
/// and changes nothing.
#[inline(always)]
pub fn advance<K: Kinds, H: Keeper>(
    net: &Net<K>,
    store: &mut Store<H>,
    standings: &mut Roster,
    process: usize,
    answer: Answer,
) -> Option<Deed>
    requires keeps { StandingsFit (family K.Kinds) K.admits net.now (Some process) store.old.state standings.old }
    requires process { process < length standings.old }
    requires wants { wants (family K.Kinds) net.now store.old.state process ≡ Some answer }
    requires room { length store.old.history < store.old.limit }
    ensures is_deed { IfSome result (IsDeed (family K.Kinds) net.now store.old.state process answer.act) }
    ensures entry { IfSome result (IsEntered (family K.Kinds) net.now store.old process answer store.new) }
    ensures standing { IfSome result (λ deed. standings.new ≡ set standings.old process (standing_after deed)) }
    ensures channel { IfSome result (HasChannel net.now) }
    ensures keeps { IfSome result (FitButPartner (family K.Kinds) K.admits net.now store.new.state standings.new) }
    ensures cannot { IfNone result (IsPossible (family K.Kinds) net.now store.old.state process answer.act → ⊥) }
    ensures same { IfNone result (store.new ≡ store.old) }
    ensures same_standings { IfNone result (standings.new ≡ standings.old) }
{
    net.assure_valid();
    laws_of::<K>(net.card(process));
    let deed = match answer.act {
        Act::Stop => {
            store.stop(process);
            Deed::Stopped
        }
        Act::Read(_) | Act::Write(..) => read_or_write(net, store, process, answer)?,
    };
    standings.update(process, standing_after(deed));
    Some(deed)
}

/// Does the act of an answer, if it is a read or a write and possible; otherwise returns `None` and changes nothing. The
/// caller sets the standing of the process.
#[inline(always)]
pub(crate) fn advance_on<K: Kinds, H: Keeper>(
    net: &Net<K>,
    store: &mut Store<H>,
    standings: &Roster,
    process: usize,
    answer: Answer,
) -> Option<Deed>
    requires { WantsToAct (family K.Kinds) K.admits net.now store.old standings.now process answer }
    ensures acts { IfSome result (HasActed K.Kinds net.now store.old standings.now process answer store.new) }
    ensures cannot { IfNone result (CannotGoOn (family K.Kinds) net.now store.old.state process answer) }
    ensures left { IfNone result (store.new ≡ store.old) }
{
    net.assure_valid();
    laws_of::<K>(net.card(process));
    let deed = read_or_write(net, store, process, answer)?;
    Some(deed)
}
