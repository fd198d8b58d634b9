//! What the lock guards.
//!
//! Whenever the lock is free, the history is a run of the network; an end is justified and final; the book of
//! entries totals the length of the history; the run has ended if the book of overs is not empty; and the
//! history and the phase of its end are published.
ghost use Rattle.std.specs.Prelude.{ℕ, ◌≡◌, ◌^◌, ◌<◌, ◌≤◌, [], true, false, length, Some, IfNone, Ok, IfSome, IfOk, IsSome};
ghost use mathlib.Core.List.{IsPrefix};
ghost use Rattle.kpn_model.specs.Families.{family};
ghost use Rattle.kpn_model.specs.declared.history.End.{End as EndV};
ghost use Rattle.kpn_monitor.specs.Kept.{IsShown, HasEnded, FoundNothing, watched_of, IsRunSeen, CountsWatcher, published_of, SeesAllIfEnded};
ghost use Rattle.kpn_monitor.specs.Hands.{Receives, HadEnd, CommitsUnderLock, MeetsEnd, EndsDeal, LockedExchange, LockedAsk, DealsOne, DealsHand};
ghost use Rattle.kpn_monitor.specs.Views.{new_publisher};
ghost use Rattle.kpn_body.specs.Input.{Input};
ghost use Rattle.kpn_machine.specs.MachineView.{IsFaithful, IsFresh, TakesOut};
ghost use Rattle.kpn_machine.specs.Commits.{entries_appended};

use crate::giving::give_one;
use crate::hand::{Hand, Sharing};
use crate::naming::{EntryLedger, NamedBoard};
use crate::seat::Seat;
use kpn_body::{Body, Finished, Task};
use kpn_machine::{Chronicle, Machine, Outcome, Stranger};
use kpn_model::End;
use kpn_state::Keeper;
use kpn_watch::{CountingPublisher, MOST_WATCHERS, Publisher, WatchFault, Watcher};
use std::marker::Model;
use std::sync::ledger::{Book, Ledger, Share};

/// Resting workers count as sharers of the ready processes until this many answers per process were
/// committed, from the start and from each pause without commits.
const TRIAL: u64 = 16;

/// What a worker gets: a task, or the end of the run.
#[derive(Drop)]
pub enum Taken<B: Body> {
    /// A process that is now out, with the input for its body.
    Task(Task<B>),
    /// The run has ended.
    Over(End),
}

/// What a hand received.
#[derive(Clone, Copy, Debug, PartialEq, Eq)]
pub enum Next {
    /// At least one task.
    Tasks,
    /// Nothing: no process was ready, or no task was asked for.
    Nothing,
    /// The run has ended.
    Over(End),
}

/// The result of asking processes in place.
#[derive(Clone, Copy, Debug, PartialEq, Eq)]
pub enum Went {
    /// At least one answer: how many, and whether the worker waited for the lock.
    On { answers: u64, waited: bool },
    /// No answer: no process was ready, or none was to be asked.
    Nowhere,
    /// The run has ended.
    Over(End),
}

pub(crate) enum Wakes {
    All,
    AtMost(usize),
}

/// What the lock guards: the machine, the books of the two ledgers, the right to publish, and how many
/// threads wait. Contracts see the machine, how often an end was met, and how many watchers were made.
#[derive(Drop)]
pub(crate) struct Guarded<B: Body, E: EntryLedger, O: Ledger, H: Keeper> {
    machine: Machine<B, H>,
    entries: Book<E>,
    overs: Book<O>,
    over_count: u64,
    publisher: CountingPublisher,
    pub(crate) waiting: usize,
    /// How many answers were committed when nothing was for a while, because calls held up their workers.
    pub(crate) held_up_at: u64,
}

impl<B: Body, E: EntryLedger, O: Ledger, H: Keeper> Model for Guarded<B, E, O, H> {
    ghost use Rattle.std.specs.Prelude.{◌≡◌};
    ghost use Rattle.kpn_monitor.specs.Views.{UnderLock};
    ghost use Rattle.kpn_monitor.specs.Kept.{IsKept, IsShown};
    ghost use Rattle.kpn_model.specs.Families.{family};

    ghost Value = { UnderLock };

    ghost view = { λ i. record { machine = i.machine; overs = i.over_count; watchers = i.publisher.watchers } };

    ghost invariant = { λ i. IsKept (family B.Kinds.Kinds) B.Kinds.admits E.net i.machine i.entries.total i.overs.total × IsShown E.board i.machine i.publisher × (i.overs.total ≡ i.over_count) × (E.parts ≡ 65536) × (O.parts ≡ 65536) };
}

impl<B: Body, E: EntryLedger, O: Ledger, H: Keeper> Guarded<B, E, O, H> {
    pub(crate) fn new(
        machine: Machine<B, H>,
        publisher: Publisher,
        entries: Book<E>,
        overs: Book<O>,
    ) -> Self
        requires fresh { IsFresh machine }
        requires network { machine.network ≡ E.net }
        requires publisher { publisher ≡ new_publisher E.board }
        requires books { (entries.total ≡ 0) × (overs.total ≡ 0) }
        requires parts { (E.parts ≡ 65536) × (O.parts ≡ 65536) }
        ensures { result ≡ record { machine = machine; overs = 0; watchers = 0 } }
    {
        machine.assure_faithful();
        Guarded {
            machine,
            entries,
            overs,
            over_count: 0,
            publisher: CountingPublisher::new(publisher),
            waiting: 0,
            held_up_at: 0,
        }
    }

    /// Takes a task, or meets the end of the run. Returns `None` if no process is ready, or if the book of
    /// overs is full.
    pub(crate) fn take(&mut self, seat: &mut Seat<E, O>) -> Option<Taken<B>>
        ensures none { IfNone result ((seat.new ≡ seat.old) × (self.new ≡ self.old)) }
        ensures nothing { IfNone result (FoundNothing (family B.Kinds.Kinds) B.Kinds.admits E.net) }
        ensures received { IfSome result (Receives (family B.Kinds.Kinds) B.Kinds.admits E.net seat.old seat.new) }
        ensures task { (t : Input) → result ≡ Some (Taken.Task t) → TakesOut self.old.machine t self.new.machine }
        ensures over { (e : EndV) → result ≡ Some (Taken.Over e) → HadEnd self.old.machine self.new.machine e }
    {
        match self.machine.end() {
            Some(end) => {
                if seat.meet_end(&mut self.overs, &mut self.over_count) {
                    Some(Taken::Over(end))
                } else {
                    None
                }
            }
            None => match self.machine.take() {
                Some(task) => {
                    self.machine.assure_faithful();
                    Some(Taken::Task(task))
                }
                None => None,
            },
        }
    }

    pub(crate) fn commit(
        &mut self,
        board: &NamedBoard<E>,
        finished: Finished<B>,
        seat: &mut Seat<E, O>,
    ) -> Result<Outcome, Stranger<B>>
        ensures { CommitsUnderLock B.Kinds.Kinds E.net self.old seat.old finished self.new seat.new result }
    {
        if !self.machine.has_asked(&finished) {
            return Err(Stranger { finished });
        }
        let outcome = give_one(&mut self.machine, finished);
        publish(&self.machine, &mut self.publisher, board);
        seat.add_entries(&mut self.entries, count_of(outcome));
        Ok(outcome)
    }

    /// Notes in the seat that the run has ended, and returns the end; `None` if it has not, or if the book of
    /// overs is full.
    fn meet_end(&mut self, seat: &mut Seat<E, O>) -> Option<End>
        ensures machine { self.new.machine ≡ self.old.machine }
        ensures nothing { IfNone result (seat.new ≡ seat.old) }
        ensures over { IfSome result (MeetsEnd seat.old seat.new self.new.machine) }
        ensures ended { IfSome result (HasEnded (family B.Kinds.Kinds) B.Kinds.admits E.net) }
    {
        let end = self.machine.end()?;
        let is_met = seat.meet_end(&mut self.overs, &mut self.over_count);
        if is_met { Some(end) } else { None }
    }

    /// Fills the hand, which holds only tasks that just went out again, up to `wanted`. If it is empty or
    /// `most` is 0, meets the end of the run, if there is one.
    pub(crate) fn deal(
        &mut self,
        hand: &mut Hand<B>,
        seat: &mut Seat<E, O>,
        most: usize,
        wanted: usize,
    ) -> Next
        requires few { length hand.old.tasks ≤ most }
        requires called { hand.old.called ≡ 0 }
        requires wanted { (wanted ≤ 64) × (1 ≤ most → wanted ≤ most) }
        ensures deals { DealsHand B.Kinds.Kinds E.net self.old.machine hand.old self.new.machine hand.new }
        ensures rest { (hand.new.called ≡ 0) × (hand.new.outcomes ≡ hand.old.outcomes) }
        ensures most { length hand.new.tasks ≤ most }
        ensures tasks { result ≡ Next.Tasks → (seat.new ≡ seat.old) × (0 < length hand.new.tasks) }
        ensures nothing { result ≡ Next.Nothing → (seat.new ≡ seat.old) × (hand.new.tasks ≡ []) }
        ensures found { result ≡ Next.Nothing → 0 < most → FoundNothing (family B.Kinds.Kinds) B.Kinds.admits E.net }
        ensures seat { (seat.new.parts ≡ seat.old.parts) × (seat.new.entries ≡ seat.old.entries) }
        ensures over { (e : EndV) → result ≡ Next.Over e → EndsDeal seat.old seat.new hand.new self.new.machine e }
        ensures ended { (e : EndV) → result ≡ Next.Over e → HasEnded (family B.Kinds.Kinds) B.Kinds.admits E.net e }
    {
        if most == 0 {
            return match self.meet_end(seat) {
                Some(end) => Next::Over(end),
                None => Next::Nothing,
            };
        }
        if hand.len() > 0 {
            self.deal_more(hand, wanted);
            return Next::Tasks;
        }
        match self.take(seat) {
            None => Next::Nothing,
            Some(Taken::Over(end)) => Next::Over(end),
            Some(Taken::Task(first)) => {
                hand.put(first);
                self.deal_more(hand, wanted);
                Next::Tasks
            }
        }
    }

    /// Commits the answers of a hand, publishes and books the new entries, and fills the hand again.
    ///
    /// Errors: the machine did not ask for an answer. Stops there, and returns it.
    pub(crate) fn exchange(
        &mut self,
        board: &NamedBoard<E>,
        hand: &mut Hand<B>,
        seat: &mut Seat<E, O>,
        most: usize,
    ) -> Result<Next, Stranger<B>>
        requires called { hand.old.called ≡ length hand.old.tasks }
        ensures { LockedExchange B.Kinds.Kinds E.net most self.old hand.old seat.old self.new hand.new seat.new result }
    {
        let ready = self.machine.ready().saturating_add(hand.len());
        let wanted = hand.sharer.wanted(ready, most, self.sharing());
        // Ready processes have waited, so they come before those that could stay.
        let keep = wanted.min(most).saturating_sub(self.machine.ready());
        let before = self.machine.entries();
        let refused = hand.give(&mut self.machine, keep);
        publish(&self.machine, &mut self.publisher, board);
        let more = self.machine.entries() - before;
        seat.add_entries(&mut self.entries, more as u64);
        match refused {
            Some(finished) => Err(Stranger { finished }),
            None => Ok(self.deal(hand, seat, most, wanted)),
        }
    }

    /// Asks ready processes in place, publishes and books the new entries. Without an answer, meets the end
    /// of the run, if there is one.
    pub(crate) fn ask_in_place(
        &mut self,
        board: &NamedBoard<E>,
        seat: &mut Seat<E, O>,
        most: u64,
        waited: bool,
    ) -> Went
        ensures { LockedAsk B.Kinds.Kinds E.net most self.old seat.old self.new seat.new result }
    {
        self.machine.assure_faithful();
        let before = self.machine.entries();
        let answers = self.machine.ask_in_place(most);
        if answers == 0 {
            return match self.meet_end(seat) {
                Some(end) => Went::Over(end),
                None => Went::Nowhere,
            };
        }
        publish(&self.machine, &mut self.publisher, board);
        let more = (self.machine.entries() - before) as u64;
        seat.add_entries(&mut self.entries, more);
        Went::On { answers, waited }
    }

    fn deal_more(&mut self, hand: &mut Hand<B>, wanted: usize)
        requires some { 0 < length hand.old.tasks }
        requires room { wanted ≤ 64 }
        ensures deals { DealsHand B.Kinds.Kinds E.net self.old.machine hand.old self.new.machine hand.new }
        ensures some { 0 < length hand.new.tasks }
        ensures many { (n : ℕ) → length hand.old.tasks ≤ n → wanted ≤ n → length hand.new.tasks ≤ n }
        ensures rest { (hand.new.called ≡ hand.old.called) × (hand.new.outcomes ≡ hand.old.outcomes) }
    {
        for _i in hand.len()..wanted {
            if !self.deal_one(hand) {
                break;
            }
        }
    }

    fn deal_one(&mut self, hand: &mut Hand<B>) -> bool
        requires { length hand.old.tasks < 64 }
        ensures more { result ≡ true → DealsOne B.Kinds.Kinds E.net self.old hand.old self.new hand.new }
        ensures none { result ≡ false → (hand.new ≡ hand.old) × (self.new ≡ self.old) }
    {
        self.machine.assure_faithful();
        match self.machine.take() {
            Some(task) => {
                self.machine.assure_faithful();
                hand.put(task);
                true
            }
            None => false,
        }
    }

    /// Whether a process is ready or the run has ended.
    pub(crate) fn has_work(&self) -> bool {
        self.machine.ready() > 0 || self.machine.end().is_some()
    }

    /// How many answers were committed.
    pub(crate) fn answers(&self) -> u64 {
        self.machine.commits()
    }

    // One by one until there are as many answers as processes, so that each was taken once; then, during a
    // trial, among all workers; then among those awake.
    fn sharing(&self) -> Sharing {
        let answers = self.machine.commits();
        let processes = self.machine.net().processes() as u64;
        let on_trial = answers.saturating_sub(self.held_up_at);
        if answers < processes {
            Sharing::OneByOne
        } else if on_trial < processes.saturating_mul(TRIAL) {
            Sharing::AmongAll
        } else {
            Sharing::AmongAwake
        }
    }

    /// All if the run has ended, else at most one per ready process. No contract covers waking.
    pub(crate) fn wakes(&self) -> Wakes {
        if self.waiting == 0 {
            return Wakes::AtMost(0);
        }
        if self.machine.end().is_some() {
            return Wakes::All;
        }
        Wakes::AtMost(self.machine.ready().min(self.waiting))
    }

    pub(crate) fn counts(&self) -> (u64, u64)
        ensures entries { result.0 ≡ length self.now.machine.history }
        ensures overs { result.1 ≡ self.now.overs }
        ensures ended { 0 < result.1 → IsSome self.now.machine.end }
    {
        self.machine.assure_faithful();
        self.machine.net().assure_valid();
        (self.machine.entries() as u64, self.over_count)
    }

    pub(crate) fn watch(&mut self, board: &NamedBoard<E>) -> Result<Watcher, WatchFault>
        ensures seen { IfOk result (λ w. w ≡ watched_of E.board self.old.machine) }
        ensures run { IfOk result (IsRunSeen (family B.Kinds.Kinds) E.net self.old.machine.end) }
        ensures counted { CountsWatcher MOST_WATCHERS self.old self.new result }
    {
        self.machine.assure_faithful();
        self.publisher.watch(board)
    }

    /// Ghost lemma: the shares of all parts add up to the books.
    pub(crate) fn audit(&mut self, entries: &mut Share<E>, overs: &mut Share<O>)
        requires { (entries.old.parts ≡ 65536) × (overs.old.parts ≡ 65536) }
        ensures entries { entries.old.amount ≡ length self.old.machine.history }
        ensures overs { overs.old.amount ≡ self.old.overs }
    {
        self.entries.audit(entries);
        self.overs.audit(overs);
    }

    pub(crate) fn into_chronicle(self) -> (Chronicle<B::Kinds, H>, CountingPublisher)
        ensures is { result.0 ≡ self.machine }
        ensures network { result.0.network ≡ E.net }
        ensures faithful { IsFaithful (family B.Kinds.Kinds) B.Kinds.admits result.0 }
        ensures shown { IsShown E.board result.0 result.1 }
    {
        let Guarded {
            machine,
            entries: _,
            overs: _,
            over_count: _,
            publisher,
            waiting: _,
            held_up_at: _,
        } = self;
        (machine.into_chronicle(), publisher)
    }
}

fn publish<B: Body, E: EntryLedger, H: Keeper>(
    machine: &Machine<B, H>,
    publisher: &mut CountingPublisher,
    board: &NamedBoard<E>,
)
    requires board { publisher.old.board ≡ E.board }
    requires goes_on { IsPrefix publisher.old.entries machine.now.history }
    requires ended { SeesAllIfEnded publisher.old.entries publisher.old.phase machine.now }
    ensures published { publisher.new ≡ published_of publisher.old machine.now }
    ensures faithful { IsFaithful (family B.Kinds.Kinds) B.Kinds.admits machine.now }
    ensures short { length machine.now.history < 2 ^ 22 }
{
    let ended = machine.end();
    machine.net().assure_valid();
    publisher.publish_kept(board, machine.keeper(), machine.growths(), ended);
}

fn count_of(outcome: Outcome) -> u64
    ensures { result ≡ entries_appended outcome }
{
    match outcome {
        Outcome::Done(count) | Outcome::Parked(count) => count as u64,
        Outcome::LaidBack => 0,
    }
}
