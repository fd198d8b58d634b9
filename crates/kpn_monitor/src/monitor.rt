//! A machine under a lock.
ghost use Rattle.std.specs.Prelude.{◌≡◌, ◌≢◌, ◌↔◌, IfOk, IfErr, IsOk, IsTrue, length};
ghost use Rattle.kpn_model.specs.Families.{family};
ghost use Rattle.std.specs.List.{sum_by};
ghost use Rattle.kpn_model.specs.Semantics.{State, IsRun};
ghost use mathlib.Core.List.{IsPrefix};
ghost use Rattle.kpn_watch.specs.declared.progress.Phase.TheVariants.{Running};
ghost use Rattle.kpn_watch.specs.Shown.{shows};
ghost use Rattle.kpn_monitor.specs.Views.{AreNamesOf, Shares, all_parts, all_entries};
ghost use Rattle.kpn_monitor.specs.Kept.{AddUp, IsClosed, EndedIfMet};
ghost use Rattle.kpn_monitor.specs.Hands.{AsksInPlace, BooksAnswer, Receives, ExchangesHand};

use crate::booked::BookedRun;
use crate::closed::{Closed, Unclosed};
use crate::guarded::{Guarded, Next, Taken, Wakes, Went};
use crate::hand::Hand;
use crate::naming::{EntryLedger, NamedBoard};
use crate::opening::{Opening, OpeningParts};
use crate::resting::{Rest, Resters, Sighting, next_limit};
use crate::seat::{Seat, merge, totals_of};
use kpn_body::{Body, Finished};
use kpn_machine::{Outcome, Stranger};
use kpn_state::{Keeper, Wide};
use kpn_watch::{Progress, WatchFault, Watcher};
use std::hint::spin_loop;
use std::rt::Clock;
use std::sync::atomic::{AtomicU64, Ordering};
use std::sync::ledger::Ledger;
use std::sync::{Condvar, Mutex, MutexGuard, Wait};
use std::time::{Duration, Instant};

const PARTS: u32 = 65536;

/// How often a thread tries the lock before it sleeps, and how long it pauses in between.
const LOOKS: u32 = 250;

const PAUSES: u32 = 8;

/// A machine that threads share under a lock. Each commit also publishes its progress on a board that is read
/// without the lock. The type names the network, the board and two ledgers, so a seat's type names its
/// monitor.
///
/// One ledger counts entries, the other the ends met ("overs"). Each seat has a share of both, and a book
/// under the lock each total.
pub struct Monitor<B: Body, E: EntryLedger, O: Ledger, H: Keeper = Wide> {
    state: Mutex<Guarded<B, E, O, H>>,
    /// Where threads wait, with the lock of `state`, for a ready process or the end.
    changed: Condvar,
    resters: Mutex<Resters>,
    /// Where threads rest, with the lock of `resters`.
    roused: Condvar,
    /// How many of the threads that ever wanted to rest are awake.
    awake: AtomicU64,
    board: NamedBoard<E>,
}

// Written out so that dropping a monitor is one call, proved once.
impl<B: Body, E: EntryLedger, O: Ledger, H: Keeper> Drop for Monitor<B, E, O, H> {
    fn drop(self) {
        let Monitor {
            state: _,
            changed: _,
            resters: _,
            roused: _,
            awake: _,
            board: _,
        } = self;
    }
}

impl<B: Body, E: EntryLedger, O: Ledger, H: Keeper> Monitor<B, E, O, H> {
    /// Makes the monitor of an opening, and a seat with all parts and empty shares. The types must name the
    /// opening's network, board and ledgers. Takes no memory.
    pub fn open(opening: Opening<B, H>) -> (Monitor<B, E, O, H>, Seat<E, O>)
        requires { AreNamesOf E.EntryLedger O.Ledger opening }
        ensures { result.1 ≡ record { parts = 65536; entries = 0; overs = 0 } }
    {
        let OpeningParts {
            machine,
            board,
            publisher,
            entries,
            overs,
        } = opening.into_parts();
        let (entries, entry_share) = entries.open::<E>();
        let (overs, over_share) = overs.open::<O>();
        let monitor = Monitor {
            state: Mutex::new(Guarded::new(machine, publisher, entries, overs)),
            changed: Condvar::new(),
            resters: Mutex::new(Resters::new()),
            roused: Condvar::new(),
            awake: AtomicU64::new(0),
            board: NamedBoard::new(board),
        };
        (monitor, Seat::whole(PARTS, entry_share, over_share))
    }

    /// Takes a ready process out as a task; or, if the run has ended, returns its end, sets the seat's share
    /// of overs to 1, and wakes resting threads. Waits for one of these. A dropped task leaves its process
    /// out for good.
    pub fn take<R: Wait>(&self, rt: &R, seat: &mut Seat<E, O>) -> Taken<B>
        ensures { Receives (family B.Kinds.Kinds) B.Kinds.admits E.net seat.old seat.new result }
    {
        let mut guarded = self.state.lock(rt);
        for _ in rt.forever() {
            if let Some(taken) = guarded.take(seat) {
                drop(guarded);
                if matches!(taken, Taken::Over(_)) {
                    self.rouse(rt);
                }
                return taken;
            }
            guarded.waiting = guarded.waiting.saturating_add(1);
            guarded = self.changed.wait(rt, guarded);
            guarded.waiting = guarded.waiting.saturating_sub(1);
        }
        unreachable!()
    }

    /// Commits an answer and publishes the new entries, holding the lock once. The share of the seat, which
    /// need not be the one that took the task, grows by their number.
    ///
    /// Errors: the machine did not ask for this answer. Returns it, and leaves the seat unchanged.
    pub fn commit<R: Wait>(
        &self,
        rt: &R,
        finished: Finished<B>,
        seat: &mut Seat<E, O>,
    ) -> Result<Outcome, Stranger<B>>
        ensures { BooksAnswer (family B.Kinds.Kinds) B.Kinds.admits E.net finished seat.old seat.new result }
    {
        let mut guarded = self.state.lock(rt);
        let answer = guarded.commit(&self.board, finished, seat);
        let wakes = guarded.wakes();
        drop(guarded);
        self.wake(wakes);
        answer
    }

    /// Commits the answers of a hand, in order, publishes what is new at once, and fills the hand with at most
    /// `most` tasks, holding the lock once. All tasks of the hand must have been called. Waits only for this
    /// lock, and at the end of the run for that of the resting threads. A process that can continue goes out
    /// again at once, with its next task in the hand, if the hand's share has room beside the ready processes.
    ///
    /// The seat's share of entries grows by the number of new entries. Afterwards the hand has a task; or
    /// none, because no process was ready or `most` is 0; or the run has ended, and the share of overs is 1.
    ///
    /// Errors: the machine did not ask for an answer. Returns it. The answers before it are committed; those
    /// after it stay in the hand.
    pub fn exchange<R: Wait>(
        &self,
        rt: &R,
        hand: &mut Hand<B>,
        seat: &mut Seat<E, O>,
        most: usize,
    ) -> Result<Next, Stranger<B>>
        requires { hand.old.called ≡ length hand.old.tasks }
        ensures { ExchangesHand B.Kinds.Kinds E.net most hand.old seat.old hand.new seat.new result }
    {
        hand.sharer.see_awake(self.awake.load(Ordering::SeqCst));
        let mut guarded = self.lock(rt);
        let next = guarded.exchange(&self.board, hand, seat, most);
        let wakes = guarded.wakes();
        drop(guarded);
        self.wake(wakes);
        if let Ok(Next::Over(_)) = next {
            self.rouse(rt);
        }
        next
    }

    /// Asks ready processes in place, and commits each answer, until `most` answers were taken,
    /// no process is ready or the run has ended. Calls the bodies under the lock, so they must be quick, and
    /// must not wait for another body: that could be forever.
    ///
    /// The seat's share of entries grows by the number of new entries. `On` has the number of answers, 1 to
    /// `most`. Without an answer, if the run has ended, the share of overs is 1.
    pub fn ask_in_place<R: Wait>(&self, rt: &R, seat: &mut Seat<E, O>, most: u64) -> Went
        ensures { AsksInPlace (family B.Kinds.Kinds) B.Kinds.admits E.net most seat.old seat.new result }
    {
        let free = self.state.try_lock();
        let waited = free.is_none();
        let mut guarded = match free {
            Some(guarded) => guarded,
            None => self.lock(rt),
        };
        let went = guarded.ask_in_place(&self.board, seat, most, waited);
        let wakes = guarded.wakes();
        drop(guarded);
        self.wake(wakes);
        if let Went::Over(_) = went {
            self.rouse(rt);
        }
        went
    }

    /// Rests until the run has ended or one more thread helps, and returns whether it rested. It does not
    /// rest if the run has ended, if it is idle and a process is ready, or if it is spare and all others that
    /// ever wanted to rest do.
    ///
    /// One resting thread is the lookout, or two if one was idle. It alone wakes after `limit`, and then
    /// after doubled times, to see whether a process is ready although few answers were committed since (none
    /// for a while, if as many threads are awake as can run at once). If so, it stops resting, and another
    /// becomes the lookout. Resting threads wait at another lock than the machine's. No contract covers this.
    pub fn rest<R: Wait + Clock>(
        &self,
        rt: &R,
        hand: &mut Hand<B>,
        why: Rest,
        limit: Duration,
    ) -> bool
        ensures { hand.new ≡ hand.old }
    {
        // Under this lock: else a spare thread could leave work to this one and rest first.
        let mut resters = self.resters.lock(rt);
        if why == Rest::Idle && self.lock(rt).has_work() {
            return false;
        }
        let is_new = hand.sharer.begins_to_rest();
        let rests = resters.begin(is_new, why);
        self.awake.store(resters.awake(), Ordering::SeqCst);
        if !rests {
            return false;
        }
        if !resters.want_lookout(why) {
            resters = self.roused.wait(rt, resters);
        }
        if resters.want_lookout(why) {
            resters.begin_looking_out();
            resters = self.look_out(rt, hand, resters, limit);
            resters.end_looking_out();
        }
        let hands_over = resters.end();
        self.awake.store(resters.awake(), Ordering::SeqCst);
        drop(resters);
        if hands_over {
            self.roused.notify_one();
        }
        true
    }

    fn look_out<'a, R: Wait + Clock>(
        &'a self,
        rt: &R,
        hand: &Hand<B>,
        resters: MutexGuard<'a, Resters>,
        limit: Duration,
    ) -> MutexGuard<'a, Resters> {
        let mut resters = resters;
        let mut limit = limit;
        let mut last = self.look_for_work(rt);
        for _ in rt.forever() {
            resters = self.roused.wait_timeout(rt, resters, limit).0;
            let next = self.look_for_work(rt);
            let has_processor = hand.sharer.has_processor(resters.awake());
            let is_wanted = next.shows_want(&last, has_processor);
            limit = next_limit(limit, has_processor && next.is_slow(&last));
            if next.is_same(&last) {
                let mut guarded = self.lock(rt);
                guarded.held_up_at = guarded.answers();
            } else {
                last = next;
            }
            if is_wanted || resters.is_over() {
                return resters;
            }
        }
        unreachable!()
    }

    fn look_for_work<R: Wait + Clock>(&self, rt: &R) -> Sighting {
        let now = Instant::now(rt).ok();
        let guarded = self.lock(rt);
        Sighting::new(now, guarded.has_work(), guarded.answers())
    }

    /// Wakes all resting workers and lets none rest any more: for a run that has ended, or to have the
    /// workers leave. Waits only for the resting threads' lock.
    pub fn rouse<R: Wait>(&self, rt: &R) {
        let mut resters = self.resters.lock(rt);
        let some = resters.note_end();
        drop(resters);
        if some {
            self.roused.notify_all();
        }
    }

    // The lock is held only briefly, so the thread tries for a while before it sleeps.
    fn lock<R: Wait>(&self, rt: &R) -> MutexGuard<'_, Guarded<B, E, O, H>> {
        for _ in 0..LOOKS {
            if let Some(guarded) = self.state.try_lock() {
                return guarded;
            }
            for _ in 0..PAUSES {
                spin_loop();
            }
        }
        self.state.lock(rt)
    }

    // No contract covers waking.
    fn wake(&self, wakes: Wakes) {
        match wakes {
            Wakes::All => self.changed.notify_all(),
            Wakes::AtMost(count) => {
                for _ in 0..count {
                    self.changed.notify_one();
                }
            }
        }
    }

    /// Makes a watcher that has seen the history so far, which is a run of the network. Fails if 64 watchers
    /// were made.
    pub fn watch<R: Wait>(&self, rt: &R) -> Result<Watcher, WatchFault>
        ensures board { IfOk result (λ w. w.board ≡ E.board) }
        ensures run { IfOk result (λ w. (M : State) × IsRun (family B.Kinds.Kinds) E.net w.entries M) }
    {
        self.state.lock(rt).watch(&self.board)
    }

    /// Updates this monitor's watcher to what is published, and returns its numbers. What it saw before is a
    /// prefix of the history, and all of it if it saw an end. Takes no lock and no memory, and never waits.
    pub fn look(&self, watcher: &mut Watcher) -> Progress
        requires { watcher.old.board ≡ E.board }
        ensures board { watcher.new.board ≡ E.board }
        ensures goes_on { IsPrefix watcher.old.entries watcher.new.entries }
        ensures ended { watcher.old.phase ≢ Running → watcher.new ≡ watcher.old }
        ensures shown { result ≡ shows watcher.new.entries watcher.new.phase }
    {
        self.board.look(watcher)
    }
}

impl<B: Body, E: EntryLedger, O: Ledger, H: Keeper> Monitor<B, E, O, H> {
    /// Closes the monitor if the seats' shares add up to the books, as they do if the seats have all parts.
    /// The history is a run with as many entries as receipts, ended if a seat met its end. A process may
    /// still be out. Never waits.
    ///
    /// Errors: the shares do not add up to the books. Returns the monitor and the seats.
    pub fn close(
        self,
        seats: Vec<Seat<E, O>>,
    ) -> Result<Closed<B::Kinds, E, H>, Unclosed<B, E, O, H>>
        ensures closed { IfOk result (λ c. IsClosed (family B.Kinds.Kinds) B.Kinds.admits E.net c) }
        ensures receipts { IfOk result (λ c. c.receipts ≡ all_entries seats.items) }
        ensures ended { IfOk result (λ c. EndedIfMet seats.items c.machine.end) }
        ensures seats { IfErr result (λ u. u.seats.items ≡ seats.items) }
        ensures whole { all_parts seats.items ≡ 65536 → IsOk result }
    {
        let Monitor {
            state,
            changed,
            resters,
            roused,
            awake,
            board,
        } = self;
        let mut guarded = state.into_inner();
        let (receipts, _) = guarded.counts();
        if are_booked(&guarded, seats.as_slice()) {
            let (chronicle, publisher) = guarded.into_chronicle();
            let run = BookedRun::new(chronicle, receipts);
            return Ok(Closed::new(run, board, publisher));
        }
        if are_all(seats.as_slice()) {
            if let Some((mut entry_share, mut over_share)) = merge(seats) {
                guarded.audit(&mut entry_share, &mut over_share);
            }
            unreachable!()
        }
        let monitor = Monitor {
            state: Mutex::new(guarded),
            changed,
            resters,
            roused,
            awake,
            board,
        };
        Err(Unclosed { monitor, seats })
    }
}

fn are_booked<B: Body, E: EntryLedger, O: Ledger, H: Keeper>(
    guarded: &Guarded<B, E, O, H>,
    seats: &[Seat<E, O>],
) -> bool
    ensures { IsTrue result ↔ AddUp guarded.now seats.now }
{
    let (_, entries, overs) = totals_of(seats);
    let (len, over_count) = guarded.counts();
    entries == u128::from(len) && overs == u128::from(over_count)
}

fn are_all<E: EntryLedger, O: Ledger>(seats: &[Seat<E, O>]) -> bool
    ensures { IsTrue result ↔ (sum_by (λ (s : Shares). s.parts) seats.now ≡ 65536) }
{
    let (parts, _, _) = totals_of(seats);
    parts == u128::from(PARTS)
}
