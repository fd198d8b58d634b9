//! The standings of the processes, with a queue of the ready ones.
ghost use Rattle.std.specs.Prelude.{◌≡◌, ◌<◌, length, set, replicate, count_by, IsTrue, IfOk, IfSome, IfNone};
ghost use Rattle.std.specs.List.{list_any, list_all};
ghost use Rattle.kpn_state.specs.declared.standing.Standing.TheVariants.{Ready};
ghost use Rattle.kpn_state.specs.Standings.{standing, is_busy, is_live, is_out, is_parked, is_ready, has_stopped};
ghost use Rattle.kpn_state.specs.Rosters.{queue_after, times, HasLeft, IsReady, NoneIsReady, GoesOut, Weighs};

use crate::standing::Standing;
use circular_buffer::HeapCircularBuffer;
use std::alloc::{AllocError, Global};
use std::marker::Model;

/// The standing of each process, with a first-in, first-out queue of the ready ones. Only `new` allocates.
///
/// The numbers of processes out and live are kept; that of the parked follows. So only two calls look at more
/// than one process: `new`, and `update` of a ready process that no longer is, with others queued behind it.
pub struct Roster {
    standings: Vec<Standing>,
    // Kept apart from `live`: side by side they would be loaded as one value of 16 bytes, and such a load
    // stalls if one of them was just stored alone.
    out: usize,
    queue: HeapCircularBuffer<usize>,
    live: usize,
}

// Written out, so that each drop is one call, proved once, and not a drop of each field.
impl Drop for Roster {
    fn drop(self) {
        let Roster {
            standings: _,
            out: _,
            queue: _,
            live: _,
        } = self;
    }
}

impl Model for Roster {
    ghost use Rattle.std.specs.Prelude.{List};
    ghost use Rattle.kpn_state.specs.declared.standing.Standing.{Standing as StandingV};
    ghost use Rattle.kpn_state.specs.Rosters.{Agrees};

    ghost Value = { List StandingV };

    ghost view = { λ r. r.standings.items };

    ghost invariant = { λ r. Agrees r.standings.items r.queue.items r.queue.capacity r.out r.live };
}

impl Roster {
    /// Makes the standings of `count` processes, all ready and queued in order. Errors: out of memory.
    pub fn new(alloc: Global, count: usize) -> Result<Roster, AllocError>
        ensures { IfOk result (λ r. r ≡ replicate count Ready) }
    {
        let mut standings = Vec::with_capacity(alloc, count)?;
        let mut queue = HeapCircularBuffer::with_capacity(alloc, count)?;
        for process in 0..count {
            standings.push(Standing::Ready)?;
            enqueue(&mut queue, process, &Standing::Ready);
        }
        Ok(Roster {
            standings,
            out: 0,
            queue,
            live: count,
        })
    }

    /// Returns the standing of each process, in order.
    pub fn as_slice(&self) -> &[Standing]
        ensures value { result.now ≡ self.now }
    {
        self.standings.as_slice()
    }

    /// Whether some process is ready or out.
    pub fn any_busy(&self) -> bool
        ensures { result ≡ list_any is_busy self.now }
    {
        self.ready() + self.out > 0
    }

    /// Whether all processes have stopped.
    pub fn all_stopped(&self) -> bool
        ensures { result ≡ list_all has_stopped self.now }
    {
        self.live == 0
    }

    /// Returns the number of ready processes.
    pub fn ready(&self) -> usize
        ensures { result ≡ count_by is_ready self.now }
    {
        self.queue.len()
    }

    /// Returns the number of processes that are out.
    pub fn out(&self) -> usize
        ensures { result ≡ count_by is_out self.now }
    {
        self.out
    }

    /// Returns the number of live processes, those that have not stopped.
    pub fn live(&self) -> usize
        ensures { result ≡ count_by is_live self.now }
    {
        self.live
    }

    /// Returns the number of parked processes: live, but neither ready nor out.
    pub fn parked(&self) -> usize
        ensures { result ≡ count_by is_parked self.now }
    {
        self.live - self.ready() - self.out
    }

    /// Sends out the first process of the queue, and returns its number; `None` if none is ready.
    pub fn send_out(&mut self) -> Option<usize>
        ensures some { IfSome result (λ p. GoesOut self.old p self.new) }
        ensures none { IfNone result (NoneIsReady self.old × (self.new ≡ self.old)) }
    {
        let process = self.queue.pop_front()?;
        self.standings[process] = Standing::Out;
        self.out += 1;
        Some(process)
    }

    /// Returns a ready process: `again` if it is given, else the first of the queue, which moves to its end;
    /// `None` if none is ready. No standing changes.
    #[inline(always)]
    pub fn turn(&mut self, again: Option<usize>) -> Option<usize>
        requires { IfSome again (λ p. standing self.old p ≡ Ready) }
        ensures some { IfSome result (IsReady self.old) }
        ensures none { IfNone result (NoneIsReady self.old) }
        ensures same { self.new ≡ self.old }
    {
        if let Some(process) = again {
            return Some(process);
        }
        let process = self.queue.pop_front()?;
        enqueue(&mut self.queue, process, &Standing::Ready);
        Some(process)
    }

    /// Returns the process if it is ready.
    #[inline(always)]
    pub fn if_ready(&self, process: usize) -> Option<usize>
        ensures { IfSome result (λ p. standing self.now p ≡ Ready) }
    {
        match self.standings.get(process) {
            Some(Standing::Ready) => Some(process),
            _ => None,
        }
    }

    /// Sets the standing of a process. If it becomes ready, it joins the end of the queue; if it stays ready,
    /// it keeps its place.
    #[inline(always)]
    pub fn update(&mut self, process: usize, next: Standing)
        requires { process < length self.old }
        ensures { self.new ≡ set self.old process next }
    {
        match self.standings[process] {
            Standing::Ready => self.update_ready(process, next),
            Standing::Out | Standing::Parked(_) | Standing::Stopped => {
                let before = self.standings[process];
                self.out = self.out - out_weight(&before) + out_weight(&next);
                self.live = self.live + stopped_weight(&before) - stopped_weight(&next);
                enqueue(&mut self.queue, process, &next);
                self.standings[process] = next;
            }
        }
    }

    #[inline(always)]
    fn update_ready(&mut self, process: usize, next: Standing)
        requires process { process < length self.old }
        requires ready { standing self.old process ≡ Ready }
        ensures { self.new ≡ set self.old process next }
    {
        match next {
            Standing::Ready => {}
            Standing::Out | Standing::Parked(_) | Standing::Stopped => {
                withdraw(&mut self.queue, process);
                self.out += out_weight(&next);
                self.live -= stopped_weight(&next);
                self.standings[process] = next;
            }
        }
    }
}

fn out_weight(standing: &Standing) -> usize
    ensures { Weighs (is_out standing.now) result }
{
    match standing {
        Standing::Out => 1,
        Standing::Ready | Standing::Parked(_) | Standing::Stopped => 0,
    }
}

fn stopped_weight(standing: &Standing) -> usize
    ensures { Weighs (has_stopped standing.now) result }
{
    match standing {
        Standing::Stopped => 1,
        Standing::Ready | Standing::Out | Standing::Parked(_) => 0,
    }
}

fn enqueue(queue: &mut HeapCircularBuffer<usize>, process: usize, standing: &Standing)
    requires { IsTrue (is_ready standing.now) → length queue.old.items < queue.old.capacity }
    ensures items { queue.new.items ≡ queue_after queue.old.items process standing.now }
    ensures room { queue.new.capacity ≡ queue.old.capacity }
{
    if let Standing::Ready = standing {
        if queue.try_push_back(process).is_err() {
            unreachable!()
        }
    }
}

#[inline(always)]
fn withdraw(queue: &mut HeapCircularBuffer<usize>, process: usize)
    requires { times queue.old.items process ≡ 1 }
    ensures { HasLeft process queue.old queue.new }
{
    if let Some(last) = queue.back() {
        if *last == process {
            queue.pop_back();
            return;
        }
    }
    sift(queue, process);
}

/// Removes a process from the queue, wherever it is; the others keep their order.
#[cold]
#[inline(never)]
fn sift(queue: &mut HeapCircularBuffer<usize>, process: usize)
    ensures { HasLeft process queue.old queue.new }
{
    for _seen in 0..queue.len() {
        let Some(first) = queue.pop_front() else {
            unreachable!()
        };
        if first != process {
            queue.push_back(first);
        }
    }
}
