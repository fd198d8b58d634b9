//! The machine.
ghost use Rattle.std.specs.Prelude.{count_by, ◌≡◌, ◌≢◌, ℕ, ◌<◌, ◌≤◌, ◌+◌, ◌↔◌, length, set, map, option_map, None, IfSome, IfNone, IfErr, IfOk, OnOk, IsTrue};
ghost use Rattle.kpn_model.specs.Network.{card_of};
ghost use Rattle.kpn_model.specs.Families.{family};
ghost use Rattle.kpn_model.specs.History.{growths as growths_of};
ghost use Rattle.kpn_model.specs.Semantics.{status};
ghost use Rattle.kpn_machine.specs.Opening.{cards_of, Opens, IsOpenRefused, opened_view};
ghost use Rattle.kpn_model.specs.declared.history.Status.TheVariants.{Live};
ghost use Rattle.kpn_state.specs.declared.standing.Standing.TheVariants.{Out, Ready};
ghost use Rattle.kpn_state.specs.Standings.{standing, is_out, is_ready, StandingsFit};
ghost use Rattle.kpn_body.specs.Input.{input, answer_to};
ghost use Rattle.kpn_machine.specs.MachineView.{machine_view, IsOut, MayGoOut, TakesOut, IsFaithful, IsFresh, IsOutIn};
ghost use Rattle.kpn_machine.specs.Commits.{Commits, CommitsOn, Appends, EndsAs, ContinuesRun, GoesOn, TellsEnabled, entries_appended, OthersStayOut, CannotCommitOn, GoesSoManyRounds};
ghost use Rattle.kpn_machine.specs.Finishing.{FinishesAlone};

use crate::asking::ask_ready;
use crate::chronicle::Chronicle;
use crate::equality::{is_live_with, same_card};
use crate::opening::{OpenFault, Start, bodies_fault, prepare, seat_all};
use kpn_body::{Body, Finished, Task};
use kpn_commit::work::{settle, work, work_on};
use kpn_commit::{Core, Outcome};
use kpn_laws::{least_room_of, least_solution_of, typed_runs, valid_runs};
use kpn_model::{Answer, Card, End, Entry, Kinds, Local, Status, Token};
use kpn_network::Net;
use kpn_state::standing::all_ready;
use kpn_state::{Keeper, Roster, Standing, Store, Wide};
use std::alloc::Global;
use std::marker::Model;

/// A network at work: gives out processes one at a time, and commits their answers. `H` keeps its entries.
pub struct Machine<B: Body, H: Keeper = Wide> {
    net: Net<B::Kinds>,
    core: Core<H>,
    /// The body of each process that is not out.
    bodies: Vec<Option<B>>,
    /// The emptied vector of the bodies, for `into_parts`.
    spare: Vec<B>,
    end: Option<End>,
    commits: u64,
    /// The process to ask next in place if it is ready then: it has just read.
    again: Option<usize>,
}

// Written out, so that a drop is one call, proved once. Else owners' proofs would mostly drop its fields.
impl<B: Body, H: Keeper> Drop for Machine<B, H> {
    fn drop(self) {
        let Machine {
            net: _,
            core: _,
            bodies: _,
            spare: _,
            end: _,
            commits: _,
            again: _,
        } = self;
    }
}

impl<B: Body, H: Keeper> Model for Machine<B, H> {
    ghost use Rattle.std.specs.Prelude.{map, option_map};
    ghost use Rattle.std.specs.Vec.{vec_capacity};
    ghost use Rattle.kpn_commit.specs.Waiting.{AreWaiting};
    ghost use Rattle.kpn_machine.specs.MachineView.{MachineView, machine_view, IsSound, HasSpareCapacity};
    ghost use Rattle.kpn_model.specs.Families.{family};

    ghost Value = { MachineView };

    ghost view = { λ m. machine_view m.net m.core.store.state m.core.store.history m.core.standings m.end m.commits };

    ghost invariant = { λ m. IsSound (family B.Kinds.Kinds) B.Kinds.admits (machine_view m.net m.core.store.state m.core.store.history m.core.standings m.end m.commits) m.core.store.limit (map (option_map B.card) m.bodies.items) × HasSpareCapacity m.net m.spare.items (vec_capacity m.spare) × AreWaiting m.net m.core.store.state m.core.standings m.core.waiting };
}

/// Why a machine was not opened, with the unchanged network and bodies.
#[derive(Drop)]
pub struct OpenRefused<B: Body> {
    pub net: Net<B::Kinds>,
    pub bodies: Vec<B>,
    pub fault: OpenFault,
}

/// An answer that was not asked for.
#[derive(Drop)]
pub struct Stranger<B: Body> {
    pub finished: Finished<B>,
}

impl<B: Body> Machine<B> {
    /// Opens a machine at the start of a network, with a body for each process, in order. All processes are
    /// ready, and the channels hold their start tokens. Allocates all memory but that of growths.
    ///
    /// Errors: the first of `Bodies`, `Card` and `Memory` that applies, with the unchanged network and bodies.
    ///
    /// ```text
    /// let Ok(mut machine) = Machine::open(alloc, net, bodies) else {
    ///     return Err(AllocError);
    /// };
    /// ```
    pub fn open(
        alloc: Global,
        net: Net<B::Kinds>,
        bodies: Vec<B>,
    ) -> Result<Machine<B>, OpenRefused<B>>
        ensures opens { IfOk result (Opens (family B.Kinds.Kinds) net (map B.card bodies.items)) }
        ensures refused { IfErr result (IsOpenRefused B.card net bodies.items) }
    {
        Machine::<B, Wide>::open_with_keeper(alloc, net, bodies)
    }

    /// Returns the entries so far.
    pub fn history(&self) -> &[Entry]
        ensures { result.now ≡ self.now.history }
    {
        self.core.store.history()
    }
}

impl<B: Body, H: Keeper> Machine<B, H> {
    /// Opens a machine like `open`, with its entries kept by `H`.
    ///
    /// ```text
    /// let Ok(mut machine) = Machine::<B, Packed>::open_with_keeper(alloc, net, bodies) else {
    ///     return Err(AllocError);
    /// };
    /// ```
    pub fn open_with_keeper(
        alloc: Global,
        net: Net<B::Kinds>,
        mut bodies: Vec<B>,
    ) -> Result<Machine<B, H>, OpenRefused<B>>
        ensures opened { IfOk result (λ m. m ≡ opened_view (family B.Kinds.Kinds) net) }
        ensures fresh { IfOk result IsFresh }
        ensures cards { OnOk result (map B.card bodies.items ≡ cards_of net.processes) }
        ensures refused { IfErr result (IsOpenRefused B.card net bodies.items) }
    {
        if let Some(fault) = bodies_fault(&net, bodies.as_slice()) {
            return Err(OpenRefused { net, bodies, fault });
        }
        net.assure_valid();
        let Ok(start) = prepare::<B, H>(alloc, &net, net.budget() as usize + 2) else {
            return Err(OpenRefused {
                net,
                bodies,
                fault: OpenFault::Memory,
            });
        };
        let Start { core, mut slots } = start;
        seat_all(&mut bodies, &mut slots);
        Ok(Machine {
            net,
            core,
            bodies: slots,
            spare: bodies,
            end: None,
            commits: 0,
            again: None,
        })
    }

    /// Returns how the run ended; `None` if it did not.
    pub fn end(&self) -> Option<End>
        ensures end { result ≡ self.now.end }
        ensures faithful { IsFaithful (family B.Kinds.Kinds) B.Kinds.admits self.now }
    {
        self.assure_faithful();
        self.end
    }

    /// Ghost lemma: what always holds of a machine.
    pub fn assure_faithful(&self)
        ensures faithful { IsFaithful (family B.Kinds.Kinds) B.Kinds.admits self.now }
    {
        self.net.assure_valid();
        valid_runs();
        typed_runs::<B::Kinds>();
    }

    /// Returns the keeper of the entries.
    pub fn keeper(&self) -> &H
        ensures { H.entries result.now ≡ self.now.history }
    {
        self.core.store.keeper()
    }

    /// Returns the number of entries so far.
    #[inline(always)]
    pub fn entries(&self) -> usize
        ensures { result ≡ length self.now.history }
    {
        self.core.store.entries()
    }

    /// Returns the number of growths among the entries so far.
    #[inline(always)]
    pub fn growths(&self) -> usize
        ensures { result ≡ length (growths_of self.now.history) }
    {
        self.core.store.growths()
    }

    /// Returns the network.
    pub fn net(&self) -> &Net<B::Kinds>
        ensures { result.now ≡ self.now.network }
    {
        &self.net
    }

    /// Returns the standing of each process.
    pub fn standings(&self) -> &[Standing]
        ensures { result.now ≡ self.now.standings }
    {
        self.core.standings.as_slice()
    }

    /// Returns the number of ready processes.
    pub fn ready(&self) -> usize
        ensures { result ≡ count_by is_ready self.now.standings }
    {
        self.core.standings.ready()
    }

    /// Returns the number of processes that are out.
    pub fn out(&self) -> usize
        ensures { result ≡ count_by is_out self.now.standings }
    {
        self.core.standings.out()
    }

    /// Whether the machine is as it was opened: no entry, no commit, no end, and all processes ready.
    pub fn is_fresh(&self) -> bool
        ensures { IsTrue result ↔ IsFresh self.now }
    {
        self.core.store.entries() == 0
            && self.commits == 0
            && self.end.is_none()
            && all_ready(self.core.standings.as_slice())
    }

    /// Returns the number of answers taken.
    pub fn commits(&self) -> u64
        ensures { result ≡ self.now.commits }
    {
        self.commits
    }
}

impl<B: Body, H: Keeper> Machine<B, H> {
    /// Sends a ready process out and returns its task; `None`, with nothing changed, if the run has ended or
    /// no process is ready. No contract says which ready process is taken.
    #[inline(always)]
    pub fn take(&mut self) -> Option<Task<B>>
        ensures some { IfSome result (λ task. (self.old.end ≡ None) × TakesOut self.old task self.new) }
        ensures none { IfNone result (self.old.end ≡ None → (p : ℕ) → standing self.old.standings p ≢ Ready) }
        ensures same { IfNone result (self.new ≡ self.old) }
    {
        if self.end.is_some() {
            return None;
        }
        let process = self.core.standings.send_out()?;
        Some(take_out(&self.net, &self.core.store, &mut self.bodies, process))
    }
}

fn take_out<B: Body, H: Keeper>(
    net: &Net<B::Kinds>,
    store: &Store<H>,
    bodies: &mut Vec<Option<B>>,
    process: usize,
) -> Task<B>
    requires may { MayGoOut B.Kinds.admits net.now store.now.state (map (option_map B.card) bodies.old.items) process }
    requires bodies { process < length bodies.old.items }
    ensures process { result.process ≡ process }
    ensures card { card_of net.now process ≡ result.card }
    ensures live { status store.now.state process ≡ Live result.local result.last }
    ensures bodies { bodies.new.items ≡ set bodies.old.items process None }
{
    let Status::Live { local, last } = store.status(process) else {
        unreachable!()
    };
    let Some(body) = bodies[process].take() else {
        unreachable!()
    };
    Task::new(process, body, *local, *last)
}

/// What a task, or one that was called, holds beside its body.
#[derive(Clone, Copy)]
struct Input {
    process: usize,
    card: Card,
    local: Local,
    last: Option<Token>,
}

#[inline(always)]
fn is_out_with<K: Kinds, H: Keeper>(net: &Net<K>, core: &Core<H>, held: Input) -> bool
    requires keeps { StandingsFit (family K.Kinds) K.admits net.now None core.now.store.state core.now.standings }
    ensures { IsTrue result ↔ IsOutIn net.now core.now (input held.process held.card held.local held.last) }
{
    let standings = core.standings.as_slice();
    if held.process >= standings.len() {
        return false;
    }
    match standings[held.process] {
        Standing::Out => {}
        Standing::Ready | Standing::Parked(_) | Standing::Stopped => return false,
    }
    if !same_card(net.card(held.process), held.card) {
        return false;
    }
    is_live_with(core.store.status(held.process), held.local, held.last)
}

impl<B: Body, H: Keeper> Machine<B, H> {
    /// Whether the process of an answer is out, with its card, local state and last token.
    #[inline(always)]
    pub fn has_asked(&self, finished: &Finished<B>) -> bool
        ensures { IsTrue result ↔ IsOut self.now finished.now }
    {
        let held = Input {
            process: finished.process(),
            card: finished.card(),
            local: finished.local(),
            last: finished.last(),
        };
        is_out_with(&self.net, &self.core, held)
    }

    /// Whether the process of a task is out, with its card, local state and last token.
    #[inline(always)]
    pub fn has_sent(&self, task: &Task<B>) -> bool
        ensures { IsTrue result ↔ IsOut self.now task.now }
    {
        let held = Input {
            process: task.process(),
            card: task.card(),
            local: task.local(),
            last: task.last(),
        };
        is_out_with(&self.net, &self.core, held)
    }

    /// Takes the answer of a process that is out, and returns what it did.
    ///
    /// If the run has ended, the process is ready again. Otherwise its act is done, or else the process is
    /// parked with its answer. If the deed enables the parked process at the other end of the channel, that
    /// does its deed next. If no process is then ready or out, the run ends, or the chosen channel grows and
    /// its writer's put is done (Parks 1995). The run also ends if the budget is then spent. Takes no memory
    /// except that of a growth.
    ///
    /// Errors: the process is not out with this card, local state and last token. Nothing has then changed,
    /// and the answer is returned.
    #[inline(always)]
    pub fn commit(&mut self, finished: Finished<B>) -> Result<Outcome, Stranger<B>>
        ensures stranger { IfErr result (λ stranger. (stranger.finished ≡ finished) × (self.new ≡ self.old)) }
        ensures deserved { IfErr result (λ _. IsOut self.old finished → ⊥) }
        ensures out { OnOk result (IsOut self.old finished) }
        ensures commits { IfOk result (λ outcome. Commits (family B.Kinds.Kinds) self.old finished outcome self.new) }
        ensures appends { IfOk result (λ o. Appends (family B.Kinds.Kinds) self.old self.new (entries_appended o)) }
        ensures tells { IfOk result (TellsEnabled (family B.Kinds.Kinds) self.old finished.process) }
        ensures ends { OnOk result (self.old.end ≡ None → EndsAs (family B.Kinds.Kinds) self.new) }
        ensures back { OnOk result (standing self.new.standings finished.process ≢ Out) }
        ensures others { OnOk result (OthersStayOut self.old self.new finished.process) }
    {
        if !self.has_asked(&finished) {
            return Err(Stranger { finished });
        }
        Ok(self.commit_asked(finished))
    }

    /// Takes an answer like `commit`. Its process must be out with its card, local state and last token.
    #[inline(always)]
    pub fn commit_asked(&mut self, finished: Finished<B>) -> Outcome
        requires { IsOut self.old finished }
        ensures commits { Commits (family B.Kinds.Kinds) self.old finished result self.new }
        ensures appends { Appends (family B.Kinds.Kinds) self.old self.new (entries_appended result) }
        ensures tells { TellsEnabled (family B.Kinds.Kinds) self.old finished.process result }
        ensures ends { self.old.end ≡ None → EndsAs (family B.Kinds.Kinds) self.new }
        ensures back { standing self.new.standings finished.process ≢ Out }
        ensures others { OthersStayOut self.old self.new finished.process }
    {
        self.net.assure_valid();
        let process = finished.process();
        let answer = finished.answer();
        self.bodies[process] = Some(finished.into_body());
        self.commits += 1;
        if self.end.is_some() {
            lay_back(&mut self.core.standings, process);
            return Outcome::LaidBack;
        }
        let (outcome, end) = work(&self.net, &mut self.core, process, answer);
        self.end = end;
        outcome
    }
}

impl<B: Body, H: Keeper> Machine<B, H> {
    /// Takes the answer of a task like `commit_asked`, and sends its process out again with the same body, as
    /// the next task. Returns the outcome; `None`, with nothing changed, if the answer is a stop or can't be
    /// done, if the run has ended, or if the budget has no room for three more entries. The process must be
    /// out with the task's card, local state and last token (`has_sent`).
    #[inline(always)]
    pub fn commit_on(&mut self, task: &mut Task<B>, answer: Answer) -> Option<Outcome>
        requires out { IsOut self.old task.old }
        requires answer { answer ≡ answer_to (family B.Kinds.Kinds) task.old }
        ensures goes { IfSome result (λ o. CommitsOn (family B.Kinds.Kinds) self.old task.old o task.new self.new) }
        ensures cannot { IfNone result (CannotCommitOn (family B.Kinds.Kinds) self.old task.old.process answer) }
        ensures same { IfNone result ((self.new ≡ self.old) × (task.new ≡ task.old)) }
    {
        self.net.assure_valid();
        if self.end.is_some() {
            return None;
        }
        let process = task.process();
        let outcome = work_on(&self.net, &mut self.core, process, answer)?;
        self.commits += 1;
        let Status::Live { local, last } = self.core.store.status(process) else {
            unreachable!()
        };
        task.renew(*local, *last);
        Some(outcome)
    }
}

impl<B: Body, H: Keeper> Machine<B, H> {
    /// Takes back a task without an answer: its process is ready again. It must be out with the task's card,
    /// local state and last token (`has_sent`).
    pub fn take_back(&mut self, task: Task<B>)
        requires { IsOut self.old task }
        ensures { self.new ≡ record self.old { standings = set self.old.standings task.process Ready } }
    {
        let process = task.process();
        self.bodies[process] = Some(task.into_body());
        lay_back(&mut self.core.standings, process);
    }
}

#[inline(always)]
fn lay_back(standings: &mut Roster, process: usize)
    requires { process < length standings.old }
    ensures { standings.new ≡ set standings.old process Ready }
{
    standings.update(process, Standing::Ready);
}

impl<B: Body, H: Keeper> Machine<B, H> {
    /// Returns the network and, in order, bodies of its cards. The machine must be as it was opened. Takes no
    /// memory.
    pub fn into_parts(self) -> (Net<B::Kinds>, Vec<B>)
        requires { IsFresh self }
        ensures net { result.0 ≡ self.network }
        ensures bodies { map B.card result.1.items ≡ cards_of self.network.processes }
    {
        let Machine {
            net,
            core: _,
            mut bodies,
            mut spare,
            end: _,
            commits: _,
            again: _,
        } = self;
        for p in 0..net.processes() {
            let Some(body) = bodies[p].take() else {
                unreachable!()
            };
            spare.push_reserved(body);
        }
        (net, spare)
    }
}

impl<B: Body, H: Keeper> Machine<B, H> {
    /// Returns the machine without its bodies. Takes no memory.
    pub fn into_chronicle(self) -> Chronicle<B::Kinds, H>
        ensures { result ≡ self }
    {
        self.assure_faithful();
        let Machine {
            net,
            core,
            bodies: _,
            spare: _,
            end,
            commits,
            again: _,
        } = self;
        let Core {
            store,
            standings,
            waiting: _,
        } = core;
        Chronicle::new(net, store, standings, end, commits)
    }
}

/// Notes an end that was found. Mostly there is none, and nothing is written.
#[inline(always)]
fn note_end(end: &mut Option<End>, found: Option<End>)
    requires { end.old ≡ None }
    ensures { end.new ≡ found }
{
    if found.is_some() {
        *end = found;
    }
}

impl<B: Body, H: Keeper> Machine<B, H> {
    /// Asks ready processes in place, until `most` answers were taken, the budget is spent or no process is
    /// ready; then settles the run. Returns the number of answers taken. The run must not have ended.
    fn go_on(&mut self, most: u64) -> u64
        requires { self.old.end ≡ None }
        ensures { GoesOn (family B.Kinds.Kinds) self.old most result self.new }
    {
        self.net.assure_valid();
        let budget = self.net.budget();
        let mut again = self.asked_last();
        let asked = ask_ready(
            &self.net,
            &mut self.core,
            self.bodies.as_slice(),
            &mut again,
            most,
            budget as usize,
        );
        let (_, ended) = settle(&self.net, &mut self.core);
        self.commits += asked;
        note_end(&mut self.end, ended);
        self.again = again;
        asked
    }

    /// Runs to an end in the calling thread. No process may be out. If capacity b suffices for the network, no
    /// channel of capacity b or more grows (Parks 1995; docs/least-room.md). The streams are below every
    /// solution of the network's equations, and at a natural end the least one (Kahn 1974;
    /// docs/least-solution.md).
    ///
    /// ```text
    /// machine.finish_alone();
    /// Ok(machine.history().len() as u64)
    /// ```
    pub fn finish_alone(&mut self)
        requires { count_by is_out self.old.standings ≡ 0 }
        ensures { FinishesAlone (family B.Kinds.Kinds) B.Kinds.admits self.old self.new }
    {
        while self.end().is_none() {
            self.go_on(u64::MAX);
        }
        least_room_of::<B::Kinds>();
        least_solution_of::<B::Kinds>();
    }

    fn asked_last(&self) -> Option<usize>
        ensures { IfSome result (λ p. standing self.now.standings p ≡ Ready) }
    {
        self.core.standings.if_ready(self.again?)
    }

    #[inline(always)]
    fn is_to_go_on(&self, taken: u64, most: u64) -> bool
        ensures { IsTrue result ↔ (taken < most) × (self.now.end ≡ None) }
    {
        taken < most && self.end.is_none()
    }

    /// Asks ready processes where their bodies are, one after the other, and takes their answers like
    /// `commit`, until `most` answers were taken, no process is ready or the run has ended. Returns how many
    /// were taken. Processes that are out stay out. No contract says which ready process is asked. Takes no
    /// memory except that of growths.
    pub fn ask_in_place(&mut self, most: u64) -> u64
        ensures rounds { GoesSoManyRounds (family B.Kinds.Kinds) self.old result self.new }
        ensures goes { ContinuesRun (family B.Kinds.Kinds) self.old self.new }
        ensures commits { self.new.commits ≡ self.old.commits + result }
        ensures most { result ≤ most }
        ensures fewer { result < most → self.new.end ≡ None → (p : ℕ) → standing self.new.standings p ≢ Ready }
        ensures out { (p : ℕ) → (standing self.new.standings p ≡ Out) ↔ (standing self.old.standings p ≡ Out) }
        ensures ended { self.old.end ≢ None → result ≡ 0 }
        ensures none { result ≡ 0 → self.new ≡ self.old }
        ensures faithful { IsFaithful (family B.Kinds.Kinds) B.Kinds.admits self.new }
    {
        let mut taken = 0;
        while self.is_to_go_on(taken, most) {
            let asked = self.go_on(most - taken);
            if asked == 0 {
                break;
            }
            taken += asked;
        }
        self.assure_faithful();
        taken
    }
}
