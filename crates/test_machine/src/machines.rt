//! Rows on a machine, each a call and what it returns, in the order of the file.
use crate::networks::Networks;
use kpn_body::{Body, Finished, Task};
use kpn_compute::{CardBody, Computes};
use kpn_machine::{Machine, cards_of};
use kpn_net::{Card, Entry, Kinds};
use kpn_report::places_of;
use kpn_standard::Standard;
use std::alloc::Global;
use std::cell::Cell;
use std::fmt::Write;
use std::mem;
use test_kit::{Cells, Subject};

type CardMachine = Machine<CardBody<Standard>>;

type CardTask = Task<CardBody<Standard>>;

type CardFinished = Finished<CardBody<Standard>>;

/// What the calls of a scene have made: a machine and another one, tasks of processes that are out, answers in the
/// order in which they came, and a task of no machine.
#[derive(Drop)]
struct Scene {
    machine: Option<CardMachine>,
    other: Option<CardMachine>,
    tasks: Vec<CardTask>,
    answers: Vec<CardFinished>,
    strange: Option<CardTask>,
}

#[derive(Drop)]
pub(crate) struct Machines<'a> {
    networks: &'a Networks,
    scene: Cell<Option<Scene>>,
}

impl<'a> Machines<'a> {
    pub(crate) fn new(networks: &'a Networks) -> Machines<'a> {
        Machines {
            networks,
            scene: Cell::new(None),
        }
    }
}

impl Subject for Machines<'_> {
    fn answer(&self, alloc: Global, question: &mut Cells<'_>, answer: &mut String) {
        let mut scene = match self.scene.replace(None) {
            Some(scene) => scene,
            None => Scene {
                machine: None,
                other: None,
                tasks: Vec::new(alloc),
                answers: Vec::new(alloc),
                strange: None,
            },
        };
        match question.word() {
            "open" => scene.open(alloc, self.networks, question, answer),
            "strange" => {
                scene.strange = strange_of(alloc, self.networks, question.word());
                if let Some(task) = &scene.strange {
                    show_task(answer, task);
                }
            }
            "strange_answer" => scene.answer_strange(answer),
            "swap" => {
                mem::swap(&mut scene.machine, &mut scene.other);
                let _ = answer.push_str("swapped");
            }
            "reopen" => scene.reopen(alloc, answer),
            "chronicle" => scene.tell(answer),
            "answer" => {
                scene.ask_for(question);
                if let Some(finished) = scene.answers.as_slice().last() {
                    show_answer(answer, finished);
                }
            }
            "commit" => {
                scene.ask_for(question);
                scene.commit(false, answer);
            }
            "commit_first" => scene.commit(true, answer),
            "commit_last" => scene.commit(false, answer),
            "commit_asked" => scene.commit_asked(answer),
            "go_on" => scene.go_on(answer),
            "take_back" => scene.take_back(answer),
            other => scene.call(alloc, other, question, answer),
        }
        self.scene.set(Some(scene));
    }
}

/// The first task of the first process of a network, with a body of no machine.
fn strange_of(alloc: Global, networks: &Networks, name: &str) -> Option<CardTask> {
    let mut parts = networks.parts(alloc, name)?;
    parts.bodies.reverse();
    Some(unsent(parts.bodies.pop()?))
}

fn unsent<K: Computes>(body: CardBody<K>) -> Task<CardBody<K>> {
    let card = body.card();
    let start = K::start(&card);
    K::starts(card);
    Task::new(0, body, start, None)
}

fn show_task(answer: &mut String, task: &CardTask) {
    let card = task.card();
    let _ = write!(
        answer,
        "{} {} {:?} {:?} {:?}",
        task.process(),
        card.kind,
        card.args,
        task.local(),
        task.last()
    );
}

fn show_answer(answer: &mut String, finished: &CardFinished) {
    let card = finished.card();
    let _ = write!(
        answer,
        "{} {} {:?} {:?} {:?}",
        finished.process(),
        card.kind,
        card.args,
        finished.local(),
        finished.last()
    );
}

fn show_cards(answer: &mut String, bodies: &[CardBody<Standard>]) {
    for body in bodies {
        let card: Card = body.card();
        let _ = write!(answer, " {}{:?}", card.kind, card.args);
    }
}

impl Scene {
    /// Opens a machine, and says `opened`, or the fault, its number, and what comes back.
    fn open(
        &mut self,
        alloc: Global,
        networks: &Networks,
        question: &mut Cells<'_>,
        answer: &mut String,
    ) {
        let Some(parts) = networks.parts_in(alloc, question) else {
            question.is_bad();
            return;
        };
        match Machine::open(alloc, parts.net, parts.bodies) {
            Ok(machine) => {
                self.machine = Some(machine);
                self.tasks.clear();
                self.answers.clear();
                let _ = answer.push_str("opened");
            }
            Err(refused) => {
                let fault = refused.fault;
                let _ = write!(
                    answer,
                    "{fault:?} {} {}",
                    fault.number(),
                    refused.net.processes()
                );
                show_cards(answer, refused.bodies.as_slice());
            }
        }
    }

    /// Takes a fresh machine apart, and opens it again.
    fn reopen(&mut self, alloc: Global, answer: &mut String) {
        let Some(machine) = self.machine.take() else {
            return;
        };
        if !machine.is_fresh() {
            let _ = answer.push_str("not fresh");
            return;
        }
        let (net, bodies) = machine.into_parts();
        if let Ok(cards) = cards_of(alloc, &net) {
            let _ = write!(answer, "{:?}", cards.as_slice());
        }
        show_cards(answer, bodies.as_slice());
        if let Ok(machine) = Machine::open(alloc, net, bodies) {
            let _ = write!(answer, " {}", machine.is_fresh());
            self.machine = Some(machine);
        }
    }

    /// What a machine leaves: processes, end, standings, how many entries and the first.
    fn tell(&mut self, answer: &mut String) {
        let Some(machine) = self.machine.take() else {
            return;
        };
        let chronicle = machine.into_chronicle();
        let _ = write!(
            answer,
            "{} {:?} {:?} {} {:?}",
            chronicle.net().processes(),
            chronicle.end(),
            chronicle.standings(),
            chronicle.history().len(),
            chronicle.history().first()
        );
    }

    fn answer_strange(&mut self, answer: &mut String) {
        if let Some(task) = self.strange.take() {
            if self.answers.push(task.call()).is_ok() {
                let _ = answer.push_str("called");
            }
        }
    }

    /// Takes two processes, as far as they are ready, and keeps the answer of one that is out.
    fn ask_for(&mut self, question: &mut Cells<'_>) {
        let process = question.below(64);
        for _ in 0..2 {
            if let Some(machine) = &mut self.machine {
                if let Some(task) = machine.take() {
                    if self.tasks.push(task).is_err() {
                        question.is_bad();
                    }
                }
            }
        }
        let place = self.tasks.iter().position(|task| task.process() == process);
        let is_kept = match place {
            Some(place) => self
                .answers
                .push(self.tasks.swap_remove(place).call())
                .is_ok(),
            None => false,
        };
        if !is_kept {
            question.is_bad();
        }
    }

    /// Commits the first or the last answer that is kept: tells the outcome; or keeps it again, and tells what was asked.
    fn commit(&mut self, is_first: bool, answer: &mut String) {
        if is_first {
            self.answers.reverse();
        }
        let (Some(machine), Some(finished)) = (&mut self.machine, self.answers.pop()) else {
            return;
        };
        match machine.commit(finished) {
            Ok(outcome) => {
                let _ = write!(answer, "{outcome:?}");
            }
            Err(stranger) => {
                let _ = answer.push_str("stranger ");
                show_answer(answer, &stranger.finished);
                let _ = self.answers.push(stranger.finished);
            }
        }
        if is_first {
            self.answers.reverse();
        }
    }

    /// Commits the last answer, which the machine has asked for.
    fn commit_asked(&mut self, answer: &mut String) {
        let (Some(machine), Some(finished)) = (&mut self.machine, self.answers.pop()) else {
            return;
        };
        if machine.has_asked(&finished) {
            let _ = write!(answer, "{:?}", machine.commit_asked(finished));
        }
    }

    /// Asks the last task that is out, and commits the answer so that the process goes out again.
    fn go_on(&mut self, answer: &mut String) {
        let (Some(machine), Some(task)) = (&mut self.machine, self.tasks.as_mut_slice().last_mut())
        else {
            return;
        };
        if machine.has_sent(task) {
            let next = task.ask();
            let _ = write!(answer, "{:?}", machine.commit_on(task, next));
        }
    }

    /// Takes the last task back without an answer.
    fn take_back(&mut self, answer: &mut String) {
        let (Some(machine), Some(task)) = (&mut self.machine, self.tasks.pop()) else {
            return;
        };
        if machine.has_sent(&task) {
            machine.take_back(task);
            let _ = answer.push_str("back");
        }
    }

    /// A call of the machine that gives up nothing.
    fn call(&mut self, alloc: Global, what: &str, question: &mut Cells<'_>, answer: &mut String) {
        let Some(machine) = &mut self.machine else {
            question.is_bad();
            return;
        };
        let _ = match what {
            "take" => {
                match machine.take() {
                    Some(task) => {
                        show_task(answer, &task);
                        if self.tasks.push(task).is_err() {
                            question.is_bad();
                        }
                    }
                    None => {
                        let _ = answer.push_str("none");
                    }
                }
                Ok(())
            }
            "ask" => write!(answer, "{}", machine.ask_in_place(question.number())),
            "finish" => {
                if machine.out() == 0 {
                    machine.finish_alone();
                }
                write!(answer, "{:?}", machine.end())
            }
            "asked" => {
                let last = self.answers.as_slice().last();
                write!(
                    answer,
                    "{:?}",
                    last.map(|finished| machine.has_asked(finished))
                )
            }
            "held" => {
                if let Some(task) = self.tasks.as_slice().last() {
                    show_task(answer, task);
                }
                Ok(())
            }
            "sent" => {
                let last = self.tasks.as_slice().last();
                write!(answer, "{:?}", last.map(|task| machine.has_sent(task)))
            }
            "sent_strange" => {
                let task = self.strange.as_ref();
                write!(answer, "{:?}", task.map(|task| machine.has_sent(task)))
            }
            other => show(alloc, machine, other, question, answer),
        };
    }
}

/// What a machine tells of itself.
fn show(
    alloc: Global,
    machine: &CardMachine,
    what: &str,
    question: &mut Cells<'_>,
    answer: &mut String,
) -> Result<(), std::alloc::AllocError> {
    match what {
        "end" => write!(answer, "{:?}", machine.end()),
        "standings" => write!(answer, "{:?}", machine.standings()),
        // ready, out, commits, and whether it is fresh
        "counts" => write!(
            answer,
            "{} {} {} {}",
            machine.ready(),
            machine.out(),
            machine.commits(),
            machine.is_fresh()
        ),
        "first" => write!(answer, "{:?}", machine.history().first()),
        "history" => write!(answer, "{:?}", machine.history()),
        // entries, and the growths among them
        "entries" => write!(answer, "{} {}", machine.history().len(), machine.growths()),
        "grown" => {
            for entry in machine.history() {
                if let Entry::Grew { channel, to } = entry {
                    let _ = write!(answer, "({channel}, {to})");
                }
            }
            Ok(())
        }
        "places" => match places_of(alloc, machine.net(), machine.standings()) {
            Ok(places) => write!(answer, "{:?}", places.as_slice()),
            Err(error) => Err(error),
        },
        "channels" => write!(answer, "{}", machine.net().channels()),
        _ => {
            question.is_bad();
            Ok(())
        }
    }
}
