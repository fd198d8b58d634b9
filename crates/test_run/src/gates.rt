//! Gates that count how often they are asked, and may delay whom they let pass.
use kpn_run::{Gate, Hold, Open, Prompt};
use std::alloc::AllocError;
use std::fmt::Write as _;
use std::hint::spin_loop;
use std::sync::atomic::{AtomicU64, Ordering};
use std::thread;
use test_kit::Cells;

/// What a gate does before it lets a process pass.
#[derive(Drop)]
enum Way {
    Open,
    Prompt,
    Hold(Hold),
    Late(LateGate),
    /// Takes some ten microseconds.
    Slow,
}

#[derive(Drop)]
pub(crate) struct CountingGate {
    way: Way,
    /// How often it was asked.
    pub(crate) asked: AtomicU64,
}

impl CountingGate {
    pub(crate) fn open() -> CountingGate {
        CountingGate {
            way: Way::Open,
            asked: AtomicU64::new(0),
        }
    }

    /// Reads `open`, `prompt`, `slow`, `late`, or `hold` with the process that is delayed and the one that it waits for.
    pub(crate) fn read(question: &mut Cells<'_>) -> CountingGate {
        let mut gate = CountingGate::open();
        match question.word() {
            "open" => {}
            "prompt" => gate.way = Way::Prompt,
            "slow" => gate.way = Way::Slow,
            "late" => gate.way = Way::Late(LateGate::new()),
            _ => {
                let process = question.below(64);
                let other = question.below(64);
                gate.way = Way::Hold(Hold::new(process, other, 1, 1_000_000));
            }
        }
        gate
    }

    /// Appends whether it was asked at least once for each process, unless bodies were asked in place, and at most once for
    /// each entry and process; and, if it is late, how often process 0 passed, and how often before process 1.
    pub(crate) fn tell(
        &self,
        processes: usize,
        entries: u64,
        answer: &mut String,
    ) -> Result<(), AllocError> {
        let processes = processes as u64;
        let least = if let Way::Prompt = self.way {
            0
        } else {
            processes
        };
        let asked = self.asked.load(Ordering::SeqCst);
        let is_well = least <= asked && asked <= entries.saturating_add(processes);
        write!(answer, " | gate {is_well}")?;
        if let Way::Late(late) = &self.way {
            let passed = late.passed.load(Ordering::SeqCst);
            let early = late.passed_early.load(Ordering::SeqCst);
            write!(answer, " late {passed} {early}")?;
        }
        Ok(())
    }
}

impl Gate for CountingGate {
    fn before_commit(&self, process: usize) {
        self.asked.fetch_add(1, Ordering::SeqCst);
        match &self.way {
            Way::Open => Open.before_commit(process),
            Way::Prompt => Prompt.before_commit(process),
            Way::Hold(hold) => hold.before_commit(process),
            Way::Late(late) => late.before_commit(process),
            Way::Slow => pass_slowly(),
        }
    }

    fn lets_ask_in_place(&self) -> bool {
        match &self.way {
            Way::Open => Open.lets_ask_in_place(),
            Way::Prompt => Prompt.lets_ask_in_place(),
            _ => false,
        }
    }
}

fn pass_slowly() {
    let passed = AtomicU64::new(0);
    for _turn in 0..5_000 {
        passed.fetch_add(1, Ordering::SeqCst);
    }
}

/// Holds process 0 until process 1 has passed, and makes process 1 late: it passes a million pauses after
/// process 0 came. So without the hold process 0 would pass first.
#[derive(Drop)]
struct LateGate {
    hold: Hold,
    came: AtomicU64,
    other_passed: AtomicU64,
    /// How often process 0 passed, and how often it did before process 1.
    passed: AtomicU64,
    passed_early: AtomicU64,
}

impl LateGate {
    fn new() -> LateGate {
        LateGate {
            hold: Hold::new(0, 1, 1, 1_000_000_000_000),
            came: AtomicU64::new(0),
            other_passed: AtomicU64::new(0),
            passed: AtomicU64::new(0),
            passed_early: AtomicU64::new(0),
        }
    }

    /// Waits until process 0 has come, with a bound so that a run in one hand ends too.
    fn wait_for_held(&self) {
        for _look in 0..100_000_000u32 {
            if self.came.load(Ordering::SeqCst) > 0 {
                return;
            }
            thread::yield_now();
        }
    }

    fn pass_late(&self) {
        self.wait_for_held();
        for _pause in 0..1_000_000u32 {
            spin_loop();
        }
        self.other_passed.fetch_add(1, Ordering::SeqCst);
        self.hold.before_commit(1);
    }

    fn before_commit(&self, process: usize) {
        if process != 0 {
            return self.pass_late();
        }
        self.came.fetch_add(1, Ordering::SeqCst);
        self.hold.before_commit(0);
        self.passed.fetch_add(1, Ordering::SeqCst);
        if self.other_passed.load(Ordering::SeqCst) == 0 {
            self.passed_early.fetch_add(1, Ordering::SeqCst);
        }
    }
}
