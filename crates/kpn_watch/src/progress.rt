//! The progress of a history.
ghost use Rattle.std.specs.Prelude.{◌≡◌, ◌+◌, ◌*◌, ◌/◌, ◌%◌, ◌^◌, ◌<◌};
ghost use Rattle.kpn_watch.specs.Phases.{number_of_phase, phase_of};

use kpn_model::End;

/// Whether a run is still running, or how it ended.
#[derive(Clone, Copy, PartialEq, Eq, Debug)]
pub enum Phase {
    Running,
    Terminated,
    Deadlock,
    Ceiling,
    Budget,
    Memory,
}

/// The numbers of entries and of growths of a history, and its phase.
#[derive(Clone, Copy, PartialEq, Eq, Debug)]
pub struct Progress {
    pub entries: u32,
    pub growths: u32,
    pub phase: Phase,
}

impl Phase {
    /// Returns the phase of a run with this end; `Running` if it has none.
    pub fn of_end(end: Option<End>) -> Phase
        ensures { result ≡ phase_of end }
    {
        match end {
            None => Phase::Running,
            Some(End::Terminated) => Phase::Terminated,
            Some(End::Deadlock) => Phase::Deadlock,
            Some(End::Ceiling) => Phase::Ceiling,
            Some(End::Budget) => Phase::Budget,
            Some(End::Memory) => Phase::Memory,
        }
    }

    /// Returns the phase's number in the published word, 0 to 5 in the order of the variants.
    pub fn number(self) -> u64
        ensures { result ≡ number_of_phase self }
    {
        match self {
            Phase::Running => 0,
            Phase::Terminated => 1,
            Phase::Deadlock => 2,
            Phase::Ceiling => 3,
            Phase::Budget => 4,
            Phase::Memory => 5,
        }
    }

    fn of_number(number: u64) -> Phase
        requires { number < 6 }
        ensures { number_of_phase result ≡ number }
    {
        match number {
            0 => Phase::Running,
            1 => Phase::Terminated,
            2 => Phase::Deadlock,
            3 => Phase::Ceiling,
            4 => Phase::Budget,
            _ => Phase::Memory,
        }
    }
}

impl Progress {
    pub(crate) fn to_word(self) -> u64
        requires entries { self.entries < 2 ^ 22 }
        requires growths { self.growths < 2 ^ 22 }
        ensures { result ≡ self.entries * 2 ^ 25 + self.growths * 8 + number_of_phase self.phase }
    {
        (u64::from(self.entries) << 25) + (u64::from(self.growths) << 3) + self.phase.number()
    }

    pub(crate) fn of_word(word: u64) -> Progress
        requires size { word < 2 ^ 47 }
        requires phase { word % 8 < 6 }
        ensures entries { result.entries ≡ word / 2 ^ 25 }
        ensures growths { result.growths ≡ word / 8 % 2 ^ 22 }
        ensures phase { number_of_phase result.phase ≡ word % 8 }
    {
        Progress {
            entries: (word >> 25) as u32,
            growths: ((word >> 3) % (1 << 22)) as u32,
            phase: Phase::of_number(word % 8),
        }
    }
}
