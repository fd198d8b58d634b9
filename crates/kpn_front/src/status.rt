//! Exit statuses.
ghost use Rattle.std.specs.Prelude.{◌≡◌};
ghost use Rattle.kpn_front.specs.Statuses.{code_of};

/// The exit status of a program of this engine.
#[derive(Clone, Copy, Debug, PartialEq, Eq)]
pub enum ExitStatus {
    /// 0: the run terminated, the description was accepted, or help was asked for.
    Success,
    /// 1: the arguments were refused, or out of memory for them; or no channel has the name to show.
    WrongArguments,
    /// 2: the description was refused.
    Refused,
    /// 3: the budget was spent.
    BudgetSpent,
    /// 4: out of memory.
    MemoryRefused,
    /// 5: the run ended in a deadlock.
    Deadlocked,
    /// 6: a channel at the ceiling would have to grow.
    AtCeiling,
    /// 7: a write failed.
    WriteFailed,
    /// 8: internal error: a worker's answer was rejected; the run was abandoned.
    Lost,
}

impl ExitStatus {
    /// Returns the number of the exit status, 0 to 8.
    pub fn code(self) -> u8
        ensures { result ≡ code_of self }
    {
        match self {
            ExitStatus::Success => 0,
            ExitStatus::WrongArguments => 1,
            ExitStatus::Refused => 2,
            ExitStatus::BudgetSpent => 3,
            ExitStatus::MemoryRefused => 4,
            ExitStatus::Deadlocked => 5,
            ExitStatus::AtCeiling => 6,
            ExitStatus::WriteFailed => 7,
            ExitStatus::Lost => 8,
        }
    }
}
