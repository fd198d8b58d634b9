//! Least solutions written out, and false laws of them.
ghost use Rattle.test_laws.specs.WorkedSolutions.{ParksSolution, SumsSolution, RingSolution};
ghost use Rattle.test_laws.specs.ChangedSolutions.{EndIsGreatest, TakenIsSolution, BelowWithoutStart};

/// Ghost lemma: the least solutions of the equations of three networks of the standard kinds.
///
/// `parks_case`: a counter, a copy, a weave of three and three, and a sink of six. `running_sums`: a loop
/// that runs because of its start token. `ring`: a process that passes a token on to itself for ever; its
/// stream is endless.
pub fn worked_solutions()
    ensures parks_case { ParksSolution }
    ensures running_sums { SumsSolution }
    ensures ring { RingSolution }
{}

/// Ghost lemma: three changes make the law of the least solution false for networks of the standard kinds.
///
/// `greatest`: a solution may have tokens that no run has. If a copy waits for its own output, any stream
/// solves its equation, but the run's is empty. `taken`: the tokens taken, unlike those put, need not be a
/// solution. `no_start`: for equations without the start tokens, a run's streams need not be below each
/// pre-fixed point.
pub fn changed_solutions()
    ensures greatest { EndIsGreatest → ⊥ }
    ensures taken { TakenIsSolution → ⊥ }
    ensures no_start { BelowWithoutStart → ⊥ }
{}
