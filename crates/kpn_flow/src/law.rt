//! Laws of flows: feeding in pieces equals having all tokens from the start, and the caller may be one more process.
ghost use Rattle.kpn_model.specs.Network.{Family};
ghost use Rattle.kpn_flow.specs.OwnProcesses.{OwnProcessesAreBelow};
ghost use Rattle.kpn_flow.specs.Pieces.{PiecesAreComparable, ExhaustedAreTheSame};
ghost use Rattle.kpn_flow.specs.Preloaded.{FeedingIsPreloading};

/// Ghost lemma: a run that is fed and drained in pieces does, growths aside, what a run does that has all the
/// tokens in its inputs from the start, even those still to come, with room for all. Holds for all kinds and
/// networks in which only the outside writes to inputs and reads from outputs.
pub fn preloading()
    ensures { (kinds : Family) → FeedingIsPreloading kinds }
{}

/// Ghost lemma: the pieces and times of feeding don't change what comes out. If two flows of one network get
/// the same in the end, what they have given at an output, and hold in it, is prefix-comparable (Kahn 1974).
/// If both were fed the same, and in neither a process can continue or waits for room, it is the same, and
/// each process has the same status. Holds for all kinds and networks.
pub fn comparable()
    ensures begun_alike { (kinds : Family) → PiecesAreComparable kinds }
    ensures same { (kinds : Family) → ExhaustedAreTheSame kinds }
{}

/// Ghost lemma: the caller of a flow may be one more process (Kahn 1974). Suppose that what it has fed is at each time a
/// prefix of what some function gives for what it has drained by then. Then what left an output, with what is in it, is a
/// prefix of its stream in every solution of the equations of the network and this function together, and in every
/// pre-fixed point of them. Holds for all kinds, networks and functions.
pub fn own_processes()
    ensures { (kinds : Family) → OwnProcessesAreBelow kinds }
{}
