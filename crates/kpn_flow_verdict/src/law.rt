//! What is dry in a flow stays dry.
ghost use Rattle.kpn_model.specs.Network.{Family};
ghost use Rattle.kpn_flow_verdict.specs.FlowDry.{CompleteStaysInFlow, DryStaysDryInFlow};

/// Ghost lemma: the laws of dry processes of a flow in which no process waits for a token from outside. Whatever
/// is fed and drained later, a dry process stays so and does nothing more (`stays`), so nothing more is put on a
/// channel that it writes (`complete`).
pub fn flow_dryness()
    ensures stays { (kinds : Family) → DryStaysDryInFlow kinds }
    ensures complete { (kinds : Family) → CompleteStaysInFlow kinds }
{}
