//! What is wrong with a formula, and where.
use hox_formula::{FormulaFault, compile, text_of_fault};
use kpn_message::{Location, Message};
use kpn_net::{NetFault, ProcessSketch, Sketch};

/// Whether a kind is meant as a formula.
pub(crate) fn is_formula(kind: &str) -> bool {
    kind.contains('=')
}

/// Whether a message says of a process that no kind has the name that it gives, which is no formula.
pub(crate) fn is_unknown_name(sketch: &Sketch, message: &Message) -> bool {
    if message.fault != NetFault::Kind {
        return false;
    }
    match message.place {
        Location::Process(p) => match sketch.processes.as_slice().get(p) {
            Some(process) => !is_formula(process.kind.as_str()),
            None => true,
        },
        _ => true,
    }
}

/// Says what is wrong with the formula of a process, and shows where.
pub(crate) fn say_formula<R: Eprint + AllocGlobal>(rt: &R, process: &ProcessSketch) {
    let (name, formula) = (process.name.as_str(), process.kind.as_str());
    match compile(rt.alloc(), formula) {
        Ok(_) => {
            let _ = eprint!(rt; "process {name:?}: a formula takes no args");
        }
        Err(fault) => say_fault(rt, name, formula, fault),
    }
}

fn say_fault<R: Eprint + AllocGlobal>(rt: &R, name: &str, formula: &str, fault: FormulaFault) {
    let Ok(text) = text_of_fault(rt.alloc(), formula, fault) else {
        let _ = eprint!(rt; "process {name:?}: out of memory");
        return;
    };
    let _ = eprint!(rt; "process {name:?}: in its formula: {text}");
    if !formula.contains('\n') {
        let _ = eprint!(rt; "\n    {formula}\n    ");
        mark(rt, fault);
    }
}

/// Marks the part of the line before that a fault is about.
fn mark<R: Eprint>(rt: &R, fault: FormulaFault) {
    for _ in 0..fault.at {
        let _ = eprint!(rt; " ");
    }
    let _ = eprint!(rt; "^");
}
