//! The lists that a flow begins with.
ghost use Rattle.std.specs.Prelude.{◌≡◌, IfOk};

use std::alloc::{AllocError, Global};

/// The inputs of a flow, those of them that have not ended, and its outputs.
#[derive(Drop)]
pub(crate) struct Lists {
    pub(crate) inputs: Vec<usize>,
    pub(crate) unended: Vec<usize>,
    pub(crate) outputs: Vec<usize>,
}

pub(crate) fn lists_of(
    alloc: Global,
    inputs: &[usize],
    outputs: &[usize],
) -> Result<Lists, AllocError>
    ensures inputs { IfOk result (λ r. r.inputs.items ≡ inputs.now) }
    ensures unended { IfOk result (λ r. r.unended.items ≡ inputs.now) }
    ensures outputs { IfOk result (λ r. r.outputs.items ≡ outputs.now) }
{
    Ok(Lists {
        inputs: Vec::from_slice(alloc, inputs)?,
        unended: Vec::from_slice(alloc, inputs)?,
        outputs: Vec::from_slice(alloc, outputs)?,
    })
}
