//! Who waits at the channels.
ghost use Rattle.std.specs.Prelude.{◌≡◌, [], replicate, false, IfOk};
ghost use Rattle.kpn_state.specs.Candidates.{candidate_list};
ghost use Rattle.kpn_state.specs.Marks.{mark_lists};

use crate::candidates::Candidates;
use crate::marks::Marks;
use std::alloc::{AllocError, Global};

/// Parked processes as their channels see them: growth candidates, and marks. Only `new` allocates.
pub struct Waiting {
    pub candidates: Candidates,
    pub marks: Marks,
}

// Written out, so that each drop is one call, proved once, and not a drop of each field.
impl Drop for Waiting {
    fn drop(self) {
        let Waiting {
            candidates: _,
            marks: _,
        } = self;
    }
}

impl Waiting {
    /// Makes it with nobody waiting, and with room for a candidate of each process. Errors: out of memory.
    pub fn new(alloc: Global, processes: usize, channels: usize) -> Result<Waiting, AllocError>
        ensures candidates { IfOk result (λ w. w.candidates ≡ candidate_list [] processes) }
        ensures marks { IfOk result (λ w. w.marks ≡ mark_lists (replicate channels false) (replicate channels false)) }
    {
        Ok(Waiting {
            candidates: Candidates::new(alloc, processes)?,
            marks: Marks::new(alloc, channels)?,
        })
    }
}
