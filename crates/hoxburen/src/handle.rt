//! A session behind a pointer that the caller keeps.
ghost use Rattle.std.specs.Prelude.{◌≡◌, Option, None, Some, MatchOption};
ghost use Rattle.kpn_flow.specs.Flows.{FlowView};
ghost use Rattle.hoxburen.specs.Handles.{holds, kept_coded};

use crate::parts::BoxParts;
use hox_handle::Session;
use std::alloc::Global;
use std::marker::Model;
use std::mem;
use std::ptr::null_mut;

/// A flow that the caller keeps: null if closed, else the pointer of a box with its session, which is `kept`.
/// All bytes 0 is a closed flow.
#[repr(C)]
pub struct HoxFlow {
    at: *mut u8,
    alloc: Global,
    pub ghost kept: { Option FlowView } by { kept_coded },
}

impl Model for HoxFlow {
    ghost also_owns = { λ h. holds h.alloc h.at h.kept };
}

impl HoxFlow {
    fn closed(alloc: Global) -> HoxFlow
        ensures { result.kept ≡ None }
    {
        HoxFlow {
            at: null_mut(),
            alloc,
        }
    }

    fn of_parts(parts: BoxParts<Session, Global>) -> HoxFlow
        ensures { result.kept ≡ Some parts.value }
    {
        let BoxParts { ptr, alloc } = parts;
        HoxFlow {
            at: ptr as *mut u8,
            alloc,
        }
    }

    fn into_parts(self) -> Option<BoxParts<Session, Global>>
        ensures { MatchOption result (self.kept ≡ None) (λ parts. self.kept ≡ Some parts.value) }
    {
        let HoxFlow { at, alloc } = self;
        if at.is_null() {
            None
        } else {
            Some(BoxParts {
                ptr: at as *mut Session,
                alloc,
            })
        }
    }

    /// Closes the flow and returns its session; `None` if it was closed.
    pub(crate) fn take(&mut self, alloc: Global) -> Option<Box<Session>>
        ensures closed { self.new.kept ≡ None }
        ensures taken { MatchOption result (self.old.kept ≡ None) (λ session. self.old.kept ≡ Some session.value) }
    {
        match mem::replace(self, HoxFlow::closed(alloc)).into_parts() {
            Some(parts) => Some(parts.into_box()),
            None => None,
        }
    }

    /// Opens the flow with a session. Drops the session of an open one.
    pub(crate) fn put(&mut self, session: Box<Session>)
        ensures { self.new.kept ≡ Some session.value }
    {
        match mem::replace(self, HoxFlow::of_parts(BoxParts::of(session))).into_parts() {
            Some(parts) => drop(parts.into_box()),
            None => {}
        }
    }
}

// A struct with `also_owns` is not `Send` by itself. This one is, by proof: what a session owns is no thread's own. So a
// caller in C may pass a flow to another thread. A check wants that proof only where it is used, as below.
unsafe impl Send for HoxFlow {}

/// Ghost lemma: a flow may go to another thread.
fn assure_sends() {
    sends::<HoxFlow>();
}

/// Is for what may go to another thread.
fn sends<T: Send>() {}
