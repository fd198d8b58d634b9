//! Progress, if the arguments ask for it.
use hox_run::{ProgressReceiver, SoFar};

/// Forwards progress if the arguments ask for it, or the receiver wants it anyway.
#[derive(Drop)]
pub(crate) struct Asking<'a, P> {
    pub(crate) progress: &'a P,
    pub(crate) is_asked: bool,
}

impl<'a, P: ProgressReceiver> ProgressReceiver for Asking<'a, P> {
    fn is_wanted(&self) -> bool {
        self.is_asked || self.progress.is_wanted()
    }

    fn is_due(&self) -> bool {
        self.is_wanted() && self.progress.is_due()
    }

    fn tell(&self, so_far: SoFar) {
        self.progress.tell(so_far);
    }
}
