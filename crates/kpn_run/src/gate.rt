//! Gates, which a worker calls before each commit.

/// Called between an answer and its commit, outside the lock. A gate that waits delays its worker; it does
/// not change the result.
///
/// ```text
/// impl<'a, R: Wait + Clock + Sync> Gate for Slowly<'a, R> {
///     fn before_commit(&self, _process: usize) {
///         sleep(self.rt, Duration::from_micros(50));
///     }
/// }
/// ```
pub trait Gate: Sync {
    /// Called with the number of the process before its answer is committed.
    fn before_commit(&self, process: usize);

    /// Whether workers may ask bodies under the lock, without this gate. Not for bodies that wait for others:
    /// one under the lock would wait forever.
    fn lets_ask_in_place(&self) -> bool {
        false
    }
}

/// The gate that does nothing.
pub struct Open;

impl Gate for Open {
    fn before_commit(&self, _process: usize) {}
}

/// The gate that does nothing, for bodies that wait for nobody. While their calls are short, one worker of
/// `run` asks them under the lock, which is as fast as no lock. Otherwise, and always in `work`, it is like
/// `Open`.
pub struct Prompt;

impl Gate for Prompt {
    fn before_commit(&self, _process: usize) {}

    fn lets_ask_in_place(&self) -> bool {
        true
    }
}
