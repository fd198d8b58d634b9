//! How often, or over how many words.
ghost use Rattle.std.specs.Prelude.{◌<◌};

/// A number of times, or of words: at least 1.
#[derive(Clone, Copy)]
pub(crate) struct Times {
    pub(crate) number: u64,
    ghost least: { 0 < number },
}
