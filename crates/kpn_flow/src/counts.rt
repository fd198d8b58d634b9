//! How much a flow has done.
ghost use Rattle.std.specs.Prelude.{◌≡◌, ◌+◌};
ghost use Rattle.std.specs.Io.Iter.{u64_saturate};

/// The numbers of entries and growths since a flow was opened; each stays at `u64::MAX` once it is there.
#[derive(Clone, Copy, Debug, PartialEq, Eq)]
pub struct Counts {
    pub entries: u64,
    pub growths: u64,
}

impl Counts {
    pub(crate) fn add(&mut self, entries: u64, growths: u64)
        ensures entries { self.new.entries ≡ u64_saturate (self.old.entries + entries) }
        ensures growths { self.new.growths ≡ u64_saturate (self.old.growths + growths) }
    {
        self.entries = self.entries.saturating_add(entries);
        self.growths = self.growths.saturating_add(growths);
    }
}
