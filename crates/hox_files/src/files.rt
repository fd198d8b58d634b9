//! The file system, as a program sees it.
ghost use Rattle.std.specs.Prelude.{◌≡◌, ℕ, Bool, true, false, List, [], ◌∷◌, Option, IfOk, IfSome, IsOk, OnErr, OnOk};
ghost use Rattle.hox_files.specs.Files.{Effect, GoOn, not_said, not_written, said, wrote};

use kpn_front::{Sink, Source};
use std::io;

/// Files by name, where `-` is standard input or output; and standard error.
///
/// `contents`: what can be read under each name, if known. `clash`: whether two names, each written or else
/// read, can't be used together, if known. `effects`: what was written so far, or failed to be, in order, if
/// known. `is_steady`: no write fails.
pub trait FileSystem {
    /// The type of files being read.
    type Input: Source + Drop;

    /// The type of files being written.
    type Output: Sink + Drop;

    ghost contents: { Self → List ℕ → Option (List ℕ) };

    ghost clash: { Self → List ℕ → Bool → List ℕ → Bool → Option Bool };

    ghost effects: { Self → Option (List Effect) };

    ghost is_steady: { Self → Bool };

    /// Opens a file to read it from its beginning. Standard input continues where it is.
    fn open(&self, name: &str) -> io::Result<Self::Input>
        ensures bytes { IfOk result (λ input. Self.Input.remaining input ≡ contents self.now name.now) }
        ensures unfailed { IfOk result (λ input. Self.Input.has_failed input ≡ false) };

    /// Returns whether two names, each written or else read, can't be used together: they are one file that
    /// keeps what is written, even under two spellings, and at least one writes it; or one source that gives
    /// its bytes once, and both read it. Two names of a device that keeps nothing don't clash.
    fn clashes(&self, one: &str, writes_one: bool, other: &str, writes_other: bool) -> bool
        ensures { IfSome (clash self.now one.now writes_one other.now writes_other) (λ clash. result ≡ clash) };

    /// Opens a file, or standard output, for writing. The file's old contents are lost.
    fn create(&self, name: &str) -> io::Result<Self::Output>
        ensures { IfOk result (λ output. IfSome (Self.Output.seen output).contents (λ bytes. bytes ≡ [])) };

    /// Writes a whole file, or writes to standard output. If it fails, a file is as it was before.
    fn write(&mut self, name: &str, bytes: &[u8]) -> io::Result<()>
        ensures done { OnOk result (GoOn (wrote name.now bytes.now ∷ []) (effects self.old) (effects self.new)) }
        ensures failed { OnErr result (GoOn (not_written name.now ∷ []) (effects self.old) (effects self.new)) }
        ensures steady { is_steady self.old ≡ true → IsOk result × (is_steady self.new ≡ true) };

    /// Writes to standard error.
    fn say(&mut self, text: &str) -> io::Result<()>
        ensures done { OnOk result (GoOn (said text.now ∷ []) (effects self.old) (effects self.new)) }
        ensures failed { OnErr result (GoOn (not_said ∷ []) (effects self.old) (effects self.new)) }
        ensures steady { is_steady self.old ≡ true → IsOk result × (is_steady self.new ≡ true) };
}
