//! Files that a command makes.
ghost use Rattle.std.specs.Prelude.{◌≡◌, ◌||◌, true, is_err, OnOk};

use rv_memory::flagged::WriteFault;

/// A file that a command makes once it has all that stands in it, so that a refused command makes none.
pub trait NewFile {
    ghost use Rattle.std.specs.Prelude.{Bool, List, ℕ};

    /// Whether the file was made, or it was tried.
    ghost is_made: { Self → Bool };

    /// The file was made, and these are its bytes.
    ghost Holds: { Self → List ℕ → Type 0 };

    /// Whether making or writing the file has failed.
    ghost has_failed: { Self → Bool };

    /// Looks whether the file can be made. What is there stays, and nothing else is left.
    fn look(&mut self) -> Result<(), WriteFault>
        ensures made { is_made self.new ≡ is_made self.old }
        ensures failed { has_failed self.new ≡ (has_failed self.old || is_err result) };

    /// Makes the file, with these bytes.
    fn make(&mut self, bytes: &[u8]) -> Result<(), WriteFault>
        ensures made { is_made self.new ≡ true }
        ensures ok { OnOk result (Holds self.new bytes.now) }
        ensures failed { has_failed self.new ≡ (has_failed self.old || is_err result) };
}
