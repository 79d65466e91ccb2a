//! The folder of a hunt's schedules.
ghost use Rattle.std.specs.Prelude.{◌≡◌, ◌≢◌, ◌||◌, List, OnOk, ℕ};
ghost use Rattle.rv_remade.specs.FolderFault.{fails_by_write};

/// Why a folder takes no file.
#[derive(Clone, Copy)]
pub enum FolderFault {
    NoMemory,
    /// The folder is not there, a file is there already, or it cannot be written.
    Write,
}

/// What a schedule is of that lies in a folder beside those of races.
#[derive(Clone, Copy)]
pub enum Beside {
    /// A stuck end.
    StuckEnd,
    /// The first run in which a hart ended in some way.
    Ended,
    /// The first copy of the trial that is shown of a race's order, by the race's number.
    First,
    /// The second copy.
    Second,
}

/// A folder that is there, in which a hunt makes a file for each race and each stuck end that it shows in full, and for ways in which
/// harts ended.
pub trait Folder {
    ghost use Rattle.std.specs.Prelude.{Bool, List, ℕ};

    /// Whether a file was made, or it was tried.
    ghost is_used: { Self → Bool };

    /// The file of that number was made, and these are its bytes.
    ghost Holds: { Self → ℕ → List ℕ → Type 0 };

    /// Whether looking, making or writing has failed.
    ghost has_failed: { Self → Bool };

    /// Whether looking, making or writing has failed.
    fn is_at_fault(&self) -> bool
        ensures { result ≡ has_failed self.now };

    /// Looks whether the folder is there and has no file that a hunt could make in it. Nothing is made.
    fn look(&mut self) -> Result<(), FolderFault>
        ensures used { is_used self.new ≡ is_used self.old }
        ensures failed { has_failed self.new ≡ (has_failed self.old || fails_by_write result) };

    /// Makes the file of that number, with these bytes.
    fn make(&mut self, number: u64, bytes: &[u8]) -> Result<(), FolderFault>
        ensures ok { OnOk result (Holds self.new number bytes.now) }
        ensures kept { (n : ℕ) (text : List ℕ) → n ≢ number → Holds self.old n text → Holds self.new n text }
        ensures failed { has_failed self.new ≡ (has_failed self.old || fails_by_write result) };

    /// Makes the file of that kind and number, with these bytes. Those of races stay.
    fn make_beside(&mut self, kind: Beside, number: u64, bytes: &[u8]) -> Result<(), FolderFault>
        ensures failed { has_failed self.new ≡ (has_failed self.old || fails_by_write result) };
}
