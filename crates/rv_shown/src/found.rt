//! What decides the exit status of a hunt.
ghost use Rattle.std.specs.Prelude.{◌≡◌};
ghost use Rattle.rv_shown.specs.Checks as spec;

/// How many races may be a bug, how many are likely benign, whether one that may be a bug is not among those that are expected,
/// how many stuck ends are shown, whether a trap stopped a hart or one exited with a wrong code, and whether a warning says that it
/// would mean nothing that there is no race. Races of listed names, and those that are ignored, are not asked.
#[derive(Clone, Copy)]
pub struct Found {
    pub bugs: u64,
    pub benign: u64,
    pub is_unexpected: bool,
    pub stuck: u64,
    pub has_wrong_end: bool,
    pub is_void: bool,
}

/// What the exit status is asked to tell: races that may be bugs, likely benign ones too, and ends that should not be.
#[derive(Clone, Copy)]
pub struct Checks {
    pub races: bool,
    pub all_races: bool,
    pub ends: bool,
}

/// The exit status where something that is asked for was found.
pub const FOUND_STATUS: u8 = 5;

/// The exit status where there is no race, and a warning says that this means nothing.
pub const VOID_STATUS: u8 = 6;

impl Checks {
    /// Whether what was found is what is asked for.
    pub fn are_met(&self, found: Found) -> bool
        ensures { result ≡ spec.are_met self.now found }
    {
        let has_bug = (self.races || self.all_races) && 0 < found.bugs;
        let has_benign = self.all_races && 0 < found.benign;
        let has_end = self.ends && (0 < found.stuck || found.has_wrong_end);
        has_bug || has_benign || has_end || found.is_unexpected
    }

    /// Whether races that may be bugs are asked for, there is none, and a warning says that this means nothing.
    pub fn are_void(&self, found: Found) -> bool
        ensures { result ≡ spec.are_void self.now found }
    {
        self.races && found.bugs == 0 && found.is_void
    }

    /// The exit status, where all is written: what was found goes before that nothing could be found.
    pub fn status(&self, found: Found) -> u8
        ensures { result ≡ spec.status self.now found }
    {
        if self.are_met(found) {
            FOUND_STATUS
        } else if self.are_void(found) {
            VOID_STATUS
        } else {
            0
        }
    }
}
