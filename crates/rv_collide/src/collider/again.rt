//! Speed: steps of a stored schedule told again in a row.
ghost use Rattle.std.specs.Prelude.{◌≡◌, ◌↔◌, ◌+◌, ◌≤◌, length, take, true};
ghost use Rattle.rv_collide.specs.Answers.{IsFree};
ghost use Rattle.rv_collide.specs.Entries.{steps};
ghost use Rattle.rv_collide.specs.Stored.{stored};
ghost use Rattle.rv_collide.specs.Told.{IsToldUpTo};

use super::Collider;
use crate::entry::Entry;
use rv_memory::store::ByteStore;

impl<S: ByteStore> Collider<S> {
    /// Makes the common steps that come next in a list of entries, of which the core was told those before a place. The
    /// place of the entry that it stops at: one that is no such step of a hart that may make one, or the first that is not
    /// wanted.
    pub(crate) fn steps_again(&mut self, entries: &[Entry], place: usize, until: usize) -> usize
        requires here { IsToldUpTo self.old entries.now place }
        requires forwards { place ≤ until }
        requires within { until ≤ length entries.now }
        ensures told { self.new ≡ stored self.old.image self.old.plan (take result entries.now) }
        ensures forwards { place ≤ result }
        ensures within { result ≤ until }
    {
        self.detector.steps_again(entries, place, until)
    }

    /// Whether no pause is open and no address armed.
    pub fn is_free_of_breaks(&self) -> bool
        ensures { (result ≡ true) ↔ IsFree self.now }
    {
        self.detector.is_free_of_breaks()
    }

    /// How many steps are left.
    pub fn steps_left(&self) -> u32
        ensures { length (steps self.now.entries) + result ≡ self.now.plan.steps }
    {
        self.detector.steps_left()
    }
}
