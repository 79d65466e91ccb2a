//! Speed: steps of a stored schedule told again in a row. What is asked before each turn elsewhere is asked here once:
//! only steps are made, so a hart that runs and is not paused stays so, and what is armed stays armed. An entry that is
//! not made here is for the call itself, which has changed nothing then.
ghost use Rattle.std.specs.Prelude.{◌≡◌, ◌↔◌, ℕ, ◌+◌, ◌<◌, ◌≤◌, false, length, nat_lt, slice_index_or, take, true};
ghost use Rattle.rv_collide.specs.Detected.{IsFree};
ghost use Rattle.rv_collide.specs.Entries.{steps};
ghost use Rattle.rv_collide.specs.Begun.{begun};
ghost use Rattle.rv_collide.specs.internal.Row.{AreAble, IsAble, IsInRow, StepsAgain};

use super::Detector;
use crate::entry::Entry;
use rv_hart::laws::what_no_step_does;
use rv_memory::store::ByteStore;

/// How many numbers of harts an entry can have, most of which no plan has.
const HART_NUMBERS: usize = 256;

impl<S: ByteStore> Detector<S> {
    /// Makes the common steps that come next in a list of entries, of which the core was told those before a place. The
    /// place of the entry that it stops at: one that is no such step of a hart that may make one, or the first that is not
    /// wanted.
    pub(crate) fn steps_again(&mut self, entries: &[Entry], place: usize, until: usize) -> usize
        requires here { self.old.entries ≡ take place entries.now }
        requires forwards { place ≤ until }
        requires within { until ≤ length entries.now }
        ensures told { self.new ≡ begun self.old.start self.old.plan (take result entries.now) }
        ensures forwards { place ≤ result }
        ensures within { result ≤ until }
    {
        let end = place + (until - place).min(self.steps_left() as usize);
        let mut able = none_able();
        self.mark_able(&mut able);
        // Two places, each with a step compiled into it: where nothing is armed or paused a turn asks for neither.
        if self.is_free_of_breaks() {
            return self.row::<3>(entries, place, end, &able, false);
        }
        self.row::<4>(entries, place, end, &able, true)
    }

    /// A row of steps, each as its entry says. `PLACE` is that of `Machine::step_quick`.
    #[inline(always)]
    fn row<const PLACE: u8>(
        &mut self,
        entries: &[Entry],
        place: usize,
        end: usize,
        able: &[bool; HART_NUMBERS],
        is_watched: bool,
    ) -> usize
        requires begins { IsInRow self.old self.old entries.now able.now is_watched place end }
        requires forwards { place ≤ end }
        requires within { end ≤ length entries.now }
        ensures told { self.new ≡ begun self.old.start self.old.plan (take result entries.now) }
        ensures forwards { place ≤ result }
        ensures within { result ≤ end }
    {
        what_no_step_does();
        for i in place..end {
            if !self.step_again::<PLACE>(entries[i], able, is_watched) {
                return i;
            }
        }
        end
    }

    /// The step that an entry says, where it is a common one of an able hart and makes no access at an armed address, as far
    /// as one look tells. Else nothing has changed.
    #[inline(always)]
    fn step_again<const PLACE: u8>(
        &mut self,
        entry: Entry,
        able: &[bool; HART_NUMBERS],
        is_watched: bool,
    ) -> bool
        requires left { nat_lt (length (steps self.old.entries)) self.old.plan.steps ≡ true }
        requires able { AreAble self.old able.now }
        requires free { is_watched ≡ false → IsFree self.old }
        ensures steps { result ≡ true → StepsAgain self.old self.new entry }
        ensures same { result ≡ false → self.new ≡ self.old }
    {
        let Entry::Stepped(h) = entry else {
            return false;
        };
        if !able[usize::from(h)] {
            return false;
        }
        match self.fetched(h) {
            None => false,
            Some(word) => self.step_on::<PLACE>(h, word, is_watched, false),
        }
    }

    /// Marks the harts that are able to make a step, where none is marked.
    fn mark_able(&self, able: &mut [bool; HART_NUMBERS])
        requires { (h : ℕ) → slice_index_or able.old h false ≡ false }
        ensures { AreAble self.now able.new }
    {
        for h in 0..self.plan().harts {
            able[usize::from(h)] = self.is_able(h);
        }
    }

    /// Whether a hart runs and is not paused.
    fn is_able(&self, h: u8) -> bool
        requires { h < self.now.plan.harts }
        ensures { result ≡ true → IsAble self.now h }
    {
        self.runs(h) && !self.is_paused(h)
    }

    /// Whether no pause is open and no address armed.
    pub fn is_free_of_breaks(&self) -> bool
        ensures { (result ≡ true) ↔ IsFree self.now }
    {
        self.openings.is_empty() && self.breaks.is_unarmed()
    }

    /// How many steps are left.
    pub fn steps_left(&self) -> u32
        ensures { length (steps self.now.entries) + result ≡ self.now.plan.steps }
    {
        self.plan.steps - self.steps
    }
}

/// A place for each number, with no hart marked.
#[inline(always)]
fn none_able() -> [bool; HART_NUMBERS]
    ensures { (h : ℕ) → slice_index_or result h false ≡ false }
{
    [false; HART_NUMBERS]
}
