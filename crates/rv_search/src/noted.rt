//! What is noted of the runs of a hunt beside their sums.
ghost use Rattle.std.specs.Prelude.{◌≡◌, ◌||◌, false, IfOk, OnOk};
ghost use Rattle.rv_search.specs.RightEnds as spec;

use crate::end_runs::{EndRuns, RightCodes};
use crate::kept_run::KeptRun;
use crate::stuck::StuckTable;
use rv_memory::store::NoMemory;
use rv_walk::code::Marks;
use std::alloc::Global;

/// Adds the numbers of words.
fn add_words(marks: &mut Marks, words: &[u32]) {
    for word in words {
        marks.add(*word);
    }
}

/// Which words of code the runs executed, by their numbers, the stuck ends, and in which runs harts first ended in each way.
#[derive(Drop)]
pub struct Noted {
    pub words: Marks,
    pub stuck: StuckTable,
    pub ends: EndRuns,
}

impl Noted {
    /// Of no run, of an image with so many words of code, whose harts are to exit with these codes.
    pub fn none(alloc: Global, words: u32, right: RightCodes) -> Result<Noted, NoMemory>
        ensures { IfOk result (λ noted. noted.ends ≡ record { right = right; is_wrong = false }) }
    {
        Ok(Noted {
            words: Marks::none(alloc, words)?,
            stuck: StuckTable::new(alloc),
            ends: EndRuns::none(alloc, right),
        })
    }

    /// Adds what is noted of the run of that number.
    pub(crate) fn add(&mut self, alloc: Global, run: u32, kept: &KeptRun) -> Result<(), NoMemory>
        ensures { OnOk result (self.new.ends ≡ record self.old.ends { is_wrong = self.old.ends.is_wrong || spec.ends_wrong self.old.ends.right kept.now }) }
    {
        add_words(&mut self.words, &kept.words);
        self.ends.add(run, &kept.summary.ends)?;
        self.stuck
            .add(alloc, run, kept.summary.ends.len(), &kept.stuck)
    }
}
