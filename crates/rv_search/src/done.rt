//! How much of some work is done.
ghost use Rattle.std.specs.Prelude.{◌≤◌};

use crate::hunted::Hunted;
use rv_plans::limit::Limit;

/// How much of some work is done, and how much there is of it.
#[derive(Clone, Copy)]
pub struct Done {
    pub done: u64,
    pub all: u64,
}

impl Done {
    /// How far a hunt has come, of what was asked for.
    pub fn of(limit: Limit, hunted: &Hunted) -> Done {
        match limit {
            Limit::Runs(all) => Done {
                done: hunted.tally.runs(),
                all,
            },
            Limit::Budget(all) => Done {
                done: hunted.tally.reached().cost,
                all,
            },
        }
    }

    /// How many of so many parts of the work are done.
    pub fn parts(self, parts: u64) -> u64
        ensures { result ≤ parts }
    {
        (self.done.saturating_mul(parts) / self.all.max(1)).min(parts)
    }
}
