//! Numbers of what runs saw.
ghost use Rattle.std.specs.Prelude.{◌≡◌, ◌+◌};
ghost use Rattle.rv_collide.specs.Counts.{saturated};
ghost use Rattle.rv_search.specs.Tally as spec;

/// How many steps harts made; how many pauses were quiet, hit and changed; and among all of these how many no data
/// breakpoint watched, and within how many another hart made a step.
#[derive(Clone, Copy)]
pub struct Counts {
    pub steps: u64,
    pub quiet: u64,
    pub hit: u64,
    pub changed: u64,
    pub unwatched: u64,
    pub passed: u64,
}

impl Counts {
    /// Those of no run.
    pub(crate) fn none() -> Counts
        ensures { result ≡ spec.no_counts }
    {
        Counts {
            steps: 0,
            quiet: 0,
            hit: 0,
            changed: 0,
            unwatched: 0,
            passed: 0,
        }
    }

    /// How many pauses were made.
    pub fn pauses(&self) -> u64
        ensures { result ≡ saturated (spec.pauses_in self.now) }
    {
        self.quiet
            .saturating_add(self.hit)
            .saturating_add(self.changed)
    }
}

/// A count, and one more where it holds.
pub(crate) fn raised(count: u64, holds: bool) -> u64
    ensures { result ≡ saturated (count + spec.one_if holds) }
{
    if holds {
        count.saturating_add(1)
    } else {
        count
    }
}

/// The numbers of runs, and those of others.
pub(crate) fn sum(a: Counts, b: Counts) -> Counts
    ensures { result ≡ spec.sum a b }
{
    Counts {
        steps: a.steps.saturating_add(b.steps),
        quiet: a.quiet.saturating_add(b.quiet),
        hit: a.hit.saturating_add(b.hit),
        changed: a.changed.saturating_add(b.changed),
        unwatched: a.unwatched.saturating_add(b.unwatched),
        passed: a.passed.saturating_add(b.passed),
    }
}
