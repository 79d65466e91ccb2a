//! How far a hunt goes.
ghost use Rattle.std.specs.Prelude.{◌≡◌, ◌+◌, ◌<◌, ◌^◌};
ghost use Rattle.rv_plans.specs.GoesOn as spec;

/// The greatest budget, in steps.
pub const MOST_BUDGET: u64 = 1_000_000_000_000_000;

/// How far a hunt goes: just so many runs, or as many as a budget of steps allows.
#[derive(Clone, Copy)]
pub enum Limit {
    Runs(u64),
    Budget(u64),
}

/// How far a hunt has come: how many runs it made, what they cost, and whether no more of them could show a race.
#[derive(Clone, Copy)]
pub struct Reached {
    pub runs: u64,
    pub cost: u64,
    pub is_hopeless: bool,
}

impl Limit {
    /// Whether one more run is made, behind those from a number on.
    pub fn goes_on(self, first: u32, reached: Reached) -> bool
        ensures { result ≡ spec.goes_on self first reached }
    {
        match self {
            Limit::Runs(runs) => reached.runs < runs,
            Limit::Budget(steps) => {
                reached.runs <= u64::from(u32::MAX - first)
                    && reached.cost < steps
                    && !reached.is_hopeless
            }
        }
    }
}

/// The number of the next run, behind so many from a number on.
pub fn next_number(first: u32, runs: u64) -> u32
    requires { first + runs < 2 ^ 32 }
    ensures { result ≡ first + runs }
{
    (u64::from(first) + runs) as u32
}
