//! What `run` is asked for, beside its files.
ghost use Rattle.std.specs.Prelude.{◌<◌};

use rv_collide::plan::Plan;

/// The options of `run`.
#[derive(Clone, Copy)]
pub struct Options<'a> {
    /// The numbers of each run.
    pub plan: Plan,
    /// The seed of all runs.
    pub seed: u32,
    /// How many runs there are.
    pub runs: u32,
    /// How many workers make them.
    pub workers: u32,
    /// Names of symbols, with a comma between two: what touches their bytes is counted apart.
    pub named: Option<&'a str>,
    /// Addresses in eight hexadecimal digits, with a comma between two: no hart is paused there.
    pub skip: Option<&'a str>,
    /// The run whose schedule is saved, where one is: one of those that there are.
    pub keep: u32,
    pub ghost keep_is_run: { keep < runs },
}
