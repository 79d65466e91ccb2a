//! What `hunt` is asked for, beside its files.
ghost use Rattle.std.specs.Prelude.{◌≡◌, ◌≤◌, ◌↔◌, true};
ghost use Rattle.rv_search.specs.Hunt.{AreNumbers};
ghost use Rattle.rv_plans.specs.GoesOn.{IsLimit};
ghost use Rattle.rv_shown.specs.Asked.{AreLegal};

use crate::found::Checks;
use rv_plans::limit::{Limit, MOST_BUDGET};
use rv_plans::plans::{Lengths, Plans};
use rv_search::aim::Sides;

/// What a hunt writes to its standard output.
#[derive(Clone, Copy)]
pub enum Shows {
    /// The races one by one, and what was seen.
    Text,
    /// The hunt table alone. The lines of what was seen are notes.
    Table,
}

/// Parts of the command line, as messages show them, by which the text tells how to go on. In commands a shell takes each as
/// one word.
#[derive(Clone, Copy)]
pub struct LineParts<'a> {
    /// All of it.
    pub command: &'a str,
    /// The path of the image.
    pub image: &'a str,
    /// The same within the single quotes of another command.
    pub nested_image: &'a str,
    /// The options that make the runs what they are, with a blank before each word.
    pub options: &'a str,
    /// The folder for schedules, within such quotes, where one is given.
    pub folder: Option<&'a str>,
    /// The version of the program.
    pub version: &'a str,
    /// What was given of the runs, as a table's last line has it: a blank before each word.
    pub given: &'a str,
    /// The path of the image as it was given.
    pub path: &'a str,
    /// What else was given, for other programs.
    pub said: SaidOptions<'a>,
}

/// Options of a line that other programs are told: how many harts, slots and steps each run has, and the paths of lists.
#[derive(Clone, Copy)]
pub struct SaidOptions<'a> {
    pub harts: Option<u8>,
    pub slots: u8,
    pub lengths: Option<Lengths>,
    pub ignore: Option<&'a str>,
    pub expect: Option<&'a str>,
}

/// The options of `hunt`.
#[derive(Drop)]
pub struct HuntOptions<'a, 'b> {
    /// The plans of all runs.
    pub plans: Plans,
    /// The seed of all runs.
    pub seed: u32,
    /// The number of the first run.
    pub first: u32,
    /// How far the hunt goes.
    pub limit: Limit,
    /// How many workers make the runs. What is written does not depend on it.
    pub workers: u8,
    /// Names of symbols, with a comma between two: what touches their bytes is counted apart.
    pub named: Option<&'a str>,
    /// Addresses in eight hexadecimal digits, with a comma between two: no hart is paused there.
    pub skip: Option<&'a str>,
    /// Names of functions, with a comma between two: harts may wait there for ever.
    pub idle: Option<&'a str>,
    /// The exit codes that are right, in decimal, with a comma between two, where 0 alone isn't.
    pub right: Option<&'a str>,
    /// Near pairs of these sides alone are probed.
    pub aim: Option<Sides<'a>>,
    /// What is written to the standard output.
    pub shows: Shows,
    /// How many races are shown in full.
    pub blocks: u32,
    /// What the text tells of the command line.
    pub line: LineParts<'b>,
    /// Whether the orders of races' accesses are tried.
    pub orders: bool,
    /// What the exit status is asked to tell.
    pub checks: Checks,
}

/// The most workers of a hunt.
pub const MOST_WORKERS: u8 = 16;

/// Whether a hunt may go so far from its first run on.
fn may_go(first: u32, limit: Limit) -> bool
    ensures { (result ≡ true) ↔ (IsLimit limit × AreNumbers first limit) }
{
    match limit {
        Limit::Runs(runs) => runs <= (1 << 32) - u64::from(first),
        Limit::Budget(steps) => steps <= MOST_BUDGET,
    }
}

/// Whether so many workers may make the runs.
fn may_work(workers: u8) -> bool
    ensures { (result ≡ true) ↔ ((1 ≤ workers) × (workers ≤ MOST_WORKERS)) }
{
    1 <= workers && workers <= MOST_WORKERS
}

impl HuntOptions<'_, '_> {
    /// Whether there can be such a hunt: the numbers of its runs have 32 bits, or its budget is at most `MOST_BUDGET`;
    /// and there are 1 to `MOST_WORKERS` workers.
    pub fn is_legal(&self) -> bool
        ensures { (result ≡ true) ↔ AreLegal self.now }
    {
        may_go(self.first, self.limit) && may_work(self.workers)
    }
}
