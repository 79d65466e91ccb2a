//! What the runs of a hunt saw, added up.
ghost use Rattle.std.specs.Prelude.{◌≡◌, ◌+◌, OnOk};
ghost use Rattle.rv_collide.specs.Counts.{saturated};
ghost use Rattle.rv_search.specs.Tally as spec;
ghost use Rattle.rv_search.specs.Doubts as doubt;

use crate::end::{End, Way};
use crate::summary::Summary;
use crate::tally::addresses::Addresses;
use crate::tally::counts::{Counts, raised, sum};
use crate::tally::ended::Ended;
use rv_memory::store::NoMemory;
use rv_plans::limit::Reached;
use std::alloc::Global;
use std::marker::Model;

pub mod addresses;
pub mod counts;
pub mod ended;
pub mod kinds;

/// What a run costs besides its steps, and what each of its probes does.
const COST_OF_A_RUN: u64 = 300;

const COST_OF_A_PROBE: u64 = 20;

/// Of the runs whose plans have the most steps: how many steps these have, how many such runs there were, in how many of them a trap
/// stopped a hart, in how many a trap stopped each before one was paused, and in how many none exited.
#[derive(Clone, Copy)]
pub struct Longest {
    pub steps: u32,
    pub runs: u64,
    pub trapped: u64,
    pub lost: u64,
    pub exitless: u64,
}

/// How a run came to its end: whether a trap stopped a hart, whether a trap stopped each before one was paused, and whether none exited.
#[derive(Clone, Copy)]
pub struct RunEnd {
    pub is_trapped: bool,
    pub is_lost: bool,
    pub is_exitless: bool,
}

/// Of the walks with the most harts: how many harts these have, how many walks there were, and how many of them made all steps that
/// a walk may make without a near pair.
#[derive(Clone, Copy)]
pub struct Widest {
    pub harts: u64,
    pub walks: u64,
    pub spent: u64,
}

/// What runs saw, added up in their order. Numbers stay at 2^64 - 1 once there.
#[derive(Drop)]
pub struct Tally {
    runs: u64,
    walks: u64,
    probes: u64,
    ended: Ended,
    armed: Addresses,
    paused: Addresses,
    counts: Counts,
    sampled: Counts,
    each_stopped: u64,
    longest: Longest,
    widest: Widest,
    tried: u64,
}

impl Model for Tally {
    ghost use Rattle.rv_search.specs.Tally.{Tally as Sums};

    ghost Value = { Sums };

    ghost view = { λ t. record {
      runs = t.runs;
      walks = t.walks;
      probes = t.probes;
      ended = t.ended;
      armed = t.armed;
      paused = t.paused;
      counts = t.counts;
      sampled = t.sampled;
      each_stopped = t.each_stopped;
      longest = t.longest;
      widest = t.widest;
      tried = t.tried;
    } };
}

/// How many harts of a run exited, and how many a trap stopped.
#[derive(Clone, Copy)]
struct Ends {
    exits: u64,
    traps: u64,
}

/// Whether it is more than half of so many.
fn is_most(some: u64, all: u64) -> bool
    ensures { result ≡ doubt.is_most some all }
{
    u128::from(all) < 2 * u128::from(some)
}

/// How the harts of a run ended, counted.
#[tactic(auto, using(std::proofs::lemmas::List::Sums::count_by_more_yes, std::proofs::lemmas::List::Sums::count_by_more_no))]
fn counted(ends: &[End]) -> Ends
    ensures exits { result.exits ≡ spec.exits ends.now }
    ensures traps { result.traps ≡ spec.traps ends.now }
{
    let mut exits = 0u64;
    let mut traps = 0u64;
    for end in ends {
        match end.way() {
            Way::Exit => exits = exits.saturating_add(1),
            Way::Trap => traps = traps.saturating_add(1),
            Way::Wait | Way::Spent => {}
        }
    }
    Ends { exits, traps }
}

/// How a run ended whose harts ended so, and whose pauses were so many.
fn run_end(ends: Ends, harts: u64, pauses: u64) -> RunEnd
    ensures { result ≡ spec.run_end ends.exits ends.traps harts pauses }
{
    RunEnd {
        is_trapped: 1 <= ends.traps,
        is_lost: ends.traps == harts && pauses == 0,
        is_exitless: ends.exits == 0,
    }
}

/// The longest runs, after one of so many steps that ended so.
fn longest_with(longest: Longest, steps: u32, end: RunEnd) -> Longest
    ensures { result ≡ spec.longest_with longest steps end }
{
    if longest.steps < steps {
        Longest {
            steps,
            runs: 1,
            trapped: u64::from(end.is_trapped),
            lost: u64::from(end.is_lost),
            exitless: u64::from(end.is_exitless),
        }
    } else if longest.steps == steps {
        Longest {
            steps: longest.steps,
            runs: longest.runs.saturating_add(1),
            trapped: raised(longest.trapped, end.is_trapped),
            lost: raised(longest.lost, end.is_lost),
            exitless: raised(longest.exitless, end.is_exitless),
        }
    } else {
        longest
    }
}

/// The widest walks, after one of so many harts.
fn widest_with(widest: Widest, harts: u64, spent: bool) -> Widest
    ensures { result ≡ spec.widest_with widest harts (spec.one_if spent) }
{
    if widest.harts < harts {
        Widest {
            harts,
            walks: 1,
            spent: u64::from(spent),
        }
    } else if widest.harts == harts {
        Widest {
            harts: widest.harts,
            walks: widest.walks.saturating_add(1),
            spent: raised(widest.spent, spent),
        }
    } else {
        widest
    }
}

/// The same after a run that may be a walk: whether it was spent.
fn widest_after(widest: Widest, harts: u64, walk: Option<bool>) -> Widest
    ensures { result ≡ spec.widest_after widest harts walk }
{
    match walk {
        Some(spent) => widest_with(widest, harts, spent),
        None => widest,
    }
}

impl Tally {
    /// What no run has seen.
    pub fn new(alloc: Global) -> Tally
        ensures { result ≡ spec.nothing }
    {
        Tally {
            runs: 0,
            walks: 0,
            probes: 0,
            ended: Ended::new(alloc),
            armed: Addresses::new(alloc),
            paused: Addresses::new(alloc),
            counts: Counts::none(),
            sampled: Counts::none(),
            each_stopped: 0,
            longest: Longest {
                steps: 0,
                runs: 0,
                trapped: 0,
                lost: 0,
                exitless: 0,
            },
            widest: Widest {
                harts: 0,
                walks: 0,
                spent: 0,
            },
            tried: 0,
        }
    }

    /// Adds what one more run saw. After a refusal of growth the tally is of no further use.
    #[tactic(auto, unfolding(crate::specs::Tally::added))]
    pub fn add(&mut self, run: &Summary) -> Result<(), NoMemory>
        ensures { OnOk result (self.new ≡ spec.added self.old run.now) }
    {
        self.ended.add_all(&run.ends)?;
        self.armed.add_all(&run.armed)?;
        self.paused.add_all(&run.paused)?;
        self.runs = self.runs.saturating_add(1);
        self.walks = raised(self.walks, run.walk.is_some());
        self.probes = self.probes.saturating_add(run.probes);
        self.counts = sum(self.counts, run.counts);
        self.sampled = sum(self.sampled, run.sampled);
        let ends = counted(&run.ends);
        let harts = run.ends.len() as u64;
        self.each_stopped = raised(self.each_stopped, ends.traps == harts);
        let end = run_end(ends, harts, run.counts.pauses());
        self.longest = longest_with(self.longest, run.most_steps, end);
        self.widest = widest_after(self.widest, harts, run.walk);
        self.tried = self.tried.saturating_add(run.tried);
        Ok(())
    }

    /// How many runs there were.
    pub fn runs(&self) -> u64
        ensures { result ≡ self.now.runs }
    {
        self.runs
    }

    /// How many of them walked.
    pub fn walks(&self) -> u64
        ensures { result ≡ self.now.walks }
    {
        self.walks
    }

    /// How many probes these made.
    pub fn probes(&self) -> u64
        ensures { result ≡ self.now.probes }
    {
        self.probes
    }

    /// How their harts ended.
    pub fn ended(&self) -> &Ended
        ensures { result.now ≡ self.now.ended }
    {
        &self.ended
    }

    /// The addresses that were armed.
    pub fn armed(&self) -> &Addresses
        ensures { result.now ≡ self.now.armed }
    {
        &self.armed
    }

    /// The addresses at which harts were paused.
    pub fn paused(&self) -> &Addresses
        ensures { result.now ≡ self.now.paused }
    {
        &self.paused
    }

    /// Their numbers.
    pub fn counts(&self) -> Counts
        ensures { result ≡ self.now.counts }
    {
        self.counts
    }

    /// The numbers of the sampled runs alone.
    pub fn sampled(&self) -> Counts
        ensures { result ≡ self.now.sampled }
    {
        self.sampled
    }

    /// How many pauses were made.
    pub fn pauses(&self) -> u64
        ensures { result ≡ saturated (spec.pauses self.now) }
    {
        self.counts.pauses()
    }

    /// Whether the first 48 runs show that the image is built for another machine.
    fn is_hopeless(&self) -> bool
        ensures { result ≡ spec.is_hopeless self.now }
    {
        self.runs == 48 && self.each_stopped == 48 && self.pauses() == 0
    }

    /// How far the hunt has come with these runs.
    pub fn reached(&self) -> Reached
        ensures { result ≡ spec.reached self.now }
    {
        Reached {
            runs: self.runs,
            cost: self
                .counts
                .steps
                .saturating_add(self.runs.saturating_mul(COST_OF_A_RUN))
                .saturating_add(self.probes.saturating_mul(COST_OF_A_PROBE))
                .saturating_add(self.tried),
            is_hopeless: self.is_hopeless(),
        }
    }

    /// Whether no pause was made.
    pub fn made_no_pause(&self) -> bool
        ensures { result ≡ doubt.made_no_pause self.now }
    {
        self.pauses() == 0
    }

    /// Whether in most of the longest runs a trap stopped a hart.
    pub fn most_trapped(&self) -> bool
        ensures { result ≡ doubt.most_trapped self.now }
    {
        is_most(self.longest.trapped, self.longest.runs)
    }

    /// Whether in most of the longest runs a trap stopped each hart before one was paused.
    pub fn most_lost(&self) -> bool
        ensures { result ≡ doubt.most_lost self.now }
    {
        is_most(self.longest.lost, self.longest.runs)
    }

    /// Whether pauses were made, and within none of them another hart made a step.
    pub fn passed_no_step(&self) -> bool
        ensures { result ≡ doubt.passed_no_step self.now }
    {
        1 <= self.pauses() && self.counts.passed == 0
    }

    /// Whether fewer than half of so many sites were ever armed.
    pub fn armed_few(&self, sites: u64) -> bool
        ensures { result ≡ doubt.armed_few sites self.now }
    {
        let half = sites / 2 + sites % 2;
        self.armed.count() < half
    }

    /// Whether most walks of the most harts made all steps that a walk may make, and saw no near pair.
    pub fn walked_in_vain(&self) -> bool
        ensures { result ≡ doubt.walked_in_vain self.now }
    {
        is_most(self.widest.spent, self.widest.walks)
    }

    /// Whether in most of the runs whose plan has the most steps no hart exited.
    pub fn exited_nowhere(&self) -> bool
        ensures { result ≡ doubt.exited_nowhere self.now }
    {
        is_most(self.longest.exitless, self.longest.runs)
    }
}
