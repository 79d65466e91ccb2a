//! The plans of a hunt's runs.
ghost use Rattle.std.specs.Prelude.{◌≡◌, ◌↔◌, ◌≤◌, true, unwrap_or, IsSome, IfSome};
ghost use Rattle.rv_collide.specs.Numbers.{numbers};
ghost use Rattle.rv_collide.specs.Plan.{IsPlan};
ghost use Rattle.rv_plans.specs.Plans as spec;

use rv_collide::plan::{MOST_ARMS, MOST_HARTS, MOST_PAUSE, MOST_SLOTS, MOST_STEPS, Plan};
use rv_walk::course::{four_of, steps_at};
use std::marker::Model;

/// The lengths of a run: how many steps its harts make together at most (1 to 1,000,000), how many addresses are armed
/// in all at most (0 to 4096), and how many steps of other harts a pause lasts at least (1 to 65,535).
#[derive(Clone, Copy)]
pub struct Lengths {
    pub steps: u32,
    pub arms: u32,
    pub pause: u32,
}

/// What the runs of a hunt are: of each four three walks and a sampled run, sampled runs alone, or walks alone.
#[derive(Clone, Copy)]
pub enum Mix {
    Mixed,
    Sampled,
    Walks,
}

/// The plans of all runs, by number. The lengths go through all scales, and there are 2, 4 and 8 harts by turns, where
/// none are given.
#[derive(Drop)]
pub struct Plans {
    mix: Mix,
    harts: Option<u8>,
    slots: u8,
    lengths: Option<Lengths>,
}

/// A run of a hunt: its plan, and its number, which with the seed gives its words.
#[derive(Clone, Copy)]
pub struct Numbered {
    pub plan: Plan,
    pub number: u32,
}

impl Model for Plans {
    ghost use Rattle.rv_plans.specs.Plans.{Given, IsGiven};

    ghost Value = { Given };

    ghost view = { λ p. record { mix = p.mix; harts = p.harts; slots = p.slots; lengths = p.lengths } };

    ghost invariant = { λ p. IsGiven (record { mix = p.mix; harts = p.harts; slots = p.slots; lengths = p.lengths }) };
}

impl Mix {
    /// Whether the run is one whose harts are paused at sites that are drawn.
    pub fn is_sampled(self, run: u32) -> bool
        ensures { result ≡ spec.is_sampled self run }
    {
        match self {
            Mix::Mixed => run % 4 == 3,
            Mix::Sampled => true,
            Mix::Walks => false,
        }
    }

    /// How many steps a run makes, where that is not given: at most, or as a walk at least where its harts are awake.
    fn steps_of(self, run: u32) -> u32
        ensures is { result ≡ spec.steps_of self run }
        ensures some { 1000 ≤ result }
        ensures few { result ≤ 1_000_000 }
    {
        match self {
            Mix::Mixed | Mix::Walks => steps_at(u64::from(four_of(run))),
            Mix::Sampled => steps_at(u64::from(run) + 1),
        }
    }

    /// The lengths of a run, where they are not given.
    fn lengths_of(self, run: u32) -> Lengths
        ensures value { result ≡ spec.lengths_of self run }
        ensures legal { spec.AreLengths result }
    {
        let steps = self.steps_of(run);
        Lengths {
            steps,
            arms: 64,
            pause: steps / 20,
        }
    }
}

/// How many harts a run has, where that is not given.
fn harts_of(run: u32) -> u8
    ensures { result ≡ spec.harts_of run }
{
    match run % 3 {
        0 => 2,
        1 => 4,
        _ => 8,
    }
}

/// Whether a run may have the lengths.
fn are_lengths(lengths: Lengths) -> bool
    ensures { (result ≡ true) ↔ spec.AreLengths lengths }
{
    let run = 1 <= lengths.steps && lengths.steps <= MOST_STEPS && lengths.arms <= MOST_ARMS;
    run && 1 <= lengths.pause && lengths.pause <= MOST_PAUSE
}

impl Plans {
    /// The plans of such runs with so many harts (1 to 16), slots (1 to 8) and lengths, where they are in range.
    pub fn new(mix: Mix, harts: Option<u8>, slots: u8, lengths: Option<Lengths>) -> Option<Plans>
        ensures valid { IsSome result
            ↔ spec.IsGiven (record { mix = mix; harts = harts; slots = slots; lengths = lengths }) }
        ensures value { IfSome result (λ plans. plans
            ≡ record { mix = mix; harts = harts; slots = slots; lengths = lengths }) }
    {
        if let Some(harts) = harts {
            if !(1 <= harts && harts <= MOST_HARTS) {
                return None;
            }
        }
        if let Some(lengths) = lengths {
            if !are_lengths(lengths) {
                return None;
            }
        }
        if 1 <= slots && slots <= MOST_SLOTS {
            Some(Plans {
                mix,
                harts,
                slots,
                lengths,
            })
        } else {
            None
        }
    }

    /// What the runs are.
    pub fn mix(&self) -> Mix
        ensures { result ≡ self.now.mix }
    {
        self.mix
    }

    /// How many harts a run has.
    fn harts(&self, run: u32) -> u8
        ensures value { result ≡ unwrap_or self.now.harts (spec.harts_of run) }
        ensures legal { spec.IsHarts result }
    {
        match self.harts {
            Some(harts) => harts,
            None => harts_of(run),
        }
    }

    /// The lengths of a run.
    fn lengths(&self, run: u32) -> Lengths
        ensures value { result ≡ unwrap_or self.now.lengths (spec.lengths_of self.now.mix run) }
        ensures legal { spec.AreLengths result }
    {
        match self.lengths {
            Some(lengths) => lengths,
            None => self.mix.lengths_of(run),
        }
    }

    /// The plan of a run, which is a legal one.
    #[tactic(auto, unfolding(crate::specs::Plans::plan_of))]
    pub fn plan(&self, run: u32) -> Plan
        ensures value { numbers result ≡ spec.plan_of self.now run }
        ensures legal { IsPlan (spec.plan_of self.now run) }
    {
        let harts = self.harts(run);
        let lengths = self.lengths(run);
        let _slots = self.slots;
        match Plan::new(
            harts,
            lengths.steps,
            lengths.arms,
            lengths.pause,
            self.slots,
        ) {
            Some(plan) => plan,
            None => unreachable!(),
        }
    }

    /// The run of that number, which is made again by its plan and its number.
    pub fn numbered(&self, number: u32) -> Numbered
        ensures plan { numbers result.plan ≡ spec.plan_of self.now number }
        ensures number { result.number ≡ number }
    {
        let plan = self.plan(number);
        Numbered { plan, number }
    }
}
