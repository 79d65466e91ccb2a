//! Hunts: runs of consecutive numbers, as many as a limit allows.
ghost use Rattle.std.specs.Prelude.{◌≡◌, ◌<◌, ◌≤◌, ◌+◌, ◌^◌, false, true, length, IfOk, OnOk};
ghost use Rattle.rv_search.specs.Hunt.{IsHunt};
ghost use Rattle.rv_search.specs.Hunted as spec;
ghost use Rattle.rv_search.specs.KeptRun.{IsOfRun};
ghost use Rattle.rv_search.specs.internal.Lots as internal;

use crate::aim::Aim;
use crate::hunted::Hunted;
use crate::kept_run::KeptRun;
use crate::noted::Noted;
use rv_campaign::{Jobs, PoolFault, all_made};
use rv_elf::Image;
use rv_memory::store::NoMemory;
use rv_plans::limit::{Limit, Reached, next_number};
use rv_plans::plans::Plans;
use rv_prune::named_bytes::NamedBytes;
use rv_report::key::Key;
use rv_sample::Sampler;
use rv_walk::code::{Code, Marks};
use rv_walk::sites::Sites;
use std::alloc::Global;
use std::marker::Model;
use std::sync::Wait;
use std::thread::Threads;

/// How many finished runs wait for an earlier one at most, for each worker.
const MOST_HELD: u32 = 256;

/// How many addresses these arm together at most, where there are more than one.
const MOST_HELD_ARMS: u32 = 16_384;

/// How many steps the runs that are made together count for each worker, by what runs have cost so far. What goes along with a hunt
/// is told of them once all were made.
const STEPS_OF_A_LOT: u64 = 4_000_000;

/// In how many parts a hunt goes at least.
const PARTS: u64 = 10;

/// A hunt: the image, the seed and the sites that its runs are made of, their plans, the ranges of the listed names and of those in
/// which a hart may wait for ever, what near pairs alone are probed, if not all, the number of its first run, and how far it goes.
#[derive(Drop)]
pub struct Hunt<'a> {
    pub image: &'a Image,
    pub seed: u32,
    pub sampler: &'a Sampler,
    /// The same sites, found at one look.
    pub sites: &'a Sites,
    /// The words of the image's code.
    pub code: &'a Code,
    pub plans: &'a Plans,
    pub ranges: &'a NamedBytes,
    pub idle: &'a NamedBytes,
    pub aim: &'a Option<Aim>,
    pub first: u32,
    pub limit: Limit,
    /// Whether runs have trials of orders.
    pub orders: bool,
}

impl<'a> Model for Hunt<'a> {
    ghost use Rattle.std.specs.Prelude.{◌≡◌};
    ghost use Rattle.rv_search.specs.Hunt.{Hunt as Asked};

    ghost Value = { Asked };

    ghost view = { λ h. record {
      source = record { image = h.image.now; sites = h.sampler.now; seed = h.seed };
      given = h.plans.now;
      ranges = h.ranges.now;
      idle = h.idle.now;
      first = h.first;
      limit = h.limit;
    } };

    ghost invariant = { λ h. h.sites.now ≡ h.sampler.now };
}

/// A text that tells what a hunt has found so far.
#[derive(Clone, Copy)]
pub enum Draft {
    Page,
    List,
    /// The hunt table.
    Table,
    /// What was found as JSON.
    Object,
}

/// Is told how far a hunt has come, and keeps what it has found. What it can't keep while the hunt goes on is no fault of the hunt.
pub trait Watch {
    /// One more run has been added up.
    fn saw(&mut self, hunted: &Hunted);

    /// Of so many races that are shown in full some have been.
    fn shows(&mut self, shown: usize, all: usize);

    /// Whether it tells races the moment that they are met.
    fn tells_meetings(&self) -> bool {
        false
    }

    /// Tells a line of such a race.
    fn met(&mut self, _: &[u8]) {}

    /// All is made that is written now.
    fn ends(&mut self) {}

    /// Looks, before the first run, whether what is kept can be. Where it can't the hunt ends as where memory is out, and why it
    /// can't is told by who watches.
    fn begins(&mut self) -> Result<(), NoMemory> {
        Ok(())
    }

    /// Whether it keeps the schedules of races.
    fn keeps_schedules(&self) -> bool {
        false
    }

    /// Keeps the schedule by which a race was first reported, as what its class is now.
    fn keep_schedule(&mut self, _: &Key, _: &[u8]) {}

    /// Whether it keeps that text while the hunt goes on.
    fn keeps(&self, _: Draft) -> bool {
        false
    }

    /// Keeps a text in place of the one before.
    fn keep(&mut self, _: Draft, _: &[u8]) {}

    /// Whether it takes the table of the whole hunt.
    fn takes_table(&self) -> bool {
        false
    }

    /// Takes the table of the whole hunt, once all runs are made.
    fn take_table(&mut self, _: &[u8]) {}
}

/// Goes along with the runs of a hunt.
pub trait Along {
    /// One more run has been added up.
    fn saw(&mut self, hunted: &Hunted);

    /// Some runs, which were made together, have been added up.
    fn added<R: Threads + Wait>(
        &mut self,
        rt: &R,
        alloc: Global,
        hunt: &Hunt,
        hunted: &Hunted,
        noted: &Noted,
    );
}

/// So many runs of a hunt from a number on, as jobs. The words of code that were executed in earlier ones are counted.
#[derive(Drop)]
struct Lot<'a, 'h> {
    hunt: &'a Hunt<'h>,
    counted: &'a Marks,
    next: u32,
    count: u32,
}

impl<'a, 'h> Model for Lot<'a, 'h> {
    ghost use Rattle.std.specs.Prelude.{◌+◌, ◌≤◌, ◌^◌};
    ghost use Rattle.rv_search.specs.internal.Lots.{Lot as Asked};

    ghost Value = { Asked };

    ghost view = { λ l. record { hunt = l.hunt.now; next = l.next; count = l.count } };

    ghost invariant = { λ l. l.next + l.count ≤ 2 ^ 32 };
}

impl<'a, 'h> Jobs for Lot<'a, 'h> {
    type Made = KeptRun;

    ghost jobs = { λ lot. lot.count };

    ghost makes = { λ lot place kept. IsOfRun lot.hunt (lot.next + place) kept };

    fn count(&self) -> u32 {
        self.count
    }

    fn size(&self, place: u32) -> u32 {
        let hunt = self.hunt;
        hunt.plans.plan(self.next.wrapping_add(place)).steps
    }

    fn make(&self, alloc: Global, place: u32) -> Result<KeptRun, NoMemory> {
        self.hunt.kept(alloc, self.next + place, self.counted)
    }
}

impl Hunt<'_> {
    /// Whether one more run is made.
    fn goes_on(&self, hunted: &Hunted) -> bool
        ensures { result ≡ spec.is_due self.now hunted.now.tally }
    {
        self.limit.goes_on(self.first, hunted.tally.reached())
    }

    /// The number of the next run.
    fn next(&self, hunted: &Hunted) -> u32
        requires hunt { IsHunt self.now }
        requires goes_on { spec.is_due self.now hunted.now.tally ≡ true }
        ensures { result ≡ self.now.first + hunted.now.tally.runs }
    {
        next_number(self.first, hunted.tally.runs())
    }

    /// How many finished runs may be held by so many workers, from the run of that number on.
    fn most_held(&self, next: u32, workers: u8) -> u64
        ensures { (1 ≤ result) × (result ≤ 65_536) }
    {
        let arms = self.plans.plan(next).arms.max(1);
        let each = (MOST_HELD_ARMS / arms).min(MOST_HELD).max(1);
        u64::from(each) * u64::from(workers.max(1))
    }

    /// How many runs of so much cost are a part of the hunt.
    fn part_of(&self, each: u64) -> u64 {
        match self.limit {
            Limit::Runs(all) => all.div_ceil(PARTS),
            Limit::Budget(steps) => steps.div_ceil(PARTS) / each.max(1),
        }
    }

    /// How many runs of so much cost are left.
    fn left_of(&self, reached: Reached, each: u64) -> u64 {
        match self.limit {
            Limit::Runs(all) => all.saturating_sub(reached.runs),
            Limit::Budget(steps) => {
                let left = steps.saturating_sub(reached.cost);
                (left / each.max(1)).saturating_add(1)
            }
        }
    }

    /// How many of the next runs, of so many at most, keep that many workers busy to the end: the longest of them, which is begun first,
    /// is the half of what a worker has to do at most.
    fn balanced(&self, next: u32, most: u32, workers: u64) -> u64 {
        let mut all = 0u64;
        let mut longest = 0u64;
        for n in 0..most {
            let steps = u64::from(self.plans.plan(next.wrapping_add(n)).steps);
            all = all.saturating_add(steps);
            longest = longest.max(steps);
            if all >= longest.saturating_mul(workers).saturating_mul(2) {
                return u64::from(n) + 1;
            }
        }
        u64::from(most)
    }

    /// How many of the next runs, of so many at most, are wanted together, by what runs have cost so far: few enough that what goes along
    /// is told of them soon, and enough for the workers. Before the first it isn't known what a run costs.
    fn wanted_of(&self, reached: Reached, next: u32, most: u32, workers: u64) -> u64 {
        if reached.runs == 0 {
            return self.left_of(reached, 1).min(workers);
        }
        let each = (reached.cost / reached.runs).max(1);
        let together = STEPS_OF_A_LOT.saturating_mul(workers) / each;
        let wanted = together
            .min(self.part_of(each))
            .max(self.balanced(next, most, workers));
        match self.limit {
            Limit::Runs(_) => wanted.min(self.left_of(reached, each)),
            // Where the last ones are done all workers are to be busy.
            Limit::Budget(_) => wanted.min(self.left_of(reached, each).max(workers)),
        }
    }

    /// How many runs are made together next: as many as are wanted, no more than are held, and no more than there are numbers.
    fn lot_len(&self, hunted: &Hunted, next: u32, workers: u8) -> u32
        ensures some { 1 ≤ result }
        ensures numbers { next + result ≤ 2 ^ 32 }
    {
        let most = self
            .most_held(next, workers)
            .min((1 << 32) - u64::from(next)) as u32;
        let some = u64::from(workers.max(1));
        let wanted = self.wanted_of(hunted.tally.reached(), next, most, some);
        (wanted.min(u64::from(most)) as u32).max(1)
    }

    /// Some of the runs from a number on.
    fn lot<R: Threads + Wait>(
        &self,
        rt: &R,
        alloc: Global,
        hunted: &Hunted,
        counted: &Marks,
        next: u32,
        workers: u8,
    ) -> Result<Vec<KeptRun>, PoolFault>
        requires { workers ≤ 16 }
        ensures lot { IfOk result (λ lot. internal.IsLot self.now next lot.items) }
        ensures some { IfOk result (λ lot. 1 ≤ length lot.items) }
        ensures numbers { IfOk result (λ lot. next + length lot.items ≤ 2 ^ 32) }
    {
        let lot = Lot {
            hunt: self,
            counted,
            next,
            count: self.lot_len(hunted, next, workers),
        };
        all_made(rt, alloc, &lot, workers)
    }

    /// Adds what the next run saw, and notes what is noted beside.
    fn add(
        &self,
        alloc: Global,
        hunted: &mut Hunted,
        noted: &mut Noted,
        run: u32,
        kept: &KeptRun,
    ) -> Result<(), NoMemory>
        requires so_far { spec.IsNotedSoFar self.now hunted.old noted.old.ends }
        requires goes_on { spec.is_due self.now hunted.old.tally ≡ true }
        requires hunt { IsHunt self.now }
        requires next { run ≡ self.now.first + hunted.old.tally.runs }
        requires kept { IsOfRun self.now run kept.now }
        ensures so_far { OnOk result (spec.IsNotedSoFar self.now hunted.new noted.new.ends) }
        ensures right { OnOk result (noted.new.ends.right ≡ noted.old.ends.right) }
        ensures runs { OnOk result (hunted.new.tally.runs ≡ hunted.old.tally.runs + 1) }
    {
        hunted.add(run, kept)?;
        noted.add(alloc, run, kept)?;
        Ok(())
    }

    /// Adds what the next runs saw, as long as the hunt goes on.
    fn add_lot<A: Along>(
        &self,
        alloc: Global,
        hunted: &mut Hunted,
        noted: &mut Noted,
        next: u32,
        lot: &[KeptRun],
        along: &mut A,
    ) -> Result<(), NoMemory>
        requires so_far { spec.IsNotedSoFar self.now hunted.old noted.old.ends }
        requires goes_on { spec.is_due self.now hunted.old.tally ≡ true }
        requires hunt { IsHunt self.now }
        requires next { next ≡ self.now.first + hunted.old.tally.runs }
        requires lot { internal.IsLot self.now next lot.now }
        requires some { 1 ≤ length lot.now }
        requires numbers { next + length lot.now ≤ 2 ^ 32 }
        ensures so_far { OnOk result (spec.IsNotedSoFar self.now hunted.new noted.new.ends) }
        ensures right { OnOk result (noted.new.ends.right ≡ noted.old.ends.right) }
        ensures more { OnOk result (hunted.old.tally.runs < hunted.new.tally.runs) }
    {
        for place in 0..lot.len() {
            if !self.goes_on(hunted) {
                return Ok(());
            }
            self.add(alloc, hunted, noted, next + place as u32, &lot[place])?;
            along.saw(hunted);
        }
        Ok(())
    }

    /// Adds what the runs of the hunt see that are still to be made.
    fn go_on<R: Threads + Wait, A: Along>(
        &self,
        rt: &R,
        alloc: Global,
        hunted: &mut Hunted,
        noted: &mut Noted,
        workers: u8,
        along: &mut A,
    ) -> Result<(), PoolFault>
        requires so_far { spec.IsNotedSoFar self.now hunted.old noted.old.ends }
        requires hunt { IsHunt self.now }
        requires workers { workers ≤ 16 }
        ensures hunted { OnOk result (spec.IsNoted self.now hunted.new noted.new.ends) }
        ensures right { OnOk result (noted.new.ends.right ≡ noted.old.ends.right) }
    {
        while self.goes_on(hunted) {
            let next = self.next(hunted);
            let lot = self.lot(rt, alloc, hunted, &noted.words, next, workers)?;
            self.add_lot(alloc, hunted, noted, next, &lot, along)?;
            along.added(rt, alloc, self, hunted, noted);
        }
        Ok(())
    }

    /// What the runs of the hunt see: exactly those from the first number on that its limit allows, whatever the number
    /// of workers (1 to 16). Some runs are made together, which are then added up in the order of their numbers; what
    /// of them is behind the hunt's end is let go. What is noted is of no run before.
    pub fn hunted<R: Threads + Wait, A: Along>(
        &self,
        rt: &R,
        alloc: Global,
        workers: u8,
        noted: &mut Noted,
        along: &mut A,
    ) -> Result<Hunted, PoolFault>
        requires hunt { IsHunt self.now }
        requires workers { workers ≤ 16 }
        requires none { noted.old.ends.is_wrong ≡ false }
        ensures hunted { IfOk result (λ hunted. spec.IsNoted self.now hunted noted.new.ends) }
        ensures right { OnOk result (noted.new.ends.right ≡ noted.old.ends.right) }
    {
        let mut hunted = Hunted::new(alloc);
        self.go_on(rt, alloc, &mut hunted, noted, workers, along)
            .and(Ok(hunted))
    }
}
