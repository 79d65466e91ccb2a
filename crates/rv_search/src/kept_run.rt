//! What a hunt keeps of a run.
ghost use Rattle.std.specs.Prelude.{◌≡◌, IfOk, map, take};
ghost use Rattle.rv_search.specs.KeptRun as spec;
ghost use Rattle.rv_campaign.specs.Kept.{IsCoreOf};
ghost use Rattle.rv_collide.specs.Grammar.{IsWritable};
ghost use Rattle.rv_collide.specs.Numbers.{numbers};
ghost use Rattle.rv_explain.specs.Judged.{judged};
ghost use Rattle.rv_hart.specs.State.{start as first_state};
ghost use Rattle.rv_search.specs.Hunt.{IsSampledRun};
ghost use Rattle.rv_search.specs.internal.Gathered.{AreGathered};
ghost use Rattle.rv_search.specs.RunWalk.{IsBegin, IsRunWalk};
ghost use Rattle.rv_plans.specs.Plans.{plan_of};

use crate::gathered::Gathered;
use crate::hunt::Hunt;
use crate::run_walk::{Repeats, RunWalk, begin_of, drawn_pairs, probes_of, walk_of};
use crate::stuck::{StuckRun, StuckSeen};
use crate::summary::{Summary, ends_of, sampled_summary};
use crate::tally::counts::Counts;
use crate::trials::Trials;
use rv_campaign::{core_sampled, left_by};
use rv_collide::collider::{Collider, Finished, machine_of};
use rv_collide::entry::Entry;
use rv_collide::plan::Plan;
use rv_collide::schedule::laws::legal_is_writable;
use rv_explain::races::{Judged, Report, judged_in, reports_of};
use rv_hart::machine::Machine;
use rv_memory::flat::Flat;
use rv_memory::paged::Paged;
use rv_memory::store::NoMemory;
use rv_stuck::Act;
use rv_tables::near::NearRow;
use rv_tables::orders::TriedOrder;
use rv_tables::row::PartReport;
use rv_walk::code::{Executed, Marks};
use rv_walk::near_pair::Addresses;
use rv_walk::probes::Part;
use std::alloc::Global;

/// What is kept of a run: what is counted of it, its reports, in the order of its parts, the near pairs that its walk saw and that
/// were probed, the numbers of the words of code that its harts executed beside those that were counted, its stuck ends, and the
/// trials of orders. The run's entries, which are far more, are let go.
#[derive(Drop)]
pub struct KeptRun {
    pub summary: Summary,
    pub reports: Vec<PartReport>,
    pub near: Vec<(Addresses, NearRow)>,
    pub words: Vec<u32>,
    pub stuck: StuckRun,
    pub tried: Vec<TriedOrder>,
}

/// The reports of a part.
pub(crate) fn reports_in_part(
    alloc: Global,
    hunt: &Hunt<'_>,
    part: u32,
    before: u32,
    endings: &[Judged],
) -> Result<Vec<PartReport>, NoMemory>
    ensures { IfOk result (λ reports.
        reports.items ≡ map (spec.in_part part before) (spec.reports_by hunt.now endings.now)) }
{
    let reports = reports_of(alloc, hunt.image, hunt.ranges, endings)?;
    Ok(
        reports
            .iter()
            .map(|report| PartReport {
                part,
                before,
                report: *report,
            })
            .collect(alloc)?,
    )
}

/// What the sampled run of that number leaves.
pub fn sampled_run(alloc: Global, hunt: &Hunt<'_>, number: u32) -> Result<Finished, NoMemory>
    ensures run { IfOk result (IsSampledRun hunt.now number) }
    ensures writable { IfOk result (λ left. IsWritable (numbers left.plan) left.entries.items) }
{
    legal_is_writable();
    let core = core_of(alloc, hunt, number)?;
    core.facts();
    Ok(left_by(core))
}

/// The core with which the sampled run of that number is over.
fn core_of(alloc: Global, hunt: &Hunt<'_>, number: u32) -> Result<Collider<Flat>, NoMemory>
    ensures { IfOk result (IsCoreOf hunt.now.source (plan_of hunt.now.given number) number) }
{
    let plan = hunt.plans.plan(number);
    let seed = u64::from(hunt.seed);
    core_sampled(alloc, hunt.image, plan, seed, number, hunt.sampler)
}

impl Hunt<'_> {
    /// What is kept of the run of that number, where the words of code that were executed in earlier runs are counted.
    pub fn kept(&self, alloc: Global, number: u32, counted: &Marks) -> Result<KeptRun, NoMemory>
        ensures { IfOk result (spec.IsOfRun self.now number) }
    {
        if self.plans.mix().is_sampled(number) {
            self.kept_of_sampled(alloc, number, counted)
        } else {
            self.kept_of_walk(alloc, number, counted)
        }
    }

    fn kept_of_sampled(
        &self,
        alloc: Global,
        number: u32,
        counted: &Marks,
    ) -> Result<KeptRun, NoMemory>
        ensures { IfOk result (spec.IsOfSampled self.now number) }
    {
        let core = core_of(alloc, self, number)?;
        let ends = ends_of(alloc, &core)?;
        let left = left_by(core);
        let plan = self.plans.plan(number);
        let judged = judged_in(alloc, self.image, &plan, &[], &left.entries, &left.endings)?;
        let reports = reports_in_part(alloc, self, 0, 0, &judged)?;
        let summary = sampled_summary(alloc, ends, &left)?;
        let words = executed_in(alloc, self, &left, counted)?;
        Ok(KeptRun {
            summary,
            reports,
            near: Vec::new(alloc),
            words,
            stuck: StuckRun::none(alloc),
            tried: Vec::new(alloc),
        })
    }

    fn kept_of_walk(&self, alloc: Global, number: u32, counted: &Marks) -> Result<KeptRun, NoMemory>
        ensures { IfOk result (spec.IsOfWalk self.now number) }
    {
        let mut begin = begin_of(alloc, self, number)?;
        let walk = walk_of(alloc, self, number, &mut begin, counted)?;
        let gathered = gathered(alloc, &*self, number, &walk, begin)?;
        let is_spent = walk.is_spent();
        let stuck = StuckRun {
            ends: all_ends(walk.stuck, walk.left.harts.len() as u64, gathered.stuck)?,
            walk_ended: walk.ended,
        };
        let summary = Summary {
            most_steps: self.plans.plan(number).steps,
            ends: walk.ends,
            armed: Vec::new(alloc),
            paused: Vec::new(alloc),
            counts: gathered.counts,
            sampled: Counts::none(),
            probes: u64::from(gathered.parts),
            walk: Some(is_spent),
            tried: gathered.trials.steps,
        };
        Ok(KeptRun {
            summary,
            reports: gathered.reports,
            near: gathered.near,
            words: walk.left.words,
            stuck,
            tried: gathered.trials.tried,
        })
    }
}

/// The stuck ends of a walk, of so many steps, and of its parts.
fn all_ends(
    walk: Option<Vec<Act>>,
    steps: u64,
    parts: Vec<StuckSeen>,
) -> Result<Vec<StuckSeen>, NoMemory> {
    let mut ends = parts;
    if let Some(acts) = walk {
        ends.push(StuckSeen {
            acts,
            part: 0,
            steps,
        })?;
    }
    Ok(ends)
}

/// The numbers of the words of code that the harts of a sampled run executed, beside those that were counted.
fn executed_in(
    alloc: Global,
    hunt: &Hunt<'_>,
    left: &Finished,
    counted: &Marks,
) -> Result<Vec<u32>, NoMemory> {
    let plan = &left.plan;
    let mut machine: Machine<Flat> = machine_of(alloc, hunt.image, plan.harts, plan.steps)?;
    let mut executed = Executed::beside(alloc, hunt.code, counted)?;
    for entry in &left.entries {
        if let Entry::Stepped(h) = *entry {
            execute(&mut machine, &mut executed, h)?;
        }
    }
    Ok(executed.into_new())
}

/// A step of a hart, whose word is executed.
fn execute(
    machine: &mut Machine<Flat>,
    executed: &mut Executed<'_>,
    h: u8,
) -> Result<(), NoMemory> {
    if h < machine.harts() {
        executed.mark(machine.pc(h))?;
    }
    match machine.step(h) {
        Ok(_) => Ok(()),
        // A hart that stepped in the run steps here: only want of memory refuses it.
        Err(_) => Err(NoMemory),
    }
}

/// The steps of a walk before a place.
fn steps_before(harts: &[u8], place: u32) -> &[u8]
    ensures { result.now ≡ take place harts.now }
{
    let place = place as usize;
    if place < harts.len() {
        &harts[..place]
    } else {
        harts
    }
}

/// The endings of a part of a walk of so many harts, each with what it is judged by.
fn judged_part(
    alloc: Global,
    hunt: &Hunt<'_>,
    plan: &Plan,
    walk: &RunWalk,
    part: &Part,
) -> Result<Vec<Judged>, NoMemory>
    ensures { IfOk result (λ found. found.items ≡ map (judged (spec.run_of_part hunt.now (record {
      start = first_state hunt.now.source.image.segments hunt.now.source.image.entry plan.now.harts;
      harts = walk.now.left.harts.items;
    }) part.now)) part.now.probed.finished.endings.items) }
{
    let steps = steps_before(&walk.left.harts, part.place);
    let finished = &part.probed.finished;
    judged_in(
        alloc,
        hunt.image,
        plan,
        steps,
        &finished.entries,
        &finished.endings,
    )
}

/// What the probes of a walk come to, by a machine as it began.
fn gathered<'a>(
    alloc: Global,
    hunt: &'a Hunt<'a>,
    number: u32,
    walk: &'a RunWalk,
    begin: Machine<Paged>,
) -> Result<Gathered, NoMemory>
    requires walk { IsRunWalk hunt.now number walk.now }
    requires begin { IsBegin hunt.now number begin }
    ensures { IfOk result (AreGathered hunt.now number walk.now) }
{
    let drawn = drawn_pairs(alloc, hunt, number, walk)?;
    let trials = Trials::of(alloc, hunt, number, walk.left.harts.len(), drawn.len());
    let mut gathered = Gathered::of(alloc, walk, trials)?;
    let plan = hunt.plans.plan(number);
    let mut probes = probes_of(begin, hunt, number, walk);
    let mut repeats = Repeats::none();
    for pair in &drawn {
        let part = probes.probe(alloc, pair, repeats.before(pair))?;
        let judged = judged_part(alloc, hunt, &plan, walk, &part)?;
        let first = gathered.reports.len();
        gathered.add(alloc, hunt, &part, &judged)?;
        gathered.try_from(alloc, &mut probes, &part, first)?;
    }
    Ok(gathered)
}
