//! A race that is shown in full: the values of its block, in the part of the run that its row names, made again.
ghost use Rattle.std.specs.Prelude.{◌≡◌, ◌<◌, ◌≤◌, ◌++◌, ◌∷◌, [], true, false, IfOk, OnOk, IfSome, All, Some, find, length, option_map, slice_get};
ghost use Rattle.std.specs.Option.{option_copied, option_to_list};
ghost use Rattle.rv_collide.specs.Grammar.{IsWritable, schedule_text};
ghost use Rattle.rv_collide.specs.Numbers.{numbers};
ghost use Rattle.rv_collide.specs.Verdict.{endings};
ghost use Rattle.rv_debug.specs.Placed.{moved};
ghost use Rattle.rv_explain.specs.Races as races;
ghost use Rattle.rv_remade.specs.Remade.{is_told_by};
ghost use Rattle.rv_remade.specs.Shown.{IsRaceShown};
ghost use Rattle.rv_search.specs.RunWalk.{AreProbesOf, IsBegin, IsRunWalk};
ghost use Rattle.rv_plans.specs.Plans.{is_sampled};
ghost use Rattle.rv_walk.specs.declared.course.TheConstants.{MOST_WALKED};
ghost use Rattle.rv_remade.specs.internal.Showing as internal;

use rv_campaign::Jobs;
use rv_collide::collider::Finished;
use rv_collide::entry::Entry;
use rv_collide::plan::Plan;
use rv_collide::schedule::laws::legal_is_writable;
use rv_collide::schedule::write_schedule;
use rv_debug::session::Session;
use rv_explain::classes::rank;
use rv_explain::race_block::race_block;
use rv_explain::races::{Race, Report, reports_in};
use rv_explain::symbol_table::SymbolTable;
use rv_hart::machine::Machine;
use rv_memory::flagged::Flagged;
use rv_memory::paged::Paged;
use rv_memory::store::NoMemory;
use rv_report::key::Key;
use rv_search::hunt::Hunt;
use rv_search::kept_run::sampled_run;
use rv_search::run_walk::{Repeats, RunWalk, begin_of, drawn_pairs, probes_of, walk_of};
use rv_shown::shown::ShownRace;
use rv_tables::row::RaceRow;
use rv_walk::code::Marks;
use rv_walk::near_pair::NearPair;
use rv_walk::probes::Probes;
use std::alloc::Global;

/// How many entries are told before and after each place of a block.
pub const AROUND: u32 = 3;

/// A part of a run of a hunt.
#[derive(Clone, Copy)]
pub(crate) struct RunPart {
    pub(crate) run: u32,
    pub(crate) part: u32,
}

/// What is shown of the races of one part of a run, each with the place of its row, and the schedule as text.
#[derive(Drop)]
pub(crate) struct ShownPart {
    pub(crate) races: Vec<(u32, ShownRace)>,
    pub(crate) schedule: Vec<u8>,
}

/// The races that are shown in full: those of these rows.
#[derive(Clone, Copy)]
pub struct InFull<'a, 'h, 's> {
    pub hunt: &'a Hunt<'h>,
    pub symbols: &'a SymbolTable<'s>,
    pub rows: &'a [(Key, RaceRow)],
}

/// Some of the parts of a run: those at whose numbers, divided by `of`, `rest` is left.
#[derive(Clone, Copy)]
pub(crate) struct Share {
    pub(crate) rest: u32,
    pub(crate) of: u32,
}

impl Share {
    /// Whether a part is among them.
    fn has(&self, part: u32) -> bool {
        part % self.of.max(1) == self.rest
    }
}

/// Runs whose races are shown, as jobs: so many shares of each run. A walk that most rows name is made again by several workers,
/// each of which shows some of its probes.
#[derive(Drop)]
pub(crate) struct Showers<'a, 'h, 's> {
    pub(crate) full: InFull<'a, 'h, 's>,
    pub(crate) runs: &'a [u32],
    pub(crate) shares: u32,
    pub(crate) count: u32,
}

impl Showers<'_, '_, '_> {
    /// The run that a job makes again, if there is such a job.
    fn run_of(&self, job: u32) -> Option<u32> {
        let place = job / self.shares.max(1);
        self.runs.get(place as usize).copied()
    }
}

impl<'a, 'h, 's> Jobs for Showers<'a, 'h, 's> {
    type Made = Vec<ShownPart>;

    ghost jobs = { λ k. k.count };

    ghost makes = { λ k _ parts. internal.AreShownIn k.full parts.items };

    fn count(&self) -> u32 {
        self.count
    }

    fn size(&self, place: u32) -> u32 {
        let hunt = self.full.hunt;
        match self.run_of(place) {
            Some(run) => hunt.plans.plan(run).steps,
            None => 0,
        }
    }

    fn make(&self, alloc: Global, place: u32) -> Result<Vec<ShownPart>, NoMemory> {
        let share = Share {
            rest: place % self.shares.max(1),
            of: self.shares,
        };
        match self.run_of(place) {
            Some(run) => self.full.run(alloc, run, share),
            None => Err(NoMemory),
        }
    }
}

/// Whether a row tells of a report.
fn is_told_by(key: &Key, row: &RaceRow, report: &Report) -> bool
    ensures { result ≡ is_told_by (key.now, row.now) report.now }
{
    let ending = &report.ending;
    let is_of = *key == report.key && rank(row.class) == rank(report.class);
    is_of && row.entry == ending.paused_at && row.old == ending.old && row.new == ending.new
}

/// The first report that a row tells of.
fn first_told<'a>(key: &Key, row: &RaceRow, reports: &'a [Report]) -> Option<&'a Report>
    ensures { option_copied result ≡ find (is_told_by (key.now, row.now)) reports.now }
{
    reports.iter().find(|report| is_told_by(key, row, report))
}

/// The text of a schedule.
pub fn written(alloc: Global, plan: &Plan, entries: &[Entry]) -> Result<Vec<u8>, NoMemory>
    requires { IsWritable (numbers plan.now) entries.now }
    ensures { IfOk result (λ text. text.items ≡ schedule_text (numbers plan.now) entries.now) }
{
    let mut writer = Flagged::new(Vec::new(alloc));
    match write_schedule(plan, entries, &mut writer) {
        Ok(()) => Ok(writer.into_inner()),
        // Only want of memory refuses a byte.
        Err(_) => Err(NoMemory),
    }
}

/// Adds the race of the row at a place, where there is one.
fn push_found(
    shown: &mut Vec<(u32, ShownRace)>,
    place: u32,
    found: Option<ShownRace>,
) -> Result<(), NoMemory>
    ensures { OnOk result (shown.new.items
        ≡ shown.old.items ++ option_to_list (option_map (λ one. (place, one)) found)) }
{
    if let Some(one) = found {
        shown.push((place, one))?;
    }
    Ok(())
}

impl InFull<'_, '_, '_> {
    /// The race of the row at a place, in a run of these reports and so many harts; none of the reports may be the row's.
    fn row(
        &self,
        alloc: Global,
        session: &mut Session,
        reports: &[Report],
        harts: u8,
        place: usize,
    ) -> Result<Option<ShownRace>, NoMemory>
        requires place { place < length self.now.rows.now }
        requires image { session.old.image ≡ self.now.symbols.now.image }
        requires reports { reports.now ≡ internal.reports_of self.now (races.run_of session.old) }
        ensures shown { IfOk result (λ found. IfSome found (λ shown.
            internal.IsOfRow self.now (races.run_of session.old) harts place shown)) }
        ensures same { session.new ≡ moved session.old session.new.place }
    {
        let (key, row) = &self.rows[place];
        let Some(told) = first_told(key, row, reports) else {
            return Ok(None);
        };
        let race = Race {
            reports: row.count,
            told: *told,
        };
        let block = race_block(alloc, session, self.symbols, AROUND, &race)?;
        Ok(Some(ShownRace { block, harts }))
    }
}

impl InFull<'_, '_, '_> {
    /// Whether a row is shown by that part of a run, which is in that share.
    fn names(&self, of: RunPart, share: Share) -> bool {
        share.has(of.part)
            && self
                .rows
                .iter()
                .any(|(_, row)| row.run == of.run && row.part == of.part)
    }

    /// What is shown of the races of a part; the first of them comes last.
    fn races(
        &self,
        alloc: Global,
        session: &mut Session,
        reports: &[Report],
        harts: u8,
        of: RunPart,
    ) -> Result<Vec<(u32, ShownRace)>, NoMemory>
        requires image { session.old.image ≡ self.now.symbols.now.image }
        requires reports { reports.now ≡ internal.reports_of self.now (races.run_of session.old) }
        ensures { IfOk result (λ shown. All (λ one.
            internal.IsOfRow self.now (races.run_of session.old) harts one.0 one.1
            × internal.IsOfRun self.now of.run one.0) shown.items) }
    {
        let mut shown = Vec::new(alloc);
        // The last is taken in first.
        for n in 0..self.rows.len() {
            let place = self.rows.len() - 1 - n;
            let row = &self.rows[place].1;
            if row.run != of.run || row.part != of.part {
                continue;
            }
            // There are far fewer rows than 2^32.
            let Ok(short) = u32::try_from(place) else {
                return Err(NoMemory);
            };
            let found = self.row(alloc, session, reports, harts, place)?;
            push_found(&mut shown, short, found)?;
        }
        Ok(shown)
    }

    /// What is shown of a part that was made again.
    fn part(&self, alloc: Global, of: RunPart, run: Finished) -> Result<ShownPart, NoMemory>
        requires { IsWritable (numbers run.plan) run.entries.items }
        ensures { IfOk result (λ shown. internal.IsShownPart self.now of.run run shown) }
    {
        let hunt = self.hunt;
        let image = self.symbols.image();
        let schedule = written(alloc, &run.plan, &run.entries)?;
        let harts = run.plan.harts;
        // A run that was made is legal: only want of memory refuses it.
        let Ok(mut session) = Session::new(alloc, image, run.plan, run.entries) else {
            return Err(NoMemory);
        };
        let reports = reports_in(alloc, image, &session, hunt.ranges)?;
        let races = self.races(alloc, &mut session, &reports, harts, of)?;
        Ok(ShownPart { races, schedule })
    }

    /// What is shown of some parts of a run.
    fn run(&self, alloc: Global, run: u32, share: Share) -> Result<Vec<ShownPart>, NoMemory>
        ensures { IfOk result (λ parts. internal.AreShownIn self.now parts.items) }
    {
        let hunt = self.hunt;
        if !hunt.plans.mix().is_sampled(run) {
            self.walked(alloc, run, share)
        } else if share.has(0) {
            self.sampled(alloc, run)
        } else {
            Ok(Vec::new(alloc))
        }
    }

    /// What is shown of a sampled run.
    fn sampled(&self, alloc: Global, run: u32) -> Result<Vec<ShownPart>, NoMemory>
        requires { is_sampled self.now.hunt.now.given.mix run ≡ true }
        ensures { IfOk result (λ parts. internal.AreShownIn self.now parts.items) }
    {
        let left = sampled_run(alloc, self.hunt, run)?;
        let part = self.part(alloc, RunPart { run, part: 0 }, left)?;
        let mut parts = Vec::new(alloc);
        parts.push(part)?;
        Ok(parts)
    }

    /// What is shown of some probes of a walk.
    fn walked(&self, alloc: Global, run: u32, share: Share) -> Result<Vec<ShownPart>, NoMemory>
        requires { is_sampled self.now.hunt.now.given.mix run ≡ false }
        ensures { IfOk result (λ parts. internal.AreShownIn self.now parts.items) }
    {
        let hunt = self.hunt;
        let none = Marks::none(alloc, hunt.code.len())?;
        let mut begin = begin_of(alloc, hunt, run)?;
        let walk = walk_of(alloc, hunt, run, &mut begin, &none)?;
        let drawn = drawn_pairs(alloc, hunt, run, &walk)?;
        probed_parts(alloc, *self, run, share, &walk, begin, &drawn)
    }

    /// What is shown of one probe of a walk.
    fn probed(
        &self,
        alloc: Global,
        probes: &mut Probes<'_, Paged>,
        walk: &RunWalk,
        of: RunPart,
        pair: &NearPair,
        before: u32,
    ) -> Result<ShownPart, NoMemory>
        requires walked { is_sampled self.now.hunt.now.given.mix of.run ≡ false }
        requires probes { AreProbesOf self.now.hunt.now of.run walk.now probes.old }
        requires few { length walk.now.left.harts.items ≤ MOST_WALKED }
        ensures same { probes.new ≡ probes.old }
        ensures shown { IfOk result (λ shown. internal.AreShownIn self.now (shown ∷ [])) }
    {
        let part = probes.probe(alloc, pair, before)?;
        let whole = part.whole(alloc, &walk.left.harts)?;
        legal_is_writable();
        self.part(alloc, of, whole)
    }
}

/// What is shown of those of some probes of a walk that rows name.
fn probed_parts<'x>(
    alloc: Global,
    full: InFull<'x, 'x, 'x>,
    run: u32,
    share: Share,
    walk: &'x RunWalk,
    begin: Machine<Paged>,
    drawn: &[NearPair],
) -> Result<Vec<ShownPart>, NoMemory>
    requires walked { is_sampled full.hunt.now.given.mix run ≡ false }
    requires walk { IsRunWalk full.hunt.now run walk.now }
    requires begin { IsBegin full.hunt.now run begin }
    ensures { IfOk result (λ parts. internal.AreShownIn full.entry parts.items) }
{
    let mut probes = probes_of(begin, full.hunt, run, walk);
    let mut parts = Vec::new(alloc);
    let mut repeats = Repeats::none();
    for (part, pair) in (1..u32::MAX).zip(drawn) {
        let of = RunPart { run, part };
        let before = repeats.before(pair);
        if full.names(of, share) {
            let shown = full.probed(alloc, &mut probes, walk, of, pair, before)?;
            parts.push(shown)?;
        }
    }
    Ok(parts)
}
