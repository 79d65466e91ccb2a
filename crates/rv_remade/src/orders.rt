//! The orders of the races that are shown in full: the first trial of each by which some hart ended otherwise is made again, from its run and
//! part, and the schedules of both copies are saved.
ghost use Rattle.std.specs.Prelude.{◌≡◌, ◌<◌, ◌≤◌, IfOk, IfSome, OnOk, All, Contains, false, is_some, length, map, true};
ghost use Rattle.std.specs.Map.{keys_of};
ghost use Rattle.rv_collide.specs.Grammar.{IsInReach, IsWritable};
ghost use Rattle.rv_collide.specs.Numbers.{numbers};
ghost use Rattle.rv_collide.specs.declared.schedule.format.Format.TheVariants.{Second};
ghost use Rattle.rv_debug.specs.Placed.{moved};
ghost use Rattle.rv_explain.specs.Races as races;
ghost use Rattle.rv_remade.specs.OrderShown as spec;
ghost use Rattle.rv_remade.specs.Shown.{IsRunOf};
ghost use Rattle.rv_remade.specs.internal.OrderShowing as internal;
ghost use Rattle.rv_search.specs.RunWalk.{AreProbesOf, IsBegin, IsRunWalk};
ghost use Rattle.rv_plans.specs.Plans.{is_sampled};
ghost use Rattle.rv_walk.specs.declared.course.TheConstants.{MOST_WALKED};

use crate::beside::{Schedule, save};
use crate::folder::{Beside, Folder};
use crate::shown::{InFull, RunPart};
use rv_campaign::{Jobs, PoolFault, all_made};
use rv_collide::collider::Finished;
use rv_collide::entry::Entry;
use rv_collide::plan::Plan;
use rv_debug::session::Session;
use rv_explain::order::{TrialNumbers, order_of};
use rv_explain::race_block::race_block;
use rv_explain::races::{Race, Report, reports_in};
use rv_explain::symbol_table::SymbolTable;
use rv_hart::machine::{MOST_HARTS, Machine};
use rv_memory::paged::Paged;
use rv_memory::store::NoMemory;
use rv_report::key::Key;
use rv_search::hunt::Hunt;
use rv_search::run_walk::{Repeats, RunWalk, begin_of, drawn_pairs, probes_of, walk_of};
use rv_shown::shown::{MadeTrial, ShownOrder};
use rv_tables::orders::{OrderTable, TrialPlace};
use rv_tables::row::RaceRow;
use rv_walk::code::Marks;
use rv_walk::near_pair::NearPair;
use rv_walk::probes::Probes;
use std::alloc::Global;
use std::sync::Wait;
use std::thread::Threads;

/// How many runs are made together for each worker.
const RUNS_OF_A_WORKER: usize = 2;

/// The trial of the race at a place of those that are shown, made again, the harts that stepped before it, and how many harts its run has.
#[derive(Drop)]
pub(crate) struct PlacedTrial {
    pub(crate) place: usize,
    pub(crate) made: MadeTrial,
    pub(crate) before: Vec<u8>,
    pub(crate) harts: u8,
}

/// A trial that is to be made again: the first of the race at a place of those that are shown by which some hart ended otherwise.
#[derive(Clone, Copy)]
pub(crate) struct WantedTrial {
    pub(crate) place: usize,
    pub(crate) key: Key,
    pub(crate) at: TrialPlace,
}

/// Trials that are to be made again, and the runs that these are of, as jobs.
#[derive(Clone, Copy)]
pub(crate) struct Again<'a, 'h, 's> {
    pub(crate) hunt: &'a Hunt<'h>,
    pub(crate) symbols: &'a SymbolTable<'s>,
    pub(crate) wanted: &'a [WantedTrial],
    pub(crate) runs: &'a [u32],
    pub(crate) count: u32,
}

impl<'a, 'h, 's> Jobs for Again<'a, 'h, 's> {
    type Made = Vec<PlacedTrial>;

    ghost jobs = { λ k. k.count };

    ghost makes = { λ k _ made. internal.AreMade k made.items };

    fn count(&self) -> u32 {
        self.count
    }

    fn size(&self, place: u32) -> u32 {
        let hunt = self.hunt;
        match self.runs.get(place as usize) {
            Some(run) => hunt.plans.plan(*run).steps,
            None => 0,
        }
    }

    fn make(&self, alloc: Global, place: u32) -> Result<Vec<PlacedTrial>, NoMemory> {
        match self.runs.get(place as usize) {
            Some(run) => self.run(alloc, *run),
            None => Err(NoMemory),
        }
    }
}

/// The harts that stepped before an entry.
fn harts_before(alloc: Global, entries: &[Entry], place: u32) -> Result<Vec<u8>, NoMemory> {
    let mut harts = Vec::new(alloc);
    for entry in entries.iter().take(place as usize) {
        if let Entry::Stepped(h) = *entry {
            harts.push(h)?;
        }
    }
    Ok(harts)
}

/// Whether a trial is of that part of a run.
fn is_of(at: &TrialPlace, of: RunPart) -> bool
    ensures { result ≡ true → (at.now.run ≡ of.run) }
{
    at.run == of.run && at.part == of.part
}

impl Again<'_, '_, '_> {
    /// Whether a trial of that part of a run is to be made.
    fn names(&self, of: RunPart) -> bool {
        self.wanted.iter().any(|wanted| is_of(&wanted.at, of))
    }

    /// The trials of a run. A sampled one has none.
    fn run(&self, alloc: Global, run: u32) -> Result<Vec<PlacedTrial>, NoMemory>
        ensures { IfOk result (λ made. internal.AreMade self.now made.items) }
    {
        let hunt = self.hunt;
        if hunt.plans.mix().is_sampled(run) {
            return Ok(Vec::new(alloc));
        }
        let none = Marks::none(alloc, hunt.code.len())?;
        let mut begin = begin_of(alloc, hunt, run)?;
        let walk = walk_of(alloc, hunt, run, &mut begin, &none)?;
        let drawn = drawn_pairs(alloc, hunt, run, &walk)?;
        made_in(alloc, *self, run, &walk, begin, &drawn)
    }

    /// Adds the trials of a part of a run.
    fn add_part(
        &self,
        alloc: Global,
        made: &mut Vec<PlacedTrial>,
        of: RunPart,
        left: Finished,
    ) -> Result<(), NoMemory>
        requires { IsRunOf self.now.hunt.now of.run left }
        ensures { OnOk result (internal.AreMade self.now made.old.items → internal.AreMade self.now made.new.items) }
    {
        let image = self.symbols.image();
        let hunt = self.hunt;
        let plan = left.plan;
        // A run that was made is legal: only want of memory refuses it.
        let Ok(mut session) = Session::new(alloc, image, left.plan, left.entries) else {
            return Err(NoMemory);
        };
        let reports = reports_in(alloc, image, &session, hunt.ranges)?;
        for number in 0..self.wanted.len() {
            let WantedTrial { place, key, at } = self.wanted[number];
            if !is_of(&at, of) {
                continue;
            }
            let Some(trial) = self.trial(alloc, &mut session, &plan, &reports, key, at)? else {
                continue;
            };
            let before = harts_before(alloc, session.entries(), trial.block.second)?;
            made.push(PlacedTrial {
                place,
                made: trial,
                before,
                harts: plan.harts,
            })?;
        }
        Ok(())
    }

    /// Adds the trials of one probe of a walk.
    fn add_probed(
        &self,
        alloc: Global,
        made: &mut Vec<PlacedTrial>,
        probes: &mut Probes<'_, Paged>,
        walk: &RunWalk,
        of: RunPart,
        pair: &NearPair,
        before: u32,
    ) -> Result<(), NoMemory>
        requires walked { is_sampled self.now.hunt.now.given.mix of.run ≡ false }
        requires probes { AreProbesOf self.now.hunt.now of.run walk.now probes.old }
        requires few { length walk.now.left.harts.items ≤ MOST_WALKED }
        ensures same { probes.new ≡ probes.old }
        ensures made { OnOk result (internal.AreMade self.now made.old.items → internal.AreMade self.now made.new.items) }
    {
        let part = probes.probe(alloc, pair, before)?;
        let whole = part.whole(alloc, &walk.left.harts)?;
        self.add_part(alloc, made, of, whole)
    }

    /// A trial of a race, in a session of its part.
    fn trial(
        &self,
        alloc: Global,
        session: &mut Session,
        plan: &Plan,
        reports: &[Report],
        key: Key,
        at: TrialPlace,
    ) -> Result<Option<MadeTrial>, NoMemory>
        requires plan { numbers plan.now ≡ session.old.plan }
        requires image { session.old.image ≡ self.now.symbols.now.image }
        requires reports { reports.now ≡ internal.reports_of self.now (races.run_of session.old) }
        ensures trial { IfOk result (λ made. IfSome made
            (spec.IsTrialIn (races.run_of session.old) self.now.hunt.now.ranges key at.number)) }
        ensures same { session.new ≡ moved session.old session.new.place }
    {
        let Some(report) = report_of(reports, &key, at.entry) else {
            return Ok(None);
        };
        let race = Race {
            reports: 1,
            told: report,
        };
        let block = race_block(alloc, session, self.symbols, 0, &race)?;
        let numbers = TrialNumbers {
            first: at.number,
            count: 1,
        };
        match order_of(
            alloc,
            self.symbols,
            plan.harts,
            session.entries(),
            &block,
            numbers,
        )? {
            Some(order) => Ok(Some(MadeTrial { block, order })),
            None => Ok(None),
        }
    }
}

/// The report of a race whose pause stands at an entry.
fn report_of(reports: &[Report], key: &Key, entry: u32) -> Option<Report>
    ensures { IfSome result (λ report. Contains reports.now report × (report.key ≡ key.now)) }
{
    for report in reports {
        if report.key == *key && report.ending.paused_at == entry {
            return Some(*report);
        }
    }
    None
}

/// The trials of a run's parts, by a machine as its walk began.
fn made_in<'x>(
    alloc: Global,
    again: Again<'x, 'x, 'x>,
    run: u32,
    walk: &'x RunWalk,
    begin: Machine<Paged>,
    drawn: &[NearPair],
) -> Result<Vec<PlacedTrial>, NoMemory>
    requires walked { is_sampled again.hunt.now.given.mix run ≡ false }
    requires walk { IsRunWalk again.hunt.now run walk.now }
    requires begin { IsBegin again.hunt.now run begin }
    ensures { IfOk result (λ made. internal.AreMade again.entry made.items) }
{
    let mut probes = probes_of(begin, again.hunt, run, walk);
    let mut made = Vec::new(alloc);
    let mut repeats = Repeats::none();
    for (part, pair) in (1..u32::MAX).zip(drawn) {
        let of = RunPart { run, part };
        let before = repeats.before(pair);
        if again.names(of) {
            again.add_probed(alloc, &mut made, &mut probes, walk, of, pair, before)?;
        }
    }
    Ok(made)
}

/// What is known of the order of a race, of which no trial was made again yet.
fn known_of(table: &OrderTable, row: &(Key, RaceRow)) -> ShownOrder
    ensures { result ≡ internal.known_of table.now row.now }
{
    ShownOrder {
        key: row.0,
        row: table.row(&row.0),
        made: None,
    }
}

/// The same of each race.
fn known(
    alloc: Global,
    table: &OrderTable,
    rows: &[(Key, RaceRow)],
) -> Result<Vec<ShownOrder>, NoMemory>
    ensures { IfOk result (λ shown. shown.items ≡ map (internal.known_of table.now) rows.now) }
{
    Ok(rows.iter().map(|row| known_of(table, row)).collect(alloc)?)
}

/// The trials that are to be made again.
fn wanted_of(
    alloc: Global,
    table: &OrderTable,
    rows: &[(Key, RaceRow)],
) -> Result<Vec<WantedTrial>, NoMemory>
    ensures { IfOk result (λ wanted. All (internal.IsWanted table.now (keys_of rows.now)) wanted.items) }
{
    let mut wanted = Vec::new(alloc);
    for place in 0..rows.len() {
        let key = rows[place].0;
        if let Some(at) = table.first_of(&key) {
            wanted.push(WantedTrial { place, key, at })?;
        }
    }
    Ok(wanted)
}

/// The runs of trials, each once.
fn runs_of(alloc: Global, wanted: &[WantedTrial]) -> Result<Vec<u32>, NoMemory> {
    let mut runs: Vec<u32> = wanted.iter().map(|one| one.at.run).collect(alloc)?;
    runs.sort_unstable();
    runs.dedup();
    Ok(runs)
}

/// The entries of steps. Harts have numbers below 16.
fn entries_of(alloc: Global, harts: &[u8]) -> Result<Vec<Entry>, NoMemory>
    ensures each { IfOk result (λ entries. All (IsInReach Second) entries.items) }
    ensures count { IfOk result (λ entries. length entries.items ≡ length harts.now) }
{
    let mut entries = Vec::with_capacity(alloc, harts.len())?;
    for h in harts {
        if *h >= MOST_HARTS {
            return Err(NoMemory);
        }
        entries.push(Entry::Stepped(*h))?;
    }
    Ok(entries)
}

/// The schedule of a copy: the steps before the trial, and then its own.
fn schedule_of(
    alloc: Global,
    trial: &PlacedTrial,
    slots: u8,
    own: &[u8],
) -> Result<Schedule, NoMemory>
    ensures { IfOk result (λ made. IsWritable (numbers made.plan) made.entries.items) }
{
    let mut harts = Vec::from_slice(alloc, &trial.before)?;
    harts.extend_from_slice(own)?;
    // A copy has far fewer steps than 2^32.
    let Ok(steps) = u32::try_from(harts.len()) else {
        return Err(NoMemory);
    };
    let Some(plan) = Plan::new(trial.harts, steps.max(1), 0, 1, slots) else {
        return Err(NoMemory);
    };
    let entries = entries_of(alloc, &harts)?;
    Ok(Schedule { plan, entries })
}

/// Saves the schedules of both copies, where a folder is given.
fn save_copies<D: Folder>(
    alloc: Global,
    hunt: &Hunt<'_>,
    trial: &PlacedTrial,
    folder: &mut Option<D>,
) -> Result<(), NoMemory>
    ensures { is_some folder.new ≡ is_some folder.old }
{
    if folder.is_none() {
        return Ok(());
    }
    let Some(ends) = &trial.made.order.ends_by else {
        return Ok(());
    };
    let number = (trial.place as u64).saturating_add(1);
    let slots = hunt.plans.plan(0).slots;
    let first = schedule_of(alloc, trial, slots, &ends.first.harts)?;
    save(alloc, folder, Beside::First, number, &first)?;
    let second = schedule_of(alloc, trial, slots, &ends.second.harts)?;
    save(alloc, folder, Beside::Second, number, &second)
}

/// Puts a trial to its race.
fn put(shown: &mut Vec<ShownOrder>, trial: PlacedTrial)
    ensures { (full : internal.Full) → internal.IsOfPlace full trial
        → internal.AreKnown full shown.old.items → internal.AreKnown full shown.new.items }
{
    let PlacedTrial { place, made, .. } = trial;
    if place < shown.len() {
        shown[place].made = Some(made);
    }
}

/// Takes in the trials of a run, and saves their schedules.
fn take_run<D: Folder>(
    alloc: Global,
    hunt: &Hunt<'_>,
    shown: &mut Vec<ShownOrder>,
    mut trials: Vec<PlacedTrial>,
    folder: &mut Option<D>,
) -> Result<(), NoMemory>
    ensures known { OnOk result ((full : internal.Full) → internal.AreOfRun full trials
        → internal.AreKnown full shown.old.items → internal.AreKnown full shown.new.items) }
    ensures wanted { is_some folder.new ≡ is_some folder.old }
{
    while let Some(trial) = trials.pop() {
        save_copies(alloc, hunt, &trial, folder)?;
        put(shown, trial);
    }
    Ok(())
}

/// Takes in the trials of runs.
fn take_runs<D: Folder>(
    alloc: Global,
    hunt: &Hunt<'_>,
    shown: &mut Vec<ShownOrder>,
    mut runs: Vec<Vec<PlacedTrial>>,
    folder: &mut Option<D>,
) -> Result<(), NoMemory>
    ensures known { OnOk result ((full : internal.Full) → All (internal.AreOfRun full) runs.items
        → internal.AreKnown full shown.old.items → internal.AreKnown full shown.new.items) }
    ensures wanted { is_some folder.new ≡ is_some folder.old }
{
    while let Some(trials) = runs.pop() {
        take_run(alloc, hunt, shown, trials, folder)?;
    }
    Ok(())
}

/// The trials of some of the runs, which the workers make.
fn made_again<R: Threads + Wait>(
    rt: &R,
    alloc: Global,
    full: &InFull<'_, '_, '_>,
    wanted: &[WantedTrial],
    runs: &[u32],
    workers: u8,
) -> Result<Vec<Vec<PlacedTrial>>, PoolFault>
    requires workers { workers ≤ 16 }
    requires image { full.now.symbols.now.image ≡ full.now.hunt.now.source.image }
    ensures { IfOk result (λ made. (known : internal.Full) → known.hunt ≡ full.now.hunt.now
        → All (internal.IsWanted known.tried known.keys) wanted.now → All (internal.AreOfRun known) made.items) }
{
    // There are far fewer runs than 2^32.
    let Ok(count) = u32::try_from(runs.len()) else {
        return Err(PoolFault::NoMemory);
    };
    let again = Again {
        hunt: full.hunt,
        symbols: full.symbols,
        wanted,
        runs,
        count,
    };
    all_made(rt, alloc, &again, workers)
}

/// What is shown of the orders of the races that are shown in full; the schedules of the copies are saved, where a folder is given.
pub fn shown_orders<R: Threads + Wait, D: Folder>(
    rt: &R,
    alloc: Global,
    full: &InFull<'_, '_, '_>,
    workers: u8,
    table: &OrderTable,
    folder: &mut Option<D>,
) -> Result<Vec<ShownOrder>, PoolFault>
    requires workers { workers ≤ 16 }
    requires image { full.now.symbols.now.image ≡ full.now.hunt.now.source.image }
    ensures shown { IfOk result (λ shown. spec.AreOrdersShown full.now.hunt.now table.now
        (keys_of full.now.rows.now) shown.items) }
    ensures count { IfOk result (λ shown. length shown.items ≡ length full.now.rows.now) }
    ensures wanted { is_some folder.new ≡ is_some folder.old }
{
    let mut shown = known(alloc, table, full.rows)?;
    let wanted = wanted_of(alloc, table, full.rows)?;
    let all = runs_of(alloc, &wanted)?;
    let most = RUNS_OF_A_WORKER * usize::from(workers.max(1));
    for runs in all.chunks(most) {
        let made = made_again(rt, alloc, full, &wanted, runs, workers)?;
        take_runs(alloc, full.hunt, &mut shown, made, folder)?;
    }
    Ok(shown)
}
