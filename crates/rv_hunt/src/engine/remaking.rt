//! The runs of a table's rows, made again: for each row where its report was met, and of which data.
ghost use Rattle.std.specs.Prelude.{◌≡◌, ◌≤◌, ⊤, IfOk, map};
ghost use Rattle.rv_hunt.specs.engine.TableShown.{part_less, without_place};

use indexmap::IndexMap;
use rv_campaign::{Jobs, PoolFault, all_made};
use rv_explain::classes::rank;
use rv_memory::store::NoMemory;
use rv_report::key::Key;
use rv_search::hunt::Hunt;
use rv_search::kept_run::KeptRun;
use rv_tables::row::{Accesses, PartReport, RaceRow, row_of};
use rv_tables::table::HuntTable;
use rv_walk::code::Marks;
use std::alloc::Global;
use std::sync::Wait;
use std::thread::Threads;

/// How many runs are made together for each worker. Of each only the places of its rows are held.
const RUNS_OF_A_WORKER: usize = 4;

/// Is told of so many runs how many have been made again.
pub trait WatchRuns {
    fn made(&mut self, made: usize, all: usize);
}

/// Why rows can't be shown: the runs can't be made, or the run of the row in that line makes no such report.
#[derive(Clone, Copy)]
pub(crate) enum RemakeFault {
    Pool(PoolFault),
    NotMet { line: u64 },
}

impl From<PoolFault> for RemakeFault {
    fn from(given: PoolFault) -> RemakeFault {
        RemakeFault::Pool(given)
    }
}

impl From<NoMemory> for RemakeFault {
    fn from(given: NoMemory) -> RemakeFault {
        RemakeFault::Pool(PoolFault::from(given))
    }
}

/// Where a row's report was met: in which part of its run, of what data, and by which accesses.
#[derive(Clone, Copy)]
pub(crate) struct Met {
    part: u32,
    address: Option<u32>,
    accesses: Option<Accesses>,
}

/// The runs that the rows of a table name, as jobs.
#[derive(Clone, Copy)]
pub(crate) struct Remakers<'a, 'h> {
    hunt: &'a Hunt<'h>,
    table: &'a HuntTable,
    counted: &'a Marks,
    runs: &'a [u32],
    count: u32,
}

impl<'a, 'h> Jobs for Remakers<'a, 'h> {
    type Made = Vec<(Key, Met)>;

    ghost jobs = { λ k. k.count };

    ghost makes = { λ k _ met. ⊤ };

    fn count(&self) -> u32 {
        self.count
    }

    fn size(&self, place: u32) -> u32 {
        let hunt = self.hunt;
        match self.runs.get(place as usize) {
            Some(run) => hunt.plans.plan(*run).steps,
            None => 0,
        }
    }

    fn make(&self, alloc: Global, place: u32) -> Result<Vec<(Key, Met)>, NoMemory> {
        match self.runs.get(place as usize) {
            Some(run) => self.met(alloc, *run),
            None => Err(NoMemory),
        }
    }
}

/// Whether a row of a table says of a report what the row of the report alone says, but for its place.
fn says(row: &RaceRow, of_report: &RaceRow) -> bool {
    let is_of = row.run == of_report.run && rank(row.class) == rank(of_report.class);
    is_of && row.entry == of_report.entry && row.old == of_report.old && row.new == of_report.new
}

impl Remakers<'_, '_> {
    /// Where the reports of a run are met that rows say, in their order.
    fn met(&self, alloc: Global, run: u32) -> Result<Vec<(Key, Met)>, NoMemory> {
        let kept: KeptRun = self.hunt.kept(alloc, run, self.counted)?;
        self.met_in(alloc, run, &kept.reports)
    }

    /// The same of the reports of the run.
    fn met_in(
        &self,
        alloc: Global,
        run: u32,
        reports: &[PartReport],
    ) -> Result<Vec<(Key, Met)>, NoMemory> {
        let mut met = Vec::new(alloc);
        for report in reports {
            let (key, of_report) = row_of(run, report);
            if let Some(row) = self.table.row(&key) {
                if says(&row, &of_report) {
                    met.push((
                        key,
                        Met {
                            part: of_report.part,
                            address: of_report.address,
                            accesses: of_report.accesses,
                        },
                    ))?;
                }
            }
        }
        Ok(met)
    }
}

/// The runs of rows, each once.
fn runs_of(alloc: Global, rows: &[(Key, RaceRow)]) -> Result<Vec<u32>, NoMemory> {
    let mut runs: Vec<u32> = rows.iter().map(|row| row.1.run).collect(alloc)?;
    runs.sort_unstable();
    runs.dedup();
    Ok(runs)
}

/// Takes in where reports were met. The first of a row stays.
fn take_in(met: &mut IndexMap<Key, Met>, more: &[(Key, Met)]) -> Result<(), NoMemory> {
    for (key, at) in more {
        if met.get(key).is_none() {
            met.insert(*key, *at)?;
        }
    }
    Ok(())
}

/// Some of the runs, made again by the workers.
fn made<R: Threads + Wait>(
    rt: &R,
    alloc: Global,
    hunt: &Hunt<'_>,
    table: &HuntTable,
    counted: &Marks,
    runs: &[u32],
    workers: u8,
) -> Result<Vec<Vec<(Key, Met)>>, PoolFault>
    requires { workers ≤ 16 }
{
    // There are far fewer runs than 2^32.
    let Ok(count) = u32::try_from(runs.len()) else {
        return Err(PoolFault::NoMemory);
    };
    let remakers = Remakers {
        hunt,
        table,
        counted,
        runs,
        count,
    };
    all_made(rt, alloc, &remakers, workers)
}

/// Where the rows of a table are met. Each of their runs is made once.
fn all_met<R: Threads + Wait, W: WatchRuns>(
    rt: &R,
    alloc: Global,
    hunt: &Hunt<'_>,
    table: &HuntTable,
    runs: &[u32],
    workers: u8,
    watch: &mut W,
) -> Result<IndexMap<Key, Met>, PoolFault>
    requires { workers ≤ 16 }
{
    let counted = Marks::none(alloc, hunt.code.len())?;
    let mut met = IndexMap::new(alloc);
    let mut done = 0;
    let most = RUNS_OF_A_WORKER * usize::from(workers.max(1));
    for some in runs.chunks(most) {
        for more in &made(rt, alloc, hunt, table, &counted, some, workers)? {
            take_in(&mut met, more)?;
        }
        done = some.len().saturating_add(done);
        watch.made(done, runs.len());
    }
    Ok(met)
}

/// The place of the first row that was not met.
fn first_unmet(rows: &[(Key, RaceRow)], met: &IndexMap<Key, Met>) -> Option<usize> {
    rows.iter().position(|row| met.get(&row.0).is_none())
}

/// The row with where it was met.
fn placed(row: &RaceRow, met: Option<&Met>) -> RaceRow
    ensures { part_less result ≡ part_less row.now }
{
    match met {
        Some(at) => RaceRow {
            count: row.count,
            class: row.class,
            run: row.run,
            part: at.part,
            entry: row.entry,
            old: row.old,
            new: row.new,
            address: at.address,
            accesses: at.accesses,
        },
        None => *row,
    }
}

/// The rows, each with where it was met.
fn placed_rows(
    alloc: Global,
    rows: &[(Key, RaceRow)],
    met: &IndexMap<Key, Met>,
) -> Result<Vec<(Key, RaceRow)>, NoMemory>
    ensures { IfOk result (λ found. map without_place found.items ≡ map without_place rows.now) }
{
    let mut found = Vec::with_capacity(alloc, rows.len())?;
    for row in rows {
        found.push((row.0, placed(&row.1, met.get(&row.0))))?;
    }
    Ok(found)
}

/// The rows of a table, each with the part of its run in which its report is met, the address of the data and the accesses. Each of the runs is
/// made once.
pub(crate) fn remade_rows<R: Threads + Wait, W: WatchRuns>(
    rt: &R,
    alloc: Global,
    hunt: &Hunt<'_>,
    table: &HuntTable,
    workers: u8,
    watch: &mut W,
) -> Result<Vec<(Key, RaceRow)>, RemakeFault>
    requires { workers ≤ 16 }
    ensures { IfOk result (λ found. map without_place found.items ≡ map without_place table.now) }
{
    let rows = table.rows(alloc)?;
    let runs = runs_of(alloc, &rows)?;
    let met = all_met(rt, alloc, hunt, table, &runs, workers, watch)?;
    match first_unmet(&rows, &met) {
        Some(place) => Err(RemakeFault::NotMet {
            line: (place as u64).saturating_add(2),
        }),
        None => Ok(placed_rows(alloc, &rows, &met)?),
    }
}
