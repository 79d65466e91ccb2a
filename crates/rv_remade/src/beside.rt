//! Schedules that are saved beside those of races: of stuck ends, and of the runs in which harts first ended in each way.
ghost use Rattle.std.specs.Prelude.{◌≡◌, IfOk, is_some};
ghost use Rattle.rv_collide.specs.Grammar.{IsWritable};
ghost use Rattle.rv_collide.specs.Numbers.{numbers};
ghost use Rattle.rv_search.specs.RunWalk.{IsBegin, IsRunWalk};

use crate::folder::{Beside, Folder, FolderFault};
use crate::shown::written;
use rv_collide::entry::Entry;
use rv_collide::plan::Plan;
use rv_collide::schedule::laws::legal_is_writable;
use rv_hart::machine::Machine;
use rv_memory::paged::Paged;
use rv_memory::store::NoMemory;
use rv_search::end_runs::EndRuns;
use rv_search::ended::ended_rows;
use rv_search::hunt::Hunt;
use rv_search::kept_run::sampled_run;
use rv_search::run_walk::{RunWalk, begin_of, walk_of};
use rv_search::tally::ended::Ended;
use rv_walk::code::Marks;
use rv_walk::probes::steps_of;
use rv_walk::walk_laws::steps_are_a_prefix;
use std::alloc::Global;

/// A plan and a schedule under it.
#[derive(Drop)]
pub struct Schedule {
    pub plan: Plan,
    pub entries: Vec<Entry>,
}

/// The schedule of a walk, which began as this machine is: its steps alone.
pub(crate) fn of_walk(
    alloc: Global,
    hunt: &Hunt<'_>,
    run: u32,
    walk: &RunWalk,
    begin: &Machine<Paged>,
) -> Result<Schedule, NoMemory>
    requires walk { IsRunWalk hunt.now run walk.now }
    requires begin { IsBegin hunt.now run begin.now }
    ensures { IfOk result (λ made. IsWritable (numbers made.plan) made.entries.items) }
{
    legal_is_writable();
    steps_are_a_prefix();
    let harts = begin.harts();
    // A walk has far fewer steps than 2^32.
    let Ok(steps) = u32::try_from(walk.left.harts.len()) else {
        return Err(NoMemory);
    };
    let slots = hunt.plans.plan(run).slots;
    let Some(plan) = Plan::new(harts, steps.max(1), 0, 1, slots) else {
        return Err(NoMemory);
    };
    let entries = steps_of(alloc, &walk.left.harts)?;
    Ok(Schedule { plan, entries })
}

/// The schedule of a run: of its walk, or the whole of a sampled one.
fn of_run(alloc: Global, hunt: &Hunt<'_>, run: u32) -> Result<Schedule, NoMemory>
    ensures { IfOk result (λ made. IsWritable (numbers made.plan) made.entries.items) }
{
    if hunt.plans.mix().is_sampled(run) {
        let left = sampled_run(alloc, hunt, run)?;
        return Ok(Schedule {
            plan: left.plan,
            entries: left.entries,
        });
    }
    let none = Marks::none(alloc, hunt.code.len())?;
    let mut begin = begin_of(alloc, hunt, run)?;
    let walk = walk_of(alloc, hunt, run, &mut begin, &none)?;
    of_walk(alloc, hunt, run, &walk, &begin)
}

/// Makes the file of that kind and number, where a folder is given. Where it can't be made the folder has that noted.
pub fn save<D: Folder>(
    alloc: Global,
    folder: &mut Option<D>,
    kind: Beside,
    number: u64,
    schedule: &Schedule,
) -> Result<(), NoMemory>
    requires { IsWritable (numbers schedule.now.plan) schedule.now.entries.items }
    ensures { is_some folder.new ≡ is_some folder.old }
{
    let Some(made) = folder else {
        return Ok(());
    };
    let text = written(alloc, &schedule.plan, &schedule.entries)?;
    match made.make_beside(kind, number, &text) {
        Ok(()) | Err(FolderFault::Write) => Ok(()),
        Err(FolderFault::NoMemory) => Err(NoMemory),
    }
}

/// Saves the run of each line of how harts ended that names one, by the line's number, where a folder is given.
pub fn save_ends<D: Folder>(
    alloc: Global,
    hunt: &Hunt<'_>,
    ended: &Ended,
    ends: &EndRuns,
    folder: &mut Option<D>,
) -> Result<(), NoMemory>
    ensures { is_some folder.new ≡ is_some folder.old }
{
    if folder.is_none() {
        return Ok(());
    }
    for (place, row) in ended_rows(alloc, ended)?.iter().enumerate() {
        if let Some(run) = ends.run_of(row.ways) {
            let schedule = of_run(alloc, hunt, run)?;
            save(alloc, folder, Beside::Ended, place as u64 + 1, &schedule)?;
        }
    }
    Ok(())
}
