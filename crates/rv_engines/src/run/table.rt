//! The race table of a campaign's runs.
ghost use Rattle.std.specs.Prelude.{◌≡◌, ◌++◌, List, IfOk, OnOk, length, map};
ghost use Rattle.rv_collide.specs.declared.collider.Finished.{Finished};
ghost use Rattle.rv_prune.specs.Class.{class};
ghost use Rattle.rv_report.specs.Races.{Told, races};
ghost use Rattle.rv_engines.specs.Campaigns as spec;

use rayon::prelude::*;
use rv_collide::ending::Ending;
use rv_elf::Image;
use rv_memory::store::NoMemory;
use rv_prune::class::Class;
use rv_prune::named_bytes::NamedBytes;
use rv_prune::pruning::classify;
use rv_report::race_table::RaceTable;
use std::alloc::{AllocError, Global};
use std::thread::Threads;

/// The class of each ending, in their order.
fn classes(
    rt: &(impl Threads + Sync),
    alloc: Global,
    image: &Image,
    ranges: &NamedBytes,
    endings: &[Ending],
) -> Result<Vec<Class>, AllocError>
    ensures { IfOk result (λ found. found.items ≡ map (λ ending. class image.now ending ranges.now) endings.now) }
{
    endings
        .par_iter()
        .map(
            |ending: &Ending| -> Class
                ensures { result ≡ class image.entry.now ending.now ranges.entry.now }
            { classify(image, ending, ranges) },
        )
        .collect(rt, alloc)
}

/// Adds the endings of a run.
fn add_run(
    rt: &(impl Threads + Sync),
    alloc: Global,
    image: &Image,
    ranges: &NamedBytes,
    run: u32,
    endings: &[Ending],
    table: &mut RaceTable,
) -> Result<(), NoMemory>
    ensures { OnOk result ((told : List Told) → table.old ≡ races told
        → table.new ≡ races (told ++ map (spec.with_class image.now ranges.now run) endings.now)) }
{
    let found = classes(rt, alloc, image, ranges, endings)?;
    for i in 0..endings.len() {
        table.add(run, &endings[i], found[i])?;
    }
    Ok(())
}

/// The race table of the runs, which are so many, of their endings, run by run.
pub fn table_of(
    rt: &(impl Threads + Sync),
    alloc: Global,
    image: &Image,
    ranges: &NamedBytes,
    count: u32,
    ended: &[Vec<Ending>],
) -> Result<RaceTable, NoMemory>
    requires { length ended.now ≡ count }
    ensures { IfOk result (λ table. (runs : List Finished) → map (λ one. one.endings) runs ≡ ended.now
        → table ≡ races (spec.told_from image.now ranges.now 0 runs)) }
{
    let mut table = RaceTable::new(alloc);
    for run in 0..count {
        let endings = &ended[run as usize];
        add_run(rt, alloc, image, ranges, run, endings, &mut table)?;
    }
    Ok(table)
}
