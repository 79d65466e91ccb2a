//! The stuck ends that are shown in full: the run that each was first met in is made again, and its schedule saved.
ghost use Rattle.std.specs.Prelude.{◌≡◌, ◌≤◌, IfOk, IfSome, is_some, length};
ghost use Rattle.rv_collide.specs.Grammar.{IsWritable};
ghost use Rattle.rv_collide.specs.Numbers.{numbers};
ghost use Rattle.rv_remade.specs.StuckShown.{AreStuckShown, IsStuckBlock};
ghost use Rattle.rv_search.specs.RunWalk.{AreProbesOf, IsBegin, IsRunWalk};
ghost use Rattle.rv_walk.specs.declared.course.TheConstants.{MOST_WALKED};

use crate::beside::{Schedule, of_walk, save};
use crate::folder::{Beside, Folder};
use rv_collide::schedule::laws::legal_is_writable;
use rv_explain::stuck::{StuckBlock, stuck_block};
use rv_explain::symbol_table::SymbolTable;
use rv_hart::machine::Machine;
use rv_memory::paged::Paged;
use rv_memory::store::NoMemory;
use rv_search::hunt::Hunt;
use rv_search::run_walk::{Repeats, RunWalk, begin_of, drawn_pairs, probes_of, walk_of};
use rv_search::stuck::{StuckRow, StuckTable};
use rv_shown::shown::{ShownStuck, StuckEnds};
use rv_walk::code::Marks;
use rv_walk::near_pair::NearPair;
use rv_walk::probes::Probes;
use std::alloc::Global;

/// The schedule of the probe of a pair, from the walk's begin on.
fn of_probe(
    alloc: Global,
    hunt: &Hunt<'_>,
    run: u32,
    walk: &RunWalk,
    probes: &mut Probes<'_, Paged>,
    pair: &NearPair,
    before: u32,
) -> Result<Schedule, NoMemory>
    requires probes { AreProbesOf hunt.now run walk.now probes.old }
    requires few { length walk.now.left.harts.items ≤ MOST_WALKED }
    ensures { IfOk result (λ made. IsWritable (numbers made.plan) made.entries.items) }
{
    legal_is_writable();
    let part = probes.probe(alloc, pair, before)?;
    let whole = part.whole(alloc, &walk.left.harts)?;
    Ok(Schedule {
        plan: whole.plan,
        entries: whole.entries,
    })
}

/// The near pair of the part of that number, from 1 on, and how often it was probed before; none where there is no such part.
fn pair_of(drawn: &[NearPair], number: u32) -> Option<(NearPair, u32)> {
    let mut repeats = Repeats::none();
    for (part, pair) in (1..u32::MAX).zip(drawn) {
        let before = repeats.before(pair);
        if part == number {
            return Some((*pair, before));
        }
    }
    None
}

/// The schedule of the part of that number of a walk; none where it has no such part.
fn of_part<'x>(
    alloc: Global,
    hunt: &'x Hunt<'x>,
    row: &StuckRow,
    walk: &'x RunWalk,
    begin: Machine<Paged>,
) -> Result<Option<Schedule>, NoMemory>
    requires walk { IsRunWalk hunt.now row.now.run walk.now }
    requires begin { IsBegin hunt.now row.now.run begin }
    ensures { IfOk result (λ made. IfSome made (λ it. IsWritable (numbers it.plan) it.entries.items)) }
{
    let drawn = drawn_pairs(alloc, hunt, row.run, walk)?;
    let Some((pair, before)) = pair_of(&drawn, row.part) else {
        return Ok(None);
    };
    let mut probes = probes_of(begin, hunt, row.run, walk);
    let schedule = of_probe(alloc, hunt, row.run, walk, &mut probes, &pair, before)?;
    Ok(Some(schedule))
}

/// The schedule that a stuck end was first met by.
fn schedule_of(alloc: Global, hunt: &Hunt<'_>, row: &StuckRow) -> Result<Option<Schedule>, NoMemory>
    ensures { IfOk result (λ made. IfSome made (λ it. IsWritable (numbers it.plan) it.entries.items)) }
{
    let none = Marks::none(alloc, hunt.code.len())?;
    let mut begin = begin_of(alloc, hunt, row.run)?;
    let walk = walk_of(alloc, hunt, row.run, &mut begin, &none)?;
    match row.part {
        0 => Ok(Some(of_walk(alloc, hunt, row.run, &walk, &begin)?)),
        _ => of_part(alloc, &*hunt, row, &walk, begin),
    }
}

/// What is shown of a stuck end, whose schedule is saved under that number, and how many entries that has.
fn shown_of<D: Folder>(
    alloc: Global,
    hunt: &Hunt<'_>,
    symbols: &SymbolTable,
    number: u64,
    row: &StuckRow,
    folder: &mut Option<D>,
) -> Result<Option<(usize, StuckBlock)>, NoMemory>
    requires { symbols.now.image ≡ hunt.now.source.image }
    ensures wanted { is_some folder.new ≡ is_some folder.old }
    ensures block { IfOk result (λ block. IfSome block (λ it. IsStuckBlock hunt.now it.1)) }
{
    let Some(schedule) = schedule_of(alloc, hunt, row)? else {
        return Ok(None);
    };
    save(alloc, folder, Beside::StuckEnd, number, &schedule)?;
    match stuck_block(alloc, symbols, schedule.plan.harts, &schedule.entries)? {
        Some(block) => Ok(Some((schedule.entries.len(), block))),
        None => Ok(None),
    }
}

/// The stuck ends of a hunt; the first of them are shown in full, and their schedules saved, where a folder is given.
pub fn stuck_ends<D: Folder>(
    alloc: Global,
    hunt: &Hunt<'_>,
    symbols: &SymbolTable,
    table: &StuckTable,
    folder: &mut Option<D>,
) -> Result<StuckEnds, NoMemory>
    requires { symbols.now.image ≡ hunt.now.source.image }
    ensures wanted { is_some folder.new ≡ is_some folder.old }
    ensures shown { IfOk result (λ ends. AreStuckShown hunt.now ends.shown.items) }
{
    let mut shown = Vec::new(alloc);
    for row in &table.first_rows(alloc)? {
        let number = shown.len() as u64 + 1;
        if let Some((entries, block)) = shown_of(alloc, hunt, symbols, number, row, folder)? {
            let is_every = table.is_every(row);
            shown.push(ShownStuck {
                row: *row,
                is_every,
                entries,
                block,
            })?;
        }
    }
    Ok(StuckEnds {
        count: table.len(),
        shown,
    })
}
