//! The schedules of races while a hunt goes on: the parts of runs that the races are told by are made again.
ghost use Rattle.std.specs.Prelude.{◌≡◌, ◌≤◌, length};
ghost use Rattle.rv_search.specs.RunWalk.{AreProbesOf, IsBegin, IsRunWalk};
ghost use Rattle.rv_walk.specs.declared.course.TheConstants.{MOST_WALKED};

use crate::shown::written;
use rv_campaign::{Jobs, PoolFault, all_made};
use rv_collide::schedule::laws::legal_is_writable;
use rv_hart::machine::Machine;
use rv_memory::paged::Paged;
use rv_memory::store::NoMemory;
use rv_report::key::Key;
use rv_search::hunt::Hunt;
use rv_search::kept_run::sampled_run;
use rv_search::run_walk::{Repeats, RunWalk, begin_of, drawn_pairs, probes_of, walk_of};
use rv_tables::row::RaceRow;
use rv_walk::code::Marks;
use rv_walk::near_pair::NearPair;
use rv_walk::probes::Probes;
use std::alloc::Global;
use std::sync::Wait;
use std::thread::Threads;

/// How many schedules of a run are made at once: they are held until they are kept.
const MOST_PARTS: u32 = 8;

/// Parts of a run that follow one another, of which so many are wanted.
#[derive(Clone, Copy)]
pub struct RunParts {
    run: u32,
    first: u32,
    last: u32,
    count: u32,
}

impl RunParts {
    /// The part that tells of a row alone.
    fn of(row: &RaceRow) -> RunParts {
        RunParts {
            run: row.run,
            first: row.part,
            last: row.part,
            count: 1,
        }
    }

    /// Whether a row is told by one of the parts.
    fn has(&self, row: &RaceRow) -> bool {
        row.run == self.run && self.first <= row.part && row.part <= self.last
    }

    /// The same with the part that tells of a row, which is the last or comes behind it; none where it is of another run, or the parts
    /// would be too many.
    fn with(&self, row: &RaceRow) -> Option<RunParts> {
        if row.run != self.run {
            return None;
        }
        if row.part == self.last {
            return Some(*self);
        }
        if self.count >= MOST_PARTS {
            return None;
        }
        Some(RunParts {
            last: row.part,
            count: self.count + 1,
            ..*self
        })
    }
}

/// The parts that tell of rows, which are in the order of their runs and parts.
pub fn parts_of(alloc: Global, rows: &[(Key, RaceRow)]) -> Result<Vec<RunParts>, NoMemory> {
    let mut all = Vec::new(alloc);
    let mut last: Option<RunParts> = None;
    for (_, row) in rows {
        let more = last.and_then(|parts| parts.with(row));
        if let (None, Some(parts)) = (more, last) {
            all.push(parts)?;
        }
        last = Some(more.unwrap_or(RunParts::of(row)));
    }
    if let Some(parts) = last {
        all.push(parts)?;
    }
    Ok(all)
}

/// The schedule of a part of a run, as text.
#[derive(Drop)]
pub struct PartText {
    pub run: u32,
    pub part: u32,
    pub schedule: Vec<u8>,
}

impl PartText {
    /// Whether it is of the part that a row is told by.
    pub fn tells_of(&self, row: &RaceRow) -> bool {
        row.run == self.run && row.part == self.part
    }
}

/// The schedules of the parts that tell of rows, as jobs.
#[derive(Clone, Copy)]
struct Early<'a, 'h> {
    hunt: &'a Hunt<'h>,
    rows: &'a [(Key, RaceRow)],
    parts: &'a [RunParts],
    count: u32,
}

impl<'a, 'h> Jobs for Early<'a, 'h> {
    ghost use Rattle.std.specs.Prelude.{⊤};

    type Made = Vec<PartText>;

    ghost jobs = { λ early. early.count };

    // What is on disk while a hunt goes on is promised by no contract.
    ghost makes = { λ early place texts. ⊤ };

    fn count(&self) -> u32 {
        self.count
    }

    fn size(&self, place: u32) -> u32 {
        let hunt = self.hunt;
        match self.parts.get(place as usize) {
            Some(parts) => hunt.plans.plan(parts.run).steps,
            None => 0,
        }
    }

    fn make(&self, alloc: Global, place: u32) -> Result<Vec<PartText>, NoMemory> {
        match self.parts.get(place as usize) {
            Some(parts) => self.texts(alloc, *parts),
            None => Err(NoMemory),
        }
    }
}

impl Early<'_, '_> {
    /// Whether a part is wanted.
    fn wants(&self, parts: RunParts, part: u32) -> bool {
        self.rows
            .iter()
            .any(|(_, row)| row.part == part && parts.has(row))
    }

    /// The schedules of parts of a run.
    fn texts(&self, alloc: Global, parts: RunParts) -> Result<Vec<PartText>, NoMemory> {
        let hunt = self.hunt;
        if hunt.plans.mix().is_sampled(parts.run) {
            self.sampled(alloc, parts.run)
        } else {
            self.walked(alloc, parts)
        }
    }

    /// The schedule of a sampled run.
    fn sampled(&self, alloc: Global, run: u32) -> Result<Vec<PartText>, NoMemory> {
        let left = sampled_run(alloc, self.hunt, run)?;
        let schedule = written(alloc, &left.plan, &left.entries)?;
        let mut texts = Vec::new(alloc);
        texts.push(PartText {
            run,
            part: 0,
            schedule,
        })?;
        Ok(texts)
    }

    /// The schedules of probes of a walk.
    fn walked(&self, alloc: Global, parts: RunParts) -> Result<Vec<PartText>, NoMemory> {
        let hunt = self.hunt;
        let run = parts.run;
        let none = Marks::none(alloc, hunt.code.len())?;
        let mut begin = begin_of(alloc, hunt, run)?;
        let walk = walk_of(alloc, hunt, run, &mut begin, &none)?;
        let drawn = drawn_pairs(alloc, hunt, run, &walk)?;
        probed(alloc, *self, parts, &walk, begin, &drawn)
    }
}

/// The schedules of those of some probes of a walk that are wanted.
fn probed<'x>(
    alloc: Global,
    early: Early<'x, 'x>,
    parts: RunParts,
    walk: &'x RunWalk,
    begin: Machine<Paged>,
    drawn: &[NearPair],
) -> Result<Vec<PartText>, NoMemory>
    requires walk { IsRunWalk early.hunt.now parts.run walk.now }
    requires begin { IsBegin early.hunt.now parts.run begin }
{
    let run = parts.run;
    let mut probes = probes_of(begin, early.hunt, run, walk);
    let mut texts = Vec::new(alloc);
    let mut repeats = Repeats::none();
    for (part, pair) in (1..u32::MAX).zip(drawn) {
        let before = repeats.before(pair);
        if early.wants(parts, part) {
            let schedule = probe_text(alloc, early.hunt, run, walk, &mut probes, pair, before)?;
            texts.push(PartText {
                run,
                part,
                schedule,
            })?;
        }
    }
    Ok(texts)
}

/// The schedule of one probe of a walk, from the walk's begin on.
fn probe_text(
    alloc: Global,
    hunt: &Hunt<'_>,
    run: u32,
    walk: &RunWalk,
    probes: &mut Probes<'_, Paged>,
    pair: &NearPair,
    before: u32,
) -> Result<Vec<u8>, NoMemory>
    requires probes { AreProbesOf hunt.now run walk.now probes.old }
    requires few { length walk.now.left.harts.items ≤ MOST_WALKED }
    ensures { probes.new ≡ probes.old }
{
    legal_is_writable();
    let part = probes.probe(alloc, pair, before)?;
    let whole = part.whole(alloc, &walk.left.harts)?;
    written(alloc, &whole.plan, &whole.entries)
}

/// The schedules of these parts, which the workers make.
pub fn texts_of<R: Threads + Wait>(
    rt: &R,
    alloc: Global,
    hunt: &Hunt<'_>,
    rows: &[(Key, RaceRow)],
    parts: &[RunParts],
    workers: u8,
) -> Result<Vec<Vec<PartText>>, PoolFault>
    requires { workers ≤ 16 }
{
    // There are far fewer than 2^32.
    let Ok(count) = u32::try_from(parts.len()) else {
        return Err(PoolFault::NoMemory);
    };
    let early = Early {
        hunt,
        rows,
        parts,
        count,
    };
    all_made(rt, alloc, &early, workers)
}
