//! Stuck ends: walks and probes at whose end all harts that run wait for ever, by what each hart does.
ghost use Rattle.std.specs.Prelude.{◌≡◌};

use indexmap::IndexMap;
use rv_hart::machine::MOST_HARTS;
use rv_memory::store::NoMemory;
use rv_prune::named_bytes::NamedBytes;
use rv_stuck::{Act, Polled, key_of};
use std::alloc::Global;

/// How many stuck ends are shown in full.
pub const MOST_SHOWN: usize = 20;

/// So many counts, one for each number of harts, from none on.
const COUNTS: usize = MOST_HARTS as usize + 1;

/// A stuck end of a run: what each hart does, the part that ended so, 0 for the walk, and after how many steps from the walk's begin.
#[derive(Drop)]
pub struct StuckSeen {
    pub acts: Vec<Act>,
    pub part: u32,
    pub steps: u64,
}

/// The stuck ends of a run, and of a walk whether no hart could go on at its end.
#[derive(Drop)]
pub struct StuckRun {
    pub ends: Vec<StuckSeen>,
    pub walk_ended: bool,
}

/// What is known of a stuck end: how many walks and how many probes ended so, and of the first its run, part and steps, and how many
/// harts it has.
#[derive(Clone, Copy)]
pub struct StuckRow {
    pub walks: u64,
    pub probes: u64,
    pub run: u32,
    pub part: u32,
    pub steps: u64,
    pub harts: usize,
}

/// The stuck ends of a hunt, each once, in the order of first appearance; and how many walks of so many harts ended at all.
#[derive(Drop)]
pub struct StuckTable {
    rows: IndexMap<Vec<u32>, StuckRow>,
    ended: [u64; COUNTS],
}

/// Whether a hart polls elsewhere than where it may.
fn polls_outside(act: &Act, idle: &NamedBytes) -> bool {
    match act {
        Act::Polls(Polled { pc, .. }) => !idle.has(*pc),
        Act::Exited | Act::Stopped | Act::Parked => false,
    }
}

/// Whether a stuck end is one that is reported: a hart polls elsewhere than in the idle functions. Harts that are parked, or that
/// poll there, may do so for ever.
pub(crate) fn is_reported(acts: &[Act], idle: &NamedBytes) -> bool {
    acts.iter().any(|act| polls_outside(act, idle))
}

impl StuckRun {
    /// That of a run without any.
    pub fn none(alloc: Global) -> StuckRun {
        StuckRun {
            ends: Vec::new(alloc),
            walk_ended: false,
        }
    }
}

impl StuckTable {
    /// No stuck end.
    pub fn new(alloc: Global) -> StuckTable {
        StuckTable {
            rows: IndexMap::new(alloc),
            ended: [0; COUNTS],
        }
    }

    /// How many stuck ends there are.
    pub fn len(&self) -> usize {
        self.rows.len()
    }

    /// What is known of a stuck end after one more sight of it.
    fn with_sight(&self, key: &Vec<u32>, run: u32, seen: &StuckSeen) -> StuckRow {
        let row = match self.rows.get(key) {
            Some(row) => *row,
            None => StuckRow {
                walks: 0,
                probes: 0,
                run,
                part: seen.part,
                steps: seen.steps,
                harts: seen.acts.len(),
            },
        };
        match seen.part {
            0 => StuckRow {
                walks: row.walks.saturating_add(1),
                ..row
            },
            _ => StuckRow {
                probes: row.probes.saturating_add(1),
                ..row
            },
        }
    }

    /// Adds the stuck ends of the run of that number, of so many harts.
    pub fn add(
        &mut self,
        alloc: Global,
        run: u32,
        harts: usize,
        stuck: &StuckRun,
    ) -> Result<(), NoMemory> {
        if stuck.walk_ended && harts < COUNTS {
            self.ended[harts] = self.ended[harts].saturating_add(1);
        }
        for seen in &stuck.ends {
            let key = key_of(alloc, &seen.acts)?;
            let row = self.with_sight(&key, run, seen);
            self.rows.insert(key, row)?;
        }
        Ok(())
    }

    /// The stuck ends that the fewest walks and probes came to, and of those the ones that were met first: as many as are shown.
    pub fn first_rows(&self, alloc: Global) -> Result<Vec<StuckRow>, NoMemory> {
        let mut rows: Vec<(u64, usize, StuckRow)> = Vec::new(alloc);
        for (place, (_, row)) in self.rows.iter().enumerate() {
            rows.push((row.walks.saturating_add(row.probes), place, *row))?;
        }
        rows.sort_unstable_by_key(|row| (row.0, row.1));
        Ok(
            rows.iter()
                .take(MOST_SHOWN)
                .map(|row| row.2)
                .collect(alloc)?,
        )
    }

    /// Whether each walk of the most harts that ended at all ended so.
    pub fn is_every(&self, row: &StuckRow) -> bool {
        let most = self.ended.iter().rposition(|ended| *ended > 0);
        most == Some(row.harts) && self.ended.get(row.harts) == Some(&row.walks)
    }
}
