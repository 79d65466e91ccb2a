//! A row of a hunt table.
ghost use Rattle.std.specs.Prelude.{◌≡◌};
ghost use Rattle.rv_tables.specs.Rows as spec;

use crate::strongest;
use rv_collide::ending::Verdict;
use rv_hart::access::Access;
use rv_races::classes::{RaceClass, rank};
use rv_races::races::Report;
use rv_report::key::Key;

/// A report of a run: of its part of that number, before whose own entries there are so many of the run's walk. Part 0 is a
/// sampled run, and the others are the probes of a walk, in the order of their forks.
#[derive(Clone, Copy)]
pub struct PartReport {
    pub part: u32,
    pub before: u32,
    pub report: Report,
}

/// The two accesses of a report: that of the paused hart, and the other one, of a change its last store, where there is one.
#[derive(Clone, Copy)]
pub struct Accesses {
    pub paused: Access,
    pub other: Option<Access>,
}

/// What a table keeps of a race: how many reports there were, up to 2^64 - 1, and one of them: its class, its run, the part of that,
/// the place of its pause in the part, from the run's begin on, and its access's bytes when the pause began and ended. It is the first of
/// those that have the strongest class. A race of two instructions is of hits, one of a single instruction of
/// reports that found their bytes changed. `part`, `address`, which is that of the access's first byte, and `accesses` stand in no text
/// of a table: part 0, no address and no accesses are read from one.
#[derive(Clone, Copy)]
pub struct RaceRow {
    pub count: u64,
    pub class: RaceClass,
    pub run: u32,
    pub part: u32,
    pub entry: u32,
    pub old: u32,
    pub new: u32,
    pub address: Option<u32>,
    pub accesses: Option<Accesses>,
}

/// The accesses of a report.
fn accesses_of(report: &Report) -> Accesses
    ensures { result ≡ spec.accesses_of report.now }
{
    Accesses {
        paused: report.ending.access,
        other: match report.judged {
            Verdict::Hit(seen) => Some(seen.access),
            Verdict::Changed | Verdict::Quiet => None,
        },
    }
}

/// The row of a single report of a run.
pub fn row_of(run: u32, it: &PartReport) -> (Key, RaceRow)
    ensures { result ≡ spec.row_of run it.now }
{
    let report = &it.report;
    let row = RaceRow {
        count: 1,
        class: report.class,
        run,
        part: it.part,
        entry: it.before.saturating_add(report.ending.paused_at),
        old: report.ending.old,
        new: report.ending.new,
        address: Some(report.ending.access.first),
        accesses: Some(accesses_of(report)),
    };
    (report.key, row)
}

/// The later of two rows only where its class is the stronger.
fn told_by(first: &RaceRow, later: &RaceRow) -> RaceRow
    ensures { result ≡ spec.told_by first.now later.now }
{
    strongest::first_strongest((*first, rank(first.class)), (*later, rank(later.class)))
}

/// Two rows of a race made one.
pub(crate) fn joined(first: &RaceRow, later: &RaceRow) -> RaceRow
    ensures { result ≡ spec.joined first.now later.now }
{
    let told = told_by(first, later);
    RaceRow {
        count: first.count.saturating_add(later.count),
        class: told.class,
        run: told.run,
        part: told.part,
        entry: told.entry,
        old: told.old,
        new: told.new,
        address: told.address,
        accesses: told.accesses,
    }
}
