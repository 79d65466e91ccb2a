//! Changed reports, each by its own race and by that of the pair of instructions that it is judged by.
ghost use Rattle.std.specs.Prelude.{◌≡◌, [], IfOk, OnOk, filter_map};
ghost use Rattle.std.specs.List.{fold};
ghost use Rattle.std.specs.Option.{option_to_list};
ghost use Rattle.rv_tables.specs.Changed as spec;
ghost use Rattle.rv_tables.specs.Keyed as keyed;
ghost use Rattle.rv_tables.specs.Rows as rows;

use crate::entries::entries_of;
use crate::row::{PartReport, RaceRow, joined, row_of};
use indexmap::IndexMap;
use rv_collide::ending::Ending;
use rv_memory::store::NoMemory;
use rv_races::races::Report;
use rv_report::key::{Key, key_of};
use std::alloc::Global;
use std::marker::Model;

/// The race of a changed report, which is of one instruction, and that of the pair which its block names: its own again where it
/// names no store.
#[derive(Clone, Copy, PartialEq, Eq, Hash)]
pub struct ChangedKey {
    pub own: Key,
    pub pair: Key,
}

/// The race of a report's access and of the store that it is judged by.
fn pair_of(report: &Report) -> Key
    ensures { result ≡ spec.pair_of report.now }
{
    let judged = Ending {
        verdict: report.judged,
        ..report.ending
    };
    key_of(&judged).unwrap_or(report.key)
}

/// The row of a report, where it is a changed one.
fn row_if(run: u32, it: &PartReport) -> Option<(ChangedKey, RaceRow)>
    ensures { result ≡ spec.row_if run it.now }
{
    let own = it.report.key;
    if own.second.is_some() {
        return None;
    }
    let pair = pair_of(&it.report);
    Some((ChangedKey { own, pair }, row_of(run, it).1))
}

/// A row for each race and pair of changed reports, in the order of first appearance.
#[derive(Drop)]
pub struct ChangedTable {
    rows: IndexMap<ChangedKey, RaceRow>,
}

impl Model for ChangedTable {
    ghost use Rattle.std.specs.Prelude.{List};
    ghost use Rattle.rv_tables.specs.declared.changed.ChangedKey.{ChangedKey};
    ghost use Rattle.rv_tables.specs.declared.row.RaceRow.{RaceRow};

    ghost Value = { List (ChangedKey × RaceRow) };

    ghost view = { λ t. t.rows.entries };
}

impl ChangedTable {
    /// Of no report. It takes no memory.
    pub fn new(alloc: Global) -> ChangedTable
        ensures { result ≡ [] }
    {
        ChangedTable {
            rows: IndexMap::new(alloc),
        }
    }

    /// The row of a race and a pair, where there is one.
    fn row(&self, key: &ChangedKey) -> Option<RaceRow>
        ensures { result ≡ keyed.row_at spec.same_changed self.now key.now }
    {
        self.rows.get(key).copied()
    }

    /// The same with one row more.
    fn with_row(&self, key: &ChangedKey, row: &RaceRow) -> RaceRow
        ensures { result ≡ keyed.with_row rows.joined (keyed.row_at spec.same_changed self.now key.now) row.now }
    {
        match self.row(key) {
            Some(first) => joined(&first, row),
            None => *row,
        }
    }

    /// Adds a row: it is joined to that of its race and pair, or comes last where there is none.
    fn add(&mut self, key: ChangedKey, row: RaceRow) -> Result<(), NoMemory>
        ensures { OnOk result (self.new ≡ spec.added self.old (key, row)) }
    {
        let row = self.with_row(&key, &row);
        self.rows.insert(key, row)?;
        Ok(())
    }

    /// Adds a row, where there is one.
    fn add_if(&mut self, row: Option<(ChangedKey, RaceRow)>) -> Result<(), NoMemory>
        ensures { OnOk result (self.new ≡ fold spec.added self.old (option_to_list row)) }
    {
        match row {
            Some((key, row)) => self.add(key, row),
            None => Ok(()),
        }
    }

    /// Adds the changed ones of the reports of the run of that number.
    pub fn add_all(&mut self, run: u32, reports: &[PartReport]) -> Result<(), NoMemory>
        ensures { OnOk result (self.new ≡ fold spec.added self.old (filter_map (spec.row_if run) reports.now)) }
    {
        for report in reports {
            self.add_if(row_if(run, report))?;
        }
        Ok(())
    }

    /// The rows in their order.
    pub fn rows(&self, alloc: Global) -> Result<Vec<(ChangedKey, RaceRow)>, NoMemory>
        ensures { IfOk result (λ rows. rows.items ≡ self.now) }
    {
        entries_of(alloc, &self.rows)
    }
}
