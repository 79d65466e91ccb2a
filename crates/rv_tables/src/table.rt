//! The hunt table.
ghost use Rattle.std.specs.Prelude.{◌≡◌, ◌<◌, ◌^◌, ◌∷◌, [], ◌||◌, length, is_err, IfOk, OnOk, OnErr};
ghost use Rattle.std.specs.Io.KnownBytes.{Appends};
ghost use Rattle.rv_tables.specs.HuntText as text;
ghost use Rattle.rv_tables.specs.Rows as spec;
ghost use Rattle.rv_tables.specs.Keyed as keyed;
ghost use Rattle.rv_report.specs.Races.{same_key};

use crate::entries::entries_of;
use crate::row::{RaceRow, joined};
use crate::texts::write_rows;
use indexmap::IndexMap;
use rv_memory::flagged::WriteFault;
use rv_memory::output::Output;
use rv_memory::store::NoMemory;
use rv_report::key::Key;
use rv_report::texts::write_races;
use std::alloc::Global;
use std::marker::Model;

/// A hunt table: a row for each race, in the order of first appearance. A row is added in constant time on average.
#[derive(Drop)]
pub struct HuntTable {
    rows: IndexMap<Key, RaceRow>,
}

impl Model for HuntTable {
    ghost use Rattle.std.specs.Prelude.{List};
    ghost use Rattle.rv_tables.specs.declared.row.RaceRow.{RaceRow};
    ghost use Rattle.rv_report.specs.declared.key.Key.{Key};

    ghost Value = { List (Key × RaceRow) };

    ghost view = { λ t. t.rows.entries };
}

impl HuntTable {
    /// An empty table. It takes no memory.
    pub fn new(alloc: Global) -> HuntTable
        ensures { result ≡ [] }
    {
        HuntTable {
            rows: IndexMap::new(alloc),
        }
    }

    /// How many rows there are.
    pub fn len(&self) -> usize
        ensures len { result ≡ length self.now }
        ensures small { result < 2 ^ 63 }
    {
        self.rows.len()
    }

    /// The row of a race, where there is one.
    pub fn row(&self, key: &Key) -> Option<RaceRow>
        ensures { result ≡ keyed.row_at same_key self.now key.now }
    {
        self.rows.get(key).copied()
    }

    /// Whether a race has a row.
    pub fn has(&self, key: &Key) -> bool
        ensures { result ≡ spec.has_race key.now self.now }
    {
        self.row(key).is_some()
    }

    /// The row of a race with one row more, which is its first where there is none yet.
    fn with_row(&self, key: &Key, row: &RaceRow) -> RaceRow
        ensures { result ≡ keyed.with_row spec.joined (keyed.row_at same_key self.now key.now) row.now }
    {
        match self.row(key) {
            Some(first) => joined(&first, row),
            None => *row,
        }
    }

    /// Adds a row: it is joined to that of its race, or comes last where there is none. The count stays at
    /// 2^64 - 1 once there. Where growth is refused the table stays.
    pub fn add(&mut self, key: Key, row: RaceRow) -> Result<(), NoMemory>
        ensures ok { OnOk result (self.new ≡ spec.added self.old (key, row)) }
        ensures err { OnErr result (self.new ≡ self.old) }
    {
        let row = self.with_row(&key, &row);
        self.rows.insert(key, row)?;
        Ok(())
    }

    /// Adds the rows of another table, in their order.
    #[tactic(auto, unfolding(crate::specs::Rows::merged))]
    pub fn merge(&mut self, later: &HuntTable) -> Result<(), NoMemory>
        ensures { OnOk result (self.new ≡ spec.merged self.old later.now) }
    {
        for (key, row) in later.rows.iter() {
            self.add(*key, *row)?;
        }
        Ok(())
    }

    /// The rows in their order.
    pub fn rows(&self, alloc: Global) -> Result<Vec<(Key, RaceRow)>, NoMemory>
        ensures { IfOk result (λ rows. rows.items ≡ self.now) }
    {
        entries_of(alloc, &self.rows)
    }

    /// The rows from a place on, in their order.
    pub fn rows_from(&self, alloc: Global, place: usize) -> Result<Vec<(Key, RaceRow)>, NoMemory> {
        let entries = self.rows.iter().map(|(key, row)| (*key, *row));
        Ok(entries.skip(place).collect(alloc)?)
    }

    /// The rows in their order, in place of the table.
    pub fn into_rows(self, alloc: Global) -> Result<Vec<(Key, RaceRow)>, NoMemory>
        ensures { IfOk result (λ rows. rows.items ≡ self) }
    {
        self.rows(alloc)
    }
}

/// Writes a table of these rows: `races N`, and a line of each. It takes no memory.
#[tactic(auto, unfolding(crate::specs::HuntText::table_text))]
pub fn write_table<O: Output>(writer: &mut O, rows: &[(Key, RaceRow)]) -> Result<(), WriteFault>
    ensures ok { OnOk result (Appends (O.written writer.old) (O.written writer.new)
        (text.table_text rows.now)) }
    ensures failed { O.has_failed writer.new ≡ (O.has_failed writer.old || is_err result) }
{
    write_races(writer, rows.len() as u64)?;
    write_rows(writer, rows)
}
