//! The race table.
ghost use Rattle.std.specs.Prelude.{◌≡◌, ◌∷◌, [], ◌++◌, ◌||◌, List, Some, is_err, OnOk, OnErr};
ghost use Rattle.std.specs.Io.KnownBytes.{Appends};
ghost use Rattle.rv_report.specs.Races as spec;
ghost use Rattle.rv_report.specs.TableText as text;
ghost use Rattle.rv_report.specs.internal.Added as internal;

use crate::key::{Key, key_of};
use crate::row::Row;
use crate::texts::{write_pruned, write_races, write_rows};
use indexmap::IndexMap;
use rv_collide::ending::Ending;
use rv_memory::flagged::WriteFault;
use rv_memory::output::Output;
use rv_memory::store::NoMemory;
use rv_prune::class::Class;
use std::alloc::Global;
use std::marker::Model;

/// A race table. An ending adds to it in constant time on average.
#[derive(Drop)]
pub struct RaceTable {
    rows: IndexMap<Key, Row>,
    named: u64,
    flag: u64,
    counter: u64,
}

impl Model for RaceTable {
    ghost use Rattle.rv_report.specs.Races.{Table};

    ghost Value = { Table };

    ghost view = { λ t. record { rows = t.rows.entries; named = t.named; flag = t.flag; counter = t.counter } };
}

impl RaceTable {
    /// An empty table. It takes no memory.
    pub fn new(alloc: Global) -> RaceTable
        ensures { result ≡ spec.races [] }
    {
        RaceTable {
            rows: IndexMap::new(alloc),
            named: 0,
            flag: 0,
            counter: 0,
        }
    }

    /// The row of a key with one more ending, which is its first where there is no row yet.
    fn raised_row(&self, key: &Key, run: u32, ending: &Ending) -> Row
        ensures { result ≡ internal.raised_row (internal.row_of self.now.rows key.now) run ending.now }
    {
        match self.rows.get(key) {
            Some(row) => Row {
                count: row.count.saturating_add(1),
                run: row.run,
                ending: row.ending,
            },
            None => Row {
                count: 1,
                run,
                ending: *ending,
            },
        }
    }

    /// Raises the row of the key, or makes a new last one with this run and ending.
    fn raise(&mut self, key: Key, run: u32, ending: &Ending) -> Result<(), NoMemory>
        ensures ok { OnOk result (self.new
            ≡ record self.old { rows = internal.raised self.old.rows key run ending.now }) }
        ensures err { OnErr result (self.new ≡ self.old) }
    {
        let row = self.raised_row(&key, run, ending);
        self.rows.insert(key, row)?;
        Ok(())
    }

    /// Counts an ending that is not quiet.
    fn count(&mut self, key: Key, run: u32, ending: &Ending, class: Class) -> Result<(), NoMemory>
        ensures ok { OnOk result (self.new
            ≡ internal.added_key self.old run ending.now class (Some key)) }
        ensures err { OnErr result (self.new ≡ self.old) }
    {
        match class {
            Class::Named => self.named = self.named.saturating_add(1),
            Class::Flag => self.flag = self.flag.saturating_add(1),
            Class::Counter => self.counter = self.counter.saturating_add(1),
            Class::Kept => self.raise(key, run, ending)?,
        }
        Ok(())
    }

    /// Adds an ending of a run, with its class. A quiet one adds nothing. One whose class is not Kept raises
    /// the count of its class. A kept one raises the row of its key, or makes a new last row, which keeps the
    /// run and the ending. Counts stay at 2^64 - 1 once there. Where growth is refused the table stays.
    pub fn add(&mut self, run: u32, ending: &Ending, class: Class) -> Result<(), NoMemory>
        ensures ok { OnOk result ((told : List spec.Told) → self.old ≡ spec.races told →
            self.new ≡ spec.races (told ++ record { run = run; ending = ending.now; class = class } ∷ [])) }
        ensures err { OnErr result (self.new ≡ self.old) }
    {
        let Some(key) = key_of(ending) else {
            return Ok(());
        };
        self.count(key, run, ending, class)?;
        Ok(())
    }

    /// Writes the table: `races N`, a line of each row in the order of first appearance, and
    /// `pruned named A flag B counter C`. It takes no memory.
    #[tactic(auto, unfolding(crate::specs::TableText::table_text))]
    pub fn write_table<O: Output>(&self, writer: &mut O) -> Result<(), WriteFault>
        ensures ok { OnOk result (Appends (O.written writer.old) (O.written writer.new)
            (text.table_text self.now)) }
        ensures failed { O.has_failed writer.new ≡ (O.has_failed writer.old || is_err result) }
    {
        write_races(writer, self.rows.len() as u64)?;
        write_rows(writer, &self.rows)?;
        write_pruned(writer, self.named, self.flag, self.counter)
    }
}
