//! A number for each aligned word, in tables that are made where a word is first asked for.
ghost use Rattle.std.specs.Prelude.{◌<◌, ◌^◌, IfOk};

use rv_memory::store::NoMemory;
use std::alloc::Global;

/// No number.
pub const NOTHING: u32 = u32::MAX;

/// The entries of a table.
const TABLE: usize = 1024;

/// Tables of three levels, in one list: an entry of the first two is the place of a table, and of the last the word's number. One that
/// is not there is `NOTHING`. The first table begins the list.
#[derive(Drop)]
pub struct Words {
    entries: Vec<u32>,
}

impl Words {
    /// No numbers.
    pub fn new(alloc: Global) -> Result<Words, NoMemory> {
        let mut entries = Vec::new(alloc);
        entries.resize(TABLE, NOTHING)?;
        Ok(Words { entries })
    }

    /// The entry of a word, that is of an address divided by 4.
    #[inline(always)]
    pub fn entry_of(&mut self, word: u32) -> Result<usize, NoMemory> {
        let word = word as usize;
        let middle = self.table_at(word >> 20)?;
        let last = self.table_at(middle + (word >> 10) % TABLE)?;
        Ok(last + word % TABLE)
    }

    /// The table that an entry leads to.
    #[inline(always)]
    fn table_at(&mut self, entry: usize) -> Result<usize, NoMemory>
        ensures { IfOk result (λ place. place < 2 ^ 32) }
    {
        let there = self.get(entry);
        if there != NOTHING {
            return Ok(there as usize);
        }
        self.make_table(entry)
    }

    /// A new table, that an entry leads to from now on.
    #[cold]
    #[inline(never)]
    fn make_table(&mut self, entry: usize) -> Result<usize, NoMemory>
        ensures { IfOk result (λ place. place < 2 ^ 32) }
    {
        let place = self.entries.len();
        let Ok(short) = u32::try_from(place) else {
            return Err(NoMemory);
        };
        self.entries.reserve(TABLE)?;
        self.entries.resize(place + TABLE, NOTHING)?;
        self.set(entry, short);
        Ok(place)
    }

    /// The number at an entry.
    #[inline(always)]
    pub fn get(&self, entry: usize) -> u32 {
        if entry < self.entries.len() {
            self.entries[entry]
        } else {
            NOTHING
        }
    }

    /// Sets the number at an entry.
    #[inline(always)]
    pub fn set(&mut self, entry: usize, number: u32) {
        if entry < self.entries.len() {
            self.entries[entry] = number;
        }
    }
}
