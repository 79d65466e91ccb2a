//! What is settled of two instructions: from which distance on nothing is to be noted of their accesses.
use crate::near_pair::NearPair;
use rv_memory::store::NoMemory;
use std::alloc::Global;

/// How many entries there are, a power of two.
const ENTRIES: usize = 1024;

/// Two instructions, and a distance: of accesses of the first and then the second that are so far apart, or farther, nothing is noted.
#[derive(Clone, Copy)]
struct Entry {
    first: u32,
    second: u32,
    distance: u32,
}

/// No two instructions: no address of one is odd.
const EMPTY: Entry = Entry {
    first: 1,
    second: 1,
    distance: 0,
};

/// Speed: a table with a place for each two addresses, which others may take.
#[derive(Drop)]
pub struct Settled {
    entries: Vec<Entry>,
}

impl Settled {
    /// Nothing yet.
    pub fn new(alloc: Global) -> Result<Settled, NoMemory> {
        let mut entries = Vec::new(alloc);
        entries.resize(ENTRIES, EMPTY)?;
        Ok(Settled { entries })
    }

    /// Whether it is known that nothing is to be noted of a pair.
    #[inline(always)]
    pub fn has(&self, pair: &NearPair) -> bool {
        let place = place_of(pair);
        if place >= self.entries.len() {
            return false;
        }
        let entry = &self.entries[place];
        entry.first == pair.first.access.pc
            && entry.second == pair.second.access.pc
            && entry.distance <= pair.distance()
    }

    /// Nothing is to be noted from now on of pairs of these two instructions that are so far apart, or farther.
    pub fn add(&mut self, pair: &NearPair, distance: u32) {
        let place = place_of(pair);
        if place < self.entries.len() {
            self.entries[place] = Entry {
                first: pair.first.access.pc,
                second: pair.second.access.pc,
                distance,
            };
        }
    }
}

/// The place of a pair's two instructions.
#[inline(always)]
fn place_of(pair: &NearPair) -> usize {
    let first = pair.first.access.pc / 4;
    let second = pair.second.access.pc / 4;
    (first.wrapping_mul(33) ^ second) as usize % ENTRIES
}
