//! The near pairs of a hunt's walks, and what came of them.
ghost use Rattle.std.specs.Prelude.{◌≡◌, ◌==◌, [], OnOk, IfOk, length, map, count_by};
ghost use Rattle.std.specs.List.{fold};
ghost use Rattle.rv_tables.specs.Near.{probed_pair, seen_pair};
ghost use Rattle.rv_tables.specs.Near as spec;
ghost use Rattle.rv_tables.specs.Keyed as keyed;

use crate::table::HuntTable;
use indexmap::IndexMap;
use rv_memory::store::NoMemory;
use rv_report::key::Key;
use rv_walk::near_pair::{Addresses, NearPair};
use rv_walk::probe::Reached;
use rv_walk::probes::Part;
use std::alloc::Global;
use std::marker::Model;

/// What is known of a near pair: the first byte that its first access was on, the best that its probes came to, if there were any,
/// and how many there were, up to 2^64 - 1.
#[derive(Clone, Copy)]
pub struct NearRow {
    pub address: u32,
    pub best: Option<Reached>,
    pub tries: u64,
}

/// What came of a near pair: a report is of its two instructions; or none is, and of its probes one held a hart, or in one a hart
/// came there only while all others waited, or none came there; or it was not probed.
#[derive(Clone, Copy)]
pub enum Fate {
    Met,
    Held,
    OthersWaited,
    NeverReached,
    Untried,
}

/// A near pair that a walk saw.
pub fn seen_pair(pair: &NearPair) -> (Addresses, NearRow)
    ensures { result ≡ seen_pair pair.now }
{
    let row = NearRow {
        address: pair.first.access.first,
        best: None,
        tries: 0,
    };
    (pair.addresses(), row)
}

/// One that was probed.
pub fn probed_pair(part: &Part) -> (Addresses, NearRow)
    ensures { result ≡ probed_pair part.now }
{
    let row = NearRow {
        address: part.pair.first.access.first,
        best: Some(part.probed.reached),
        tries: 1,
    };
    (part.pair.addresses(), row)
}

/// How much a probe came to.
fn worth(best: Option<Reached>) -> u8
    ensures { result ≡ spec.worth best }
{
    match best {
        None => 0,
        Some(Reached::Never) => 1,
        Some(Reached::OthersWaited) => 2,
        Some(Reached::Held) => 3,
    }
}

/// Two sights of a pair made one.
fn joined(first: &NearRow, later: &NearRow) -> NearRow
    ensures { result ≡ spec.joined first.now later.now }
{
    NearRow {
        address: first.address,
        best: if worth(first.best) < worth(later.best) {
            later.best
        } else {
            first.best
        },
        tries: first.tries.saturating_add(later.tries),
    }
}

/// The near pairs, in the order of first appearance. A sight is added in constant time on average.
#[derive(Drop)]
pub struct NearTable {
    rows: IndexMap<Addresses, NearRow>,
}

impl Model for NearTable {
    ghost use Rattle.std.specs.Prelude.{List};
    ghost use Rattle.rv_tables.specs.declared.near.NearRow.{NearRow};
    ghost use Rattle.rv_walk.specs.declared.near_pair.Addresses.{Addresses};

    ghost Value = { List (Addresses × NearRow) };

    ghost view = { λ t. t.rows.entries };
}

impl NearTable {
    /// An empty table. It takes no memory.
    pub fn new(alloc: Global) -> NearTable
        ensures { result ≡ [] }
    {
        NearTable {
            rows: IndexMap::new(alloc),
        }
    }

    /// How many pairs there are.
    pub fn len(&self) -> usize
        ensures { result ≡ length self.now }
    {
        self.rows.len()
    }

    /// What is known of a pair.
    fn row(&self, addresses: &Addresses) -> Option<NearRow>
        ensures { result ≡ keyed.row_at spec.same_addresses self.now addresses.now }
    {
        self.rows.get(addresses).copied()
    }

    /// The same with one sight more.
    fn with_row(&self, addresses: &Addresses, row: &NearRow) -> NearRow
        ensures { result ≡ keyed.with_row spec.joined (keyed.row_at spec.same_addresses self.now addresses.now) row.now }
    {
        match self.row(addresses) {
            Some(first) => joined(&first, row),
            None => *row,
        }
    }

    /// Adds a sight of a pair.
    fn add(&mut self, addresses: Addresses, row: NearRow) -> Result<(), NoMemory>
        ensures { OnOk result (self.new ≡ spec.added self.old (addresses, row)) }
    {
        let row = self.with_row(&addresses, &row);
        self.rows.insert(addresses, row)?;
        Ok(())
    }

    /// Adds sights, in their order. Where growth is refused, some are added.
    pub fn add_all(&mut self, rows: &[(Addresses, NearRow)]) -> Result<(), NoMemory>
        ensures { OnOk result (self.new ≡ fold spec.added self.old rows.now) }
    {
        for row in rows {
            self.add(row.0, row.1)?;
        }
        Ok(())
    }

    /// How many of the pairs came to that, by the races of the hunt.
    pub fn how_many(&self, races: &HuntTable, fate: Fate) -> u64
        ensures { result ≡ spec.how_many races.now self.now fate }
    {
        let of_fate = self.rows.iter().filter(|(addresses, row)| rank(fate_of(
            races, addresses, row,
        )) == rank(fate));
        of_fate.count() as u64
    }

    /// The pairs that were not met, with what is known of them, in their order.
    pub fn unmet(
        &self,
        alloc: Global,
        races: &HuntTable,
    ) -> Result<Vec<(Addresses, NearRow)>, NoMemory>
        ensures { IfOk result (λ rows. rows.items ≡ spec.unmet races.now self.now) }
    {
        let rows = self.rows.iter().map(|(addresses, row)| (*addresses, *row));
        Ok(
            rows.filter(|pair| rank(fate_of(races, &pair.0, &pair.1)) != 0)
                .collect(alloc)?,
        )
    }
}

/// What came of a pair whose two instructions no report is of.
pub fn fate_by(best: Option<Reached>) -> Fate
    ensures { result ≡ spec.fate_by best }
{
    match best {
        None => Fate::Untried,
        Some(Reached::Never) => Fate::NeverReached,
        Some(Reached::OthersWaited) => Fate::OthersWaited,
        Some(Reached::Held) => Fate::Held,
    }
}

/// What came of a pair, by the races of the hunt.
pub fn fate_of(races: &HuntTable, addresses: &Addresses, row: &NearRow) -> Fate
    ensures { result ≡ spec.fate_of races.now (addresses.now, row.now) }
{
    let race = Key {
        first: addresses.lesser,
        second: Some(addresses.greater),
    };
    if races.has(&race) {
        Fate::Met
    } else {
        fate_by(row.best)
    }
}

fn rank(fate: Fate) -> u8
    ensures { result ≡ spec.rank fate }
{
    match fate {
        Fate::Met => 0,
        Fate::Held => 1,
        Fate::OthersWaited => 2,
        Fate::NeverReached => 3,
        Fate::Untried => 4,
    }
}
