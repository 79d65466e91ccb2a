//! What difference the orders of races' accesses make: how trials of runs ended, added up by races.
ghost use Rattle.std.specs.Prelude.{◌≡◌, [], OnOk, map};
ghost use Rattle.std.specs.List.{fold};
ghost use Rattle.rv_tables.specs.Orders as spec;
ghost use Rattle.rv_tables.specs.Keyed as keyed;
ghost use Rattle.rv_report.specs.Races.{same_key};

use indexmap::IndexMap;
use rv_memory::store::NoMemory;
use rv_orders::Difference;
use rv_report::key::Key;
use std::alloc::Global;
use std::marker::Model;

/// A trial of a run: the race of the report that it is of, the report's part, the place of its pause in the part, from the run's begin on, the
/// trial's number, and how the two ends differ.
#[derive(Clone, Copy)]
pub struct TriedOrder {
    pub key: Key,
    pub part: u32,
    pub entry: u32,
    pub number: u32,
    pub difference: Difference,
}

/// Where a trial is made: of the report of that run and part whose pause stands at that place, by the words of that number.
#[derive(Clone, Copy)]
pub struct TrialPlace {
    pub run: u32,
    pub part: u32,
    pub entry: u32,
    pub number: u32,
}

/// What is known of the order of a race's accesses: how many trials there were; by how many some hart ended otherwise, by how many of
/// the others harts printed otherwise, and by how many of the rest a byte of memory differed; the address by the first of these, and the
/// first trial by which some hart ended otherwise. Counts stay at 2^64 - 1 once there.
#[derive(Clone, Copy)]
pub struct OrderRow {
    pub trials: u64,
    pub ends: u64,
    pub prints: u64,
    pub memory: u64,
    pub memory_at: Option<u32>,
    pub first: Option<TrialPlace>,
}

/// What the order of a race's accesses makes: harts end otherwise by some trial; none does, and they print otherwise by some; by none,
/// and memory differs by some; all trials end alike; or there was none.
#[derive(Clone, Copy)]
pub enum Order {
    Matters,
    Prints,
    Memory,
    Alike,
    Untried,
}

impl Order {
    /// Whether some hart ended otherwise by some trial.
    pub fn matters(self) -> bool
        ensures { result ≡ spec.matters self }
    {
        match self {
            Order::Matters => true,
            Order::Prints | Order::Memory | Order::Alike | Order::Untried => false,
        }
    }
}

/// No trial.
const NONE: OrderRow = OrderRow {
    trials: 0,
    ends: 0,
    prints: 0,
    memory: 0,
    memory_at: None,
    first: None,
};

/// The row of a single trial of the run of that number.
pub fn row_of(run: u32, tried: &TriedOrder) -> (Key, OrderRow)
    ensures { result ≡ spec.row_of run tried.now }
{
    let one = OrderRow { trials: 1, ..NONE };
    let row = match tried.difference {
        Difference::Ends => OrderRow {
            ends: 1,
            first: Some(TrialPlace {
                run,
                part: tried.part,
                entry: tried.entry,
                number: tried.number,
            }),
            ..one
        },
        Difference::Prints => OrderRow { prints: 1, ..one },
        Difference::Memory(address) => OrderRow {
            memory: 1,
            memory_at: Some(address),
            ..one
        },
        Difference::None => one,
    };
    (tried.key, row)
}

/// Two rows of a race made one.
fn joined(first: &OrderRow, later: &OrderRow) -> OrderRow
    ensures { result ≡ spec.joined first.now later.now }
{
    OrderRow {
        trials: first.trials.saturating_add(later.trials),
        ends: first.ends.saturating_add(later.ends),
        prints: first.prints.saturating_add(later.prints),
        memory: first.memory.saturating_add(later.memory),
        memory_at: first.memory_at.or(later.memory_at),
        first: first.first.or(later.first),
    }
}

/// What the order makes by such trials.
fn order_by(row: &OrderRow) -> Order
    ensures { result ≡ spec.order_by row.now }
{
    if row.ends > 0 {
        Order::Matters
    } else if row.prints > 0 {
        Order::Prints
    } else if row.memory > 0 {
        Order::Memory
    } else {
        Order::Alike
    }
}

/// The trials of a hunt: a row for each race that was tried, in the order of their first trials.
#[derive(Drop)]
pub struct OrderTable {
    rows: IndexMap<Key, OrderRow>,
}

impl Model for OrderTable {
    ghost use Rattle.std.specs.Prelude.{List};
    ghost use Rattle.rv_tables.specs.declared.orders.OrderRow.{OrderRow};
    ghost use Rattle.rv_report.specs.declared.key.Key.{Key};

    ghost Value = { List (Key × OrderRow) };

    ghost view = { λ t. t.rows.entries };
}

impl OrderTable {
    /// Of no trial. It takes no memory.
    pub fn new(alloc: Global) -> OrderTable
        ensures { result ≡ [] }
    {
        OrderTable {
            rows: IndexMap::new(alloc),
        }
    }

    /// What is known of a race's order, where it was tried.
    pub fn row(&self, key: &Key) -> Option<OrderRow>
        ensures { result ≡ keyed.row_at same_key self.now key.now }
    {
        self.rows.get(key).copied()
    }

    /// The first trial of a race by which some hart ended otherwise.
    pub fn first_of(&self, key: &Key) -> Option<TrialPlace>
        ensures { result ≡ spec.first_of (keyed.row_at same_key self.now key.now) }
    {
        self.row(key)?.first
    }

    /// The same with one trial more.
    fn with_row(&self, key: &Key, row: &OrderRow) -> OrderRow
        ensures { result ≡ keyed.with_row spec.joined (keyed.row_at same_key self.now key.now) row.now }
    {
        match self.row(key) {
            Some(first) => joined(&first, row),
            None => *row,
        }
    }

    /// Adds a row: it is joined to that of its race, or comes last where there is none.
    fn add(&mut self, key: Key, row: OrderRow) -> Result<(), NoMemory>
        ensures { OnOk result (self.new ≡ spec.added self.old (key, row)) }
    {
        let row = self.with_row(&key, &row);
        self.rows.insert(key, row)?;
        Ok(())
    }

    /// Adds the trials of the run of that number.
    pub fn add_all(&mut self, run: u32, tried: &[TriedOrder]) -> Result<(), NoMemory>
        ensures { OnOk result (self.new ≡ fold spec.added self.old (map (spec.row_of run) tried.now)) }
    {
        for one in tried {
            let (key, row) = row_of(run, one);
            self.add(key, row)?;
        }
        Ok(())
    }

    /// What the order of a race's accesses makes.
    pub fn order_of(&self, key: &Key) -> Order
        ensures { result ≡ spec.order_of self.now key.now }
    {
        match self.row(key) {
            Some(row) => order_by(&row),
            None => Order::Untried,
        }
    }
}
