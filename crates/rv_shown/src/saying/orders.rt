//! What is said of the order of a race's accesses.
use crate::shown::ShownOrder;
use rv_explain::order::{CopyText, OrderCounts, copies_of, counted_rows};
use rv_explain::symbol_table::SymbolTable;
use rv_memory::store::NoMemory;
use rv_tables::orders::{Order, OrderRow};
use std::alloc::Global;

/// The word for what the order of a race's accesses makes.
pub(crate) fn order_word(order: Order) -> &'static [u8] {
    match order {
        Order::Matters => b"matters",
        Order::Prints => b"prints",
        Order::Memory => b"memory",
        Order::Alike => b"alike",
        Order::Untried => b"-",
    }
}

/// The counts of a race's trials.
pub fn counts_of(row: &OrderRow) -> OrderCounts {
    OrderCounts {
        trials: row.trials,
        ends: row.ends,
        prints: row.prints,
        memory: row.memory,
        memory_at: row.memory_at,
    }
}

/// The two copies of the trial that is shown of a race, where there is one.
pub fn shown_copies(
    alloc: Global,
    symbols: &SymbolTable,
    shown: &ShownOrder,
) -> Result<Vec<CopyText>, NoMemory> {
    match &shown.made {
        Some(made) => copies_of(alloc, symbols, &made.block, &made.order),
        None => Ok(Vec::new(alloc)),
    }
}

/// The rows of a race's block that say what came of the trials of its order.
pub(crate) fn shown_rows(
    alloc: Global,
    symbols: &SymbolTable,
    shown: &ShownOrder,
) -> Result<Vec<Vec<u8>>, NoMemory> {
    let copies = shown_copies(alloc, symbols, shown)?;
    let counts = shown.row.map(|row| counts_of(&row));
    counted_rows(alloc, symbols, counts.as_ref(), &copies)
}
