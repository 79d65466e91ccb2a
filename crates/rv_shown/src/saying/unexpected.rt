//! What is said of races that may be bugs and are not expected.
use rv_explain::symbol_table::SymbolTable;
use rv_memory::store::NoMemory;
use rv_report::key::Key;
use rv_tables::merge::listing::{NEW, push_line};
use rv_tables::row::RaceRow;
use std::alloc::Global;

/// Whether the race is one of these.
pub fn is_among(unexpected: &[(Key, RaceRow)], key: &Key) -> bool {
    unexpected.iter().any(|race| race.0 == *key)
}

/// The mark behind the class of a race.
pub fn mark(is_new: bool) -> &'static str {
    if is_new { ", new" } else { "" }
}

/// Adds a line of each, as a list has it.
pub(crate) fn push_unexpected(
    alloc: Global,
    text: &mut Vec<u8>,
    symbols: &SymbolTable,
    unexpected: &[(Key, RaceRow)],
) -> Result<(), NoMemory> {
    for race in unexpected {
        text.extend_from_slice(NEW)?;
        push_line(alloc, text, symbols, race)?;
    }
    Ok(())
}
