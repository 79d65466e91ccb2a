//! The index of a hunt's races: a line of each.
use crate::saying::lines::counted;
use crate::saying::orders::order_word;
use crate::saying::unexpected::{is_among, mark};
use rv_explain::names::name_text;
use rv_explain::pieces::joined;
use rv_explain::symbol_table::SymbolTable;
use rv_memory::store::NoMemory;
use rv_races::classes::class_word;
use rv_report::key::Key;
use rv_tables::orders::OrderTable;
use rv_tables::row::RaceRow;
use rv_text::decimal::Decimal;
use std::alloc::Global;

/// The names of a race's instructions.
pub fn names_of(alloc: Global, symbols: &SymbolTable, key: &Key) -> Result<Vec<u8>, NoMemory> {
    let first = name_text(alloc, symbols, key.first)?;
    match key.second {
        Some(second) => {
            let second = name_text(alloc, symbols, second)?;
            joined(alloc, &[&first, b" and ", &second])
        }
        None => Ok(first),
    }
}

/// The data that a race's report was about.
fn data_words(
    alloc: Global,
    symbols: &SymbolTable,
    address: Option<u32>,
) -> Result<Vec<u8>, NoMemory> {
    match address {
        Some(address) => {
            let name = name_text(alloc, symbols, address)?;
            joined(alloc, &[b", on ", &name])
        }
        None => Ok(Vec::new(alloc)),
    }
}

/// Adds the line of a race.
fn push_line(
    alloc: Global,
    text: &mut Vec<u8>,
    symbols: &SymbolTable,
    orders: &OrderTable,
    number: u64,
    race: &(Key, RaceRow),
    is_new: bool,
) -> Result<(), NoMemory> {
    let (key, row) = race;
    let number = Decimal::new(number);
    let class = class_word(row.class);
    let reports = counted(alloc, row.count, "report")?;
    let data = data_words(alloc, symbols, row.address)?;
    let names = names_of(alloc, symbols, key)?;
    let parts = [
        number.as_bytes(),
        b" ",
        class,
        mark(is_new).as_bytes(),
        b", ",
        order_word(orders.order_of(key)),
        b", ",
        reports.as_bytes(),
        &data,
        b": ",
        &names,
        b"\n",
    ];
    for part in parts {
        text.extend_from_slice(part)?;
    }
    Ok(())
}

/// Adds an empty line and the index of the races, where there is more than one, or one that is not shown in full.
pub(crate) fn push_index(
    alloc: Global,
    text: &mut Vec<u8>,
    symbols: &SymbolTable,
    orders: &OrderTable,
    full: usize,
    told: &[(Key, RaceRow)],
    unexpected: &[(Key, RaceRow)],
) -> Result<(), NoMemory> {
    if told.len() <= 1 && told.len() <= full {
        return Ok(());
    }
    text.push(b'\n')?;
    for (n, race) in told.iter().enumerate() {
        let is_new = is_among(unexpected, &race.0);
        push_line(alloc, text, symbols, orders, n as u64 + 1, race, is_new)?;
    }
    Ok(())
}
