//! The texts of what a hunt came to.
use crate::onward::{push_gdb_line, push_keep_line, push_stuck_gdb_line};
use crate::options::LineParts;
use crate::outcome::{Outcome, Tabled};
use crate::saying::index::push_index;
use crate::saying::lines::{push_behind, push_counted, summary_line, tabled_line};
use crate::saying::orders::shown_rows;
use crate::saying::stuck::stuck_block_lines;
use crate::saying::unexpected::{is_among, mark};
use crate::saying::warnings::first_notes;
use crate::shown::{ShownOrder, ShownRace, ShownStuck};
use rv_explain::blocks::ordered_text;
use rv_explain::symbol_table::SymbolTable;
use rv_memory::store::NoMemory;
use rv_report::key::Key;
use rv_search::tally::Tally;
use rv_tables::orders::OrderTable;
use rv_tables::row::RaceRow;
use std::alloc::Global;

/// The block of a race of that number, and how to go there.
pub fn race_text(
    alloc: Global,
    line: &LineParts<'_>,
    symbols: &SymbolTable,
    number: u64,
    row: &RaceRow,
    is_new: bool,
    shown: &ShownRace,
    order: &ShownOrder,
) -> Result<Vec<u8>, NoMemory> {
    let mark = mark(is_new);
    let run = row.run;
    let harts = shown.harts;
    let words = match row.part {
        0 => format!(in alloc; "{mark}, first in run {run}, {harts} harts")?,
        part => format!(in alloc; "{mark}, first in run {run}, probe {part}, {harts} harts")?,
    };
    let rows = shown_rows(alloc, symbols, order)?;
    let mut text = ordered_text(
        alloc,
        symbols,
        words.as_bytes(),
        number,
        &shown.block,
        &rows,
    )?;
    push_gdb_line(alloc, &mut text, line, number, shown.block.number)?;
    Ok(text)
}

/// The block of a stuck end of that number, and how to go there.
pub fn stuck_end_text(
    alloc: Global,
    line: &LineParts<'_>,
    symbols: &SymbolTable,
    saw: &Tally,
    number: u64,
    shown: &ShownStuck,
) -> Result<Vec<u8>, NoMemory> {
    let mut text = Vec::new(alloc);
    for shown_line in &stuck_block_lines(alloc, symbols, saw, number, shown)? {
        text.extend_from_slice(shown_line)?;
        text.push(b'\n')?;
    }
    push_stuck_gdb_line(alloc, &mut text, line, number, shown.entries)?;
    Ok(text)
}

/// Adds the stuck ends, where there are any: how many, and a block of each that is shown in full.
fn push_stuck(
    alloc: Global,
    text: &mut Vec<u8>,
    symbols: &SymbolTable,
    outcome: &Outcome,
    line: &LineParts<'_>,
) -> Result<(), NoMemory> {
    let ends = outcome.stuck;
    if ends.count == 0 {
        return Ok(());
    }
    let count = ends.count;
    let runs = outcome.saw.tally.runs();
    let first = format!(in alloc; "\nstuck ends {count} in {runs} runs\n")?;
    text.extend_from_slice(first.as_bytes())?;
    for (n, shown) in ends.shown.iter().enumerate() {
        let saw = &outcome.saw.tally;
        text.push(b'\n')?;
        text.extend_from_slice(&stuck_end_text(alloc, line, symbols, saw, n as u64 + 1, shown)?)?;
    }
    Ok(())
}

/// Adds the index of the races that are told, and the blocks of the first, which are shown in full.
fn push_races(
    alloc: Global,
    text: &mut Vec<u8>,
    line: &LineParts<'_>,
    symbols: &SymbolTable,
    tried: &OrderTable,
    new: &[(Key, RaceRow)],
    told: &[(Key, RaceRow)],
    shown: &[ShownRace],
    orders: &[ShownOrder],
) -> Result<(), NoMemory> {
    push_index(alloc, text, symbols, tried, shown.len(), told, new)?;
    for (n, (((key, row), race), order)) in told.iter().zip(shown).zip(orders).enumerate() {
        let number = n as u64 + 1;
        text.push(b'\n')?;
        let is_new = is_among(new, key);
        text.extend_from_slice(&race_text(
            alloc, line, symbols, number, row, is_new, race, order,
        )?)?;
    }
    Ok(())
}

/// The text of the races of a table. Their orders are not tried.
pub fn tabled_text(
    alloc: Global,
    line: &LineParts<'_>,
    symbols: &SymbolTable,
    tabled: &Tabled,
    told: &[(Key, RaceRow)],
    shown: &[ShownRace],
    orders: &[ShownOrder],
) -> Result<Vec<u8>, NoMemory> {
    let mut text = Vec::new(alloc);
    text.extend_from_slice(tabled_line(alloc, tabled)?.as_bytes())?;
    let untried = OrderTable::new(alloc);
    let new = tabled.new;
    push_races(
        alloc, &mut text, line, symbols, &untried, new, told, shown, orders,
    )?;
    let mut behind = Vec::new(alloc);
    push_counted(alloc, &mut behind, tabled.rows, tabled.ignored)?;
    if !behind.is_empty() {
        text.push(b'\n')?;
        text.extend_from_slice(&behind)?;
    }
    Ok(text)
}

/// The text of a hunt, and how a run is kept. Of the races that are told the first are shown in full.
pub fn hunt_text(
    alloc: Global,
    line: &LineParts<'_>,
    symbols: &SymbolTable,
    outcome: &Outcome,
    told: &[(Key, RaceRow)],
    shown: &[ShownRace],
    orders: &[ShownOrder],
) -> Result<Vec<u8>, NoMemory> {
    let mut text = Vec::new(alloc);
    text.extend_from_slice(summary_line(alloc, outcome)?.as_bytes())?;
    let tried = &outcome.saw.orders;
    let new = outcome.new;
    push_races(
        alloc, &mut text, line, symbols, tried, new, told, shown, orders,
    )?;
    push_stuck(alloc, &mut text, symbols, outcome, line)?;
    text.push(b'\n')?;
    push_behind(alloc, &mut text, symbols, outcome)?;
    push_keep_line(alloc, &mut text, line)?;
    Ok(text)
}

/// The warnings, the races that are new, the stuck ends, the lines behind the blocks, and how a run is kept.
pub fn table_notes(
    alloc: Global,
    line: &LineParts<'_>,
    symbols: &SymbolTable,
    outcome: &Outcome,
) -> Result<Vec<u8>, NoMemory> {
    let mut notes = first_notes(alloc, symbols, outcome)?;
    push_stuck(alloc, &mut notes, symbols, outcome, line)?;
    push_behind(alloc, &mut notes, symbols, outcome)?;
    push_keep_line(alloc, &mut notes, line)?;
    Ok(notes)
}
