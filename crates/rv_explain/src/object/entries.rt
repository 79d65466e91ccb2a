//! The entries that a block shows, as JSON: what its lines have, but for those that say how many are left out.
ghost use Rattle.std.specs.Prelude.{◌≡◌, IfOk};

use crate::block::Block;
use crate::object::places::place_at;
use crate::object::race::instruction_at;
use crate::row::{Row, Shown};
use crate::rows::{bytes_shown, hart_shown, mark_of};
use rv_collide::entry::Entry;
use rv_json::object::Json;
use rv_memory::store::NoMemory;
use rv_symbols::symbol_table::SymbolTable;
use std::alloc::Global;

/// The instruction of an entry, or the site that was armed; a resumption has neither.
fn place_members(
    json: Json,
    alloc: Global,
    symbols: &SymbolTable,
    row: &Row,
) -> Result<Json, NoMemory>
    ensures { IfOk result (λ more. more ≡ json) }
{
    match row.entry {
        Entry::Armed(address) | Entry::Disarmed(address) => {
            place_at(json, alloc, symbols, "at", address)?.nothing_at("instruction")
        }
        Entry::Resumed(_) => json.nothing_at("at")?.nothing_at("instruction"),
        Entry::Stepped(_) | Entry::Paused(_, _) => {
            let json = place_at(json, alloc, symbols, "at", row.pc)?;
            instruction_at(json, alloc, row.pc, row.word)
        }
    }
}

/// An entry.
fn entry_object(
    json: Json,
    alloc: Global,
    symbols: &SymbolTable,
    block: &Block,
    row: &Row,
) -> Result<Json, NoMemory>
    ensures { IfOk result (λ more. more ≡ json) }
{
    let mark = mark_of(alloc, block, row)?;
    let hart = hart_shown(row.entry).map(|hart| u64::from(hart));
    let json = json.object()?.number_at("entry", u64::from(row.place))?;
    let json = json.number_if("hart", hart)?;
    let json = json.text_at("mark", mark.as_str())?;
    let json = json.digits_if("value", bytes_shown(block, row))?;
    place_members(json, alloc, symbols, row)?.end()
}

/// A line of a block.
fn shown_object(
    json: Json,
    alloc: Global,
    symbols: &SymbolTable,
    block: &Block,
    shown: &Shown,
) -> Result<Json, NoMemory>
    ensures { IfOk result (λ more. more ≡ json) }
{
    match shown {
        Shown::Row(row) => entry_object(json, alloc, symbols, block, row),
        Shown::Gap { .. } => Ok(json),
    }
}

fn all_entries(
    json: Json,
    alloc: Global,
    symbols: &SymbolTable,
    block: &Block,
) -> Result<Json, NoMemory>
    ensures { IfOk result (λ more. more ≡ json) }
{
    let mut json = json;
    for shown in &block.lines {
        json = shown_object(json, alloc, symbols, block, shown)?;
    }
    Ok(json)
}

/// The entries of a race that is shown in full.
pub(crate) fn entries_at(
    json: Json,
    alloc: Global,
    symbols: &SymbolTable,
    block: Option<&Block>,
) -> Result<Json, NoMemory>
    ensures { IfOk result (λ more. more ≡ json) }
{
    match block {
        Some(block) => all_entries(json.array_at("entries")?, alloc, symbols, block)?.end(),
        None => json.nothing_at("entries"),
    }
}
