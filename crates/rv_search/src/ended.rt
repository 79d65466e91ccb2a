//! How the harts of all runs ended, in rows that the text and the page show.
ghost use Rattle.std.specs.Prelude.{◌≡◌, ◌++◌, IfOk, OnOk};
ghost use Rattle.rv_search.specs.EndedRows as spec;

use crate::end::End;
use crate::tally::ended::Ended;
use crate::tally::kinds::Kinds;
use rv_explain::names::{address_text, source_text};
use rv_explain::order::cause_words;
use rv_explain::symbol_table::SymbolTable;
use rv_memory::store::NoMemory;
use std::alloc::Global;
use std::str;

/// A way in which harts ended, or all ways of a kind that have no row of their own.
#[derive(Clone, Copy)]
pub enum Ways {
    One(End),
    OtherExits,
    OtherStops,
    OtherWaits,
}

/// How many harts ended so.
#[derive(Clone, Copy)]
pub struct EndedRow {
    pub ways: Ways,
    pub harts: u64,
}

/// Adds a row, where there are any harts.
fn push_if(rows: &mut Vec<EndedRow>, ways: Ways, harts: u64) -> Result<(), NoMemory>
    ensures { OnOk result (rows.new.items ≡ rows.old.items ++ spec.row_if ways harts) }
{
    if harts > 0 {
        rows.push(EndedRow { ways, harts })?;
    }
    Ok(())
}

/// Adds a row of each way that has one, and one of the others.
fn push_kinds(rows: &mut Vec<EndedRow>, kinds: &Kinds, others: Ways) -> Result<(), NoMemory>
    ensures { OnOk result (rows.new.items ≡ rows.old.items ++ spec.kind_rows kinds.now others) }
{
    for kind in kinds.told() {
        rows.push(EndedRow {
            ways: Ways::One(kind.end),
            harts: kind.count,
        })?;
    }
    push_if(rows, others, kinds.rest())
}

/// How harts ended: exits by code, then traps by cause and address, then those that waited for ever, then those that had no steps
/// left.
pub fn ended_rows(alloc: Global, ended: &Ended) -> Result<Vec<EndedRow>, NoMemory>
    ensures { IfOk result (λ rows. rows.items ≡ spec.ended_rows ended.now) }
{
    let mut rows = Vec::new(alloc);
    push_kinds(&mut rows, ended.exits(), Ways::OtherExits)?;
    push_kinds(&mut rows, ended.stops(), Ways::OtherStops)?;
    push_kinds(&mut rows, ended.waits(), Ways::OtherWaits)?;
    push_if(&mut rows, Ways::One(End::OutOfSteps), ended.out_of_steps())?;
    Ok(rows)
}

/// In which way harts ended.
pub fn ways_words(alloc: Global, symbols: &SymbolTable, ways: Ways) -> Result<String, NoMemory> {
    match ways {
        Ways::One(End::Exited(code)) => Ok(format!(in alloc; "exited {code:08x}")?),
        Ways::One(End::Stopped(cause, pc)) => {
            let words = cause_words(cause);
            let source = source_text(alloc, symbols, pc)?;
            Ok(format!(in alloc; "stopped by {words} at {pc:08x}{source}")?)
        }
        Ways::One(End::Polls(pc)) => {
            let place = address_text(alloc, symbols, pc)?;
            let words = str::from_utf8(&place).unwrap_or("");
            let source = source_text(alloc, symbols, pc)?;
            Ok(format!(in alloc; "waiting at {words}{source}")?)
        }
        Ways::One(End::Idle) => Ok(format!(in alloc; "idle")?),
        Ways::One(End::Parked) => Ok(format!(in alloc; "parked")?),
        Ways::One(End::OutOfSteps) => Ok(format!(in alloc; "out of steps")?),
        Ways::OtherExits => Ok(format!(in alloc; "exited otherwise")?),
        Ways::OtherStops => Ok(format!(in alloc; "stopped otherwise")?),
        Ways::OtherWaits => Ok(format!(in alloc; "waiting elsewhere")?),
    }
}
