//! How the harts of all runs ended.
ghost use Rattle.std.specs.Prelude.{◌≡◌, IfOk};

use crate::schedules::{ENDED, schedule_name};
use rv_explain::object::places::place_at;
use rv_explain::order::cause_words;
use rv_explain::symbol_table::SymbolTable;
use rv_json::object::Json;
use rv_memory::store::NoMemory;
use rv_search::end::End;
use rv_search::ended::{EndedRow, Ways, ended_rows};
use rv_shown::outcome::Outcome;
use std::alloc::Global;

/// The word for ways of ending.
fn how_word(ways: Ways) -> &'static str {
    match ways {
        Ways::One(End::Exited(_)) | Ways::OtherExits => "exited",
        Ways::One(End::Stopped(_, _)) | Ways::OtherStops => "stopped",
        Ways::One(End::Polls(_)) | Ways::OtherWaits => "waiting",
        Ways::One(End::Idle) => "idle",
        Ways::One(End::Parked) => "parked",
        Ways::One(End::OutOfSteps) => "out of steps",
    }
}

/// The code, the cause and the address of a way of ending, where it has them.
fn way_members(
    json: Json,
    alloc: Global,
    symbols: &SymbolTable,
    ways: Ways,
) -> Result<Json, NoMemory>
    ensures { IfOk result (λ more. more ≡ json) }
{
    match ways {
        Ways::One(End::Exited(code)) => {
            let json = json.digits_at("code", code)?;
            json.nothing_at("cause")?.nothing_at("at")
        }
        Ways::One(End::Stopped(cause, pc)) => {
            let json = json.nothing_at("code")?;
            let json = json.text_at("cause", cause_words(cause))?;
            place_at(json, alloc, symbols, "at", pc)
        }
        Ways::One(End::Polls(pc)) => {
            let json = json.nothing_at("code")?.nothing_at("cause")?;
            place_at(json, alloc, symbols, "at", pc)
        }
        Ways::One(End::Idle)
        | Ways::One(End::Parked)
        | Ways::One(End::OutOfSteps)
        | Ways::OtherExits
        | Ways::OtherStops
        | Ways::OtherWaits => {
            let json = json.nothing_at("code")?.nothing_at("cause")?;
            json.nothing_at("at")
        }
    }
}

/// A way of ending: the line of that number.
fn ended_object(
    json: Json,
    alloc: Global,
    symbols: &SymbolTable,
    number: u64,
    row: &EndedRow,
    run: Option<u32>,
    has_folder: bool,
) -> Result<Json, NoMemory>
    ensures { IfOk result (λ more. more ≡ json) }
{
    let name = schedule_name(alloc, ENDED, number, has_folder && run.is_some())?;
    let json = json.object()?.text_at("how", how_word(row.ways))?;
    let json = way_members(json, alloc, symbols, row.ways)?;
    let json = json.number_at("harts", row.harts)?;
    let json = json.number_if("first_run", run.map(|run| u64::from(run)))?;
    json.text_if("schedule", name.as_deref())?.end()
}

fn ended_objects(
    json: Json,
    alloc: Global,
    symbols: &SymbolTable,
    outcome: &Outcome,
    rows: &[EndedRow],
    has_folder: bool,
) -> Result<Json, NoMemory>
    ensures { IfOk result (λ more. more ≡ json) }
{
    let mut json = json;
    for (n, row) in rows.iter().enumerate() {
        let number = n as u64 + 1;
        let run = outcome.ends.run_of(row.ways);
        json = ended_object(json, alloc, symbols, number, row, run, has_folder)?;
    }
    Ok(json)
}

/// How harts ended, and in which run first.
pub(crate) fn ended_at(
    json: Json,
    alloc: Global,
    symbols: &SymbolTable,
    outcome: &Outcome,
    has_folder: bool,
) -> Result<Json, NoMemory>
    ensures { IfOk result (λ more. more ≡ json) }
{
    let rows = ended_rows(alloc, outcome.saw.tally.ended())?;
    let json = json.array_at("ended")?;
    ended_objects(json, alloc, symbols, outcome, &rows, has_folder)?.end()
}
