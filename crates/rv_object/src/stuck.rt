//! The stuck ends of a hunt that are shown.
ghost use Rattle.std.specs.Prelude.{◌≡◌, IfOk};

use crate::schedules::{STUCK, schedule_name};
use rv_explain::object::stuck::{StuckMet, stuck_object};
use rv_explain::symbol_table::SymbolTable;
use rv_json::object::Json;
use rv_memory::store::NoMemory;
use rv_shown::outcome::Outcome;
use rv_shown::shown::ShownStuck;
use std::alloc::Global;

/// How often and where a stuck end was met.
fn met_of(shown: &ShownStuck) -> StuckMet {
    let row = &shown.row;
    let part = match row.part {
        0 => None,
        part => Some(part),
    };
    StuckMet {
        walks: Some(row.walks),
        probes: Some(row.probes),
        run: Some(row.run),
        part,
        steps: row.steps,
    }
}

fn stuck_ends(
    json: Json,
    alloc: Global,
    symbols: &SymbolTable,
    all: &[ShownStuck],
    has_folder: bool,
) -> Result<Json, NoMemory>
    ensures { IfOk result (λ more. more ≡ json) }
{
    let mut json = json;
    for (n, shown) in all.iter().enumerate() {
        let number = n as u64 + 1;
        let name = schedule_name(alloc, STUCK, number, has_folder)?;
        let met = met_of(shown);
        json = stuck_object(
            json,
            alloc,
            symbols,
            number,
            &met,
            &shown.block,
            name.as_deref(),
        )?;
    }
    Ok(json)
}

/// The stuck ends.
pub(crate) fn stuck_at(
    json: Json,
    alloc: Global,
    symbols: &SymbolTable,
    outcome: &Outcome,
    has_folder: bool,
) -> Result<Json, NoMemory>
    ensures { IfOk result (λ more. more ≡ json) }
{
    let json = json.array_at("stuck")?;
    stuck_ends(json, alloc, symbols, &outcome.stuck.shown, has_folder)?.end()
}
