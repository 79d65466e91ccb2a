//! What a hunt came to, or what its table has, as JSON: one object, for other programs.
//!
//! It has the values of the text and the page, from the same functions. `specs/HuntObject.antt` has which of its members are told.
ghost use Rattle.std.specs.Prelude.{◌≡◌, ◌≤◌, [], length, IfOk};
ghost use Rattle.rv_object.specs.HuntObject as spec;
ghost use Rattle.rv_json.specs.Object.{IsObject};

use crate::ended::ended_at;
use crate::given::given_at;
use crate::near::near_at;
use crate::races::{Races, races_at};
use crate::seen::seen_at;
use crate::stuck::stuck_at;
use crate::sums::{hunt_sums, sums_at, table_sums};
use crate::warnings::{tabled_warnings, warnings_at};
use rv_explain::object::head::{Head, head_members};
use rv_explain::symbol_table::SymbolTable;
use rv_json::object::Json;
use rv_memory::store::NoMemory;
use rv_report::key::Key;
use rv_shown::options::HuntOptions;
use rv_shown::outcome::{Outcome, Tabled};
use rv_shown::shown::{ShownOrder, ShownRace};
use rv_tables::row::RaceRow;
use std::alloc::Global;

/// What the object has beside what was found: the command, the options, the number of the first run, the digest of the image's file, and
/// the exit status, which there is none of while a hunt goes on.
#[derive(Clone, Copy)]
pub struct Beside<'a, 'b, 'c> {
    pub command: &'static str,
    pub options: &'a HuntOptions<'b, 'c>,
    pub first: u64,
    pub digest: &'a str,
    pub status: Option<u8>,
}

impl Beside<'_, '_, '_> {
    /// Whether all of the runs are made.
    fn is_complete(&self) -> bool {
        self.status.is_some()
    }

    /// Whether there is a folder that has the schedules, which are saved at the end.
    fn is_saved(&self) -> bool {
        self.is_complete() && self.options.line.folder.is_some()
    }

    fn status_at(&self, json: Json) -> Result<Json, NoMemory>
        ensures { IfOk result (λ more. more ≡ json) }
    {
        json.number_if("status", self.status.map(|status| u64::from(status)))
    }
}

/// What stands before the sums: what was asked for, and how many runs were made.
fn before_sums(json: Json, beside: &Beside<'_, '_, '_>, runs: u64) -> Result<Json, NoMemory>
    ensures { IfOk result (λ more. more ≡ json) }
{
    let line = &beside.options.line;
    let head = Head {
        is_complete: beside.is_complete(),
        version: line.version,
        path: line.path,
        digest: beside.digest,
        command: beside.command,
    };
    given_at(
        head_members(json, &head)?,
        beside.options,
        beside.first,
        runs,
    )
}

/// The stuck ends, whose runs are made again at the end.
fn stuck_if(
    json: Json,
    alloc: Global,
    symbols: &SymbolTable,
    outcome: &Outcome,
    beside: &Beside<'_, '_, '_>,
) -> Result<Json, NoMemory>
    ensures { IfOk result (λ more. more ≡ json) }
{
    if beside.is_complete() {
        stuck_at(json, alloc, symbols, outcome, beside.is_saved())
    } else {
        json.nothing_at("stuck")
    }
}

/// What stands behind them.
fn behind_races(
    json: Json,
    alloc: Global,
    symbols: &SymbolTable,
    outcome: &Outcome,
    beside: &Beside<'_, '_, '_>,
) -> Result<Json, NoMemory>
    ensures { IfOk result (λ more. more ≡ json) }
{
    let json = stuck_if(json, alloc, symbols, outcome, beside)?;
    let json = ended_at(json, alloc, symbols, outcome, beside.is_saved())?;
    let json = seen_at(json, outcome)?;
    let json = near_at(json, alloc, symbols, outcome)?;
    let json = warnings_at(json, alloc, symbols, outcome)?;
    beside.status_at(json)
}

/// The object of what a hunt came to. The races that are told stand in their order, the first of them in full.
pub fn object_text(
    alloc: Global,
    symbols: &SymbolTable,
    outcome: &Outcome,
    beside: &Beside<'_, '_, '_>,
    told: &[(Key, RaceRow)],
    shown: &[ShownRace],
    orders: &[ShownOrder],
) -> Result<Vec<u8>, NoMemory>
    ensures { IfOk result (λ text. IsObject text.items (spec.hunt_facts outcome.now told.now)) }
{
    let json = before_sums(Json::new(alloc).object()?, beside, outcome.saw.tally.runs())?;
    let json = sums_at(json, alloc, &hunt_sums(outcome))?;
    let races = Races {
        told,
        shown,
        orders,
        tried: &outcome.saw.orders,
        new: outcome.new,
    };
    let json = races_at(json, alloc, symbols, beside.options, &races)?;
    let json = behind_races(json, alloc, symbols, outcome, beside)?;
    json.end()?.finish()
}

/// The object of what a table has. What its runs saw but for races a table doesn't have.
pub fn tabled_object(
    alloc: Global,
    symbols: &SymbolTable,
    tabled: &Tabled<'_>,
    beside: &Beside<'_, '_, '_>,
    races: &Races<'_>,
) -> Result<Vec<u8>, NoMemory>
    ensures { IfOk result (λ text. IsObject text.items
        (spec.object_facts (spec.table_sums tabled.now.rows.now tabled.now.ignored.now tabled.now.runs) races.now.told.now)) }
{
    let json = before_sums(Json::new(alloc).object()?, beside, tabled.runs)?;
    let json = sums_at(json, alloc, &table_sums(tabled))?;
    let json = races_at(json, alloc, symbols, beside.options, races)?;
    let json = json.nothing_at("stuck")?.nothing_at("ended")?;
    let json = json.nothing_at("seen")?.nothing_at("near")?;
    let json = tabled_warnings(json, alloc, tabled)?;
    beside.status_at(json)?.end()?.finish()
}
