//! The sums of a hunt, or of its table.
ghost use Rattle.std.specs.Prelude.{◌≡◌, codes, count_by, IfOk};
ghost use Rattle.rv_object.specs.HuntObject as spec;
ghost use Rattle.rv_shown.specs.ToldOrder as order;

use rv_explain::block::RaceClass;
use rv_explain::object::race::class_name;
use rv_json::object::Json;
use rv_memory::store::NoMemory;
use rv_report::key::Key;
use rv_shown::outcome::{Outcome, Tabled};
use rv_shown::saying::order::{benign, bugs, is_of, of_class, reports_of, unwatched};
use rv_tables::row::RaceRow;
use std::alloc::Global;

/// What the sums are of: the races as they are shown, those that are ignored, and how many reports, endings and runs there are. Of a table
/// the endings aren't known.
#[derive(Clone, Copy)]
pub(crate) struct Sums<'a> {
    pub(crate) races: &'a [(Key, RaceRow)],
    pub(crate) ignored: &'a [(Key, RaceRow)],
    pub(crate) reports: u64,
    pub(crate) endings: Option<u64>,
    pub(crate) runs: u64,
}

/// What the sums of a hunt are of.
pub(crate) fn hunt_sums<'a>(outcome: &Outcome<'a>) -> Sums<'a>
    ensures { spec.sums_in result ≡ spec.hunt_sums outcome.now }
{
    let saw = &outcome.saw.tally;
    let counts = saw.counts();
    Sums {
        races: outcome.races,
        ignored: outcome.ignored,
        reports: counts.hit.saturating_add(counts.changed),
        endings: Some(saw.pauses()),
        runs: saw.runs(),
    }
}

/// What the sums of a table are of.
pub(crate) fn table_sums<'a>(tabled: &Tabled<'a>) -> Sums<'a>
    ensures { spec.sums_in result ≡ spec.table_sums tabled.now.rows.now tabled.now.ignored.now tabled.now.runs }
{
    Sums {
        races: tabled.rows,
        ignored: tabled.ignored,
        reports: reports_of(tabled.rows).saturating_add(reports_of(tabled.ignored)),
        endings: None,
        runs: tabled.runs,
    }
}

/// How many races are of a class.
fn count_of(class: RaceClass, rows: &[(Key, RaceRow)]) -> u64
    ensures { result ≡ count_by (order.is_of class) rows.now }
{
    rows.iter().filter(|row| is_of(class, row)).count() as u64
}

/// How many races are of a class, by its word.
fn class_told(json: Json, class: RaceClass, rows: &[(Key, RaceRow)]) -> Result<Json, NoMemory>
    ensures { IfOk result (λ more. more ≡ record json { facts = spec.class_facts rows.now class json.facts }) }
{
    json.number_told(class_name(class), count_of(class, rows))
}

/// How many races are of each class.
fn classes_told(json: Json, rows: &[(Key, RaceRow)]) -> Result<Json, NoMemory>
    ensures { IfOk result (λ more. more ≡ record json { facts = spec.classes_facts rows.now json.facts }) }
{
    let json = json.object_told("by_class")?;
    let json = class_told(json, RaceClass::Kept, rows)?;
    let json = class_told(json, RaceClass::Counter, rows)?;
    let json = class_told(json, RaceClass::Unwatched, rows)?;
    let json = class_told(json, RaceClass::Flag, rows)?;
    let json = class_told(json, RaceClass::Ordered, rows)?;
    let json = class_told(json, RaceClass::Atomic, rows)?;
    class_told(json, RaceClass::Named, rows)?.end()
}

/// How many reports and races were counted and not shown.
fn apart_told(json: Json, name: &'static str, rows: &[(Key, RaceRow)]) -> Result<Json, NoMemory>
    ensures { IfOk result (λ more. more ≡ record json { facts = spec.apart_facts name.now rows.now json.facts }) }
{
    let json = json.object_told(name)?;
    let json = json.number_told("races", rows.len() as u64)?;
    json.number_told("reports", reports_of(rows))?.end()
}

/// How many endings there are, where that is known.
fn endings_told(json: Json, endings: Option<u64>) -> Result<Json, NoMemory>
    ensures { IfOk result (λ more. more ≡ record json { facts = spec.endings_facts endings json.facts }) }
{
    match endings {
        Some(endings) => json.number_told("endings", endings),
        None => json.nothing_told("endings"),
    }
}

/// The races and reports of all runs.
fn first_sums(json: Json, sums: &Sums<'_>) -> Result<Json, NoMemory>
    ensures { IfOk result (λ more. more ≡ record json { facts = spec.first_sums_facts (spec.sums_in sums.now) json.facts }) }
{
    let json = json.number_told("races", bugs(sums.races))?;
    let json = json.number_told("benign", benign(sums.races))?;
    let json = json.number_told("unwatched", unwatched(sums.races))?;
    let json = json.number_told("reports", sums.reports)?;
    endings_told(json, sums.endings)?.number_told("runs", sums.runs)
}

/// The sums.
#[tactic(auto, unfolding(crate::specs::HuntObject::sums_facts))]
pub(crate) fn sums_at(json: Json, alloc: Global, sums: &Sums<'_>) -> Result<Json, NoMemory>
    ensures { IfOk result (λ more. more ≡ record json { facts = spec.sums_facts (spec.sums_in sums.now) json.facts }) }
{
    let named = of_class(alloc, sums.races, RaceClass::Named)?;
    let json = first_sums(json.object_told("sums")?, sums)?;
    let json = classes_told(json, sums.races)?;
    let json = apart_told(json, "ignored", sums.ignored)?;
    apart_told(json, "named", &named)?.end()
}
