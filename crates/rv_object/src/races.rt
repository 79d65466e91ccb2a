//! The races of a hunt or of its table: each by its row, and the first of them in full.
ghost use Rattle.std.specs.Prelude.{◌≡◌, option_map, IfOk};
ghost use Rattle.rv_explain.specs.RaceObject.{told_of};
ghost use Rattle.rv_object.specs.HuntObject as spec;

use crate::schedules::{FIRST, RACE, SECOND, schedule_name};
use rv_explain::block::Side;
use rv_explain::object::order::{CopyNames, OrderSaid};
use rv_explain::object::race::{AccessSaid, Beside, MetSaid, RaceSaid, race_object};
use rv_explain::order::CopyText;
use rv_explain::symbol_table::SymbolTable;
use rv_hart::access::Access;
use rv_json::object::Json;
use rv_memory::store::NoMemory;
use rv_report::key::Key;
use rv_shown::options::HuntOptions;
use rv_shown::saying::orders::{counts_of, shown_copies};
use rv_shown::saying::unexpected::is_among;
use rv_shown::shown::{ShownOrder, ShownRace};
use rv_tables::expected::is_likely_benign;
use rv_tables::merge::listing::known_as;
use rv_tables::orders::OrderTable;
use rv_tables::row::{Accesses, RaceRow};
use std::alloc::Global;
use std::str;

/// The races that are told one by one, in their order: the first of them in full, with their orders; what came of all orders that were tried;
/// and which races are new.
#[derive(Clone, Copy)]
pub struct Races<'a> {
    pub told: &'a [(Key, RaceRow)],
    pub shown: &'a [ShownRace],
    pub orders: &'a [ShownOrder],
    pub tried: &'a OrderTable,
    pub new: &'a [(Key, RaceRow)],
}

/// The texts of a race, which are made before it is written: how a list names it, the two copies of its trial, and the names of its
/// schedules.
#[derive(Drop)]
struct RaceTexts {
    known_as: Vec<u8>,
    copies: Vec<CopyText>,
    schedule: Option<String>,
    first: Option<String>,
    second: Option<String>,
}

/// A race by its number and its row, and what is shown of it in full.
#[derive(Clone, Copy)]
struct Told<'a> {
    number: u64,
    race: &'a (Key, RaceRow),
    shown: Option<&'a ShownRace>,
    order: Option<&'a ShownOrder>,
    is_new: Option<bool>,
    harts: u8,
}

fn texts_of(
    alloc: Global,
    symbols: &SymbolTable,
    told: &Told<'_>,
    has_folder: bool,
) -> Result<RaceTexts, NoMemory> {
    let copies = match told.order {
        Some(order) => shown_copies(alloc, symbols, order)?,
        None => Vec::new(alloc),
    };
    let number = told.number;
    let is_saved = has_folder && told.shown.is_some();
    let has_copies = has_folder && copies.len() == 2;
    Ok(RaceTexts {
        known_as: known_as(alloc, symbols, told.race)?,
        copies,
        schedule: schedule_name(alloc, RACE, number, is_saved)?,
        first: schedule_name(alloc, FIRST, number, has_copies)?,
        second: schedule_name(alloc, SECOND, number, has_copies)?,
    })
}

/// The names of the schedules of both copies, where they are saved.
fn copy_names(texts: &RaceTexts) -> Option<CopyNames<'_>> {
    match (&texts.first, &texts.second) {
        (Some(first), Some(second)) => Some(CopyNames {
            first: first.as_str(),
            second: second.as_str(),
        }),
        _ => None,
    }
}

/// What the order of the accesses makes, where it was tried.
fn order_said<'a>(
    orders: &OrderTable,
    told: &Told<'_>,
    texts: &'a RaceTexts,
) -> Option<OrderSaid<'a>> {
    let row = orders.row(&told.race.0)?;
    let sc_fails = match told.order {
        Some(order) => fails_in(order),
        None => false,
    };
    Some(OrderSaid {
        counts: counts_of(&row),
        sc_fails,
        copies: &texts.copies,
        schedules: copy_names(texts),
    })
}

/// Whether an SC fails in the trial that is shown.
fn fails_in(order: &ShownOrder) -> bool {
    match &order.made {
        Some(made) => made.order.sc_fails,
        None => false,
    }
}

/// An access by its instruction alone.
fn plain_side(pc: u32, access: Option<Access>) -> AccessSaid
    ensures { result.pc ≡ pc }
{
    AccessSaid {
        pc,
        access,
        beside: None,
    }
}

/// The access of the paused hart by a race's row; by a row that was read from a table its first instruction.
fn paused_of(race: &(Key, RaceRow)) -> AccessSaid
    ensures { result.pc ≡ spec.paused_pc race.now }
{
    match race.1.accesses {
        Some(Accesses { paused, .. }) => plain_side(paused.pc, Some(paused)),
        None => plain_side(race.0.first, None),
    }
}

/// The other access by a race's row, where one is known.
fn other_of(race: &(Key, RaceRow)) -> Option<AccessSaid>
    ensures { option_map (λ side. side.pc) result ≡ spec.other_pc race.now }
{
    match race.1.accesses {
        Some(Accesses { other, .. }) => {
            let access = other?;
            Some(plain_side(access.pc, Some(access)))
        }
        None => Some(plain_side(race.0.second?, None)),
    }
}

/// The same with what a block shows of it.
fn with_side(said: AccessSaid, side: &Side, entry: u32) -> AccessSaid
    ensures { result.pc ≡ said.pc }
{
    AccessSaid {
        pc: said.pc,
        access: Some(side.access),
        beside: Some(Beside {
            hart: side.hart,
            word: side.word,
            entry,
            caller: side.caller,
        }),
    }
}

fn paused_said(race: &(Key, RaceRow), shown: Option<&ShownRace>) -> AccessSaid
    ensures { result.pc ≡ spec.paused_pc race.now }
{
    let said = paused_of(race);
    match shown {
        Some(ShownRace { block, .. }) => with_side(said, &block.paused, block.ending.paused_at),
        None => said,
    }
}

fn other_said(race: &(Key, RaceRow), shown: Option<&ShownRace>) -> Option<AccessSaid>
    ensures { option_map (λ side. side.pc) result ≡ spec.other_pc race.now }
{
    let said = other_of(race)?;
    match shown {
        Some(ShownRace { block, .. }) => Some(with_side(said, &block.other, block.second)),
        None => Some(said),
    }
}

/// Where a race was first met.
fn met_of(told: &Told<'_>) -> MetSaid {
    let row = &told.race.1;
    let part = match row.part {
        0 => None,
        part => Some(part),
    };
    MetSaid {
        run: Some(row.run),
        part,
        harts: told.harts,
        ending: told.shown.map(|shown| shown.block.number),
    }
}

/// What is written of a race.
fn said_of<'a, 'b>(
    told: &Told<'b>,
    order: Option<OrderSaid<'a>>,
    texts: &'a RaceTexts,
) -> RaceSaid<'a, 'b>
    ensures { told_of result ≡ spec.told_row told.now.number told.now.race.now }
{
    let row = &told.race.1;
    RaceSaid {
        number: told.number,
        class: row.class,
        is_benign: is_likely_benign(row.class),
        is_new: told.is_new,
        reports: row.count,
        known_as: str::from_utf8(&texts.known_as).unwrap_or(""),
        order,
        address: row.address,
        paused: paused_said(told.race, told.shown),
        other: other_said(told.race, told.shown),
        before: row.old,
        before_entry: row.entry,
        after: row.new,
        after_entry: told.shown.map(|shown| shown.block.ending.resumed_at),
        met: met_of(told),
        schedule: texts.schedule.as_deref(),
        block: told.shown.map(|shown| &shown.block),
    }
}

/// A race.
fn race_at(
    json: Json,
    alloc: Global,
    symbols: &SymbolTable,
    orders: &OrderTable,
    told: &Told<'_>,
    has_folder: bool,
) -> Result<Json, NoMemory>
    ensures { IfOk result (λ more. more ≡ record json { facts = spec.row_facts told.now.number told.now.race.now json.facts }) }
{
    let texts = texts_of(alloc, symbols, told, has_folder)?;
    let order = order_said(orders, told, &texts);
    race_object(json, alloc, symbols, &said_of(told, order, &texts))
}

/// How many harts the run of a race has.
fn harts_of(options: &HuntOptions<'_, '_>, row: &RaceRow, shown: Option<&ShownRace>) -> u8 {
    match shown {
        Some(shown) => shown.harts,
        None => options.plans.plan(row.run).harts,
    }
}

/// Whether a race is new, where some are expected.
fn new_if(options: &HuntOptions<'_, '_>, races: &Races<'_>, key: &Key) -> Option<bool> {
    if options.line.said.expect.is_some() {
        Some(is_among(races.new, key))
    } else {
        None
    }
}

/// The races, from number 1 on.
fn all_races(
    json: Json,
    alloc: Global,
    symbols: &SymbolTable,
    options: &HuntOptions<'_, '_>,
    races: &Races<'_>,
    told: &[(Key, RaceRow)],
) -> Result<Json, NoMemory>
    ensures { IfOk result (λ more. more ≡ record json { facts = spec.rows_facts_from 1 told.now json.facts }) }
{
    let has_folder = options.line.folder.is_some();
    let mut json = json;
    for (n, race) in told.iter().enumerate() {
        let shown = races.shown.get(n);
        let one = Told {
            number: n as u64 + 1,
            race,
            shown,
            order: races.orders.get(n),
            is_new: new_if(options, races, &race.0),
            harts: harts_of(options, &race.1, shown),
        };
        json = race_at(json, alloc, symbols, races.tried, &one, has_folder)?;
    }
    Ok(json)
}

/// The races that are told one by one, in their order.
pub(crate) fn races_at(
    json: Json,
    alloc: Global,
    symbols: &SymbolTable,
    options: &HuntOptions<'_, '_>,
    races: &Races<'_>,
) -> Result<Json, NoMemory>
    ensures { IfOk result (λ more. more ≡ record json { facts = spec.races_facts races.now.told.now json.facts }) }
{
    let json = json.array_told("races")?;
    all_races(json, alloc, symbols, options, races, races.told)?.end()
}
