//! What `explain` shows as JSON: one object, for other programs, with the values of the text.
ghost use Rattle.std.specs.Prelude.{◌≡◌, IfOk};
ghost use Rattle.rv_engines.specs.Explains.{IsAnObject};
ghost use Rattle.rv_engines.specs.internal.ExplainObject as spec;

use crate::explain::options::About;
use rv_collide::ending::Verdict;
use rv_explain::block::{Block, RaceClass};
use rv_explain::object::head::{Head, head_members};
use rv_explain::object::known::known_as;
use rv_explain::object::order::OrderSaid;
use rv_explain::object::race::{
    AccessSaid, MetSaid, RaceSaid, class_name, names_other, race_object, side_said,
};
use rv_explain::object::stuck::{StuckMet, stuck_object};
use rv_explain::order::{CopyText, OrderTrials, copies_of};
use rv_explain::races::RunRaces;
use rv_explain::stuck::StuckBlock;
use rv_explain::symbol_table::SymbolTable;
use rv_faults::source_lines::MISS_WORDS;
use rv_json::object::Json;
use rv_memory::store::NoMemory;
use rv_report::key::key_of;
use std::alloc::Global;
use std::str;

/// What is told of a run: its races, the blocks that are shown with what the orders of their accesses make, the number of the first of
/// them, how many harts it has, its stuck end, if it has one that is told, and whether the source lines have no frame of the image.
#[derive(Clone, Copy)]
pub(crate) struct Explained<'a> {
    pub(crate) found: &'a RunRaces,
    pub(crate) blocks: &'a [Block],
    pub(crate) orders: &'a [Option<OrderTrials>],
    pub(crate) first: u64,
    pub(crate) harts: u8,
    pub(crate) stuck: Option<&'a StuckBlock>,
    pub(crate) misses: bool,
}

/// A class's members count.
fn count_of(class: RaceClass, found: &RunRaces) -> u64 {
    found
        .races
        .iter()
        .filter(|race| class_name(race.told.class) == class_name(class))
        .count() as u64
}

/// How many races are of a class.
fn class_at(json: Json, class: RaceClass, found: &RunRaces) -> Result<Json, NoMemory>
    ensures { IfOk result (λ more. more ≡ json) }
{
    json.number_at(class_name(class), count_of(class, found))
}

/// How many races are of each class.
fn classes_at(json: Json, found: &RunRaces) -> Result<Json, NoMemory>
    ensures { IfOk result (λ more. more ≡ json) }
{
    let json = json.object_at("by_class")?;
    let json = class_at(json, RaceClass::Kept, found)?;
    let json = class_at(json, RaceClass::Counter, found)?;
    let json = class_at(json, RaceClass::Unwatched, found)?;
    let json = class_at(json, RaceClass::Flag, found)?;
    let json = class_at(json, RaceClass::Ordered, found)?;
    let json = class_at(json, RaceClass::Atomic, found)?;
    class_at(json, RaceClass::Named, found)?.end()
}

/// The sums of the run.
fn sums_at(json: Json, found: &RunRaces) -> Result<Json, NoMemory>
    ensures { IfOk result (λ more. more ≡ json) }
{
    let json = json.object_at("sums")?;
    let json = json.number_at("races", found.races.len() as u64)?;
    let json = json.nothing_at("benign")?.nothing_at("unwatched")?;
    let json = json.number_at("reports", found.reports)?;
    let json = json.number_at("endings", found.endings)?;
    let json = json.nothing_at("runs")?;
    let json = classes_at(json, found)?;
    json.nothing_at("ignored")?.nothing_at("named")?.end()
}

/// The other access of a block, where it names one.
fn other_said(block: &Block) -> Option<AccessSaid> {
    if names_other(block) {
        Some(side_said(&block.other, block.second))
    } else {
        None
    }
}

/// Whether a race of the class is likely benign, as `hunt` counts it.
fn is_benign(class: RaceClass) -> bool {
    matches!(
        class,
        RaceClass::Flag | RaceClass::Ordered | RaceClass::Atomic
    )
}

/// What is written of the race of a block.
fn said_of<'a, 'b>(
    number: u64,
    harts: u8,
    block: &'b Block,
    order: Option<OrderSaid<'a>>,
    known_as: &'a str,
) -> RaceSaid<'a, 'b> {
    let told = &block.ending;
    RaceSaid {
        number,
        class: block.class,
        is_benign: is_benign(block.class),
        is_new: None,
        reports: block.reports,
        known_as,
        order,
        address: Some(told.access.first),
        paused: side_said(&block.paused, told.paused_at),
        other: other_said(block),
        before: told.old,
        before_entry: told.paused_at,
        after: told.new,
        after_entry: Some(told.resumed_at),
        met: MetSaid {
            run: None,
            part: None,
            harts,
            ending: Some(block.number),
        },
        schedule: None,
        block: Some(block),
    }
}

/// What the order of the accesses makes, where it was tried.
fn order_said<'a>(order: Option<&OrderTrials>, copies: &'a [CopyText]) -> Option<OrderSaid<'a>> {
    let order = order?;
    Some(OrderSaid {
        counts: order.counts(),
        sc_fails: order.sc_fails,
        copies,
        schedules: None,
    })
}

/// The two copies of the first trial by which harts end otherwise, where there is one.
fn copies_if(
    alloc: Global,
    symbols: &SymbolTable,
    block: &Block,
    order: Option<&OrderTrials>,
) -> Result<Vec<CopyText>, NoMemory> {
    match order {
        Some(order) => copies_of(alloc, symbols, block, order),
        None => Ok(Vec::new(alloc)),
    }
}

/// How a list names the race of a block.
fn name_of(alloc: Global, symbols: &SymbolTable, block: &Block) -> Result<Vec<u8>, NoMemory> {
    let told = &block.ending;
    let pc = told.access.pc;
    let (first, second) = match key_of(told) {
        Some(key) => (key.first, key.second),
        None => (pc, None),
    };
    known_as(alloc, symbols, first, second, Some(told.access.first))
}

/// The race of a block.
fn race_at(
    json: Json,
    alloc: Global,
    symbols: &SymbolTable,
    number: u64,
    harts: u8,
    block: &Block,
    order: Option<&OrderTrials>,
) -> Result<Json, NoMemory>
    ensures { IfOk result (λ more. spec.GoesOn json more) }
{
    let copies = copies_if(alloc, symbols, block, order)?;
    let name = name_of(alloc, symbols, block)?;
    let known_as = str::from_utf8(&name).unwrap_or("");
    let said = said_of(number, harts, block, order_said(order, &copies), known_as);
    race_object(json, alloc, symbols, &said)
}

/// The races whose blocks are shown.
fn race_objects(
    json: Json,
    alloc: Global,
    symbols: &SymbolTable,
    of: &Explained<'_>,
) -> Result<Json, NoMemory>
    ensures { IfOk result (λ more. spec.GoesOn json more) }
{
    let mut json = json;
    for (n, block) in of.blocks.iter().enumerate() {
        let number = of.first.saturating_add(n as u64);
        let order = match of.orders.get(n) {
            Some(Some(order)) => Some(order),
            _ => None,
        };
        json = race_at(json, alloc, symbols, number, of.harts, block, order)?;
    }
    Ok(json)
}

/// The races.
fn races_at(
    json: Json,
    alloc: Global,
    symbols: &SymbolTable,
    of: &Explained<'_>,
) -> Result<Json, NoMemory>
    ensures { IfOk result (λ more. spec.GoesOn json more) }
{
    race_objects(json.array_at("races")?, alloc, symbols, of)?.end()
}

/// The stuck end, where one is told.
fn stuck_if(
    json: Json,
    alloc: Global,
    symbols: &SymbolTable,
    stuck: Option<&StuckBlock>,
) -> Result<Json, NoMemory>
    ensures { IfOk result (λ more. more ≡ json) }
{
    let Some(block) = stuck else {
        return Ok(json);
    };
    let met = StuckMet {
        walks: None,
        probes: None,
        run: None,
        part: None,
        steps: u64::from(block.steps),
    };
    stuck_object(json, alloc, symbols, 1, &met, block, None)
}

/// The warning that the source lines have no frame of the image, where they have none.
fn warning_if(json: Json, misses: bool) -> Result<Json, NoMemory>
    ensures { IfOk result (λ more. more ≡ json) }
{
    if misses {
        json.text(MISS_WORDS)
    } else {
        Ok(json)
    }
}

/// What stands behind the races.
fn behind_races(
    json: Json,
    alloc: Global,
    symbols: &SymbolTable,
    of: &Explained<'_>,
) -> Result<Json, NoMemory>
    ensures { IfOk result (λ more. more ≡ json) }
{
    let json = json.array_at("stuck")?;
    let json = stuck_if(json, alloc, symbols, of.stuck)?.end()?;
    let json = json.nothing_at("ended")?.nothing_at("seen")?;
    let json = json.nothing_at("near")?.array_at("warnings")?;
    warning_if(json, of.misses)?.end()?.number_at("status", 0)
}

/// The object of what is shown of a run.
pub(crate) fn object_text(
    alloc: Global,
    symbols: &SymbolTable,
    about: &About<'_>,
    digest: &str,
    of: &Explained<'_>,
) -> Result<Vec<u8>, NoMemory>
    ensures { IfOk result (λ text. IsAnObject text.items) }
{
    let head = Head {
        is_complete: true,
        version: about.version,
        path: about.path,
        digest,
        command: "explain",
    };
    let json = head_members(Json::new(alloc).object()?, &head)?;
    let json = sums_at(json.nothing_at("options")?, of.found)?;
    let json = races_at(json, alloc, symbols, of)?;
    behind_races(json, alloc, symbols, of)?.end()?.finish()
}
