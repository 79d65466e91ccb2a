//! A race as JSON.
ghost use Rattle.std.specs.Prelude.{◌≡◌, codes, option_map, IfOk};
ghost use Rattle.rv_races.specs.Classes.{class_word};
ghost use Rattle.rv_explain.specs.RaceObject as spec;

use crate::block::{Block, RaceClass, Side};
use crate::instruction::instruction_line;
use crate::object::entries::entries_at;
use crate::object::order::{OrderSaid, order_at};
use crate::object::places::{caller_at, place_told, place_told_if};
use rv_collide::ending::Verdict;
use rv_hart::access::Access;
use rv_json::object::Json;
use rv_memory::store::NoMemory;
use rv_symbols::symbol_table::SymbolTable;
use std::alloc::Global;

/// One of the two accesses of a race that is shown in full: its hart, the word at its instruction, its place among the entries, and
/// where its function returns to.
#[derive(Clone, Copy)]
pub struct Beside {
    pub hart: u8,
    pub word: Option<u32>,
    pub entry: u32,
    pub caller: Option<u32>,
}

/// One of the two accesses of a race: its instruction, the access, where that is known, and the rest, where the race is shown in full.
#[derive(Clone, Copy)]
pub struct AccessSaid {
    pub pc: u32,
    pub access: Option<Access>,
    pub beside: Option<Beside>,
}

/// Where a race was first met: its run and part, how many harts that has, and the number of its ending.
#[derive(Clone, Copy)]
pub struct MetSaid {
    pub run: Option<u32>,
    pub part: Option<u32>,
    pub harts: u8,
    pub ending: Option<u32>,
}

/// What is written of a race. `known_as` is how a list names it, `is_new` stands where some are expected, and `block` where it is shown in full.
#[derive(Clone, Copy)]
pub struct RaceSaid<'a, 'b> {
    pub number: u64,
    pub class: RaceClass,
    pub is_benign: bool,
    pub is_new: Option<bool>,
    pub reports: u64,
    pub known_as: &'a str,
    pub order: Option<OrderSaid<'a>>,
    pub address: Option<u32>,
    pub paused: AccessSaid,
    pub other: Option<AccessSaid>,
    pub before: u32,
    pub before_entry: u32,
    pub after: u32,
    pub after_entry: Option<u32>,
    pub met: MetSaid,
    pub schedule: Option<&'a str>,
    pub block: Option<&'b Block>,
}

/// The word of a class.
pub fn class_name(class: RaceClass) -> &'static str
    ensures { result.now ≡ class_word class }
{
    match class {
        RaceClass::Kept => "kept",
        RaceClass::Counter => "counter",
        RaceClass::Unwatched => "unwatched",
        RaceClass::Flag => "flag",
        RaceClass::Ordered => "ordered",
        RaceClass::Atomic => "atomic",
        RaceClass::Named => "named",
    }
}

/// A side of a block, with its place among the entries.
pub fn side_said(side: &Side, entry: u32) -> AccessSaid
    ensures { result.pc ≡ side.now.access.pc }
{
    AccessSaid {
        pc: side.access.pc,
        access: Some(side.access),
        beside: Some(Beside {
            hart: side.hart,
            word: side.word,
            entry,
            caller: side.caller,
        }),
    }
}

/// Whether a block names the other access: that of a change is its last store, which may be none.
pub fn names_other(block: &Block) -> bool {
    match block.ending.verdict {
        Verdict::Hit(_) => true,
        Verdict::Changed | Verdict::Quiet => block.second != block.ending.paused_at,
    }
}

/// What an access does to its bytes.
fn kind_word(access: &Access) -> &'static str {
    match (access.read, access.write) {
        (true, true) => "load and store",
        (false, true) => "store",
        (_, false) => "load",
    }
}

/// What an access does, to how many bytes, and where, as far as that is known.
fn kind_members(json: Json, access: Option<Access>, is_in_full: bool) -> Result<Json, NoMemory>
    ensures { IfOk result (λ more. more ≡ json) }
{
    let Some(access) = access else {
        let json = json.nothing_at("kind")?.nothing_at("bytes")?;
        return json.nothing_at("address");
    };
    let json = json.text_at("kind", kind_word(&access))?;
    let json = json.number_at("bytes", u64::from(access.size))?;
    let address = if is_in_full { Some(access.first) } else { None };
    json.digits_if("address", address)
}

/// An instruction as text, where its word could be read.
pub(crate) fn instruction_at(
    json: Json,
    alloc: Global,
    address: u32,
    word: Option<u32>,
) -> Result<Json, NoMemory>
    ensures { IfOk result (λ more. more ≡ json) }
{
    match word {
        Some(word) => {
            let line = instruction_line(alloc, word, address)?;
            json.text_at("instruction", line.as_str())
        }
        None => json.nothing_at("instruction"),
    }
}

/// What stands behind the instruction's place: the instruction, the access's entry, and where its function returns to.
fn beside_members(
    json: Json,
    alloc: Global,
    symbols: &SymbolTable,
    pc: u32,
    beside: Option<Beside>,
) -> Result<Json, NoMemory>
    ensures { IfOk result (λ more. more ≡ json) }
{
    let Some(beside) = beside else {
        let json = json.nothing_at("instruction")?.nothing_at("entry")?;
        return json.nothing_at("called_from");
    };
    let json = instruction_at(json, alloc, pc, beside.word)?;
    let json = json.number_at("entry", u64::from(beside.entry))?;
    caller_at(json, alloc, symbols, "called_from", beside.caller)
}

/// An access by its name, whose instruction's address is told.
fn access_told(
    json: Json,
    alloc: Global,
    symbols: &SymbolTable,
    name: &'static str,
    said: &AccessSaid,
) -> Result<Json, NoMemory>
    ensures { IfOk result (λ more. more ≡ record json { facts = spec.access_facts name.now said.now.pc json.facts }) }
{
    let hart = said.beside.map(|beside| u64::from(beside.hart));
    let json = json.object_told(name)?.number_if("hart", hart)?;
    let json = kind_members(json, said.access, said.beside.is_some())?;
    let json = place_told(json, alloc, symbols, "at", said.pc)?;
    beside_members(json, alloc, symbols, said.pc, said.beside)?.end()
}

/// The other access, where one is named.
fn other_told(
    json: Json,
    alloc: Global,
    symbols: &SymbolTable,
    said: &Option<AccessSaid>,
) -> Result<Json, NoMemory>
    ensures { IfOk result (λ more. more ≡ record json { facts = spec.other_facts (option_map (λ side. side.pc) said.now) json.facts }) }
{
    match said {
        Some(said) => access_told(json, alloc, symbols, "other", said),
        None => json.nothing_told("other"),
    }
}

/// The bytes at an entry, which are told.
fn value_told(
    json: Json,
    name: &'static str,
    value: u32,
    entry: Option<u32>,
) -> Result<Json, NoMemory>
    ensures { IfOk result (λ more. more ≡ record json { facts = spec.value_facts name.now value json.facts }) }
{
    let json = json.object_told(name)?.digits_told("value", value)?;
    json.number_if("entry", entry.map(|entry| u64::from(entry)))?
        .end()
}

/// What is said of a race before its accesses.
fn head_members(
    json: Json,
    alloc: Global,
    symbols: &SymbolTable,
    race: &RaceSaid<'_, '_>,
) -> Result<Json, NoMemory>
    ensures { IfOk result (λ more. more ≡ record json { facts = spec.head_facts (spec.told_of race.now) json.facts }) }
{
    let json = json.number_told("number", race.number)?;
    let json = json.word_told("class", class_name(race.class))?;
    let json = json.flag_at("likely_benign", race.is_benign)?;
    let json = json.flag_if("new", race.is_new)?;
    let json = json.number_told("reports", race.reports)?;
    let json = json.text_at("known_as", race.known_as)?;
    let json = order_at(json, alloc, symbols, &race.order)?;
    place_told_if(json, alloc, symbols, "data", race.address)
}

/// The two accesses of a race, and the bytes before and after.
fn sides_members(
    json: Json,
    alloc: Global,
    symbols: &SymbolTable,
    race: &RaceSaid<'_, '_>,
) -> Result<Json, NoMemory>
    ensures { IfOk result (λ more. more ≡ record json { facts = spec.sides_facts (spec.told_of race.now) json.facts }) }
{
    let json = access_told(json, alloc, symbols, "paused", &race.paused)?;
    let json = other_told(json, alloc, symbols, &race.other)?;
    let json = value_told(json, "before", race.before, Some(race.before_entry))?;
    value_told(json, "after", race.after, race.after_entry)
}

/// Where a race was first met.
fn met_members(json: Json, met: &MetSaid) -> Result<Json, NoMemory>
    ensures { IfOk result (λ more. more ≡ json) }
{
    let json = json.object_at("first")?;
    let json = json.number_if("run", met.run.map(|run| u64::from(run)))?;
    let json = json.number_if("part", met.part.map(|part| u64::from(part)))?;
    let json = json.number_at("harts", u64::from(met.harts))?;
    let json = json.number_if("ending", met.ending.map(|ending| u64::from(ending)))?;
    json.end()
}

/// The data breakpoint that watched, where one did, of a race that is shown in full.
fn slot_of(block: Option<&Block>) -> Option<u64> {
    let slot = block?.ending.slot?;
    Some(u64::from(slot))
}

/// A race of an array.
#[tactic(auto, unfolding(crate::specs::RaceObject::race_facts))]
pub fn race_object(
    json: Json,
    alloc: Global,
    symbols: &SymbolTable,
    race: &RaceSaid<'_, '_>,
) -> Result<Json, NoMemory>
    ensures { IfOk result (λ more. more ≡ record json { facts = spec.race_facts (spec.told_of race.now) json.facts }) }
{
    let json = head_members(json.object()?, alloc, symbols, race)?;
    let json = sides_members(json, alloc, symbols, race)?;
    let json = json.number_if("slot", slot_of(race.block))?;
    let json = met_members(json, &race.met)?.text_if("schedule", race.schedule)?;
    entries_at(json, alloc, symbols, race.block)?.end()
}
