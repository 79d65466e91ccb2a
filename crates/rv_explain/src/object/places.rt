//! Addresses as JSON: each by its digits and, where it has one, by its symbol.
ghost use Rattle.std.specs.Prelude.{◌≡◌, codes, IfOk};
ghost use Rattle.rv_explain.specs.RaceObject as spec;

use crate::names::call_before;
use crate::source::field_text;
use rv_json::object::Json;
use rv_memory::store::NoMemory;
use rv_symbols::frames::{Frame, Frames};
use rv_symbols::symbol_table::SymbolTable;
use std::alloc::Global;

/// How many bytes of a symbol's name are written at most.
const OBJECT_NAME: usize = 4096;

/// A name, or its first bytes up to a character's end and two dots.
fn name_at(json: Json, alloc: Global, name: &str) -> Result<Json, NoMemory>
    ensures { IfOk result (λ more. more ≡ json) }
{
    let (front, rest) = name.split_at(name.floor_char_boundary(OBJECT_NAME));
    if rest.is_empty() {
        return json.text_at("symbol", front);
    }
    let cut = format!(in alloc; "{front}..")?;
    json.text_at("symbol", cut.as_str())
}

/// By which symbol an address is told.
fn symbol_members(
    json: Json,
    alloc: Global,
    symbols: &SymbolTable,
    address: u32,
) -> Result<Json, NoMemory>
    ensures { IfOk result (λ more. more ≡ json) }
{
    let json = match symbols.symbol_of(address) {
        Some(symbol) => {
            let offset = address.saturating_sub(symbol.value);
            let json = name_at(json, alloc, &symbol.name)?;
            let json = json.number_at("offset", u64::from(offset))?;
            json.number_at("size", u64::from(symbol.size))?
        }
        None => {
            let json = json.nothing_at("symbol")?.nothing_at("offset")?;
            json.nothing_at("size")?
        }
    };
    Ok(json)
}

/// A field of a frame, where it is known.
fn field_at(json: Json, alloc: Global, name: &str, field: Option<&[u8]>) -> Result<Json, NoMemory>
    ensures { IfOk result (λ more. more ≡ json) }
{
    match field {
        Some(field) => {
            let text = field_text(alloc, field)?;
            json.text_at(name, text.as_str())
        }
        None => json.nothing_at(name),
    }
}

fn frame_object(json: Json, alloc: Global, frame: &Frame<'_>) -> Result<Json, NoMemory>
    ensures { IfOk result (λ more. more ≡ json) }
{
    let json = field_at(json.object()?, alloc, "function", frame.known_function())?;
    let json = field_at(json, alloc, "file", frame.file())?;
    json.number_if("line", frame.line().map(|line| u64::from(line)))?
        .end()
}

/// A frame and those behind it.
fn frame_objects(
    json: Json,
    alloc: Global,
    first: &Frame<'_>,
    rest: Frames<'_>,
) -> Result<Json, NoMemory>
    ensures { IfOk result (λ more. more ≡ json) }
{
    let mut json = frame_object(json, alloc, first)?;
    let mut frames = rest;
    while let Some(frame) = frames.next_frame() {
        json = frame_object(json, alloc, &frame)?;
    }
    Ok(json)
}

/// The frames of the instruction at an address, where some are known.
fn source_at(
    json: Json,
    alloc: Global,
    symbols: &SymbolTable,
    address: u32,
) -> Result<Json, NoMemory>
    ensures { IfOk result (λ more. more ≡ json) }
{
    let mut frames = symbols.frames_at(address);
    match frames.next_frame() {
        Some(first) => frame_objects(json.array_at("source")?, alloc, &first, frames)?.end(),
        None => json.nothing_at("source"),
    }
}

/// What is told of an address beside it: by which symbol it is told, and the frames of the instruction at another one.
fn place_members(
    json: Json,
    alloc: Global,
    symbols: &SymbolTable,
    address: u32,
    code: u32,
) -> Result<Json, NoMemory>
    ensures { IfOk result (λ more. more ≡ json) }
{
    let json = symbol_members(json, alloc, symbols, address)?;
    source_at(json, alloc, symbols, code)
}

/// A place by its name.
pub fn place_at(
    json: Json,
    alloc: Global,
    symbols: &SymbolTable,
    name: &str,
    address: u32,
) -> Result<Json, NoMemory>
    ensures { IfOk result (λ more. more ≡ json) }
{
    let json = json.object_at(name)?.digits_at("address", address)?;
    place_members(json, alloc, symbols, address, address)?.end()
}

/// Where a function returns to, where that is certain. Its frames are those of the call in front of it.
pub(crate) fn caller_at(
    json: Json,
    alloc: Global,
    symbols: &SymbolTable,
    name: &str,
    caller: Option<u32>,
) -> Result<Json, NoMemory>
    ensures { IfOk result (λ more. more ≡ json) }
{
    match caller {
        Some(address) => {
            let json = json.object_at(name)?.digits_at("address", address)?;
            place_members(json, alloc, symbols, address, call_before(address))?.end()
        }
        None => json.nothing_at(name),
    }
}

/// The same, where there is one.
pub fn place_if(
    json: Json,
    alloc: Global,
    symbols: &SymbolTable,
    name: &str,
    address: Option<u32>,
) -> Result<Json, NoMemory>
    ensures { IfOk result (λ more. more ≡ json) }
{
    match address {
        Some(address) => place_at(json, alloc, symbols, name, address),
        None => json.nothing_at(name),
    }
}

/// A place whose address is told.
pub(crate) fn place_told(
    json: Json,
    alloc: Global,
    symbols: &SymbolTable,
    name: &'static str,
    address: u32,
) -> Result<Json, NoMemory>
    ensures { IfOk result (λ more. more ≡ record json { facts = spec.place_facts name.now address json.facts }) }
{
    let json = json.object_told(name)?.digits_told("address", address)?;
    place_members(json, alloc, symbols, address, address)?.end()
}

/// The same, where there is one.
pub(crate) fn place_told_if(
    json: Json,
    alloc: Global,
    symbols: &SymbolTable,
    name: &'static str,
    address: Option<u32>,
) -> Result<Json, NoMemory>
    ensures { IfOk result (λ more. more ≡ record json { facts = spec.place_if_facts name.now address json.facts }) }
{
    match address {
        Some(address) => place_told(json, alloc, symbols, name, address),
        None => json.nothing_told(name),
    }
}
