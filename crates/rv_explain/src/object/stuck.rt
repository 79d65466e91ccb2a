//! What the harts of a stuck end do, as JSON.
ghost use Rattle.std.specs.Prelude.{◌≡◌, IfOk};

use crate::object::places::place_at;
use crate::order::cause_words;
use crate::stuck::{HartLeft, ReadBytes, StuckBlock, StuckHart, Waiting, Writer, least_pc};
use rv_hart::hart::Status;
use rv_json::object::Json;
use rv_memory::store::NoMemory;
use rv_symbols::symbol_table::SymbolTable;
use std::alloc::Global;

/// The last step that wrote bytes, where there was one.
fn writer_at(
    json: Json,
    alloc: Global,
    symbols: &SymbolTable,
    writer: Option<Writer>,
) -> Result<Json, NoMemory>
    ensures { IfOk result (λ more. more ≡ json) }
{
    let Some(writer) = writer else {
        return json.nothing_at("written_by");
    };
    let json = json.object_at("written_by")?;
    let json = json.number_at("hart", u64::from(writer.hart))?;
    let json = json.number_at("entry", u64::from(writer.entry))?;
    place_at(json, alloc, symbols, "at", writer.pc)?.end()
}

/// Bytes that a round reads.
fn read_object(
    json: Json,
    alloc: Global,
    symbols: &SymbolTable,
    read: &ReadBytes,
) -> Result<Json, NoMemory>
    ensures { IfOk result (λ more. more ≡ json) }
{
    let json = json.object()?.digits_at("address", read.first)?;
    let json = place_at(json, alloc, symbols, "data", read.first)?;
    let json = json.digits_at("value", read.value)?;
    writer_at(json, alloc, symbols, read.writer)?.end()
}

fn read_objects(
    json: Json,
    alloc: Global,
    symbols: &SymbolTable,
    reads: &[ReadBytes],
) -> Result<Json, NoMemory>
    ensures { IfOk result (λ more. more ≡ json) }
{
    let mut json = json;
    for read in reads {
        json = read_object(json, alloc, symbols, read)?;
    }
    Ok(json)
}

/// A hart that goes round: one whose round reads nothing is parked.
fn waiting_members(
    json: Json,
    alloc: Global,
    symbols: &SymbolTable,
    waiting: &Waiting,
) -> Result<Json, NoMemory>
    ensures { IfOk result (λ more. more ≡ json) }
{
    let how = if waiting.reads.is_empty() {
        "parked"
    } else {
        "polls"
    };
    let json = json.text_at("how", how)?;
    let json = json.nothing_at("code")?.nothing_at("cause")?;
    let json = place_at(json, alloc, symbols, "at", least_pc(&waiting.steps))?;
    let json = json.number_at("instructions", waiting.steps.len() as u64)?;
    let json = json.array_at("reads")?;
    read_objects(json, alloc, symbols, &waiting.reads)?.end()
}

/// The code with which a hart exited.
fn exit_code(left: &HartLeft) -> Option<u32> {
    match left.status {
        Status::Exited(code) => Some(code),
        Status::Running | Status::Stopped(_) => None,
    }
}

/// A hart that has exited.
fn exited_members(json: Json, left: Option<&HartLeft>) -> Result<Json, NoMemory>
    ensures { IfOk result (λ more. more ≡ json) }
{
    let json = json.text_at("how", "exited")?;
    let json = match left {
        Some(left) => json.digits_if("code", exit_code(left))?,
        None => json.nothing_at("code")?,
    };
    let json = json.nothing_at("cause")?.nothing_at("at")?;
    json.nothing_at("instructions")?.nothing_at("reads")
}

/// A hart that a trap stopped.
fn stopped_members(
    json: Json,
    alloc: Global,
    symbols: &SymbolTable,
    left: Option<&HartLeft>,
) -> Result<Json, NoMemory>
    ensures { IfOk result (λ more. more ≡ json) }
{
    let json = json.text_at("how", "stopped")?.nothing_at("code")?;
    let json = match left {
        Some(
            HartLeft {
                status: Status::Stopped(cause),
                pc,
            },
        ) => {
            let json = json.text_at("cause", cause_words(*cause))?;
            place_at(json, alloc, symbols, "at", *pc)?
        }
        _ => json.nothing_at("cause")?.nothing_at("at")?,
    };
    json.nothing_at("instructions")?.nothing_at("reads")
}

fn hart_object(
    json: Json,
    alloc: Global,
    symbols: &SymbolTable,
    h: usize,
    hart: &StuckHart,
    left: Option<&HartLeft>,
) -> Result<Json, NoMemory>
    ensures { IfOk result (λ more. more ≡ json) }
{
    let json = json.object()?.number_at("hart", h as u64)?;
    let json = match hart {
        StuckHart::Exited => exited_members(json, left)?,
        StuckHart::Stopped => stopped_members(json, alloc, symbols, left)?,
        StuckHart::Waits(waiting) => waiting_members(json, alloc, symbols, waiting)?,
    };
    json.end()
}

/// What each hart does.
fn hart_objects(
    json: Json,
    alloc: Global,
    symbols: &SymbolTable,
    block: &StuckBlock,
) -> Result<Json, NoMemory>
    ensures { IfOk result (λ more. more ≡ json) }
{
    let mut json = json;
    for (h, hart) in block.harts.iter().enumerate() {
        json = hart_object(json, alloc, symbols, h, hart, block.left.get(h))?;
    }
    Ok(json)
}

/// The harts of a stuck end.
fn harts_at(
    json: Json,
    alloc: Global,
    symbols: &SymbolTable,
    block: &StuckBlock,
) -> Result<Json, NoMemory>
    ensures { IfOk result (λ more. more ≡ json) }
{
    hart_objects(json.array_at("harts")?, alloc, symbols, block)?.end()
}

/// How often and where a stuck end was met: in how many walks and probes, and first in that run and part, after so many steps.
#[derive(Clone, Copy)]
pub struct StuckMet {
    pub walks: Option<u64>,
    pub probes: Option<u64>,
    pub run: Option<u32>,
    pub part: Option<u32>,
    pub steps: u64,
}

/// Where a stuck end was first met.
fn first_members(json: Json, met: &StuckMet, harts: usize) -> Result<Json, NoMemory>
    ensures { IfOk result (λ more. more ≡ json) }
{
    let json = json.object_at("first")?;
    let json = json.number_if("run", met.run.map(|run| u64::from(run)))?;
    let json = json.number_if("part", met.part.map(|part| u64::from(part)))?;
    let json = json.number_at("harts", harts as u64)?;
    json.number_at("steps", met.steps)?.end()
}

/// A stuck end of an array.
pub fn stuck_object(
    json: Json,
    alloc: Global,
    symbols: &SymbolTable,
    number: u64,
    met: &StuckMet,
    block: &StuckBlock,
    schedule: Option<&str>,
) -> Result<Json, NoMemory>
    ensures { IfOk result (λ more. more ≡ json) }
{
    let json = json.object()?.number_at("number", number)?;
    let json = json.number_if("walks", met.walks)?;
    let json = json.number_if("probes", met.probes)?;
    let json = first_members(json, met, block.harts.len())?;
    let json = harts_at(json, alloc, symbols, block)?;
    json.text_if("schedule", schedule)?.end()
}
