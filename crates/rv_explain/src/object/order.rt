//! What difference the order of a race's two accesses makes, as JSON.
ghost use Rattle.std.specs.Prelude.{◌≡◌, IfOk};

use crate::object::places::place_if;
use crate::order::{CopyText, OrderCounts, copy_line};
use rv_json::object::Json;
use rv_memory::store::NoMemory;
use rv_symbols::symbol_table::SymbolTable;
use std::alloc::Global;

/// The names of the schedules of both copies.
#[derive(Clone, Copy)]
pub struct CopyNames<'a> {
    pub first: &'a str,
    pub second: &'a str,
}

/// What came of trials: their counts, whether an SC fails, the two copies of the first trial by which harts end otherwise, where that is
/// shown, and where their schedules are.
#[derive(Clone, Copy)]
pub struct OrderSaid<'a> {
    pub counts: OrderCounts,
    pub sc_fails: bool,
    pub copies: &'a [CopyText],
    pub schedules: Option<CopyNames<'a>>,
}

/// The line of a copy, where it is shown.
fn copy_at(json: Json, alloc: Global, name: &str, copy: Option<&CopyText>) -> Result<Json, NoMemory>
    ensures { IfOk result (λ more. more ≡ json) }
{
    match copy {
        Some(copy) => {
            let line = copy_line(alloc, copy)?;
            json.ascii_at(name, &line)
        }
        None => json.nothing_at(name),
    }
}

/// The names of the schedules of both copies, where they are saved.
fn schedules_at(json: Json, names: &Option<CopyNames<'_>>) -> Result<Json, NoMemory>
    ensures { IfOk result (λ more. more ≡ json) }
{
    match names {
        Some(names) => {
            let json = json.array_at("schedules")?;
            json.text(names.first)?.text(names.second)?.end()
        }
        None => json.nothing_at("schedules"),
    }
}

fn order_object(
    json: Json,
    alloc: Global,
    symbols: &SymbolTable,
    order: &OrderSaid<'_>,
) -> Result<Json, NoMemory>
    ensures { IfOk result (λ more. more ≡ json) }
{
    let counts = order.counts;
    let json = json.object_at("order")?.number_at("trials", counts.trials)?;
    let json = json.number_at("ends", counts.ends)?;
    let json = json.number_at("prints", counts.prints)?;
    let json = json.number_at("memory", counts.memory)?;
    let json = place_if(json, alloc, symbols, "memory_at", counts.memory_at)?;
    let json = json.flag_at("sc_fails", order.sc_fails)?;
    let json = copy_at(json, alloc, "first", order.copies.first())?;
    let json = copy_at(json, alloc, "second", order.copies.get(1))?;
    schedules_at(json, &order.schedules)?.end()
}

/// What the order makes, where it was tried.
pub(crate) fn order_at(
    json: Json,
    alloc: Global,
    symbols: &SymbolTable,
    order: &Option<OrderSaid<'_>>,
) -> Result<Json, NoMemory>
    ensures { IfOk result (λ more. more ≡ json) }
{
    match order {
        Some(order) => order_object(json, alloc, symbols, order),
        None => json.nothing_at("order"),
    }
}
