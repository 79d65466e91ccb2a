//! The near pairs of a hunt's walks, and what came of them.
ghost use Rattle.std.specs.Prelude.{◌≡◌, IfOk};

use rv_explain::object::places::place_at;
use rv_explain::symbol_table::SymbolTable;
use rv_json::object::Json;
use rv_memory::store::NoMemory;
use rv_search::hunted::Hunted;
use rv_shown::outcome::Outcome;
use rv_shown::saying::warnings::all_sampled;
use rv_tables::near::{Fate, NearRow, fate_by};
use rv_walk::near_pair::Addresses;
use std::alloc::Global;

/// How many near pairs are written at most, as in the page.
const MOST_PAIRS: usize = 1000;

/// What came of a pair that was probed and not met; no word of another one.
fn fate_name(fate: Fate) -> Option<&'static str> {
    match fate {
        Fate::Held => Some("held"),
        Fate::OthersWaited => Some("others_waited"),
        Fate::NeverReached => Some("never_reached"),
        Fate::Met | Fate::Untried => None,
    }
}

/// How many pairs came to that.
fn count_of(saw: &Hunted, fate: Fate) -> u64 {
    saw.near.how_many(&saw.table, fate)
}

/// How many pairs there are, and what came of them.
fn counts_members(json: Json, saw: &Hunted) -> Result<Json, NoMemory>
    ensures { IfOk result (λ more. more ≡ json) }
{
    let json = json.number_at("pairs", saw.near.len() as u64)?;
    let json = json.number_at("met", count_of(saw, Fate::Met))?;
    let json = json.number_at("held", count_of(saw, Fate::Held))?;
    let json = json.number_at("others_waited", count_of(saw, Fate::OthersWaited))?;
    let json = json.number_at("never_reached", count_of(saw, Fate::NeverReached))?;
    json.number_at("not_tried", count_of(saw, Fate::Untried))
}

/// A pair that was probed and not met.
fn pair_object(
    json: Json,
    alloc: Global,
    symbols: &SymbolTable,
    pair: &(Addresses, NearRow),
    fate: &str,
) -> Result<Json, NoMemory>
    ensures { IfOk result (λ more. more ≡ json) }
{
    let (addresses, row) = pair;
    let json = place_at(json.object()?, alloc, symbols, "first", addresses.lesser)?;
    let json = place_at(json, alloc, symbols, "second", addresses.greater)?;
    let json = place_at(json, alloc, symbols, "data", row.address)?;
    let json = json.text_at("came_of_it", fate)?;
    json.number_at("probes", row.tries)?.end()
}

/// A pair, unless it was not probed.
fn pair_if(
    json: Json,
    alloc: Global,
    symbols: &SymbolTable,
    pair: &(Addresses, NearRow),
) -> Result<Json, NoMemory>
    ensures { IfOk result (λ more. more ≡ json) }
{
    match fate_name(fate_by(pair.1.best)) {
        Some(fate) => pair_object(json, alloc, symbols, pair, fate),
        None => Ok(json),
    }
}

/// The first of these pairs, in their order, but for those that were not probed.
fn pair_objects(
    json: Json,
    alloc: Global,
    symbols: &SymbolTable,
    pairs: &[(Addresses, NearRow)],
) -> Result<Json, NoMemory>
    ensures { IfOk result (λ more. more ≡ json) }
{
    let mut json = json;
    for pair in pairs {
        json = pair_if(json, alloc, symbols, pair)?;
    }
    Ok(json)
}

/// The near pairs, where not all runs are sampled ones.
pub(crate) fn near_at(
    json: Json,
    alloc: Global,
    symbols: &SymbolTable,
    outcome: &Outcome,
) -> Result<Json, NoMemory>
    ensures { IfOk result (λ more. more ≡ json) }
{
    if all_sampled(outcome.mix) {
        return json.nothing_at("near");
    }
    let saw = outcome.saw;
    let unmet = saw.near.unmet(alloc, &saw.table)?;
    let first = &unmet[..unmet.len().min(MOST_PAIRS)];
    let json = counts_members(json.object_at("near")?, saw)?;
    let json = json.array_at("not_met")?;
    pair_objects(json, alloc, symbols, first)?.end()?.end()
}
