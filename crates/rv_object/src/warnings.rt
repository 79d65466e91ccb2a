//! The warnings of a hunt, or of its table.
ghost use Rattle.std.specs.Prelude.{◌≡◌, IfOk};

use rv_explain::symbol_table::SymbolTable;
use rv_faults::source_lines::MISS_WORDS;
use rv_json::object::Json;
use rv_memory::store::NoMemory;
use rv_shown::outcome::{Outcome, Tabled};
use rv_shown::saying::warnings::{Warning, gone_words, warning_words, warnings_of};
use std::alloc::Global;

fn warning_texts(
    json: Json,
    alloc: Global,
    symbols: &SymbolTable,
    outcome: &Outcome,
    warnings: &[Warning],
) -> Result<Json, NoMemory>
    ensures { IfOk result (λ more. more ≡ json) }
{
    let mut json = json;
    for warning in warnings {
        let words = warning_words(alloc, symbols, outcome, *warning)?;
        json = json.text(words.as_str())?;
    }
    Ok(json)
}

/// The warnings that hold.
pub(crate) fn warnings_at(
    json: Json,
    alloc: Global,
    symbols: &SymbolTable,
    outcome: &Outcome,
) -> Result<Json, NoMemory>
    ensures { IfOk result (λ more. more ≡ json) }
{
    let warnings = warnings_of(alloc, outcome)?;
    let json = json.array_at("warnings")?;
    warning_texts(json, alloc, symbols, outcome, &warnings)?.end()
}

/// The warnings of a table: that a name has gone, by the line of the list that has it, and that the source lines have no frame of the image.
pub(crate) fn tabled_warnings(json: Json, alloc: Global, tabled: &Tabled) -> Result<Json, NoMemory>
    ensures { IfOk result (λ more. more ≡ json) }
{
    let json = gone_text(json.array_at("warnings")?, alloc, tabled.gone)?;
    if tabled.misses {
        json.text(MISS_WORDS)?.end()
    } else {
        json.end()
    }
}

fn gone_text(json: Json, alloc: Global, gone: Option<u64>) -> Result<Json, NoMemory>
    ensures { IfOk result (λ more. more ≡ json) }
{
    match gone {
        Some(line) => {
            let words = gone_words(alloc, line)?;
            json.text(words.as_str())
        }
        None => Ok(json),
    }
}
