//! What the runs saw, in tables.
ghost use Rattle.std.specs.Prelude.{◌≡◌, ◌∷◌, ◌||◌, is_some, IfOk};
ghost use Rattle.rv_shown.specs.Outcome.{sampled_numbers, walk_numbers};
ghost use Rattle.rv_page.specs.PageFacts as spec;
ghost use Rattle.rv_markup.specs.declared.markup.Fact.TheVariants as fact;

use crate::code::code_table;
use crate::elements::{
    begin_part, begin_row, begin_rows, begin_table, cell, column, end_line, end_table, number_cell,
    number_column, number_words_cell,
};
use crate::near::near_table;
use rv_explain::block::RaceClass;
use rv_explain::symbol_table::SymbolTable;
use rv_faults::source_lines::MISS_WORDS;
use rv_markup::markup::Markup;
use rv_markup::tag::Place;
use rv_memory::store::NoMemory;
use rv_report::key::Key;
use rv_search::end_runs::EndRuns;
use rv_search::ended::{EndedRow, ended_rows, ways_words};
use rv_search::hunted::Hunted;
use rv_search::tally::Tally;
use rv_shown::code_seen::CodeSeen;
use rv_shown::outcome::{Outcome, Tabled};
use rv_shown::saying::lines::{Seen, runs_seen, sampled_numbers, walk_numbers};
use rv_shown::saying::order::{of_class, reports_of};
use rv_shown::saying::warnings::{Warning, all_sampled, gone_words, warning_words, warnings_of};
use rv_tables::row::RaceRow;
use std::alloc::Global;

/// A row of each warning.
fn warning_rows(
    page: Markup,
    alloc: Global,
    symbols: &SymbolTable,
    outcome: &Outcome,
    warnings: &[Warning],
) -> Result<Markup, NoMemory>
    ensures { IfOk result (λ more. more ≡ page) }
{
    let mut page = page;
    for warning in warnings {
        let words = warning_words(alloc, symbols, outcome, *warning)?;
        page = end_line(cell(begin_row(page)?, words.as_bytes())?)?;
    }
    Ok(page)
}

/// The warnings, where there are any.
pub(crate) fn warnings_part(
    page: Markup,
    alloc: Global,
    symbols: &SymbolTable,
    outcome: &Outcome,
) -> Result<Markup, NoMemory>
    ensures { IfOk result (λ more. more ≡ record page { facts = spec.warnings_facts outcome.now page.facts }) }
{
    let warnings = warnings_of(alloc, outcome)?;
    if warnings.is_empty() {
        return Ok(page);
    }
    let page = begin_part(page, Place::Warnings, b"Warnings")?;
    let page = begin_rows(begin_table(page)?)?;
    let page = warning_rows(page, alloc, symbols, outcome, &warnings)?;
    end_line(end_table(page)?)
}

/// The row of a warning.
fn warning_row(page: Markup, words: &str) -> Result<Markup, NoMemory>
    ensures { IfOk result (λ more. more ≡ page) }
{
    end_line(cell(begin_row(page)?, words.as_bytes())?)
}

/// The row that a name of the list of expected races has gone, where one has.
fn gone_row(page: Markup, alloc: Global, gone: Option<u64>) -> Result<Markup, NoMemory>
    ensures { IfOk result (λ more. more ≡ page) }
{
    match gone {
        Some(line) => {
            let words = gone_words(alloc, line)?;
            warning_row(page, words.as_str())
        }
        None => Ok(page),
    }
}

/// The row that the source lines have no frame of the image, where they have none.
fn misses_row(page: Markup, misses: bool) -> Result<Markup, NoMemory>
    ensures { IfOk result (λ more. more ≡ page) }
{
    if misses {
        warning_row(page, MISS_WORDS)
    } else {
        Ok(page)
    }
}

/// The warnings of a table, where there are any.
pub(crate) fn tabled_warnings_part(
    page: Markup,
    alloc: Global,
    tabled: &Tabled,
) -> Result<Markup, NoMemory>
    ensures { IfOk result (λ more. more ≡ record page { facts = spec.tabled_facts (is_some tabled.now.gone || tabled.now.misses) page.facts }) }
{
    if tabled.gone.is_none() && !tabled.misses {
        return Ok(page);
    }
    let page = begin_part(page, Place::Warnings, b"Warnings")?;
    let page = begin_rows(begin_table(page)?)?;
    let page = gone_row(page, alloc, tabled.gone)?;
    let page = misses_row(page, tabled.misses)?;
    end_line(end_table(page)?)
}

/// The row of races that were counted and not shown, where there are any.
fn aside_row(page: Markup, word: &[u8], rows: &[(Key, RaceRow)]) -> Result<Markup, NoMemory>
    ensures { IfOk result (λ more. more ≡ record page { facts = spec.aside_row_facts rows.now page.facts }) }
{
    if rows.is_empty() {
        return Ok(page);
    }
    let page = cell(begin_row(page)?, word)?;
    let page = number_cell(page, reports_of(rows))?;
    end_line(number_cell(page, rows.len() as u64)?)
}

/// Such races of these rows and of ignored ones, where there are any.
pub(crate) fn apart_part(
    page: Markup,
    alloc: Global,
    rows: &[(Key, RaceRow)],
    ignored: &[(Key, RaceRow)],
) -> Result<Markup, NoMemory>
    ensures { IfOk result (λ more. more ≡ record page { facts = spec.apart_facts rows.now ignored.now page.facts }) }
{
    let named = of_class(alloc, rows, RaceClass::Named)?;
    if named.is_empty() && ignored.is_empty() {
        return Ok(page);
    }
    let page = begin_part(page, Place::Aside, b"Counted, not told")?;
    let page = column(begin_row(begin_table(page)?)?, b"")?;
    let page = number_column(page, b"reports")?;
    let page = number_column(page, b"races")?;
    let page = begin_rows(end_line(page)?)?;
    let page = aside_row(page, b"named", &named)?;
    let page = aside_row(page, b"ignored", ignored)?;
    end_line(end_table(page)?)
}

/// Such races of a hunt, where there are any.
pub(crate) fn aside_part(page: Markup, alloc: Global, outcome: &Outcome) -> Result<Markup, NoMemory>
    ensures { IfOk result (λ more. more ≡ record page { facts = spec.aside_facts outcome.now page.facts }) }
{
    apart_part(page, alloc, outcome.races, outcome.ignored)
}

/// The run in which harts first ended so, where it is named.
fn first_run_cell(page: Markup, alloc: Global, run: Option<u32>) -> Result<Markup, NoMemory>
    ensures { IfOk result (λ more. more ≡ page) }
{
    match run {
        Some(run) => {
            let words = format!(in alloc; "{run}")?;
            number_words_cell(page, words.as_bytes())
        }
        None => number_words_cell(page, b""),
    }
}

/// A row of each way in which harts ended.
fn ended_rows_of(
    page: Markup,
    alloc: Global,
    symbols: &SymbolTable,
    ends: &EndRuns,
    rows: &[EndedRow],
) -> Result<Markup, NoMemory>
    ensures { IfOk result (λ more. more ≡ record page { facts = spec.ended_row_facts rows.now page.facts }) }
{
    let mut page = page;
    for row in rows {
        let words = ways_words(alloc, symbols, row.ways)?;
        page = cell(begin_row(page)?, words.as_bytes())?;
        page = number_cell(page, row.harts)?;
        page = end_line(first_run_cell(page, alloc, ends.run_of(row.ways))?)?;
    }
    Ok(page)
}

/// How harts ended, and in which run first.
pub(crate) fn ended_part(
    page: Markup,
    alloc: Global,
    symbols: &SymbolTable,
    outcome: &Outcome,
) -> Result<Markup, NoMemory>
    ensures { IfOk result (λ more. more ≡ record page { facts = spec.ended_facts outcome.now.saw.tally.ended page.facts }) }
{
    let rows = ended_rows(alloc, outcome.saw.tally.ended())?;
    let page = begin_part(page, Place::Ended, b"How harts ended")?;
    let page = column(begin_row(begin_table(page)?)?, b"")?;
    let page = number_column(page, b"harts")?;
    let page = number_column(page, b"first in run")?;
    let page = begin_rows(end_line(page)?)?;
    let page = ended_rows_of(page, alloc, symbols, outcome.ends, &rows)?;
    end_line(end_table(page)?)
}

/// A row of each number.
fn number_rows(page: Markup, numbers: &[Seen]) -> Result<Markup, NoMemory>
    ensures { IfOk result (λ more. more ≡ record page { facts = spec.number_row_facts numbers.now page.facts }) }
{
    let mut page = page;
    for seen in numbers {
        page = cell(begin_row(page)?, seen.name.as_bytes())?;
        page = number_cell(page, seen.number)?;
        page = end_line(cell(page, seen.meaning.as_bytes())?)?;
    }
    Ok(page)
}

fn sampled_rows(page: Markup, sites: u64, saw: &Tally) -> Result<Markup, NoMemory>
    ensures { IfOk result (λ more. more ≡ record page { facts = spec.numbers_facts (sampled_numbers sites saw.now) page.facts }) }
{
    number_rows(page, &sampled_numbers(sites, saw))
}

fn walk_rows(page: Markup, saw: &Hunted) -> Result<Markup, NoMemory>
    ensures { IfOk result (λ more. more ≡ record page { facts = spec.numbers_facts (walk_numbers saw.now) page.facts }) }
{
    number_rows(page, &walk_numbers(saw))
}

/// The rows of walks, where not all runs are sampled ones.
fn walks_if(page: Markup, all_sampled: bool, saw: &Hunted) -> Result<Markup, NoMemory>
    ensures { IfOk result (λ more. more ≡ record page { facts = spec.walk_facts all_sampled saw.now page.facts }) }
{
    if all_sampled {
        Ok(page)
    } else {
        walk_rows(page, saw)
    }
}

/// The row of the runs.
fn runs_row(page: Markup, saw: &Tally) -> Result<Markup, NoMemory>
    ensures { IfOk result (λ more. more ≡ record page { facts = fact.Number saw.now.runs ∷ page.facts }) }
{
    number_rows(page, &[runs_seen(saw)])
}

/// The rows of what was seen, and behind them the near pairs that were not met, and the functions.
fn seen_rows(
    page: Markup,
    alloc: Global,
    symbols: &SymbolTable,
    sites: u64,
    all_sampled: bool,
    saw: &Hunted,
    code: &CodeSeen,
) -> Result<Markup, NoMemory>
    ensures { IfOk result (λ more. more ≡ record page { facts = spec.seen_row_facts sites all_sampled saw.now page.facts }) }
{
    let page = begin_rows(begin_table(page)?)?;
    let page = sampled_rows(page, sites, &saw.tally)?;
    let page = walks_if(page, all_sampled, saw)?;
    let page = runs_row(page, &saw.tally)?;
    let page = near_table(end_table(page)?, alloc, symbols, saw)?;
    code_table(page, alloc, symbols, code)
}

/// What was seen.
pub(crate) fn seen_part(
    page: Markup,
    alloc: Global,
    symbols: &SymbolTable,
    outcome: &Outcome,
) -> Result<Markup, NoMemory>
    ensures { IfOk result (λ more. more ≡ record page { facts = spec.seen_facts outcome.now page.facts }) }
{
    let page = begin_part(page, Place::Seen, b"What was seen")?;
    let all_sampled = all_sampled(outcome.mix);
    end_line(seen_rows(
        page,
        alloc,
        symbols,
        outcome.sites,
        all_sampled,
        outcome.saw,
        outcome.code,
    )?)
}
