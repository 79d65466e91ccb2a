//! The near pairs that were not met, in a table that is folded.
ghost use Rattle.std.specs.Prelude.{◌≡◌, ◌∷◌, IfOk, take};
ghost use Rattle.rv_page.specs.PageFacts as spec;
ghost use Rattle.rv_markup.specs.declared.markup.Fact.TheVariants as fact;

use crate::elements::{
    begin_row, begin_rows, begin_table, cell, code, column, end_line, end_table, number_cell,
    number_column,
};
use rv_explain::names::{address_text, name_text, source_text};
use rv_explain::pieces::joined;
use rv_explain::symbol_table::SymbolTable;
use rv_markup::markup::Markup;
use rv_markup::tag::{DETAILS, SUMMARY, TD};
use rv_memory::store::NoMemory;
use rv_search::hunted::Hunted;
use rv_tables::near::{Fate, NearRow, fate_by};
use rv_walk::near_pair::Addresses;
use std::alloc::Global;

/// How many near pairs have a row at most.
const MOST_ROWS: usize = 1000;

/// What came of a pair that was not met.
fn fate_words(fate: Fate) -> &'static [u8] {
    match fate {
        Fate::Met => b"met",
        Fate::Held => b"held",
        Fate::OthersWaited => b"others waited",
        Fate::NeverReached => b"never reached",
        Fate::Untried => b"not tried",
    }
}

/// The name of an instruction and its source line.
fn sourced_name(alloc: Global, symbols: &SymbolTable, address: u32) -> Result<Vec<u8>, NoMemory> {
    let name = name_text(alloc, symbols, address)?;
    let source = source_text(alloc, symbols, address)?;
    joined(alloc, &[&name, source.as_bytes()])
}

/// The row of a pair: both instructions with their source lines, the data of its first access, what came of it, and how many probes there were.
fn pair_row(
    page: Markup,
    alloc: Global,
    symbols: &SymbolTable,
    pair: &(Addresses, NearRow),
) -> Result<Markup, NoMemory>
    ensures { IfOk result (λ more. more ≡ record page { facts = fact.Number pair.now.1.tries ∷ page.facts }) }
{
    let (addresses, row) = pair;
    let first = sourced_name(alloc, symbols, addresses.lesser)?;
    let second = sourced_name(alloc, symbols, addresses.greater)?;
    let names = joined(alloc, &[&first, b" and ", &second])?;
    let data = address_text(alloc, symbols, row.address)?;
    let page = code(begin_row(page)?.begin(TD, &[])?, &names)?.end()?;
    let page = cell(cell(page, &data)?, fate_words(fate_by(row.best)))?;
    end_line(number_cell(page, row.tries)?)
}

/// A row of each pair.
fn pair_rows(
    page: Markup,
    alloc: Global,
    symbols: &SymbolTable,
    pairs: &[(Addresses, NearRow)],
) -> Result<Markup, NoMemory>
    ensures { IfOk result (λ more. more ≡ record page { facts = spec.pair_rows_facts pairs.now page.facts }) }
{
    let mut page = page;
    for pair in pairs {
        page = pair_row(page, alloc, symbols, pair)?;
    }
    Ok(page)
}

/// The first pairs, at most so many.
fn first_of(pairs: &[(Addresses, NearRow)], most: usize) -> &[(Addresses, NearRow)]
    ensures { result.now ≡ take most pairs.now }
{
    &pairs[..pairs.len().min(most)]
}

/// The table of these pairs: the first of them have a row.
fn pair_table(
    page: Markup,
    alloc: Global,
    symbols: &SymbolTable,
    pairs: &[(Addresses, NearRow)],
) -> Result<Markup, NoMemory>
    ensures { IfOk result (λ more. more ≡ record page { facts = spec.pair_rows_facts (take MOST_ROWS pairs.now) page.facts }) }
{
    let page = page.text(b"\n")?.begin(DETAILS, &[])?;
    let page = page.begin(SUMMARY, &[])?;
    let page = end_line(page.text(b"near pairs that were not met")?)?;
    let page = column(begin_row(begin_table(page)?)?, b"instructions")?;
    let page = column(column(page, b"data")?, b"came to")?;
    let page = number_column(page, b"probes")?;
    let page = begin_rows(end_line(page)?)?;
    let page = pair_rows(page, alloc, symbols, first_of(pairs, MOST_ROWS))?;
    end_table(page)?.end()
}

/// The table of the pairs that were not met, where there are any.
pub(crate) fn near_table(
    page: Markup,
    alloc: Global,
    symbols: &SymbolTable,
    saw: &Hunted,
) -> Result<Markup, NoMemory>
    ensures { IfOk result (λ more. more ≡ record page { facts = spec.near_facts saw.now page.facts }) }
{
    let unmet = saw.near.unmet(alloc, &saw.table)?;
    if unmet.is_empty() {
        return Ok(page);
    }
    pair_table(page, alloc, symbols, &unmet)
}
