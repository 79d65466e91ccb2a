//! The functions of the image and how much of them ran, in a table that is folded.
ghost use Rattle.std.specs.Prelude.{◌≡◌, IfOk};

use crate::elements::{
    begin_row, begin_rows, begin_table, class, code, column, end_line, end_table, number_column,
};
use rv_explain::names::address_text;
use rv_explain::symbol_table::SymbolTable;
use rv_markup::markup::Markup;
use rv_markup::tag::{DETAILS, SUMMARY, TD};
use rv_memory::store::NoMemory;
use rv_shown::code_seen::{CodeSeen, FunctionSeen};
use std::alloc::Global;

/// How many functions have a row at most.
const MOST_ROWS: usize = 200;

/// How many words, in a cell for numbers.
fn words_cell(page: Markup, alloc: Global, words: u32) -> Result<Markup, NoMemory>
    ensures { IfOk result (λ more. more ≡ page) }
{
    let text = format!(in alloc; "{words}")?;
    page.begin(TD, &[class(b"number")])?
        .text(text.as_bytes())?
        .end()
}

/// The row of a function: its name, how many of its words ran, and how many it has.
fn function_row(
    page: Markup,
    alloc: Global,
    symbols: &SymbolTable,
    function: &FunctionSeen,
) -> Result<Markup, NoMemory>
    ensures { IfOk result (λ more. more ≡ page) }
{
    let name = address_text(alloc, symbols, function.address)?;
    let page = code(begin_row(page)?.begin(TD, &[])?, &name)?.end()?;
    let page = words_cell(page, alloc, function.executed)?;
    end_line(words_cell(page, alloc, function.words)?)
}

/// A row of each of the first functions.
fn function_rows(
    page: Markup,
    alloc: Global,
    symbols: &SymbolTable,
    functions: &[FunctionSeen],
) -> Result<Markup, NoMemory>
    ensures { IfOk result (λ more. more ≡ page) }
{
    let mut page = page;
    for function in functions {
        page = function_row(page, alloc, symbols, function)?;
    }
    Ok(page)
}

/// The table of the functions, where there are any: those that never ran come first.
pub(crate) fn code_table(
    page: Markup,
    alloc: Global,
    symbols: &SymbolTable,
    seen: &CodeSeen,
) -> Result<Markup, NoMemory>
    ensures { IfOk result (λ more. more ≡ page) }
{
    if seen.functions.is_empty() {
        return Ok(page);
    }
    let most = seen.functions.len().min(MOST_ROWS);
    let page = page.text(b"\n")?.begin(DETAILS, &[])?;
    let page = page.begin(SUMMARY, &[])?;
    let page = end_line(page.text(b"how much of the functions ran")?)?;
    let page = column(begin_row(begin_table(page)?)?, b"function")?;
    let page = number_column(page, b"words that ran")?;
    let page = begin_rows(end_line(number_column(page, b"words")?)?)?;
    let page = function_rows(page, alloc, symbols, &seen.functions[..most])?;
    end_table(page)?.end()
}
