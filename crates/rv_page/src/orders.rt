//! The two ends that the order of a race's accesses makes, side by side.
ghost use Rattle.std.specs.Prelude.{◌≡◌, IfOk};

use crate::elements::{begin_row, begin_rows, begin_table, cell, column, end_line, end_table};
use rv_explain::order::CopyText;
use rv_explain::symbol_table::SymbolTable;
use rv_markup::markup::Markup;
use rv_memory::store::NoMemory;
use rv_shown::saying::orders::shown_copies;
use rv_shown::shown::ShownOrder;
use std::alloc::Global;

/// A row of two columns: what a hart came to in both copies.
fn end_row(page: Markup, one: &[u8], other: &[u8]) -> Result<Markup, NoMemory>
    ensures { IfOk result (λ more. more ≡ page) }
{
    end_line(cell(cell(begin_row(page)?, one)?, other)?)
}

/// What each hart came to that came to something else in the other copy.
fn end_rows(page: Markup, one: &CopyText, other: &CopyText) -> Result<Markup, NoMemory>
    ensures { IfOk result (λ more. more ≡ page) }
{
    let mut page = page;
    for n in 0..one.ends.len().min(other.ends.len()) {
        page = end_row(page, &one.ends[n], &other.ends[n])?;
    }
    Ok(page)
}

/// The table of both copies.
fn copies_table(page: Markup, one: &CopyText, other: &CopyText) -> Result<Markup, NoMemory>
    ensures { IfOk result (λ more. more ≡ page) }
{
    let page = begin_row(begin_table(page)?)?;
    let page = column(column(page, &one.title)?, &other.title)?;
    let page = begin_rows(end_line(page)?)?;
    end_table(end_rows(page, one, other)?)
}

/// The two ends of a race whose order matters, where its trial is shown.
pub(crate) fn order_part(
    page: Markup,
    alloc: Global,
    symbols: &SymbolTable,
    shown: &ShownOrder,
) -> Result<Markup, NoMemory>
    ensures { IfOk result (λ more. more ≡ page) }
{
    let copies = shown_copies(alloc, symbols, shown)?;
    if copies.len() == 2 {
        copies_table(page, &copies[0], &copies[1])
    } else {
        Ok(page)
    }
}
