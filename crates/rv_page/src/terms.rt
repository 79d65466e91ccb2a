//! What the words of the page mean, in a table that is folded.
ghost use Rattle.std.specs.Prelude.{◌≡◌, IfOk};

use crate::elements::{begin_row, begin_rows, begin_table, cell, end_line, end_table};
use rv_engines::terms::TERMS;
use rv_markup::markup::Markup;
use rv_markup::tag::{DETAILS, SUMMARY, TD};
use rv_memory::store::NoMemory;

/// Lines in a cell.
fn lines_cell(page: Markup, lines: &[&str]) -> Result<Markup, NoMemory>
    ensures { IfOk result (λ more. more ≡ page) }
{
    let mut page = page.begin(TD, &[])?;
    for line in lines {
        page = page.text(line.as_bytes())?.text(b"\n")?;
    }
    page.end()
}

/// A row of each word.
fn term_rows(page: Markup) -> Result<Markup, NoMemory>
    ensures { IfOk result (λ more. more ≡ page) }
{
    let mut page = page;
    for term in &TERMS {
        let row = cell(begin_row(page)?, term.word.as_bytes())?;
        page = end_line(lines_cell(row, term.meaning)?)?;
    }
    Ok(page)
}

/// The words, each with what it means.
pub(crate) fn terms_part(page: Markup) -> Result<Markup, NoMemory>
    ensures { IfOk result (λ more. more ≡ page) }
{
    let page = page.begin(DETAILS, &[])?.begin(SUMMARY, &[])?;
    let page = end_line(page.text(b"what the words mean")?)?;
    let page = term_rows(begin_rows(begin_table(page)?)?)?;
    end_line(end_table(page)?)
}
