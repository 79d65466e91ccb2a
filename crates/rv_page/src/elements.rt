//! The elements that the page is made of.
ghost use Rattle.std.specs.Prelude.{◌≡◌, ◌∷◌, pred, suc, IfOk};
ghost use Rattle.rv_markup.specs.declared.markup.Fact.TheVariants as fact;

use rv_markup::markup::Markup;
use rv_markup::tag::{
    Attribute, CLASS, CODE, DIV, H2, Place, SECTION, TABLE, TBODY, TD, TH, THEAD, TR,
};
use rv_memory::store::NoMemory;
use std::alloc::Global;

/// The class of an element.
pub(crate) fn class(name: &[u8]) -> Attribute<'_> {
    Attribute {
        name: CLASS,
        value: name,
    }
}

/// A text in letters of one width.
pub(crate) fn code(page: Markup, text: &[u8]) -> Result<Markup, NoMemory>
    ensures { IfOk result (λ more. more ≡ page) }
{
    page.begin(CODE, &[])?.text(text)?.end()
}

/// A text in a cell of a table.
pub(crate) fn cell(page: Markup, text: &[u8]) -> Result<Markup, NoMemory>
    ensures { IfOk result (λ more. more ≡ page) }
{
    page.begin(TD, &[])?.text(text)?.end()
}

/// A number in a cell.
pub(crate) fn number_cell(page: Markup, number: u64) -> Result<Markup, NoMemory>
    ensures { IfOk result (λ more. more ≡ record page { facts = fact.Number number ∷ page.facts }) }
{
    page.begin(TD, &[class(b"number")])?.number(number)?.end()
}

/// The words of a number in a cell, where there is one.
pub(crate) fn number_words_cell(page: Markup, words: &[u8]) -> Result<Markup, NoMemory>
    ensures { IfOk result (λ more. more ≡ page) }
{
    page.begin(TD, &[class(b"number")])?.text(words)?.end()
}

/// The name of a column of texts.
pub(crate) fn column(page: Markup, name: &[u8]) -> Result<Markup, NoMemory>
    ensures { IfOk result (λ more. more ≡ page) }
{
    page.begin(TH, &[])?.text(name)?.end()
}

/// The name of a column of numbers.
pub(crate) fn number_column(page: Markup, name: &[u8]) -> Result<Markup, NoMemory>
    ensures { IfOk result (λ more. more ≡ page) }
{
    page.begin(TH, &[class(b"number")])?.text(name)?.end()
}

/// Begins the row of a table.
pub(crate) fn begin_row(page: Markup) -> Result<Markup, NoMemory>
    ensures { IfOk result (λ more. more ≡ record page { depth = suc page.depth }) }
{
    page.begin(TR, &[])
}

/// Ends an element and its line.
pub(crate) fn end_line(page: Markup) -> Result<Markup, NoMemory>
    ensures { IfOk result (λ more. more ≡ record page { depth = pred page.depth }) }
{
    page.end()?.text(b"\n")
}

/// Begins a part of the page with its title.
pub(crate) fn begin_part(page: Markup, place: Place, title: &[u8]) -> Result<Markup, NoMemory>
    ensures { IfOk result (λ more. more ≡ record { depth = suc page.depth; facts = fact.Target place ∷ page.facts }) }
{
    let page = page.begin_at(SECTION, &[], place)?.text(b"\n")?;
    end_line(page.begin(H2, &[])?.text(title)?)
}

/// Begins a table, and in it the row of its columns' names.
pub(crate) fn begin_table(page: Markup) -> Result<Markup, NoMemory>
    ensures { IfOk result (λ more. more ≡ record page { depth = suc (suc (suc page.depth)) }) }
{
    page.begin(DIV, &[class(b"scroll")])?
        .begin(TABLE, &[])?
        .text(b"\n")?
        .begin(THEAD, &[])?
        .text(b"\n")
}

/// Ends the names of a table's columns, and begins its rows.
pub(crate) fn begin_rows(page: Markup) -> Result<Markup, NoMemory>
    ensures { IfOk result (λ more. more ≡ record page { depth = suc (pred page.depth) }) }
{
    end_line(page)?.begin(TBODY, &[])?.text(b"\n")
}

/// Ends a table.
pub(crate) fn end_table(page: Markup) -> Result<Markup, NoMemory>
    ensures { IfOk result (λ more. more ≡ record page { depth = pred (pred (pred page.depth)) }) }
{
    end_line(end_line(page)?.end()?)
}
