//! The races in the page: a table of all with a link to each that is shown in full, and each of these. Their numbers are their
//! places, from 1 on.
ghost use Rattle.std.specs.Prelude.{◌≡◌, ◌≤◌, ◌∷◌, nat_le, length, IfOk};
ghost use Rattle.rv_page.specs.PageFacts as spec;
ghost use Rattle.rv_markup.specs.declared.markup.Fact.TheVariants as fact;

use crate::elements::{
    begin_part, begin_row, begin_rows, begin_table, cell, class, code, column, end_line, end_table,
    number_cell, number_column,
};
use crate::orders::order_part;
use rv_explain::block::RaceClass;
use rv_explain::picture::draw_picture;
use rv_explain::symbol_table::SymbolTable;
use rv_markup::markup::Markup;
use rv_markup::tag::{DETAILS, FIGURE, H3, LINK, P, PRE, Place, SECTION, SUMMARY, TD};
use rv_memory::store::NoMemory;
use rv_races::classes::class_word;
use rv_report::key::Key;
use rv_shown::options::LineParts;
use rv_shown::saying::index::names_of;
use rv_shown::saying::unexpected::{is_among, mark};
use rv_shown::shown::{ShownOrder, ShownRace};
use rv_shown::texts::race_text;
use rv_tables::expected::is_likely_benign;
use rv_tables::row::RaceRow;
use std::alloc::Global;

/// How many races of a page have a picture.
const MOST_PICTURES: u64 = 100;

/// A link to a race that is shown in full, or its number.
fn link_cell(page: Markup, is_full: bool, number: u64) -> Result<Markup, NoMemory>
    ensures { IfOk result (λ more. more ≡ record page { facts = spec.link_facts is_full number page.facts }) }
{
    let page = page.begin(TD, &[class(b"link")])?;
    if !is_full {
        return page.text(b"race ")?.number(number)?.end();
    }
    let page = page.begin_link(LINK, Place::Race(number))?;
    page.text(b"race ")?.number(number)?.end()?.end()
}

/// The class of a race, and whether it is new.
fn class_cell(page: Markup, class: RaceClass, is_new: bool) -> Result<Markup, NoMemory>
    ensures { IfOk result (λ more. more ≡ page) }
{
    let page = page.begin(TD, &[])?.text(class_word(class))?;
    page.text(mark(is_new).as_bytes())?.end()
}

/// The row of a race.
fn race_row(
    page: Markup,
    alloc: Global,
    symbols: &SymbolTable,
    full: usize,
    number: u64,
    race: &(Key, RaceRow),
    is_new: bool,
) -> Result<Markup, NoMemory>
    ensures { IfOk result (λ more. more ≡ record page { facts = spec.race_row_facts full number race.now page.facts }) }
{
    let (key, row) = race;
    let names = names_of(alloc, symbols, key)?;
    let page = link_cell(begin_row(page)?, number <= full as u64, number)?;
    let page = code(page.begin(TD, &[])?, &names)?.end()?;
    let page = class_cell(page, row.class, is_new)?;
    let page = number_cell(page, row.count)?;
    end_line(number_cell(page, u64::from(row.run))?)
}

/// The rows of all races.
fn race_rows(
    page: Markup,
    alloc: Global,
    symbols: &SymbolTable,
    full: usize,
    told: &[(Key, RaceRow)],
    unexpected: &[(Key, RaceRow)],
) -> Result<Markup, NoMemory>
    ensures { IfOk result (λ more. more ≡ record page { facts = spec.race_rows_facts full told.now page.facts }) }
{
    let mut page = page;
    for (n, race) in told.iter().enumerate() {
        let is_new = is_among(unexpected, &race.0);
        page = race_row(page, alloc, symbols, full, n as u64 + 1, race, is_new)?;
    }
    Ok(page)
}

/// The table of the races.
fn races_table(
    page: Markup,
    alloc: Global,
    symbols: &SymbolTable,
    full: usize,
    told: &[(Key, RaceRow)],
    unexpected: &[(Key, RaceRow)],
) -> Result<Markup, NoMemory>
    ensures { IfOk result (λ more. more ≡ record page { facts = spec.race_rows_facts full told.now page.facts }) }
{
    let page = column(begin_row(begin_table(page)?)?, b"")?;
    let page = column(column(page, b"instructions")?, b"class")?;
    let page = number_column(number_column(page, b"reports")?, b"run")?;
    let page = begin_rows(end_line(page)?)?;
    end_table(race_rows(page, alloc, symbols, full, told, unexpected)?)
}

/// The part with that table, or which says that there is no race. So many of the races are shown in full.
pub(crate) fn races_part(
    page: Markup,
    alloc: Global,
    symbols: &SymbolTable,
    full: usize,
    told: &[(Key, RaceRow)],
    unexpected: &[(Key, RaceRow)],
) -> Result<Markup, NoMemory>
    ensures { IfOk result (λ more. more ≡ record page { facts = spec.races_facts full told.now page.facts }) }
{
    let page = begin_part(page, Place::Races, b"Races")?;
    if told.is_empty() {
        let page = page.begin(P, &[])?.text(b"There is no race to show.")?;
        return end_line(end_line(page)?);
    }
    end_line(races_table(page, alloc, symbols, full, told, unexpected)?)
}

/// A block as text.
fn block_element(page: Markup, block: &[u8]) -> Result<Markup, NoMemory>
    ensures { IfOk result (λ more. more ≡ page) }
{
    end_line(page.begin(PRE, &[])?.text(block)?)
}

/// What is shown of a race below its title: its picture and its block, folded, or the block alone.
fn content_of(
    page: Markup,
    alloc: Global,
    line: &LineParts<'_>,
    symbols: &SymbolTable,
    number: u64,
    row: &RaceRow,
    is_new: bool,
    shown: &ShownRace,
    order: &ShownOrder,
) -> Result<Markup, NoMemory>
    ensures { IfOk result (λ more. more ≡ page) }
{
    let block = race_text(alloc, line, symbols, number, row, is_new, shown, order)?;
    let page = order_part(page, alloc, symbols, order)?;
    if number > MOST_PICTURES {
        return block_element(page, &block);
    }
    let page = page.begin(FIGURE, &[])?.text(b"\n")?;
    let page = draw_picture(page, alloc, symbols, number, &shown.block)?;
    let page = end_line(page)?;
    let page = page.begin(DETAILS, &[class(b"text")])?.text(b"\n")?;
    let page = page.begin(SUMMARY, &[])?.text(b"the same as text")?;
    end_line(block_element(end_line(page)?, &block)?)
}

/// The title of a race that may be a bug, which stands open.
fn open_title(page: Markup, number: u64) -> Result<Markup, NoMemory>
    ensures { IfOk result (λ more. more ≡ record page { facts = fact.Number number ∷ page.facts }) }
{
    end_line(page.begin(H3, &[])?.text(b"race ")?.number(number)?)
}

/// The title of one that is likely benign, which is folded.
fn folded_title(page: Markup, number: u64, names: &[u8], class: &[u8]) -> Result<Markup, NoMemory>
    ensures { IfOk result (λ more. more ≡ record page { facts = fact.Number number ∷ page.facts }) }
{
    let page = page.begin(SUMMARY, &[])?.text(b"race ")?.number(number)?;
    let page = code(page.text(b": ")?, names)?;
    end_line(page.text(b", ")?.text(class)?)
}

/// A race of that number, in full.
fn race_shown(
    page: Markup,
    alloc: Global,
    line: &LineParts<'_>,
    symbols: &SymbolTable,
    number: u64,
    race: &(Key, RaceRow),
    is_new: bool,
    shown: &ShownRace,
    order: &ShownOrder,
) -> Result<Markup, NoMemory>
    ensures { IfOk result (λ more. more ≡ record page { facts = spec.shown_facts number page.facts }) }
{
    let (key, row) = race;
    let place = Place::Race(number);
    let page = if is_likely_benign(row.class) {
        let names = names_of(alloc, symbols, key)?;
        let page = page
            .begin_at(DETAILS, &[class(b"race")], place)?
            .text(b"\n")?;
        folded_title(page, number, &names, class_word(row.class))?
    } else {
        open_title(page.begin_at(SECTION, &[], place)?.text(b"\n")?, number)?
    };
    end_line(content_of(
        page, alloc, line, symbols, number, row, is_new, shown, order,
    )?)
}

/// The races that are shown in full, one by one: the first of those that are told.
pub(crate) fn races_shown(
    page: Markup,
    alloc: Global,
    line: &LineParts<'_>,
    symbols: &SymbolTable,
    told: &[(Key, RaceRow)],
    unexpected: &[(Key, RaceRow)],
    shown: &[ShownRace],
    orders: &[ShownOrder],
) -> Result<Markup, NoMemory>
    requires shown { length shown.now ≤ length told.now }
    requires orders { length orders.now ≡ length shown.now }
    ensures { IfOk result (λ more. more ≡ record page { facts = spec.all_shown_facts (length shown.now) page.facts }) }
{
    let mut page = page;
    for n in 0..shown.len() {
        page = race_shown(
            page,
            alloc,
            line,
            symbols,
            n as u64 + 1,
            &told[n],
            is_among(unexpected, &told[n].0),
            &shown[n],
            &orders[n],
        )?;
    }
    Ok(page)
}
