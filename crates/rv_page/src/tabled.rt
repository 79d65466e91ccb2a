//! The page that `show` leaves: the races of a table, without what their runs saw.
ghost use Rattle.std.specs.Prelude.{◌≡◌, ◌≤◌, ◌||◌, is_some, length, IfOk};
ghost use Rattle.rv_page.specs.PageFacts as spec;
ghost use Rattle.rv_markup.specs.Markup.{IsDocument};

use crate::elements::end_line;
use crate::page::begin_body;
use crate::races::{races_part, races_shown};
use crate::runs::{apart_part, tabled_warnings_part};
use crate::terms::terms_part;
use rv_explain::symbol_table::SymbolTable;
use rv_markup::markup::Markup;
use rv_markup::tag::{LINK, NAV, Place};
use rv_memory::store::NoMemory;
use rv_report::key::Key;
use rv_shown::options::LineParts;
use rv_shown::outcome::Tabled;
use rv_shown::saying::lines::tabled_line;
use rv_shown::shown::{ShownOrder, ShownRace};
use rv_tables::row::RaceRow;
use std::alloc::Global;

/// A link to the races.
fn link(page: Markup) -> Result<Markup, NoMemory>
    ensures { IfOk result (λ more. more ≡ record page { facts = spec.link_to_races page.facts }) }
{
    let page = page.begin(NAV, &[])?;
    let page = page.begin_link(LINK, Place::Races)?.text(b"races")?.end()?;
    end_line(page)
}

/// The page of the races of a table. Those that are told stand in their order, the first of them in full.
pub fn tabled_page(
    alloc: Global,
    line: &LineParts<'_>,
    symbols: &SymbolTable,
    tabled: &Tabled,
    told: &[(Key, RaceRow)],
    shown: &[ShownRace],
    orders: &[ShownOrder],
) -> Result<Vec<u8>, NoMemory>
    requires shown { length shown.now ≤ length told.now }
    requires orders { length orders.now ≡ length shown.now }
    ensures { IfOk result (λ text. IsDocument text.items
        (spec.table_facts (is_some tabled.now.gone || tabled.now.misses) tabled.now.rows.now tabled.now.ignored.now told.now (length shown.now))) }
{
    let summary = tabled_line(alloc, tabled)?;
    let page = link(begin_body(Markup::new(alloc), line, summary.as_bytes())?)?;
    let page = tabled_warnings_part(page, alloc, tabled)?;
    let page = races_part(page, alloc, symbols, shown.len(), told, tabled.new)?;
    let page = races_shown(page, alloc, line, symbols, told, tabled.new, shown, orders)?;
    let page = terms_part(apart_part(page, alloc, tabled.rows, tabled.ignored)?)?;
    Ok(end_line(end_line(page)?)?.finish())
}
