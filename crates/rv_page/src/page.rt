//! The page that a hunt leaves: one HTML file that stands alone, for whoever looks at a nightly job's results.
//!
//! It is well formed, runs no script and fetches nothing, as `rv_markup` has it. `specs/PageFacts.antt` has which places, links
//! and numbers it shows.
ghost use Rattle.std.specs.Prelude.{◌≡◌, ◌≤◌, length, suc, IfOk};
ghost use Rattle.rv_page.specs.PageFacts as spec;
ghost use Rattle.rv_markup.specs.Markup.{IsDocument};

use crate::elements::{code, end_line};
use crate::races::{races_part, races_shown};
use crate::runs::{aside_part, ended_part, seen_part, warnings_part};
use crate::stuck::stuck_part;
use crate::style::RULES;
use crate::terms::terms_part;
use rv_explain::symbol_table::SymbolTable;
use rv_markup::markup::Markup;
use rv_markup::tag::{
    Attribute, BODY, CHARSET, CONTENT, H1, HEAD, HTML, LANG, LINK, META, NAME, NAV, P, Place,
    STYLE, TITLE,
};
use rv_memory::store::NoMemory;
use rv_report::key::Key;
use rv_shown::options::LineParts;
use rv_shown::outcome::Outcome;
use rv_shown::saying::lines::summary_line;
use rv_shown::shown::{ShownOrder, ShownRace};
use rv_tables::row::RaceRow;
use std::alloc::Global;

/// What stands before the body.
fn head(page: Markup, summary: &[u8]) -> Result<Markup, NoMemory>
    ensures { IfOk result (λ more. more ≡ page) }
{
    let charset = Attribute {
        name: CHARSET,
        value: b"utf-8",
    };
    let name = Attribute {
        name: NAME,
        value: b"viewport",
    };
    let content = Attribute {
        name: CONTENT,
        value: b"width=device-width, initial-scale=1",
    };
    let page = page.begin(HEAD, &[])?.text(b"\n")?;
    let page = page.empty(META, &[charset])?.text(b"\n")?;
    let page = page.empty(META, &[name, content])?.text(b"\n")?;
    let page = end_line(page.begin(TITLE, &[])?.text(summary)?)?;
    let page = page.begin(STYLE, &[])?.text(b"\n")?.text(RULES)?;
    end_line(end_line(page)?)
}

/// Links to parts of the page.
fn links(page: Markup) -> Result<Markup, NoMemory>
    ensures { IfOk result (λ more. more ≡ record page { facts = spec.links_facts page.facts }) }
{
    let page = page.begin(NAV, &[])?;
    let page = page.begin_link(LINK, Place::Races)?.text(b"races")?.end()?;
    let page = page.text(b" ")?.begin_link(LINK, Place::Ended)?;
    let page = page.text(b"how harts ended")?.end()?;
    let page = page.text(b" ")?.begin_link(LINK, Place::Seen)?;
    end_line(page.text(b"what was seen")?.end()?)
}

/// What stands above the links of a page.
pub(crate) fn begin_body(
    page: Markup,
    line: &LineParts<'_>,
    summary: &[u8],
) -> Result<Markup, NoMemory>
    ensures { IfOk result (λ more. more ≡ record { depth = suc (suc page.depth); facts = page.facts }) }
{
    let lang = Attribute {
        name: LANG,
        value: b"en",
    };
    let page = page.doctype()?.begin(HTML, &[lang])?.text(b"\n")?;
    let page = head(page, summary)?.begin(BODY, &[])?.text(b"\n")?;
    let page = end_line(page.begin(H1, &[])?.text(summary)?)?;
    let page = code(page.begin(P, &[])?, line.command.as_bytes())?;
    end_line(page)
}

/// What stands above all parts of the page.
fn begin_page(page: Markup, line: &LineParts<'_>, summary: &[u8]) -> Result<Markup, NoMemory>
    ensures { IfOk result (λ more. more ≡ record { depth = suc (suc page.depth); facts = spec.links_facts page.facts }) }
{
    links(begin_body(page, line, summary)?)
}

/// The races: their table, and the first of them in full.
fn told_races(
    page: Markup,
    alloc: Global,
    line: &LineParts<'_>,
    symbols: &SymbolTable,
    outcome: &Outcome,
    told: &[(Key, RaceRow)],
    shown: &[ShownRace],
    orders: &[ShownOrder],
) -> Result<Markup, NoMemory>
    requires shown { length shown.now ≤ length told.now }
    requires orders { length orders.now ≡ length shown.now }
    ensures { IfOk result (λ more. more ≡ record page { facts = spec.told_facts told.now (length shown.now) page.facts }) }
{
    let page = races_part(page, alloc, symbols, shown.len(), told, outcome.new)?;
    races_shown(page, alloc, line, symbols, told, outcome.new, shown, orders)
}

/// What stands below the races.
fn below_races(
    page: Markup,
    alloc: Global,
    symbols: &SymbolTable,
    outcome: &Outcome,
) -> Result<Markup, NoMemory>
    ensures { IfOk result (λ more. more ≡ record page { facts = spec.runs_facts outcome.now page.facts }) }
{
    let page = aside_part(page, alloc, outcome)?;
    let page = ended_part(page, alloc, symbols, outcome)?;
    seen_part(page, alloc, symbols, outcome)
}

/// The page of what a hunt came to. The races that are told stand in their order, the first of them in full.
pub fn page_text(
    alloc: Global,
    line: &LineParts<'_>,
    symbols: &SymbolTable,
    outcome: &Outcome,
    told: &[(Key, RaceRow)],
    shown: &[ShownRace],
    orders: &[ShownOrder],
) -> Result<Vec<u8>, NoMemory>
    requires shown { length shown.now ≤ length told.now }
    requires orders { length orders.now ≡ length shown.now }
    ensures { IfOk result (λ text. IsDocument text.items
        (spec.page_facts outcome.now told.now (length shown.now))) }
{
    let summary = summary_line(alloc, outcome)?;
    let page = begin_page(Markup::new(alloc), line, summary.as_bytes())?;
    let page = warnings_part(page, alloc, symbols, outcome)?;
    let page = told_races(page, alloc, line, symbols, outcome, told, shown, orders)?;
    let page = stuck_part(page, alloc, line, symbols, outcome)?;
    let page = terms_part(below_races(page, alloc, symbols, outcome)?)?;
    Ok(end_line(end_line(page)?)?.finish())
}
