//! The stuck ends, as text.
ghost use Rattle.std.specs.Prelude.{◌≡◌, IfOk};

use crate::elements::end_line;
use rv_explain::symbol_table::SymbolTable;
use rv_markup::markup::Markup;
use rv_markup::tag::{H2, P, PRE, SECTION};
use rv_memory::store::NoMemory;
use rv_search::tally::Tally;
use rv_shown::options::LineParts;
use rv_shown::outcome::Outcome;
use rv_shown::saying::lines::counted;
use rv_shown::shown::ShownStuck;
use rv_shown::texts::stuck_end_text;
use std::alloc::Global;

/// A block of each stuck end that is shown.
fn blocks(
    page: Markup,
    alloc: Global,
    line: &LineParts<'_>,
    symbols: &SymbolTable,
    saw: &Tally,
    shown: &[ShownStuck],
) -> Result<Markup, NoMemory>
    ensures { IfOk result (λ more. more ≡ page) }
{
    let mut page = page;
    for n in 0..shown.len() {
        let text = stuck_end_text(alloc, line, symbols, saw, n as u64 + 1, &shown[n])?;
        page = end_line(page.begin(PRE, &[])?.text(&text)?)?;
    }
    Ok(page)
}

/// The part of the stuck ends, where there are any.
pub(crate) fn stuck_part(
    page: Markup,
    alloc: Global,
    line: &LineParts<'_>,
    symbols: &SymbolTable,
    outcome: &Outcome,
) -> Result<Markup, NoMemory>
    ensures { IfOk result (λ more. more ≡ page) }
{
    let ends = outcome.stuck;
    if ends.count == 0 {
        return Ok(page);
    }
    let count = counted(alloc, ends.count as u64, "end")?;
    let page = page.begin(SECTION, &[])?.text(b"\n")?;
    let page = end_line(page.begin(H2, &[])?.text(b"Harts that wait for ever")?)?;
    let page = page.begin(P, &[])?.text(count.as_bytes())?;
    let page = end_line(page.text(b" of walks and probes in which all harts that run wait")?)?;
    let page = blocks(page, alloc, line, symbols, &outcome.saw.tally, &ends.shown)?;
    end_line(page)
}
