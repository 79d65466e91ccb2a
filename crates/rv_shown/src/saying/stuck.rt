//! The lines of a stuck end.
use crate::shown::ShownStuck;
use rv_explain::stuck::stuck_lines;
use rv_explain::symbol_table::SymbolTable;
use rv_memory::store::NoMemory;
use rv_search::stuck::StuckRow;
use rv_search::tally::Tally;
use std::alloc::Global;

/// In how many walks and probes it was met, and where first.
fn met_words(alloc: Global, saw: &Tally, row: &StuckRow) -> Result<String, NoMemory> {
    let walks = row.walks;
    let all = saw.walks();
    let run = row.run;
    let harts = row.harts;
    let steps = row.steps;
    let probes = match row.probes {
        0 => format!(in alloc; "")?,
        1 => format!(in alloc; " and 1 probe")?,
        some => format!(in alloc; " and {some} probes")?,
    };
    let part = match row.part {
        0 => format!(in alloc; "")?,
        part => format!(in alloc; ", probe {part}")?,
    };
    Ok(format!(in alloc;
        ", in {walks} of {all} walks{probes}, first in run {run}{part}, {harts} harts, after {steps} steps"
    )?)
}

/// The lines of the block of a stuck end of that number, without LFs.
pub(crate) fn stuck_block_lines(
    alloc: Global,
    symbols: &SymbolTable,
    saw: &Tally,
    number: u64,
    shown: &ShownStuck,
) -> Result<Vec<Vec<u8>>, NoMemory> {
    let words = met_words(alloc, saw, &shown.row)?;
    let mut lines = stuck_lines(alloc, symbols, words.as_bytes(), number, &shown.block)?;
    if shown.is_every {
        let question =
            b"  in every walk: are these idle loops (--idle), or is it started with too few harts?";
        lines.push(Vec::from_slice(alloc, question)?)?;
    }
    Ok(lines)
}
