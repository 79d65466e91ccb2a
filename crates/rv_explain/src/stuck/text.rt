//! The text of a stuck end: of each hart what it does, and of one that polls its round, what that reads, and where its function
//! was called from.
use super::called::{least_pc, least_place};
use super::{ReadBytes, StuckBlock, StuckHart, Waiting};
use crate::names::{Names, TEXT_NAME, add_caller};
use rv_memory::store::NoMemory;
use rv_stuck::RoundStep;
use rv_symbols::symbol_table::SymbolTable;
use std::alloc::Global;

/// The most instructions of a round that are shown.
const MOST_SHOWN_STEPS: usize = 16;

/// The most ranges of bytes that are shown of those that a round reads.
const MOST_SHOWN_READS: usize = 8;

/// `stuck 1: 2 harts wait for ever`, and what the command says of the run.
fn first_line(
    alloc: Global,
    run_words: &[u8],
    number: u64,
    block: &StuckBlock,
) -> Result<Vec<u8>, NoMemory> {
    let waiting = block
        .harts
        .iter()
        .filter(|hart| matches!(hart, StuckHart::Waits(_)))
        .count();
    let wait = if waiting == 1 {
        "hart waits"
    } else {
        "harts wait"
    };
    let line = format!(in alloc; "stuck {number}: {waiting} {wait} for ever")?;
    let mut line = line.into_bytes();
    line.extend_from_slice(run_words)?;
    Ok(line)
}

/// How many more there are than are shown, where there are more.
fn add_rest(
    alloc: Global,
    lines: &mut Vec<Vec<u8>>,
    count: usize,
    most: usize,
) -> Result<(), NoMemory> {
    let more = count.saturating_sub(most);
    if more > 0 {
        lines.push(format!(in alloc; "    .. and {more} more")?.into_bytes())?;
    }
    Ok(())
}

/// The instructions of a round, from its least address on.
fn add_steps(
    alloc: Global,
    lines: &mut Vec<Vec<u8>>,
    names: &Names,
    steps: &[RoundStep],
) -> Result<(), NoMemory> {
    let first = least_place(steps);
    let (front, back) = (steps.iter().take(first), steps.iter().skip(first));
    for step in back.chain(front).take(MOST_SHOWN_STEPS) {
        let instruction = names.instruction(alloc, step.pc, step.word)?;
        lines.push(format!(in alloc; "    {instruction}")?.into_bytes())?;
        names.add_inlined(alloc, lines, step.pc)?;
    }
    add_rest(alloc, lines, steps.len(), MOST_SHOWN_STEPS)
}

/// `reads ADDR NAME: BYTES`, and who wrote them last, where somebody did.
fn read_line(alloc: Global, names: &Names, read: &ReadBytes) -> Result<String, NoMemory> {
    let place = names.address(alloc, read.first)?;
    let value = read.value;
    let Some(writer) = read.writer else {
        return Ok(format!(in alloc; "    reads {place}: {value:08x}")?);
    };
    let (hart, entry) = (writer.hart, writer.entry);
    let by = names.place(alloc, writer.pc)?;
    Ok(format!(in alloc;
        "    reads {place}: {value:08x}, last written by hart {hart} at entry {entry}, {by}"
    )?)
}

fn add_reads(
    alloc: Global,
    lines: &mut Vec<Vec<u8>>,
    names: &Names,
    reads: &[ReadBytes],
) -> Result<(), NoMemory> {
    for read in reads.iter().take(MOST_SHOWN_READS) {
        lines.push(read_line(alloc, names, read)?.into_bytes())?;
    }
    add_rest(alloc, lines, reads.len(), MOST_SHOWN_READS)
}

/// The lines of a hart that polls.
fn add_polling(
    alloc: Global,
    lines: &mut Vec<Vec<u8>>,
    names: &Names,
    h: usize,
    waiting: &Waiting,
) -> Result<(), NoMemory> {
    let count = waiting.steps.len();
    let ending = if count == 1 { "" } else { "s" };
    let place = names.address(alloc, least_pc(&waiting.steps))?;
    let line = format!(in alloc; "  hart {h} goes round {count} instruction{ending} at {place}")?;
    lines.push(line.into_bytes())?;
    add_steps(alloc, lines, names, &waiting.steps)?;
    add_reads(alloc, lines, names, &waiting.reads)?;
    add_caller(alloc, lines, names, waiting.caller)
}

/// The lines of a hart.
fn add_hart(
    alloc: Global,
    lines: &mut Vec<Vec<u8>>,
    names: &Names,
    h: usize,
    hart: &StuckHart,
) -> Result<(), NoMemory> {
    let line = match hart {
        StuckHart::Exited => format!(in alloc; "  hart {h} exited")?,
        StuckHart::Stopped => format!(in alloc; "  hart {h} stopped")?,
        StuckHart::Waits(waiting) if waiting.reads.is_empty() => {
            let place = names.place(alloc, least_pc(&waiting.steps))?;
            format!(in alloc; "  hart {h} is parked at {place}")?
        }
        StuckHart::Waits(waiting) => return add_polling(alloc, lines, names, h, waiting),
    };
    lines.push(line.into_bytes())?;
    Ok(())
}

/// The lines of the block of stuck end K, for people, in ASCII, without LFs. `run_words` stands at the end of the first: what
/// the command says of the run, empty or from a comma on.
pub fn stuck_lines(
    alloc: Global,
    symbols: &SymbolTable,
    run_words: &[u8],
    number: u64,
    block: &StuckBlock,
) -> Result<Vec<Vec<u8>>, NoMemory> {
    let most = TEXT_NAME;
    let names = Names { symbols, most };
    let mut lines = Vec::new(alloc);
    lines.push(first_line(alloc, run_words, number, block)?)?;
    for (h, hart) in block.harts.iter().enumerate() {
        add_hart(alloc, &mut lines, &names, h, hart)?;
    }
    Ok(lines)
}

/// The same as a text: each line with an LF.
pub fn stuck_text(
    alloc: Global,
    symbols: &SymbolTable,
    run_words: &[u8],
    number: u64,
    block: &StuckBlock,
) -> Result<Vec<u8>, NoMemory> {
    let lines = stuck_lines(alloc, symbols, run_words, number, block)?;
    let mut text = Vec::new(alloc);
    for line in &lines {
        text.extend_from_slice(line)?;
        text.push(b'\n')?;
    }
    Ok(text)
}
