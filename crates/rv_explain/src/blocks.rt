//! The text of a race's block: which two instructions, how often, on which variable; what each hart did; the bytes; and the
//! entries around it.

use crate::block::{Block, RaceClass, Side};
use crate::names::{Names, TEXT_NAME, add_caller};
use crate::rows::shown_line;
use rv_collide::ending::Verdict;
use rv_memory::store::NoMemory;
use rv_prune::ordered::role_at;
use rv_prune::role::Role;
use rv_races::classes::class_word;
use rv_symbols::symbol_table::SymbolTable;
use std::alloc::Global;

/// The names of the columns.
const COLUMNS: &[u8] = b"    entry  hart  event      bytes     instruction";

/// The two instructions, the lower address first; of a change the paused one alone.
fn pair_text(alloc: Global, names: &Names, block: &Block) -> Result<String, NoMemory> {
    let pc = block.ending.access.pc;
    let Verdict::Hit(seen) = &block.ending.verdict else {
        return names.name(alloc, pc);
    };
    let one = names.name(alloc, pc.min(seen.access.pc))?;
    let other = names.name(alloc, pc.max(seen.access.pc))?;
    Ok(format!(in alloc; "{one} and {other}")?)
}

fn first_line(
    alloc: Global,
    names: &Names,
    run_words: &[u8],
    race: u64,
    block: &Block,
) -> Result<Vec<u8>, NoMemory> {
    let pair = pair_text(alloc, names, block)?;
    let reports = block.reports;
    let ending = if reports == 1 { "" } else { "s" };
    let line = format!(in alloc; "race {race}: {pair}, {reports} report{ending}, ")?;
    let mut line = line.into_bytes();
    line.extend_from_slice(class_word(block.class))?;
    line.extend_from_slice(run_words)?;
    Ok(line)
}

/// What an instruction's part in an order is.
fn role_text(role: Role) -> &'static str {
    match role {
        Role::Atomic => "an atomic access",
        Role::Release => "a store behind a fence: a release",
        Role::Acquire => "a load before a fence: an acquire",
        Role::Load => "a load",
        Role::Plain => "no part of an order",
    }
}

/// Why a race is not kept.
fn reason_line(alloc: Global, names: &Names, block: &Block) -> Result<Option<String>, NoMemory> {
    let reason = match block.class {
        RaceClass::Kept => return Ok(None),
        RaceClass::Counter => {
            "counter: both add to a word in memory, so this may be a statistics counter"
        }
        RaceClass::Unwatched => {
            "unwatched: no data breakpoint watched the pause, so this was not seen to be a race"
        }
        RaceClass::Flag => "flag: the code looks at none of the bits that changed",
        RaceClass::Named => "named: the bytes are listed by --named",
        RaceClass::Atomic => {
            "atomic: no fence orders the load; this machine is sequentially consistent and cannot show what hardware may do"
        }
        RaceClass::Ordered => {
            let image = names.symbols.image();
            let one = role_text(role_at(image, block.paused.access.pc));
            let other = role_text(role_at(image, block.other.access.pc));
            return Ok(Some(format!(in alloc; "  ordered: {one}; {other}")?));
        }
    };
    Ok(Some(format!(in alloc; "  {reason}")?))
}

/// `4 bytes at ADDR NAME`
fn bytes_text(alloc: Global, names: &Names, side: &Side) -> Result<String, NoMemory> {
    let place = names.address(alloc, side.access.first)?;
    let size = side.access.size;
    let ending = if size == 1 { "" } else { "s" };
    Ok(format!(in alloc; "{size} byte{ending} at {place}")?)
}

fn paused_line(alloc: Global, names: &Names, block: &Block) -> Result<String, NoMemory> {
    let hart = block.paused.hart;
    let verb = match (block.paused.access.read, block.paused.access.write) {
        (true, true) => "load and store",
        (false, true) => "store",
        (_, false) => "load",
    };
    let bytes = bytes_text(alloc, names, &block.paused)?;
    let number = block.number;
    Ok(format!(in alloc; "  hart {hart} was about to {verb} {bytes}, ending {number}")?)
}

fn other_line(alloc: Global, names: &Names, block: &Block) -> Result<String, NoMemory> {
    let hart = block.other.hart;
    let verb = match (block.other.access.read, block.other.access.write) {
        (true, true) => "loaded and stored",
        (false, true) => "stored",
        (_, false) => "loaded",
    };
    let bytes = bytes_text(alloc, names, &block.other)?;
    let entry = block.second;
    let last = match block.ending.verdict {
        Verdict::Changed => ", the last store",
        Verdict::Hit(_) | Verdict::Quiet => "",
    };
    Ok(format!(in alloc; "  hart {hart} {verb} {bytes}, entry {entry}{last}")?)
}

/// Adds the lines of a side's instruction, and those of its caller.
fn add_side(
    alloc: Global,
    lines: &mut Vec<Vec<u8>>,
    names: &Names,
    side: &Side,
) -> Result<(), NoMemory> {
    let instruction = names.instruction(alloc, side.access.pc, side.word)?;
    lines.push(format!(in alloc; "    {instruction}")?.into_bytes())?;
    names.add_inlined(alloc, lines, side.access.pc)?;
    add_caller(alloc, lines, names, side.caller)
}

fn values_line(alloc: Global, block: &Block) -> Result<String, NoMemory> {
    let told = &block.ending;
    let (old, start) = (told.old, told.paused_at);
    let (new, end) = (told.new, told.resumed_at);
    let bytes = format!(in alloc;
        "  bytes {old:08x} at entry {start}, the pause; {new:08x} at entry {end}, its end"
    )?;
    match told.slot {
        Some(slot) => Ok(format!(in alloc; "{bytes}; data breakpoint {slot}")?),
        None => Ok(format!(in alloc; "{bytes}; no data breakpoint")?),
    }
}

/// The lines above those of the entries. The rows about the order stand below the line of the bytes.
fn head_lines(
    alloc: Global,
    names: &Names,
    run_words: &[u8],
    race: u64,
    block: &Block,
    order: &[Vec<u8>],
) -> Result<Vec<Vec<u8>>, NoMemory> {
    let mut lines = Vec::new(alloc);
    lines.push(first_line(alloc, names, run_words, race, block)?)?;
    if let Some(reason) = reason_line(alloc, names, block)? {
        lines.push(reason.into_bytes())?;
    }
    lines.push(paused_line(alloc, names, block)?.into_bytes())?;
    add_side(alloc, &mut lines, names, &block.paused)?;
    lines.push(other_line(alloc, names, block)?.into_bytes())?;
    add_side(alloc, &mut lines, names, &block.other)?;
    lines.push(values_line(alloc, block)?.into_bytes())?;
    for row in order {
        lines.push(Vec::from_slice(alloc, row)?)?;
    }
    lines.push(Vec::new(alloc))?;
    lines.push(Vec::from_slice(alloc, COLUMNS)?)?;
    Ok(lines)
}

/// The lines of the block of race K, without LFs. Of a symbol's name at most so many bytes are shown. `run_words` stands at
/// the end of the first line: what the command says of the run. `order` has the rows about the order, where there are any.
pub(crate) fn block_lines(
    alloc: Global,
    names: &Names,
    run_words: &[u8],
    race: u64,
    block: &Block,
    order: &[Vec<u8>],
) -> Result<Vec<Vec<u8>>, NoMemory> {
    let mut lines = head_lines(alloc, names, run_words, race, block, order)?;
    for shown in &block.lines {
        lines.push(shown_line(alloc, names, block, shown)?.into_bytes())?;
    }
    Ok(lines)
}

/// The block of race K, for people: lines in ASCII, each with an LF. `run_words` stands at the end of the first: what the
/// command says of the run, empty or from a comma on. The rows of `order_rows` stand below the line of the bytes.
pub fn ordered_text(
    alloc: Global,
    symbols: &SymbolTable,
    run_words: &[u8],
    race: u64,
    block: &Block,
    order: &[Vec<u8>],
) -> Result<Vec<u8>, NoMemory> {
    let most = TEXT_NAME;
    let names = Names { symbols, most };
    let lines = block_lines(alloc, &names, run_words, race, block, order)?;
    let mut text = Vec::new(alloc);
    for line in &lines {
        text.extend_from_slice(line)?;
        text.push(b'\n')?;
    }
    Ok(text)
}

/// The line of totals: how many races, reports and endings a run had.
pub fn totals_text(
    alloc: Global,
    races: u64,
    reports: u64,
    endings: u64,
) -> Result<Vec<u8>, NoMemory> {
    let line = format!(in alloc; "races {races}, reports {reports} of {endings} endings\n")?;
    Ok(line.into_bytes())
}
