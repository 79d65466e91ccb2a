//! The rows that say what difference the order makes.
use super::{OrderCounts, OrderTrials};
use crate::block::{Block, Side};
use crate::names::{Names, TEXT_NAME};
use rv_hart::access::Access;
use rv_hart::hart::Cause;
use rv_memory::store::NoMemory;
use rv_orders::{HartEnd, Tried};
use rv_symbols::symbol_table::SymbolTable;
use std::alloc::Global;

/// The most harts whose ends are shown.
const MOST_SHOWN_ENDS: usize = 4;

/// A cause in the words of the privileged architecture's table of exceptions.
pub fn cause_words(cause: Cause) -> &'static str {
    match cause {
        Cause::TargetMisaligned => "instruction address misaligned",
        Cause::FetchFault => "instruction access fault",
        Cause::Illegal => "illegal instruction",
        Cause::Breakpoint => "breakpoint",
        Cause::LoadMisaligned => "load address misaligned",
        Cause::LoadFault => "load access fault",
        Cause::StoreMisaligned => "store address misaligned",
        Cause::StoreFault => "store access fault",
        Cause::UnknownCall => "environment call",
    }
}

/// What a hart came to.
fn end_text(alloc: Global, names: &Names, end: HartEnd) -> Result<String, NoMemory> {
    match end {
        HartEnd::Exited(code) => Ok(format!(in alloc; "exits with {code:08x}")?),
        HartEnd::Stopped { cause, pc } => {
            let words = cause_words(cause);
            let place = names.place(alloc, pc)?;
            Ok(format!(in alloc; "stops with {words} at {place}")?)
        }
        HartEnd::Polls(pc) => {
            let place = names.place(alloc, pc)?;
            Ok(format!(in alloc; "waits at {place}")?)
        }
        HartEnd::Parked => Ok(format!(in alloc; "is parked")?),
        HartEnd::Running => Ok(format!(in alloc; "runs on")?),
    }
}

/// Whether a hart's two ends differ, and neither is that it runs on.
fn differ(one: HartEnd, other: HartEnd) -> bool {
    one != other && one != HartEnd::Running && other != HartEnd::Running
}

/// A copy of a trial by which harts end otherwise: which hart is first, and what those harts came to, in words.
#[derive(Drop)]
pub struct CopyText {
    pub title: Vec<u8>,
    pub ends: Vec<Vec<u8>>,
}

/// What those harts came to in a copy that came to something else in the other: the first few.
fn ends_of(
    alloc: Global,
    names: &Names,
    copy: &Tried,
    other: &Tried,
) -> Result<Vec<Vec<u8>>, NoMemory> {
    let mut ends = Vec::new(alloc);
    let both = copy.ends.iter().zip(other.ends.iter()).enumerate();
    let otherwise = both.filter(|(_, (one, other))| differ(**one, **other));
    for (h, (end, _)) in otherwise.take(MOST_SHOWN_ENDS) {
        let words = end_text(alloc, names, *end)?;
        ends.push(format!(in alloc; "hart {h} {words}")?.into_bytes())?;
    }
    Ok(ends)
}

/// What a hart does that is first.
fn verb(access: &Access) -> &'static str {
    match (access.read, access.write) {
        (true, true) => "loads and stores",
        (false, true) => "stores",
        (_, false) => "loads",
    }
}

/// The copy in which the hart of a side is first.
fn copy_text(
    alloc: Global,
    names: &Names,
    side: &Side,
    sc_fails: bool,
    copy: &Tried,
    other: &Tried,
) -> Result<CopyText, NoMemory> {
    let hart = side.hart;
    let does = verb(&side.access);
    let fails = if sc_fails { ", the SC fails" } else { "" };
    Ok(CopyText {
        title: format!(in alloc; "hart {hart} {does} first{fails}")?.into_bytes(),
        ends: ends_of(alloc, names, copy, other)?,
    })
}

/// The two copies of the first trial by which harts end otherwise, where there is one.
fn both_copies(
    alloc: Global,
    names: &Names,
    block: &Block,
    order: &OrderTrials,
) -> Result<Vec<CopyText>, NoMemory> {
    let mut copies = Vec::new(alloc);
    if let Some(trial) = &order.ends_by {
        let (one, other) = (&trial.first, &trial.second);
        copies.push(copy_text(alloc, names, &block.other, false, one, other)?)?;
        let fails = order.sc_fails;
        copies.push(copy_text(alloc, names, &block.paused, fails, other, one)?)?;
    }
    Ok(copies)
}

/// The same, with the names of symbols as texts show them.
pub fn copies_of(
    alloc: Global,
    symbols: &SymbolTable,
    block: &Block,
    order: &OrderTrials,
) -> Result<Vec<CopyText>, NoMemory> {
    let most = TEXT_NAME;
    both_copies(alloc, &Names { symbols, most }, block, order)
}

/// The line of a copy, without indent.
pub fn copy_line(alloc: Global, copy: &CopyText) -> Result<Vec<u8>, NoMemory> {
    let mut line = Vec::from_slice(alloc, &copy.title)?;
    for (n, end) in copy.ends.iter().enumerate() {
        line.extend_from_slice(if n == 0 { b": " } else { b", " })?;
        line.extend_from_slice(end)?;
    }
    Ok(line)
}

/// The row of a copy.
fn copy_row(alloc: Global, copy: &CopyText) -> Result<Vec<u8>, NoMemory> {
    let mut row = Vec::from_slice(alloc, b"    ")?;
    row.extend_from_slice(&copy_line(alloc, copy)?)?;
    Ok(row)
}

/// The row that says by how many trials what differs.
fn first_row(alloc: Global, names: &Names, order: &OrderCounts) -> Result<String, NoMemory> {
    let trials = order.trials;
    let (all, all_end) = if trials == 1 {
        ("trial", "ends")
    } else {
        ("trials", "end")
    };
    if order.ends > 0 {
        let count = order.ends;
        let end = if count == 1 { "ends" } else { "end" };
        return Ok(format!(in alloc;
            "  order matters: {count} of {trials} trials {end} otherwise"
        )?);
    }
    if order.prints > 0 {
        let count = order.prints;
        let print = if count == 1 { "prints" } else { "print" };
        return Ok(format!(in alloc; "  order: {trials} {all}, {count} {print} otherwise")?);
    }
    let alike = format!(in alloc; "  order: {trials} {all} {all_end} alike")?;
    let Some(address) = order.memory_at else {
        return Ok(alike);
    };
    let place = names.name(alloc, address)?;
    let count = order.memory;
    Ok(format!(in alloc; "{alike}, memory differs at {place} in {count}")?)
}

/// The rows of a block, for people, in ASCII, without LFs, that say what came of the trials of its order.
pub fn order_rows(
    alloc: Global,
    symbols: &SymbolTable,
    block: &Block,
    order: Option<&OrderTrials>,
) -> Result<Vec<Vec<u8>>, NoMemory> {
    match order {
        None => untried_rows(alloc),
        Some(order) => {
            let copies = copies_of(alloc, symbols, block, order)?;
            counted_rows(alloc, symbols, Some(&order.counts()), &copies)
        }
    }
}

/// The same by the counts of the trials, where there are any, and the copies of the first by which harts end otherwise.
pub fn counted_rows(
    alloc: Global,
    symbols: &SymbolTable,
    counts: Option<&OrderCounts>,
    copies: &[CopyText],
) -> Result<Vec<Vec<u8>>, NoMemory> {
    let Some(counts) = counts else {
        return untried_rows(alloc);
    };
    let most = TEXT_NAME;
    let names = Names { symbols, most };
    let mut rows = Vec::new(alloc);
    rows.push(first_row(alloc, &names, counts)?.into_bytes())?;
    for copy in copies {
        rows.push(copy_row(alloc, copy)?)?;
    }
    Ok(rows)
}

/// The row of a block whose order wasn't tried.
fn untried_rows(alloc: Global) -> Result<Vec<Vec<u8>>, NoMemory> {
    let mut rows = Vec::new(alloc);
    rows.push(format!(in alloc; "  order: not tried")?.into_bytes())?;
    Ok(rows)
}
