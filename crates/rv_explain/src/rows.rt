//! The lines of entries, in columns: the entry's number, its hart, what happened, the report's bytes where the entry wrote
//! one of them, and the instruction.
use crate::block::Block;
use crate::meeting::{is_within, met, wrote};
use crate::names::Names;
use crate::row::{After, Row, Shown};
use rv_collide::ending::Verdict;
use rv_collide::entry::Entry;
use rv_memory::store::NoMemory;
use std::alloc::Global;

fn verdict_mark(verdict: &Verdict) -> &'static str {
    match verdict {
        Verdict::Hit(_) => "hit",
        Verdict::Changed => "changed",
        Verdict::Quiet => "",
    }
}

fn step_mark(block: &Block, row: &Row) -> &'static str {
    let told = &block.ending;
    match row.after {
        _ if row.place == block.second => verdict_mark(&told.verdict),
        After::Exited => "exited",
        After::Stopped => "stopped",
        After::GoesOn if is_within(told, row.place) && met(&told.access, &row.access) => "meets",
        After::GoesOn => "",
    }
}

/// What happened at an entry.
pub(crate) fn mark_of(alloc: Global, block: &Block, row: &Row) -> Result<String, NoMemory> {
    let mark = match row.entry {
        Entry::Paused(_, Some(slot)) => return Ok(format!(in alloc; "paused {slot}")?),
        Entry::Paused(_, None) => "unwatched",
        Entry::Resumed(_) => "resumed",
        Entry::Armed(_) => "armed",
        Entry::Disarmed(_) => "disarmed",
        Entry::Stepped(_) => step_mark(block, row),
    };
    Ok(String::from_str(alloc, mark)?)
}

/// The hart of an entry.
pub(crate) fn hart_shown(entry: Entry) -> Option<u8> {
    match entry {
        Entry::Stepped(hart) | Entry::Paused(hart, _) | Entry::Resumed(hart) => Some(hart),
        Entry::Armed(_) | Entry::Disarmed(_) => None,
    }
}

fn hart_of(alloc: Global, entry: Entry) -> Result<String, NoMemory> {
    match hart_shown(entry) {
        Some(hart) => Ok(format!(in alloc; "{hart}")?),
        None => Ok(String::new(alloc)),
    }
}

/// The report's bytes, where the entry wrote one of them.
pub(crate) fn bytes_shown(block: &Block, row: &Row) -> Option<u32> {
    if wrote(&block.ending.access, &row.access) {
        Some(row.bytes)
    } else {
        None
    }
}

fn bytes_of(alloc: Global, block: &Block, row: &Row) -> Result<String, NoMemory> {
    match bytes_shown(block, row) {
        Some(bytes) => Ok(format!(in alloc; "{bytes:08x}")?),
        None => Ok(String::new(alloc)),
    }
}

/// The instruction, or the site that was armed.
fn place_of(alloc: Global, names: &Names, row: &Row) -> Result<String, NoMemory> {
    match row.entry {
        Entry::Armed(address) | Entry::Disarmed(address) => names.place(alloc, address),
        _ => names.instruction(alloc, row.pc, row.word),
    }
}

/// The line of an entry. That of a resumption ends behind what happened.
fn row_line(alloc: Global, names: &Names, block: &Block, row: &Row) -> Result<String, NoMemory> {
    let number = row.place;
    let hart = hart_of(alloc, row.entry)?;
    let mark = mark_of(alloc, block, row)?;
    if let Entry::Resumed(_) = row.entry {
        return Ok(format!(in alloc; "{number:>9}{hart:>6}  {mark}")?);
    }
    let bytes = bytes_of(alloc, block, row)?;
    let place = place_of(alloc, names, row)?;
    Ok(format!(in alloc; "{number:>9}{hart:>6}  {mark:<9}  {bytes:<8}  {place}")?)
}

/// The line of an entry, or of some that are left out.
pub(crate) fn shown_line(
    alloc: Global,
    names: &Names,
    block: &Block,
    shown: &Shown,
) -> Result<String, NoMemory> {
    match shown {
        Shown::Row(row) => row_line(alloc, names, block, row),
        Shown::Gap {
            entries,
            meeting: 0,
        } => Ok(format!(in alloc; "       .. {entries} entries")?),
        Shown::Gap { entries, meeting } => {
            Ok(format!(in alloc; "       .. {entries} entries, {meeting} of them meet the bytes")?)
        }
    }
}
