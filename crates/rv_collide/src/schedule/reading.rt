//! A schedule's text is read.
ghost use Rattle.std.specs.Prelude.{◌≡◌, ◌==◌, ◌+◌, ◌-◌, ◌*◌, ◌^◌, ◌<◌, ◌≤◌, ◌||◌, ◌∷◌, [], ℕ, List, true, false, IfOk, IfErr, IfSome, IfNone, OnSome, Ok, Err, length, take, drop, count_by};
ghost use Rattle.std.specs.Io.KnownBytes.{Consumes};
ghost use Rattle.rv_memory.specs.Flagged as flag;
ghost use Rattle.rv_text.specs.Pieces.{pieces_of};
ghost use Rattle.rv_collide.specs.Numbers.{numbers};
ghost use Rattle.rv_collide.specs.Plan.{most_entries};
ghost use Rattle.rv_collide.specs.ScheduleRead as spec;
ghost use Rattle.rv_collide.specs.internal.Before.{entries_before};

use crate::entry::Entry;
use crate::plan::Plan;
use crate::schedule::entry_line::read_entry;
use crate::schedule::fault::{ScheduleFault, ScheduleKind};
use crate::schedule::format::Format;
use crate::schedule::line::first_line;
use crate::schedule::plan_line::read_plan;
use rv_memory::flagged::{Flagged, INPUT_LIMIT};
use rv_text::laws::pieces_are_cut;
use std::alloc::Global;
use std::io::Read;

/// Reads the format in the first line, and gives the text after it too.
fn read_header(text: &[u8]) -> Result<(Format, &[u8]), ScheduleKind>
    ensures ok { IfOk result (λ said. spec.header_in (pieces_of 10 text.now) ≡ Ok said.0) }
    ensures rest { IfOk result (λ said. pieces_of 10 said.1.now ≡ drop 1 (pieces_of 10 text.now)) }
    ensures err { IfErr result (λ kind. spec.header_in (pieces_of 10 text.now) ≡ Err kind) }
    ensures told { IfErr result (λ kind. spec.is_of_text kind ≡ true) }
{
    let (line, rest) = first_line(text)?;
    if line == b"rvcollide schedule 1".as_slice() {
        Ok((Format::First, rest))
    } else if line == b"rvcollide schedule 2".as_slice() {
        Ok((Format::Second, rest))
    } else {
        Err(ScheduleKind::Header)
    }
}

/// Reads the line of the plan, and gives the text after it too.
fn read_plan_line(format: Format, text: &[u8]) -> Result<(Plan, &[u8]), ScheduleKind>
    ensures ok { IfOk result (λ said. spec.plan_in format (pieces_of 10 text.now) ≡ Ok (numbers said.0)) }
    ensures rest { IfOk result (λ said. pieces_of 10 said.1.now ≡ drop 1 (pieces_of 10 text.now)) }
    ensures err { IfErr result (λ kind. spec.plan_in format (pieces_of 10 text.now) ≡ Err kind) }
    ensures told { IfErr result (λ kind. spec.is_of_text kind ≡ true) }
{
    let (line, rest) = first_line(text)?;
    let plan = read_plan(format, line)?;
    Ok((plan, rest))
}

/// Reads the next entry, from the line of that number, and gives the text after it too. None where the
/// line is `end`, after which nothing may stand. There is room for so many entries.
fn next_entry(
    format: Format,
    text: &[u8],
    number: u32,
    room: u32,
) -> Result<Option<(Entry, &[u8])>, ScheduleFault>
    requires { number < 2 ^ 31 }
    ensures end { IfOk result (λ next. IfNone next
        (spec.entries_from format number room (pieces_of 10 text.now) ≡ Ok [])) }
    ensures more { IfOk result (λ next. IfSome next (λ said.
        spec.entries_from format number room (pieces_of 10 text.now)
        ≡ entries_before (said.0 ∷ []) (spec.entries_from format (number + 1) (room - 1) (pieces_of 10 said.1.now)))) }
    ensures room { IfOk result (λ next. OnSome next (0 < room)) }
    ensures line { IfOk result (λ next. IfSome next (λ said. (line : List ℕ)
        × (pieces_of 10 text.now ≡ line ∷ pieces_of 10 said.1.now) × (spec.entry_of format line ≡ Some said.0))) }
    ensures shorter { IfOk result (λ next. IfSome next (λ said. length said.1.now < length text.now)) }
    ensures err { IfErr result (λ fault.
        spec.entries_from format number room (pieces_of 10 text.now) ≡ Err fault) }
    ensures told { IfErr result (λ fault. spec.is_of_text fault.kind ≡ true) }
{
    let (line, rest) = match first_line(text) {
        Ok(parts) => parts,
        Err(kind) => return Err(kind.at(number)),
    };
    if line == b"end".as_slice() {
        return if rest.is_empty() {
            Ok(None)
        } else {
            Err(ScheduleKind::AfterEnd.at(number + 1))
        };
    }
    match read_entry(format, line) {
        None => Err(ScheduleKind::Entry.at(number)),
        Some(_) if room == 0 => Err(ScheduleKind::TooMany.at(number)),
        Some(entry) => Ok(Some((entry, rest))),
    }
}

/// The entries of the text, which begins with line 3. There is room for so many.
fn read_entries(
    alloc: Global,
    format: Format,
    text: &[u8],
    room: u32,
) -> Result<Vec<Entry>, ScheduleFault>
    requires { room ≤ 2_000_000 }
    ensures ok { IfOk result (λ entries.
        spec.entries_from format 3 room (pieces_of 10 text.now) ≡ Ok entries.items) }
    ensures err { IfErr result (spec.IsToldFault (spec.entries_from format 3 room (pieces_of 10 text.now))) }
    ensures reader { spec.fails_reading result ≡ false }
    ensures memory { IfErr result (λ fault. spec.is_of_text fault.kind ≡ false
        → spec.AreEntriesTo format (pieces_of 10 text.now) fault.line) }
{
    let mut entries = Vec::new(alloc);
    let mut rest = text;
    'lines: loop {
        let number = 3 + entries.len() as u32;
        let Some((entry, after)) = next_entry(format, rest, number, room - entries.len() as u32)?
        else {
            return Ok(entries);
        };
        if entries.push(entry).is_err() {
            return Err(ScheduleKind::NoMemory.at(number));
        }
        rest = after;
    }
}

/// What a text says.
fn read_text(alloc: Global, text: &[u8]) -> Result<(Plan, Vec<Entry>), ScheduleFault>
    ensures ok { IfOk result (λ said. spec.schedule_of text.now
        ≡ Ok (record { numbers = numbers said.0; entries = said.1.items })) }
    ensures err { IfErr result (spec.IsToldFault (spec.schedule_of text.now)) }
    ensures reader { spec.fails_reading result ≡ false }
    ensures place { IfErr result (λ fault. spec.IsBrokenOff text.now fault.line fault.kind) }
{
    let (format, after_header) = match read_header(text) {
        Ok(parts) => parts,
        Err(kind) => return Err(kind.at(1)),
    };
    let (plan, after_plan) = match read_plan_line(format, after_header) {
        Ok(parts) => parts,
        Err(kind) => return Err(kind.at(2)),
    };
    let entries = read_entries(alloc, format, after_plan, plan.most_entries())?;
    Ok((plan, entries))
}

/// How many LFs are in a part of the text.
fn line_feeds(part: &[u8]) -> u32
    requires { length part.now ≤ INPUT_LIMIT + 4096 }
    ensures count { result ≡ count_by (λ byte. byte == 10) part.now }
    ensures few { result ≤ INPUT_LIMIT + 4096 }
{
    part.iter().filter(|byte| **byte == b'\n').count() as u32
}

/// Reads to the text's end, or up to a place past its first `INPUT_LIMIT` bytes. No error is tried again,
/// not even `Interrupted`.
fn read_front<R: Read>(alloc: Global, reader: &mut Flagged<R>) -> Result<Vec<u8>, ScheduleFault>
    ensures front { IfOk result (λ text. IfSome (R.remaining (flag.device reader.old)) (λ known.
        (n : ℕ) × (INPUT_LIMIT ≤ n) × (text.items ≡ take n known))) }
    ensures told { IfErr result (λ fault. spec.is_of_text fault.kind ≡ false) }
    ensures taken { IfOk result (λ text.
        Consumes (R.remaining (flag.device reader.old)) (R.remaining (flag.device reader.new)) text.items) }
    ensures place { IfErr result (λ fault. (taken : List ℕ)
        × Consumes (R.remaining (flag.device reader.old)) (R.remaining (flag.device reader.new)) taken
        × spec.IsBrokenOff taken fault.line fault.kind) }
    ensures failed { flag.has_failed reader.new ≡ (flag.has_failed reader.old || spec.fails_reading result) }
{
    let mut text = Vec::new(alloc);
    let mut buffer = [0; 4096];
    'reads: while text.len() < INPUT_LIMIT {
        let Ok(count) = reader.read(&mut buffer) else {
            return Err(ScheduleKind::Read.at(1 + line_feeds(&text)));
        };
        if count == 0 {
            return Ok(text);
        }
        let part = &buffer[..count];
        if text.extend_from_slice(part).is_err() {
            let line = 1 + line_feeds(&text) + line_feeds(part);
            return Err(ScheduleKind::NoMemory.at(line));
        }
    }
    Ok(text)
}

/// Reads a plan and its entries: what the text says, or its first line with a fault (`specs/ScheduleRead.antt`).
/// Both formats are read. The texts that are read are those of `specs/Grammar.antt` (`laws::reads_the_grammar`). Where the reader
/// fails, that is told before any fault of the text. Whether a machine can make the entries is not tested
/// here.
///
/// It is enough to read 64 MiB: no line has more than 64 bytes and a plan has room for at most 1,016,384
/// entries, so that the first fault of a longer text shows in its first 66,065,156 bytes. So a reader that
/// never ends is refused.
pub fn read_schedule<R: Read>(
    alloc: Global,
    reader: &mut Flagged<R>,
) -> Result<(Plan, Vec<Entry>), ScheduleFault>
    ensures ok { IfOk result (λ said. IfSome (R.remaining (flag.device reader.old)) (λ bytes.
        spec.schedule_of bytes ≡ Ok (record { numbers = numbers said.0; entries = said.1.items }))) }
    ensures err { IfErr result (λ fault. IfSome (R.remaining (flag.device reader.old)) (λ bytes.
        spec.IsToldFault (spec.schedule_of bytes) fault)) }
    ensures place { IfErr result (λ fault. (taken : List ℕ)
        × Consumes (R.remaining (flag.device reader.old)) (R.remaining (flag.device reader.new)) taken
        × spec.IsBrokenOff taken fault.line fault.kind) }
    ensures failed { flag.has_failed reader.new ≡ (flag.has_failed reader.old || spec.fails_reading result) }
{
    pieces_are_cut();
    let text = read_front(alloc, reader)?;
    read_text(alloc, &text)
}
