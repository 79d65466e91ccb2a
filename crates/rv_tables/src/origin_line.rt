//! The line of what a hunt table is of is read, as `specs/OriginRead.antt` has it.
ghost use Rattle.std.specs.Prelude.{◌≡◌, ◌+◌, ◌<◌, ◌^◌, ◌∷◌, [], drop, Ok, IfOk, IfErr, OnSome, option_map};
ghost use Rattle.std.specs.Option.{option_copied};
ghost use Rattle.rv_collide.specs.ScheduleRead.{is_over, named, words_of};
ghost use Rattle.rv_tables.specs.HuntRead as table;
ghost use Rattle.rv_tables.specs.Origin as spec;
ghost use Rattle.rv_tables.specs.OriginRead as read;

use crate::fault::{ReadFault, TableKind, at};
use crate::format::TableFormat;
use crate::number::read_large;
use crate::origin::{Heading, Origin, Stretch, end_of};
use crate::reading::{read_either, read_table};
use crate::table::HuntTable;
use memchr::memmem;
use rv_memory::store::NoMemory;
use rv_text::pieces::Pieces;
use std::alloc::Global;

/// The rows of a hunt table, and what it is of, where it says that.
#[derive(Drop)]
pub struct ReadTable {
    pub rows: HuntTable,
    pub origin: Option<Origin>,
}

/// A number of 64 bits.
fn read_number(word: &[u8]) -> Option<u64>
    ensures { result ≡ spec.number_in word.now }
{
    read_large(word)?
}

/// The word that follows the name, of the next two words.
fn word_after<'a>(words: &mut Pieces<'a>, name: &[u8]) -> Option<&'a [u8]>
    ensures value { option_copied result ≡ spec.word_after name.now words.old }
    ensures rest { OnSome result (words.new ≡ drop 2 words.old) }
{
    let word = words.next_piece()?;
    let next = words.next_piece()?;
    if word == name { Some(next) } else { None }
}

/// The number that follows the name, of the next two words.
fn number_after(words: &mut Pieces<'_>, name: &[u8]) -> Option<u64>
    ensures value { result ≡ table.option_then (named name.now words.old) table.sized }
    ensures rest { OnSome result (words.new ≡ drop 2 words.old) }
{
    let word = words.next_piece()?;
    let numeral = words.next_piece()?;
    if word == name {
        read_number(numeral)
    } else {
        None
    }
}

/// `R runs N`, of the next three words.
fn read_stretch(words: &mut Pieces<'_>) -> Option<Stretch>
    ensures value { result ≡ spec.stretch_in words.old }
    ensures rest { OnSome result (words.new ≡ drop 3 words.old) }
{
    let numeral = words.next_piece()?;
    let name = words.next_piece()?;
    let runs = words.next_piece()?;
    if name != b"runs".as_slice() {
        return None;
    }
    let first = read_number(numeral)?;
    let end = first.checked_add(read_number(runs)?)?;
    Some(Stretch { first, end })
}

/// The text of words, with a blank before each: of the first one, and of those that are left.
fn rest_text(
    alloc: Global,
    first: Option<&[u8]>,
    words: &mut Pieces<'_>,
) -> Result<Vec<u8>, NoMemory>
    ensures { IfOk result (λ text. text.items ≡ spec.words_text (read.onto (option_copied first.entry) words.old)) }
{
    let mut text = Vec::new(alloc);
    let mut next = first;
    'words: loop {
        let Some(word) = next else {
            return Ok(text);
        };
        text.push(b' ')?;
        text.extend_from_slice(word)?;
        next = words.next_piece();
    }
}

/// Whether the stretch begins behind the others, and not at once.
fn is_behind(before: &[Stretch], stretch: Stretch) -> bool
    ensures { result ≡ spec.is_behind before.now stretch }
{
    before.is_empty() || end_of(before) < stretch.first
}

/// The stretches that the words begin with, and the first word behind them. None where one is malformed.
fn read_stretches<'a>(
    alloc: Global,
    words: &mut Pieces<'a>,
) -> Result<Option<(Vec<Stretch>, Option<&'a [u8]>)>, NoMemory>
    ensures { IfOk result (λ found. option_map (λ rest. (rest.0.items, read.onto (option_copied rest.1) words.new)) found
        ≡ spec.stretches_in [] words.old) }
{
    let mut stretches = Vec::new(alloc);
    'words: loop {
        let Some(word) = words.next_piece() else {
            return Ok(Some((stretches, None)));
        };
        if word != b"first".as_slice() {
            return Ok(Some((stretches, Some(word))));
        }
        let Some(stretch) = read_stretch(words) else {
            return Ok(None);
        };
        if !is_behind(&stretches, stretch) {
            return Ok(None);
        }
        stretches.push(stretch)?;
    }
}

/// What the line says. None where it is malformed.
#[tactic(auto, unfolding(crate::specs::Origin::origin_in))]
fn read_line(alloc: Global, line: &[u8]) -> Result<Option<Origin>, NoMemory>
    ensures { IfOk result (λ origin. origin ≡ spec.origin_in (words_of line.now)) }
{
    let mut words = Pieces::of(line, b' ');
    let Some(image) = word_after(&mut words, b"of") else {
        return Ok(None);
    };
    let Some(version) = word_after(&mut words, b"by") else {
        return Ok(None);
    };
    let Some(seed) = number_after(&mut words, b"seed") else {
        return Ok(None);
    };
    let Some((stretches, next)) = read_stretches(alloc, &mut words)? else {
        return Ok(None);
    };
    if stretches.is_empty() {
        return Ok(None);
    }
    let given = rest_text(alloc, next, &mut words)?;
    let heading = Heading {
        image,
        version,
        seed,
        given: &given,
    };
    Ok(Some(Origin::of(alloc, &heading, stretches)?))
}

/// Whether nothing stands after the LF that these lines were cut at.
fn ends(line: &[u8], lines: &mut Pieces<'_>) -> bool
    ensures { result ≡ is_over (line.now ∷ lines.old) }
{
    line.is_empty() && lines.next_piece().is_none()
}

/// What the text says, which is the last line of a table; the line has that number.
#[tactic(auto, unfolding(crate::specs::OriginRead::origin_of_lines))]
fn read_last(alloc: Global, number: u64, text: &[u8]) -> Result<Origin, ReadFault>
    requires { number + 1 < 2 ^ 64 }
    ensures ok { IfOk result (λ origin. read.origin_of_lines number (read.lines_of text.now) ≡ Ok origin) }
    ensures err { IfErr result (table.IsTold (read.origin_of_lines number (read.lines_of text.now))) }
{
    let mut lines = Pieces::of(text, b'\n');
    let Some(line) = lines.next_piece() else {
        return Err(at(TableKind::End, number));
    };
    let Some(next) = lines.next_piece() else {
        return Err(at(TableKind::End, number));
    };
    let Some(origin) = read_line(alloc, line)? else {
        return Err(at(TableKind::Shape, number));
    };
    if ends(next, &mut lines) {
        Ok(origin)
    } else {
        Err(at(TableKind::End, number + 1))
    }
}

/// The text of the rows, and that of the last line, where it says what the table is of.
fn parted(text: &[u8]) -> (&[u8], Option<&[u8]>)
    ensures rows { result.0.now ≡ read.rows_text text.now }
    ensures last { option_copied result.1 ≡ read.last_text text.now }
{
    match memmem::find(text, b"\nof ") {
        None => (text, None),
        Some(place) => (&text[..place + 1], Some(&text[place + 1..])),
    }
}

/// Reads a hunt table, and what it is of.
#[tactic(auto, unfolding(crate::specs::OriginRead::read_hunt))]
pub fn read_hunt(alloc: Global, text: &[u8]) -> Result<ReadTable, ReadFault>
    ensures ok { IfOk result (λ table. read.read_hunt text.now ≡ Ok table) }
    ensures err { IfErr result (table.IsTold (read.read_hunt text.now)) }
{
    let (before, last) = parted(text);
    let rows = read_table(alloc, TableFormat::Hunt, before)?;
    let origin = match last {
        None => None,
        Some(last) => Some(read_last(alloc, rows.len() as u64 + 2, last)?),
    };
    Ok(ReadTable { rows, origin })
}

/// Reads the rows of a hunt table, or of one of `run`.
#[tactic(auto, unfolding(crate::specs::OriginRead::read_rows))]
pub fn read_rows(alloc: Global, text: &[u8]) -> Result<HuntTable, ReadFault>
    ensures ok { IfOk result (λ rows. read.read_rows text.now ≡ Ok rows) }
    ensures err { IfErr result (table.IsTold (read.read_rows text.now)) }
{
    if parted(text).1.is_none() {
        return read_either(alloc, text);
    }
    let table = read_hunt(alloc, text)?;
    Ok(table.rows)
}
