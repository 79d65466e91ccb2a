//! Lists of a hunt's races are written.
ghost use Rattle.std.specs.Prelude.{◌≡◌, ◌∷◌, ◌++◌, [], IfOk, OnOk, map, option_map};
ghost use Rattle.rv_text.specs.Lines.{text_of_lines};
ghost use Rattle.rv_tables.specs.merge.Ignore.{spelled, spelled_field};
ghost use Rattle.rv_tables.specs.merge.Listing as spec;

use crate::merge::ignore::LONGEST_WORD;
use crate::merge::words::{write_spelled, write_spelled_field};
use crate::row::RaceRow;
use rv_memory::store::NoMemory;
use rv_races::classes::class_word;
use rv_report::key::Key;
use rv_symbols::symbol_table::SymbolTable;
use rv_text::decimal::Decimal;
use rv_text::hexadecimal::word_digits;
use std::alloc::Global;

/// Whether a line can have the word.
fn is_word(word: &[u8]) -> bool
    ensures { result ≡ spec.is_word word.now }
{
    !word.is_empty() && word.len() <= LONGEST_WORD
}

/// A name as a list has it, where a line can have it. One that is too long is not spelled: there are names of megabytes.
#[tactic(auto, using(crate::proofs::ListingLemmas::too_long))]
fn word_of(alloc: Global, name: &[u8]) -> Result<Option<Vec<u8>>, NoMemory>
    ensures { IfOk result (λ found. option_map (λ word. word.items) found ≡ spec.word_if (spelled name.now)) }
{
    if name.len() > LONGEST_WORD {
        return Ok(None);
    }
    let mut word = Vec::new(alloc);
    write_spelled(alloc, &mut word, name)?;
    if is_word(&word) {
        Ok(Some(word))
    } else {
        Ok(None)
    }
}

/// The name by which an address is told, where a line can have it.
fn name_at(alloc: Global, symbols: &SymbolTable, address: u32) -> Result<Option<Vec<u8>>, NoMemory>
    ensures { IfOk result (λ name. option_map (λ word. word.items) name ≡ spec.name_at symbols.now.image address) }
{
    match symbols.symbol_of(address) {
        None => Ok(None),
        Some(symbol) => word_of(alloc, symbol.name.as_bytes()),
    }
}

/// A function of a source line as a list has it, where a line can have it.
#[tactic(auto, using(crate::proofs::ListingLemmas::field_too_long))]
fn function_word(alloc: Global, function: &[u8]) -> Result<Option<Vec<u8>>, NoMemory>
    ensures { IfOk result (λ found. option_map (λ word. word.items) found ≡ spec.word_if (spelled_field function.now)) }
{
    if function.len() > LONGEST_WORD {
        return Ok(None);
    }
    let mut word = Vec::new(alloc);
    write_spelled_field(alloc, &mut word, function)?;
    if is_word(&word) {
        Ok(Some(word))
    } else {
        Ok(None)
    }
}

/// The function of an instruction's innermost frame, where it is known and a line can have it.
fn function_at(
    alloc: Global,
    symbols: &SymbolTable,
    address: u32,
) -> Result<Option<Vec<u8>>, NoMemory>
    ensures { IfOk result (λ name. option_map (λ word. word.items) name ≡ spec.function_at symbols.now.lines address) }
{
    let mut frames = symbols.frames_at(address);
    let Some(frame) = frames.next_frame() else {
        return Ok(None);
    };
    match frame.known_function() {
        Some(function) => function_word(alloc, function),
        None => Ok(None),
    }
}

/// Adds an instruction, by its function or else by its address.
fn push_side(
    alloc: Global,
    text: &mut Vec<u8>,
    symbols: &SymbolTable,
    address: u32,
) -> Result<(), NoMemory>
    ensures { OnOk result (text.new.items ≡ text.old.items ++ spec.side_text symbols.now address) }
{
    if let Some(function) = function_at(alloc, symbols, address)? {
        text.extend_from_slice(&function)?;
        return Ok(());
    }
    match name_at(alloc, symbols, address)? {
        Some(name) => text.extend_from_slice(&name)?,
        None => text.extend_from_slice(&word_digits(address))?,
    }
    Ok(())
}

/// The same of one that may not be known.
fn push_other(
    alloc: Global,
    text: &mut Vec<u8>,
    symbols: &SymbolTable,
    address: Option<u32>,
) -> Result<(), NoMemory>
    ensures { OnOk result (text.new.items ≡ text.old.items ++ spec.other_text symbols.now address) }
{
    match address {
        Some(address) => push_side(alloc, text, symbols, address),
        None => {
            text.push(b'*')?;
            Ok(())
        }
    }
}

/// Adds the variable, where it has a name.
fn push_on(
    alloc: Global,
    text: &mut Vec<u8>,
    symbols: &SymbolTable,
    address: Option<u32>,
) -> Result<(), NoMemory>
    ensures { OnOk result (text.new.items ≡ text.old.items ++ spec.on_text symbols.now.image address) }
{
    let Some(address) = address else {
        return Ok(());
    };
    if let Some(name) = name_at(alloc, symbols, address)? {
        text.extend_from_slice(b" on ")?;
        text.extend_from_slice(&name)?;
    }
    Ok(())
}

/// The word behind how many reports there are.
fn reports_word(count: u64) -> &'static [u8]
    ensures { result.now ≡ spec.reports_word count }
{
    if count == 1 { b" report" } else { b" reports" }
}

/// Adds the comment: the class, and how many reports there are.
fn push_comment(text: &mut Vec<u8>, row: &RaceRow) -> Result<(), NoMemory>
    ensures { OnOk result (text.new.items ≡ text.old.items ++ spec.comment_text row.now) }
{
    text.extend_from_slice(b" # ")?;
    text.extend_from_slice(class_word(row.class))?;
    text.extend_from_slice(b", ")?;
    text.extend_from_slice(Decimal::new(row.count).as_bytes())?;
    text.extend_from_slice(reports_word(row.count))?;
    Ok(())
}

/// Adds the line of a race, and an LF.
#[tactic(auto, unfolding(crate::specs::merge::Listing::list_line))]
pub fn push_line(
    alloc: Global,
    text: &mut Vec<u8>,
    symbols: &SymbolTable,
    race: &(Key, RaceRow),
) -> Result<(), NoMemory>
    ensures { OnOk result (text.new.items ≡ text.old.items ++ (spec.list_line symbols.now race.now ++ 10 ∷ [])) }
{
    push_side(alloc, text, symbols, race.0.first)?;
    text.push(b' ')?;
    push_other(alloc, text, symbols, race.0.second)?;
    push_on(alloc, text, symbols, race.1.address)?;
    push_comment(text, &race.1)?;
    text.push(b'\n')?;
    Ok(())
}

/// How a list names a race: its line without the comment.
pub fn known_as(
    alloc: Global,
    symbols: &SymbolTable,
    race: &(Key, RaceRow),
) -> Result<Vec<u8>, NoMemory> {
    let mut text = Vec::new(alloc);
    push_side(alloc, &mut text, symbols, race.0.first)?;
    text.push(b' ')?;
    push_other(alloc, &mut text, symbols, race.0.second)?;
    push_on(alloc, &mut text, symbols, race.1.address)?;
    Ok(text)
}

/// The list of the races of a table.
#[tactic(auto, unfolding(crate::specs::merge::Listing::list_text))]
pub fn list_of(
    alloc: Global,
    symbols: &SymbolTable,
    races: &[(Key, RaceRow)],
) -> Result<Vec<u8>, NoMemory>
    ensures { IfOk result (λ text. text.items ≡ spec.list_text symbols.now races.now) }
{
    let mut text = Vec::new(alloc);
    for race in races {
        push_line(alloc, &mut text, symbols, race)?;
    }
    Ok(text)
}

/// Adds the line of a race where there is no image: both instructions by their addresses.
fn push_plain(text: &mut Vec<u8>, race: &(Key, RaceRow)) -> Result<(), NoMemory> {
    text.extend_from_slice(&word_digits(race.0.first))?;
    text.push(b' ')?;
    match race.0.second {
        Some(second) => text.extend_from_slice(&word_digits(second))?,
        None => text.push(b'*')?,
    }
    push_comment(text, &race.1)?;
    text.push(b'\n')?;
    Ok(())
}

/// What stands before the line of a race that is not expected, where it is named.
pub const NEW: &[u8] = b"rvcollide: new: ";

/// Races that are not expected, where there is no image.
pub fn plain_names(alloc: Global, unexpected: &[(Key, RaceRow)]) -> Result<Vec<u8>, NoMemory> {
    let mut text = Vec::new(alloc);
    for race in unexpected {
        text.extend_from_slice(NEW)?;
        push_plain(&mut text, race)?;
    }
    Ok(text)
}
