//! The lines of a table.
ghost use Rattle.std.specs.Prelude.{◌≡◌, Ok, Err, is_some, drop, IfOk, IfErr, OnSome};
ghost use Rattle.std.specs.Option.{option_map};
ghost use Rattle.rv_collide.specs.ScheduleRead.{address_of, named, words_of};
ghost use Rattle.rv_tables.specs.HuntRead as spec;

use crate::fault::TableKind;
use crate::format::TableFormat;
use crate::number::read_large;
use crate::row::RaceRow;
use rv_races::classes::{RaceClass, class_word};
use rv_report::key::Key;
use rv_text::hexadecimal::{read_word, word_digits};
use rv_text::pieces::Pieces;

/// The numbers of a row. None stands for one over 2^64 - 1.
#[derive(Clone, Copy)]
pub struct Counts {
    pub count: Option<u64>,
    pub run: Option<u64>,
    pub entry: Option<u64>,
}

/// The values of a row.
#[derive(Clone, Copy)]
pub struct Values {
    pub old: u32,
    pub new: u32,
}

/// What the words of a row say, before a number's range is tested.
#[derive(Clone, Copy)]
pub struct Said {
    pub key: Key,
    pub counts: Counts,
    pub values: Values,
    pub class: RaceClass,
}

/// An address in eight digits, none of which is a capital letter.
fn read_address(word: &[u8]) -> Option<u32>
    ensures { result ≡ address_of word.now }
{
    let address = read_word(word)?;
    if word_digits(address).as_slice() == word {
        Some(address)
    } else {
        None
    }
}

/// The second address, or none for `-`.
fn read_second(word: &[u8]) -> Option<Option<u32>>
    ensures { result ≡ spec.second_of word.now }
{
    if word == b"-".as_slice() {
        return Some(None);
    }
    Some(Some(read_address(word)?))
}

/// The addresses, of the next two words.
fn read_pair(words: &mut Pieces<'_>) -> Option<Key>
    ensures value { result ≡ spec.pair_in words.old }
    ensures rest { OnSome result (words.new ≡ drop 2 words.old) }
{
    let one = words.next_piece()?;
    let other = words.next_piece()?;
    let first = read_address(one)?;
    let second = read_second(other)?;
    Some(Key { first, second })
}

/// The number that follows the name, of the next two words.
fn read_named(words: &mut Pieces<'_>, name: &[u8]) -> Option<Option<u64>>
    ensures value { result ≡ option_map spec.sized (named name.now words.old) }
    ensures rest { OnSome result (words.new ≡ drop 2 words.old) }
{
    let word = words.next_piece()?;
    let numeral = words.next_piece()?;
    if word == name {
        read_large(numeral)
    } else {
        None
    }
}

/// The numbers, of the next six words.
#[tactic(auto, unfolding(crate::specs::HuntRead::counts_in))]
fn read_counts(words: &mut Pieces<'_>) -> Option<Counts>
    ensures value { result ≡ spec.counts_in words.old }
    ensures rest { OnSome result (words.new ≡ drop 6 words.old) }
{
    let count = read_named(words, b"count")?;
    let run = read_named(words, b"run")?;
    let entry = read_named(words, b"entry")?;
    Some(Counts { count, run, entry })
}

/// The value that follows the name, of the next two words.
fn read_valued(words: &mut Pieces<'_>, name: &[u8]) -> Option<u32>
    ensures value { result ≡ spec.valued name.now words.old }
    ensures rest { OnSome result (words.new ≡ drop 2 words.old) }
{
    let word = words.next_piece()?;
    let digits = words.next_piece()?;
    if word == name {
        read_address(digits)
    } else {
        None
    }
}

/// Whether the word is the verdict of such a race.
fn is_verdict(second: Option<u32>, word: &[u8]) -> bool
    ensures { result ≡ spec.is_verdict second word.now }
{
    match second {
        Some(_) => word == b"hit".as_slice(),
        None => word == b"changed".as_slice(),
    }
}

/// The verdict and the values, of the next five words.
fn read_values(words: &mut Pieces<'_>, second: Option<u32>) -> Option<Values>
    ensures value { result ≡ spec.values_in second words.old }
    ensures rest { OnSome result (words.new ≡ drop 5 words.old) }
{
    let word = words.next_piece()?;
    if !is_verdict(second, word) {
        return None;
    }
    let old = read_valued(words, b"old")?;
    let new = read_valued(words, b"new")?;
    Some(Values { old, new })
}

/// The class of a word.
fn class_named(word: &[u8]) -> Option<RaceClass>
    ensures { result ≡ spec.class_named word.now }
{
    if word == class_word(RaceClass::Kept) {
        Some(RaceClass::Kept)
    } else if word == class_word(RaceClass::Counter) {
        Some(RaceClass::Counter)
    } else if word == class_word(RaceClass::Unwatched) {
        Some(RaceClass::Unwatched)
    } else if word == class_word(RaceClass::Flag) {
        Some(RaceClass::Flag)
    } else if word == class_word(RaceClass::Ordered) {
        Some(RaceClass::Ordered)
    } else if word == class_word(RaceClass::Atomic) {
        Some(RaceClass::Atomic)
    } else if word == class_word(RaceClass::Named) {
        Some(RaceClass::Named)
    } else {
        None
    }
}

/// Whether a race may have the class.
fn may_be(second: Option<u32>, class: RaceClass) -> bool
    ensures { result ≡ spec.may_be second class }
{
    match (second, class) {
        (None, RaceClass::Counter) | (Some(_), RaceClass::Unwatched) => false,
        _ => true,
    }
}

/// The class of the word, where a race may have it.
fn read_class(second: Option<u32>, word: &[u8]) -> Option<RaceClass>
    ensures { result ≡ spec.class_of_word second word.now }
{
    let class = class_named(word)?;
    if may_be(second, class) {
        Some(class)
    } else {
        None
    }
}

/// The class, of the words that are left.
fn read_last(format: TableFormat, words: &mut Pieces<'_>, second: Option<u32>) -> Option<RaceClass>
    ensures { result ≡ spec.class_in format second words.old }
{
    match (format, words.next_piece()) {
        (TableFormat::Run, None) => Some(RaceClass::Kept),
        (TableFormat::Run, Some(_)) | (TableFormat::Hunt, None) => None,
        (TableFormat::Hunt, Some(word)) => {
            if words.next_piece().is_some() {
                None
            } else {
                read_class(second, word)
            }
        }
    }
}

/// What a row's line says, before a number's range is tested.
#[tactic(auto, unfolding(crate::specs::HuntRead::said_of))]
fn read_said(format: TableFormat, line: &[u8]) -> Option<Said>
    ensures { result ≡ spec.said_of format (words_of line.now) }
{
    let mut words = Pieces::of(line, b' ');
    let key = read_pair(&mut words)?;
    let counts = read_counts(&mut words)?;
    let values = read_values(&mut words, key.second)?;
    let class = read_last(format, &mut words, key.second)?;
    Some(Said {
        key,
        counts,
        values,
        class,
    })
}

/// Whether the addresses may be those of a race.
fn is_pair(key: &Key) -> bool
    ensures { result ≡ spec.is_pair key.now }
{
    let first = key.first;
    match key.second {
        None => first % 4 == 0,
        Some(second) => first % 4 == 0 && second % 4 == 0 && first <= second,
    }
}

/// A count, which is not 0.
fn count_within(number: Option<u64>) -> Option<u64>
    ensures { result ≡ spec.between 1 64 number }
{
    match number {
        Some(0) | None => None,
        number => number,
    }
}

/// A number of 32 bits.
fn word_within(number: Option<u64>) -> Option<u32>
    ensures { result ≡ spec.between 0 32 number }
{
    let number = number?;
    if number <= u64::from(u32::MAX) {
        Some(number as u32)
    } else {
        None
    }
}

/// The row, where each number is in its range.
#[tactic(auto, unfolding(crate::specs::HuntRead::row_within))]
fn row_within(said: &Said) -> Option<(Key, RaceRow)>
    ensures { result ≡ spec.row_within said.now }
{
    let count = count_within(said.counts.count)?;
    let run = word_within(said.counts.run)?;
    let entry = word_within(said.counts.entry)?;
    if !is_pair(&said.key) {
        return None;
    }
    let row = RaceRow {
        count,
        class: said.class,
        run,
        part: 0,
        entry,
        old: said.values.old,
        new: said.values.new,
        address: None,
        accesses: None,
    };
    Some((said.key, row))
}

/// The row of a line: its shape is tested first.
#[tactic(auto, unfolding(crate::specs::HuntRead::row_of_line))]
pub(crate) fn read_row(format: TableFormat, line: &[u8]) -> Result<(Key, RaceRow), TableKind>
    ensures { result ≡ spec.row_of_line format line.now }
{
    let Some(said) = read_said(format, line) else {
        return Err(TableKind::Shape);
    };
    match row_within(&said) {
        Some(row) => Ok(row),
        None => Err(TableKind::Range),
    }
}

/// The number that follows the name, where there are no other words.
fn read_only(words: &mut Pieces<'_>, name: &[u8]) -> Option<Option<u64>>
    ensures { result ≡ option_map spec.sized (spec.only name.now words.old) }
{
    let number = read_named(words, name)?;
    match words.next_piece() {
        None => Some(number),
        Some(_) => None,
    }
}

/// The number of `races N`.
fn read_races(line: &[u8]) -> Option<Option<u64>>
    ensures { result ≡ option_map spec.sized (spec.races_in (words_of line.now)) }
{
    let mut words = Pieces::of(line, b' ');
    read_only(&mut words, b"races")
}

/// Whether the line is the first of a table.
pub(crate) fn is_first(line: &[u8]) -> bool
    ensures { result ≡ is_some (spec.races_in (words_of line.now)) }
{
    read_races(line).is_some()
}

/// How many rows the first line says that there are.
#[tactic(auto, unfolding(crate::specs::HuntRead::races_of_line))]
pub(crate) fn read_first(line: &[u8]) -> Result<u64, TableKind>
    ensures { result ≡ spec.races_of_line line.now }
{
    match read_races(line) {
        Some(Some(races)) => Ok(races),
        Some(None) => Err(TableKind::Range),
        None => Err(TableKind::Shape),
    }
}

/// The last number of `named A flag B counter C`.
#[tactic(auto, unfolding(crate::specs::HuntRead::kinds_in))]
fn read_kinds(words: &mut Pieces<'_>) -> Option<Option<u64>>
    ensures { result ≡ option_map spec.sized (spec.kinds_in words.old) }
{
    read_named(words, b"named")?;
    read_named(words, b"flag")?;
    read_only(words, b"counter")
}

/// The last number of `pruned named A flag B counter C`.
fn read_pruned(line: &[u8]) -> Option<Option<u64>>
    ensures { result ≡ option_map spec.sized (spec.pruned_in (words_of line.now)) }
{
    let mut words = Pieces::of(line, b' ');
    let word = words.next_piece()?;
    if word == b"pruned".as_slice() {
        read_kinds(&mut words)
    } else {
        None
    }
}

/// Whether the line ends the table.
pub(crate) fn ends(format: TableFormat, line: &[u8]) -> bool
    ensures { result ≡ spec.ends format line.now }
{
    match format {
        TableFormat::Hunt => false,
        TableFormat::Run => read_pruned(line).is_some(),
    }
}
