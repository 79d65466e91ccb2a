//! The line of an entry.
ghost use Rattle.std.specs.Prelude.{◌≡◌};
ghost use Rattle.rv_collide.specs.ScheduleRead as spec;

use crate::entry::Entry;
use crate::schedule::format::Format;
use rv_text::decimal::read_decimal;
use rv_text::hexadecimal::{read_word, word_digits};
use rv_text::pieces::Pieces;

/// The greatest number of a hart.
const LAST_HART: u32 = 15;

fn read_hart(word: &[u8]) -> Option<u8>
    ensures { result ≡ spec.hart_of word.now }
{
    Some(read_decimal(word, LAST_HART)? as u8)
}

/// A slot's number, or no slot for `-`.
fn read_slot(format: Format, word: &[u8]) -> Option<Option<u8>>
    ensures { result ≡ spec.slot_of format word.now }
{
    if word == b"-".as_slice() {
        return Some(None);
    }
    Some(Some(read_decimal(word, format.last_slot())? as u8))
}

/// An address in eight digits, none of which is a capital letter.
fn read_address(word: &[u8]) -> Option<u32>
    ensures { result ≡ spec.address_of word.now }
{
    let address = read_word(word)?;
    if word_digits(address).as_slice() == word {
        Some(address)
    } else {
        None
    }
}

/// An entry of two words.
fn read_short(name: &[u8], word: &[u8]) -> Option<Entry>
    ensures { result ≡ spec.short_entry name.now word.now }
{
    match name {
        b"s" => Some(Entry::Stepped(read_hart(word)?)),
        b"r" => Some(Entry::Resumed(read_hart(word)?)),
        b"a" => Some(Entry::Armed(read_address(word)?)),
        b"d" => Some(Entry::Disarmed(read_address(word)?)),
        _ => None,
    }
}

/// An entry of three words.
fn read_pause(format: Format, name: &[u8], hart: &[u8], slot: &[u8]) -> Option<Entry>
    ensures { result ≡ spec.pause_entry format name.now hart.now slot.now }
{
    match name {
        b"p" => Some(Entry::Paused(read_hart(hart)?, read_slot(format, slot)?)),
        _ => None,
    }
}

/// The entry that a line says. None where the line is another, or a number in it is out of its range.
#[tactic(auto, unfolding(crate::specs::ScheduleRead::entry_of))]
pub(crate) fn read_entry(format: Format, line: &[u8]) -> Option<Entry>
    ensures { result ≡ spec.entry_of format line.now }
{
    let mut words = Pieces::of(line, b' ');
    let name = words.next_piece()?;
    let first = words.next_piece()?;
    match words.next_piece() {
        None => read_short(name, first),
        Some(_) if words.next_piece().is_some() => None,
        Some(slot) => read_pause(format, name, first, slot),
    }
}
