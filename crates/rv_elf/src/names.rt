//! The names of symbols in a string table.
ghost use Rattle.std.specs.Prelude.{◌≡◌, ◌++◌, ◌&&◌, IfOk, OnOk, nat_le, option_map, slice_get, if◌then◌else◌, Some, None};
ghost use Rattle.std.specs.Option.{option_copied};
ghost use Rattle.rv_elf.specs.Loaded as spec;
ghost use Rattle.rv_elf.specs.internal.Steps as steps;

use crate::fault::LoadFault;
use crate::layout::SymbolEntry;
use rv_memory::store::NoMemory;
use std::alloc::Global;
use std::marker::Model;

/// How much room each symbol needs beside the bytes of its name: 16 of its entry and a zero byte.
const NEED: usize = 17;

/// A string table, and of each of its places whether a name that makes a symbol begins there. So an entry
/// costs no more than the name that is kept of it, however long the strings are that are dropped.
#[derive(Drop)]
pub struct Names<'a> {
    strings: &'a [u8],
    /// None where memory was refused: each name is then read to see what it is.
    starts: Option<Vec<bool>>,
}

impl<'a> Model for Names<'a> {
    ghost use Rattle.std.specs.Prelude.{◌≡◌, ℕ, List};
    ghost use Rattle.std.specs.Option.{ForSome};
    ghost use Rattle.rv_elf.specs.internal.Steps.{name_starts};

    ghost Value = { List ℕ };

    ghost view = { λ n. n.strings.now };

    ghost invariant = { λ n. ForSome n.starts (λ s. s.items ≡ name_starts n.strings.now) };
}

impl<'a> Names<'a> {
    /// The names of a string table.
    pub fn of(alloc: Global, strings: &'a [u8]) -> Names<'a>
        ensures { result ≡ strings.now }
    {
        let starts = name_starts(alloc, strings).ok();
        Names { strings, starts }
    }

    /// Fails where memory was refused to it.
    pub fn ready(&self) -> Result<(), NoMemory> {
        if self.starts.is_none() {
            return Err(NoMemory);
        }
        Ok(())
    }

    /// Whether an entry's name makes a symbol: none past the table's end, or where no zero byte follows.
    pub fn makes_symbol(&self, entry: &SymbolEntry) -> Option<bool>
        ensures { result ≡ option_map steps.is_name (spec.name_of self.now entry.now) }
    {
        match &self.starts {
            Some(starts) => start_at(starts, entry.st_name as usize),
            None => Some(text_of(self.name_of(entry)?).is_some()),
        }
    }

    /// An entry's name: none past the table's end, or where no zero byte follows.
    pub fn name_of(&self, entry: &SymbolEntry) -> Option<&[u8]>
        ensures { option_copied result ≡ spec.name_of self.now entry.now }
    {
        let start = entry.st_name as usize;
        if start > self.strings.len() {
            return None;
        }
        let (_, bytes) = self.strings.split_at(start);
        text(bytes)
    }
}

fn start_at(starts: &[bool], place: usize) -> Option<bool>
    ensures { result ≡ slice_get starts.now place }
{
    if place < starts.len() {
        Some(starts[place])
    } else {
        None
    }
}

/// The bytes before the first zero byte, if there is one.
fn text(bytes: &[u8]) -> Option<&[u8]>
    ensures { option_copied result ≡ spec.text bytes.now }
{
    for (n, byte) in bytes.iter().enumerate() {
        if *byte == 0 {
            let (text, _) = bytes.split_at(n);
            return Some(text);
        }
    }
    None
}

/// Of each place that a zero byte follows, whether a name that makes a symbol begins there.
fn name_starts(alloc: Global, strings: &[u8]) -> Result<Vec<bool>, NoMemory>
    ensures { IfOk result (λ starts. starts.items ≡ steps.name_starts strings.now) }
{
    let mut starts = Vec::with_capacity(alloc, strings.len())?;
    let mut rest = strings;
    while let Some(text) = text(rest) {
        push_starts(&mut starts, text)?;
        let (_, after) = rest.split_at(text.len() + 1);
        rest = after;
    }
    Ok(starts)
}

/// The same of the places of one text and of the zero byte behind it.
fn push_starts(starts: &mut Vec<bool>, text: &[u8]) -> Result<(), NoMemory>
    ensures { OnOk result (starts.new.items ≡ starts.old.items ++ steps.starts_in text.now) }
{
    let from = utf8_from(text);
    for (place, byte) in text.iter().enumerate() {
        starts.push(is_start(from, place, *byte))?;
    }
    starts.push(false)?;
    Ok(())
}

/// The least place from which on the bytes are UTF-8.
fn utf8_from(bytes: &[u8]) -> usize
    ensures { steps.IsUtf8From bytes.now result }
{
    let mut from = 0;
    let mut rest = bytes;
    while let Err(fault) = str::from_utf8(rest) {
        let passed = fault.valid_up_to() + 1;
        let (_, after) = rest.split_at(passed);
        rest = after;
        from += passed;
    }
    from
}

/// Whether the rest of a text is UTF-8 at a place with a byte: from the least such place on, where a character
/// begins.
fn is_start(from: usize, place: usize, byte: u8) -> bool
    ensures { result ≡ (nat_le from place && steps.is_first byte) }
{
    from <= place && (byte < 0x80 || 0xc0 <= byte)
}

/// The text of a name, where it makes a symbol: it is UTF-8 and not empty.
#[tactic(auto, using(crate::proofs::Texts::from_utf8, crate::proofs::Texts::not_utf8))]
pub fn text_of(name: &[u8]) -> Option<&str>
    ensures { option_copied result ≡ (if steps.is_name name.now then Some name.now else None) }
{
    let Ok(text) = str::from_utf8(name) else {
        return None;
    };
    if text.is_empty() { None } else { Some(text) }
}

/// Whether an entry stands for a symbol, if its name is one: it has no type or is an object or a
/// function, lies in a section, and names a string.
pub fn is_candidate(entry: &SymbolEntry) -> bool
    ensures { result ≡ spec.is_candidate entry.now }
{
    entry.st_info % 16 <= 2 && entry.st_shndx != 0 && entry.st_name != 0
}

/// The room that is left after a symbol of that name.
pub fn room_after(room: usize, name: &[u8]) -> Result<usize, LoadFault>
    ensures { result ≡ steps.room_after room name.now }
{
    if room < NEED || room - NEED < name.len() {
        return Err(LoadFault::BadSymbols);
    }
    Ok(room - NEED - name.len())
}

/// The room that is left after an entry of a symbol table.
#[tactic(auto, unfolding(crate::specs::internal::Steps::room_with))]
pub fn room_with(room: usize, names: &Names, entry: &SymbolEntry) -> Result<usize, LoadFault>
    ensures { result ≡ steps.room_with room names.now entry.now }
{
    if !is_candidate(entry) {
        return Ok(room);
    }
    let Some(makes_symbol) = names.makes_symbol(entry) else {
        return Err(LoadFault::BadSymbols);
    };
    if !makes_symbol {
        return Ok(room);
    }
    let Some(name) = names.name_of(entry) else {
        return Err(LoadFault::BadSymbols);
    };
    room_after(room, name)
}
