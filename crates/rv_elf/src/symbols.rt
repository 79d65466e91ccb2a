//! The symbol table of a file.
ghost use Rattle.std.specs.Prelude.{◌≡◌, ◌*◌, ◌==◌, ◌++◌, [], length, slice_get, IfOk, OnOk};
ghost use Rattle.std.specs.List.{All, find, cons_option};
ghost use Rattle.std.specs.Option.{ForSome};
ghost use Rattle.rv_elf.specs.Contents.{IsSymbol};
ghost use Rattle.rv_elf.specs.Layout as layout_spec;
ghost use Rattle.rv_elf.specs.Loaded as spec;

use crate::fault::LoadFault;
use crate::layout::{
    FileHeader, SECTION_HEADER_SIZE, SYMBOL_ENTRY_SIZE, SectionHeader, SymbolEntry, part,
};
use crate::names::{Names, is_candidate, room_with, text_of};
use crate::symbol::Symbol;
use rv_memory::store::NoMemory;
use std::alloc::Global;
use std::marker::Model;

const SHT_SYMTAB: u32 = 2;

const SHT_STRTAB: u32 = 3;

/// How much room the symbols of an image need at most: 17 bytes and the bytes of its name for each.
pub const ROOM: usize = 67_108_864;

/// The bytes of a symbol table and of the strings that it is linked to.
#[derive(Drop)]
pub struct SymbolTable<'a> {
    symbols: &'a [u8],
    strings: &'a [u8],
}

impl<'a> Model for SymbolTable<'a> {
    ghost use Rattle.rv_elf.specs.Loaded.{SymbolTable};

    ghost Value = { SymbolTable };

    ghost view = { λ t. record { symbols = t.symbols.now; strings = t.strings.now } };
}

impl<'a> SymbolTable<'a> {
    /// The names in its strings.
    pub fn names(&self, alloc: Global) -> Names<'a>
        ensures { result ≡ self.now.strings }
    {
        Names::of(alloc, self.strings)
    }

    /// What is wanted of the entries.
    pub fn test(&self, names: &Names) -> Result<(), LoadFault>
        ensures { result
            ≡ spec.entries_test 67_108_864 names.now (spec.entries_of self.now.symbols) }
    {
        entries_test(self.symbols, names)
    }

    /// The symbols, in order.
    pub fn symbols(&self, alloc: Global, names: &Names) -> Result<Vec<Symbol>, NoMemory>
        ensures those { IfOk result (λ found.
            found.items ≡ spec.symbols_among names.now (spec.entries_of self.now.symbols)) }
        ensures sound { IfOk result (λ found. All IsSymbol found.items) }
    {
        symbols_among(alloc, self.symbols, names)
    }
}

/// The header of the section of that index, if there is one.
fn section_at(sections: &[u8], count: u16, index: u32) -> Option<SectionHeader>
    requires { length sections.now ≡ 40 * count }
    ensures { result
        ≡ slice_get (layout_spec.records layout_spec.section_header 40 count sections.now) index }
{
    if index >= u32::from(count) {
        return None;
    }
    let (_, section) = sections.split_at(SECTION_HEADER_SIZE * index as usize);
    Some(SectionHeader::read(section))
}

/// The first section that is a symbol table.
fn first_symbol_table(sections: &[u8], count: u16) -> Option<SectionHeader>
    requires { length sections.now ≡ 40 * count }
    ensures { result ≡ find (λ s. s.sh_type == 2)
        (layout_spec.records layout_spec.section_header 40 count sections.now) }
{
    let mut rest = sections;
    for _ in 0..count {
        let section = SectionHeader::read(rest);
        if section.sh_type == SHT_SYMTAB {
            return Some(section);
        }
        let (_, after) = rest.split_at(SECTION_HEADER_SIZE);
        rest = after;
    }
    None
}

/// A symbol table and its strings, as the sections have them.
#[tactic(auto, unfolding(crate::specs::Loaded::linked_table))]
fn linked_table<'a>(
    bytes: &'a [u8],
    sections: &[u8],
    count: u16,
    table: &SectionHeader,
) -> Result<SymbolTable<'a>, LoadFault>
    requires { length sections.now ≡ 40 * count }
    ensures { result ≡ spec.linked_table table.now
        (layout_spec.records layout_spec.section_header 40 count sections.now) bytes.now }
{
    if table.sh_entsize != 16 || table.sh_size % 16 != 0 {
        return Err(LoadFault::BadSymbols);
    }
    let Some(symbols) = part(bytes, table.sh_offset, table.sh_size) else {
        return Err(LoadFault::BadSymbols);
    };
    let Some(names) = section_at(sections, count, table.sh_link) else {
        return Err(LoadFault::BadSymbols);
    };
    if names.sh_type != SHT_STRTAB {
        return Err(LoadFault::BadSymbols);
    }
    let Some(strings) = part(bytes, names.sh_offset, names.sh_size) else {
        return Err(LoadFault::BadSymbols);
    };
    Ok(SymbolTable { symbols, strings })
}

/// The symbol table of the file, empty where the file has none.
#[tactic(auto, unfolding(crate::specs::Loaded::symbol_table))]
pub fn symbol_table<'a>(header: &FileHeader, bytes: &'a [u8]) -> Result<SymbolTable<'a>, LoadFault>
    ensures { result ≡ spec.symbol_table header.now bytes.now }
{
    if header.e_shoff == 0 || header.e_shnum == 0 {
        return Ok(SymbolTable {
            symbols: &[],
            strings: &[],
        });
    }
    let size = 40 * u32::from(header.e_shnum);
    let Some(sections) = part(bytes, header.e_shoff, size) else {
        return Err(LoadFault::BadSymbols);
    };
    match first_symbol_table(sections, header.e_shnum) {
        None => Ok(SymbolTable {
            symbols: &[],
            strings: &[],
        }),
        Some(table) => linked_table(bytes, sections, header.e_shnum, &table),
    }
}

/// Whether each candidate's name ends within the strings, and the symbols have room.
#[tactic(auto, unfolding(crate::specs::Loaded::entries_of))]
fn entries_test(symbols: &[u8], names: &Names) -> Result<(), LoadFault>
    ensures { result ≡ spec.entries_test 67_108_864 names.now (spec.entries_of symbols.now) }
{
    let count = symbols.len() / SYMBOL_ENTRY_SIZE;
    let mut room = ROOM;
    let mut rest = symbols;
    for _ in 0..count {
        let entry = SymbolEntry::read(rest);
        room = room_with(room, names, &entry)?;
        let (_, after) = rest.split_at(SYMBOL_ENTRY_SIZE);
        rest = after;
    }
    Ok(())
}

/// The symbol that an entry stands for, if it stands for one.
fn symbol_of(alloc: Global, names: &Names, entry: &SymbolEntry) -> Result<Option<Symbol>, NoMemory>
    ensures value { IfOk result (λ found. found ≡ spec.kept names.now entry.now) }
    ensures sound { IfOk result (λ found. ForSome found IsSymbol) }
{
    if !is_candidate(entry) || names.makes_symbol(entry) != Some(true) {
        return Ok(None);
    }
    let Some(name) = names.name_of(entry) else {
        return Ok(None);
    };
    let Some(text) = text_of(name) else {
        return Ok(None);
    };
    let (value, size) = (entry.st_value, entry.st_size);
    Ok(Some(Symbol {
        name: String::from_str(alloc, text)?,
        value,
        size,
        kind: entry.st_info % 16,
    }))
}

fn push_some(found: &mut Vec<Symbol>, symbol: Option<Symbol>) -> Result<(), NoMemory>
    ensures pushed { OnOk result (found.new.items ≡ found.old.items ++ cons_option symbol []) }
    ensures sound { ForSome symbol IsSymbol → All IsSymbol found.old.items
        → OnOk result (All IsSymbol found.new.items) }
{
    if let Some(symbol) = symbol {
        found.push(symbol)?;
    }
    Ok(())
}

/// The symbols that the entries stand for, in order.
#[tactic(auto, unfolding(crate::specs::Loaded::entries_of))]
fn symbols_among(alloc: Global, symbols: &[u8], names: &Names) -> Result<Vec<Symbol>, NoMemory>
    ensures those { IfOk result (λ found.
        found.items ≡ spec.symbols_among names.now (spec.entries_of symbols.now)) }
    ensures sound { IfOk result (λ found. All IsSymbol found.items) }
{
    let count = symbols.len() / SYMBOL_ENTRY_SIZE;
    let mut found = Vec::new(alloc);
    let mut rest = symbols;
    for _ in 0..count {
        let entry = SymbolEntry::read(rest);
        push_some(&mut found, symbol_of(alloc, names, &entry)?)?;
        let (_, after) = rest.split_at(SYMBOL_ENTRY_SIZE);
        rest = after;
    }
    Ok(found)
}
