//! Writing: the one file of an image.
ghost use Rattle.std.specs.Prelude.{◌≡◌, ◌+◌, ◌*◌, ◌≤◌, ◌^◌, ◌<◌, ◌++◌, length, IfOk, OnOk, Ok};
ghost use Rattle.std.specs.List.{All, flat_map, sum_by};
ghost use Rattle.rv_elf.specs.Contents.{AreSegments, AreSymbols};
ghost use Rattle.rv_elf.specs.Loaded.{loaded};
ghost use Rattle.rv_elf.specs.Written as spec;

use crate::image::Image;
use crate::layout::{FileHeader, ProgramHeader, SectionHeader, SymbolEntry};
use crate::places::{Places, SECTION_NAMES_SIZE, aligned, data_end, places_of};
use crate::symbol::Symbol;
use crate::{header, put};
use rv_memory::region::Region;
use rv_memory::store::NoMemory;
use std::alloc::Global;

/// What a file header says of the sections: where their headers lie, how many there are, and which of
/// them has their names.
#[derive(Clone, Copy)]
struct Sections {
    offset: u32,
    count: u16,
    names: u16,
}

fn header_for(entry: u32, segments: u16, sections: Sections) -> FileHeader
    ensures { result ≡ spec.header_for entry segments sections }
{
    FileHeader {
        ei_mag: header::ELF_MAGIC,
        ei_class: header::CLASS_32,
        ei_data: header::DATA_LITTLE,
        ei_version: header::VERSION_CURRENT,
        e_type: header::EXECUTABLE,
        e_machine: header::RISCV,
        e_version: 1,
        e_entry: entry,
        e_phoff: 52,
        e_shoff: sections.offset,
        e_flags: 0,
        e_ehsize: 52,
        e_phentsize: 32,
        e_phnum: segments,
        e_shentsize: 40,
        e_shnum: sections.count,
        e_shstrndx: sections.names,
    }
}

/// The program header of a segment whose bytes lie at `offset`.
fn header_at(offset: u32, segment: &Region) -> ProgramHeader
    requires { length segment.now.bytes < 2 ^ 32 }
    ensures { result ≡ spec.header_at offset segment.now }
{
    let readable = if segment.r { 4 } else { 0 };
    let writable = if segment.w { 2 } else { 0 };
    let executable = if segment.x { 1 } else { 0 };
    ProgramHeader {
        p_type: 1,
        p_offset: offset,
        p_vaddr: segment.start,
        p_paddr: segment.start,
        p_filesz: segment.bytes.len() as u32,
        p_memsz: segment.len,
        p_flags: readable + writable + executable,
        p_align: 1,
    }
}

/// The program headers of segments whose bytes lie from `start` on, one directly after another.
fn put_program_headers(out: &mut Vec<u8>, start: u32, segments: &[Region]) -> Result<(), NoMemory>
    requires { start + sum_by (λ s. length s.bytes) segments.now < 2 ^ 32 }
    ensures { OnOk result (out.new.items
        ≡ out.old.items ++ flat_map spec.program_header_bytes (spec.headers_from start segments.now)) }
{
    let mut offset = start;
    for segment in segments {
        put::program_header(out, &header_at(offset, segment))?;
        offset += segment.bytes.len() as u32;
    }
    Ok(())
}

fn put_data(out: &mut Vec<u8>, segments: &[Region]) -> Result<(), NoMemory>
    ensures { OnOk result (out.new.items ≡ out.old.items ++ flat_map (λ s. s.bytes) segments.now) }
{
    for segment in segments {
        out.extend_from_slice(&segment.bytes)?;
    }
    Ok(())
}

/// Everything but the symbols.
#[tactic(auto, unfolding(crate::specs::Written::front))]
fn put_front(
    out: &mut Vec<u8>,
    entry: u32,
    segments: &[Region],
    sections: Sections,
) -> Result<(), NoMemory>
    requires few { length segments.now ≤ 64 }
    requires small { sum_by (λ s. length s.bytes) segments.now ≤ 16_777_216 }
    ensures { OnOk result (out.new.items ≡ out.old.items ++ spec.front entry segments.now sections) }
{
    let count = segments.len() as u16;
    put::file_header(out, &header_for(entry, count, sections))?;
    put_program_headers(out, 52 + 32 * u32::from(count), segments)?;
    put_data(out, segments)
}

/// The symbol table entry of a symbol whose name lies at `name`.
fn entry_at(name: u32, symbol: &Symbol) -> SymbolEntry
    requires { symbol.now.kind ≤ 2 }
    ensures { result ≡ spec.entry_at name symbol.now }
{
    SymbolEntry {
        st_name: name,
        st_value: symbol.value,
        st_size: symbol.size,
        st_info: 16 + symbol.kind,
        st_other: 0,
        st_shndx: 0xfff1,
    }
}

/// The entries of symbols whose names lie from `start` on, one after another.
fn put_entries(out: &mut Vec<u8>, start: u32, symbols: &[Symbol]) -> Result<(), NoMemory>
    requires small { start + sum_by (λ s. length s.name + 1) symbols.now < 2 ^ 32 }
    requires kinds { All (λ s. s.kind ≤ 2) symbols.now }
    ensures { OnOk result (out.new.items
        ≡ out.old.items ++ flat_map spec.symbol_entry_bytes (spec.entries_from start symbols.now)) }
{
    let mut name = start;
    for symbol in symbols {
        put::symbol_entry(out, &entry_at(name, symbol))?;
        name += symbol.name.len() as u32 + 1;
    }
    Ok(())
}

#[tactic(auto, unfolding(crate::specs::Written::symbol_bytes))]
fn put_symbols(out: &mut Vec<u8>, symbols: &[Symbol]) -> Result<(), NoMemory>
    requires small { sum_by (λ s. length s.name + 1) symbols.now ≤ 67_108_864 }
    requires kinds { All (λ s. s.kind ≤ 2) symbols.now }
    ensures { OnOk result (out.new.items ≡ out.old.items ++ spec.symbol_bytes symbols.now) }
{
    put::symbol_entry(out, &NULL_ENTRY)?;
    put_entries(out, 1, symbols)
}

fn put_terminated(out: &mut Vec<u8>, text: &[u8]) -> Result<(), NoMemory>
    ensures { OnOk result (out.new.items ≡ out.old.items ++ spec.terminated text.now) }
{
    out.extend_from_slice(text)?;
    out.push(0)?;
    Ok(())
}

fn put_names(out: &mut Vec<u8>, symbols: &[Symbol]) -> Result<(), NoMemory>
    ensures { OnOk result (out.new.items
        ≡ out.old.items ++ flat_map (λ s. spec.terminated s.name) symbols.now) }
{
    for symbol in symbols {
        put_terminated(out, symbol.name.as_bytes())?;
    }
    Ok(())
}

#[tactic(auto, unfolding(crate::specs::Written::string_table))]
fn put_strings(out: &mut Vec<u8>, symbols: &[Symbol]) -> Result<(), NoMemory>
    ensures { OnOk result (out.new.items ≡ out.old.items ++ spec.string_table symbols.now) }
{
    out.push(0)?;
    put_names(out, symbols)
}

#[tactic(auto, unfolding(crate::specs::Written::section_names))]
fn put_section_names(out: &mut Vec<u8>) -> Result<(), NoMemory>
    ensures { OnOk result (out.new.items ≡ out.old.items ++ spec.section_names) }
{
    out.extend_from_slice(b"\0.symtab\0.strtab\0.shstrtab\0")?;
    Ok(())
}

fn put_padding(out: &mut Vec<u8>, end: u32) -> Result<(), NoMemory>
    requires { end ≤ 4_000_000_000 }
    ensures { OnOk result (out.new.items ≡ out.old.items ++ spec.padding end) }
{
    put::zeros(out, aligned(end) - end)
}

const NULL_ENTRY: SymbolEntry = SymbolEntry {
    st_name: 0,
    st_value: 0,
    st_size: 0,
    st_info: 0,
    st_other: 0,
    st_shndx: 0,
};

const NULL_SECTION: SectionHeader = SectionHeader {
    sh_name: 0,
    sh_type: 0,
    sh_flags: 0,
    sh_addr: 0,
    sh_offset: 0,
    sh_size: 0,
    sh_link: 0,
    sh_info: 0,
    sh_addralign: 0,
    sh_entsize: 0,
};

fn symbol_section(places: Places) -> SectionHeader
    requires { places.symbols ≤ places.strings }
    ensures { result ≡ spec.symbol_section places }
{
    SectionHeader {
        sh_name: 1,
        sh_type: 2,
        sh_offset: places.symbols,
        sh_size: places.strings - places.symbols,
        sh_link: 2,
        sh_info: 1,
        sh_addralign: 4,
        sh_entsize: 16,
        ..NULL_SECTION
    }
}

fn string_section(name: u32, offset: u32, size: u32) -> SectionHeader
    ensures { result ≡ spec.string_section name offset size }
{
    SectionHeader {
        sh_name: name,
        sh_type: 3,
        sh_offset: offset,
        sh_size: size,
        sh_addralign: 1,
        ..NULL_SECTION
    }
}

fn put_sections(out: &mut Vec<u8>, places: Places) -> Result<(), NoMemory>
    requires symbols { places.symbols ≤ places.strings }
    requires strings { places.strings ≤ places.names }
    ensures { OnOk result (out.new.items
        ≡ out.old.items ++ flat_map spec.section_header_bytes (spec.sections_of places)) }
{
    let strings = string_section(9, places.strings, places.names - places.strings);
    let names = string_section(17, places.names, SECTION_NAMES_SIZE);
    put::section_header(out, &NULL_SECTION)?;
    put::section_header(out, &symbol_section(places))?;
    put::section_header(out, &strings)?;
    put::section_header(out, &names)
}

/// The tables behind the segments' bytes.
#[tactic(auto, unfolding(crate::specs::Written::tables))]
fn put_tables(
    out: &mut Vec<u8>,
    end: u32,
    symbols: &[Symbol],
    places: Places,
) -> Result<(), NoMemory>
    requires end { end ≤ 4_000_000_000 }
    requires small { sum_by (λ s. length s.name + 1) symbols.now ≤ 67_108_864 }
    requires kinds { All (λ s. s.kind ≤ 2) symbols.now }
    requires symbols { places.symbols ≤ places.strings }
    requires strings { places.strings ≤ places.names }
    requires names { places.names + 27 ≤ 4_000_000_000 }
    ensures { OnOk result (out.new.items ≡ out.old.items ++ spec.tables end symbols.now places) }
{
    put_padding(out, end)?;
    put_symbols(out, symbols)?;
    put_strings(out, symbols)?;
    put_section_names(out)?;
    put_padding(out, places.names + SECTION_NAMES_SIZE)?;
    put_sections(out, places)
}

const NO_SECTIONS: Sections = Sections {
    offset: 0,
    count: 0,
    names: 0,
};

/// The file of parts that make an image.
fn write_parts(
    alloc: Global,
    entry: u32,
    segments: &[Region],
    symbols: &[Symbol],
) -> Result<Vec<u8>, NoMemory>
    requires segments { AreSegments entry segments.now }
    requires symbols { AreSymbols symbols.now }
    ensures { IfOk result (λ bytes.
        bytes.items ≡ spec.written_parts entry segments.now symbols.now) }
{
    let mut out = Vec::new(alloc);
    if symbols.is_empty() {
        put_front(&mut out, entry, segments, NO_SECTIONS)?;
        return Ok(out);
    }
    let places = places_of(segments, symbols);
    let sections = Sections {
        offset: places.sections,
        count: 4,
        names: 3,
    };
    put_front(&mut out, entry, segments, sections)?;
    put_tables(&mut out, data_end(segments), symbols, places)?;
    Ok(out)
}

/// The file of an image (System V ABI, ELF32), which loads as the image.
#[tactic(auto, unfolding(crate::specs::Written::written))]
pub fn write(alloc: Global, image: &Image) -> Result<Vec<u8>, NoMemory>
    ensures file { IfOk result (λ bytes. bytes.items ≡ spec.written image.now) }
    ensures loads_again { IfOk result (λ bytes. loaded bytes.items ≡ Ok image.now) }
{
    write_parts(alloc, image.entry(), image.segments(), image.symbols())
}
