//! The records of an ELF32 file, as the System V ABI lays them out, least significant byte first.
ghost use Rattle.std.specs.Prelude.{◌≡◌, ◌+◌, ◌<◌, ◌≤◌, length, IfSome};
ghost use Rattle.std.specs.Option.{option_copied};
ghost use Rattle.rv_elf.specs.Layout as spec;

use byteorder::{ByteOrder, LittleEndian};

/// How many bytes each record takes.
pub const FILE_HEADER_SIZE: usize = 52;

pub const PROGRAM_HEADER_SIZE: usize = 32;

pub const SECTION_HEADER_SIZE: usize = 40;

pub const SYMBOL_ENTRY_SIZE: usize = 16;

/// The ELF header, without the bytes that are the same in every file that is written and are never
/// read: the ABI and its padding.
#[derive(Clone, Copy)]
pub struct FileHeader {
    pub ei_mag: u32,
    pub ei_class: u8,
    pub ei_data: u8,
    pub ei_version: u8,
    pub e_type: u16,
    pub e_machine: u16,
    pub e_version: u32,
    pub e_entry: u32,
    pub e_phoff: u32,
    pub e_shoff: u32,
    pub e_flags: u32,
    pub e_ehsize: u16,
    pub e_phentsize: u16,
    pub e_phnum: u16,
    pub e_shentsize: u16,
    pub e_shnum: u16,
    pub e_shstrndx: u16,
}

/// A program header: where the bytes of a segment lie in the file and in memory.
#[derive(Clone, Copy)]
pub struct ProgramHeader {
    pub p_type: u32,
    pub p_offset: u32,
    pub p_vaddr: u32,
    pub p_paddr: u32,
    pub p_filesz: u32,
    pub p_memsz: u32,
    pub p_flags: u32,
    pub p_align: u32,
}

/// A section header.
#[derive(Clone, Copy)]
pub struct SectionHeader {
    pub sh_name: u32,
    pub sh_type: u32,
    pub sh_flags: u32,
    pub sh_addr: u32,
    pub sh_offset: u32,
    pub sh_size: u32,
    pub sh_link: u32,
    pub sh_info: u32,
    pub sh_addralign: u32,
    pub sh_entsize: u32,
}

/// An entry of a symbol table.
#[derive(Clone, Copy)]
pub struct SymbolEntry {
    pub st_name: u32,
    pub st_value: u32,
    pub st_size: u32,
    pub st_info: u8,
    pub st_other: u8,
    pub st_shndx: u16,
}

/// The number in the four bytes from `offset` on.
fn word(bytes: &[u8], offset: usize) -> u32
    requires { offset + 4 ≤ length bytes.now }
    ensures { result ≡ spec.field offset 4 bytes.now }
{
    LittleEndian::read_u32(&bytes[offset..])
}

/// The number in the two bytes from `offset` on.
fn half(bytes: &[u8], offset: usize) -> u16
    requires { offset + 2 ≤ length bytes.now }
    ensures { result ≡ spec.field offset 2 bytes.now }
{
    LittleEndian::read_u16(&bytes[offset..])
}

/// The byte at `offset`.
fn byte(bytes: &[u8], offset: usize) -> u8
    requires { offset < length bytes.now }
    ensures { result ≡ spec.field offset 1 bytes.now }
{
    bytes[offset]
}

impl FileHeader {
    /// The header at the front of the bytes.
    #[tactic(auto, unfolding(crate::specs::Layout::file_header))]
    pub fn read(bytes: &[u8]) -> FileHeader
        requires { 52 ≤ length bytes.now }
        ensures { result ≡ spec.file_header bytes.now }
    {
        FileHeader {
            ei_mag: word(bytes, 0),
            ei_class: byte(bytes, 4),
            ei_data: byte(bytes, 5),
            ei_version: byte(bytes, 6),
            e_type: half(bytes, 16),
            e_machine: half(bytes, 18),
            e_version: word(bytes, 20),
            e_entry: word(bytes, 24),
            e_phoff: word(bytes, 28),
            e_shoff: word(bytes, 32),
            e_flags: word(bytes, 36),
            e_ehsize: half(bytes, 40),
            e_phentsize: half(bytes, 42),
            e_phnum: half(bytes, 44),
            e_shentsize: half(bytes, 46),
            e_shnum: half(bytes, 48),
            e_shstrndx: half(bytes, 50),
        }
    }
}

impl ProgramHeader {
    /// The program header at the front of the bytes.
    #[tactic(auto, unfolding(crate::specs::Layout::program_header))]
    pub fn read(bytes: &[u8]) -> ProgramHeader
        requires { 32 ≤ length bytes.now }
        ensures { result ≡ spec.program_header bytes.now }
    {
        ProgramHeader {
            p_type: word(bytes, 0),
            p_offset: word(bytes, 4),
            p_vaddr: word(bytes, 8),
            p_paddr: word(bytes, 12),
            p_filesz: word(bytes, 16),
            p_memsz: word(bytes, 20),
            p_flags: word(bytes, 24),
            p_align: word(bytes, 28),
        }
    }
}

impl SectionHeader {
    /// The section header at the front of the bytes.
    #[tactic(auto, unfolding(crate::specs::Layout::section_header))]
    pub fn read(bytes: &[u8]) -> SectionHeader
        requires { 40 ≤ length bytes.now }
        ensures { result ≡ spec.section_header bytes.now }
    {
        SectionHeader {
            sh_name: word(bytes, 0),
            sh_type: word(bytes, 4),
            sh_flags: word(bytes, 8),
            sh_addr: word(bytes, 12),
            sh_offset: word(bytes, 16),
            sh_size: word(bytes, 20),
            sh_link: word(bytes, 24),
            sh_info: word(bytes, 28),
            sh_addralign: word(bytes, 32),
            sh_entsize: word(bytes, 36),
        }
    }
}

impl SymbolEntry {
    /// The symbol table entry at the front of the bytes.
    #[tactic(auto, unfolding(crate::specs::Layout::symbol_entry))]
    pub fn read(bytes: &[u8]) -> SymbolEntry
        requires { 16 ≤ length bytes.now }
        ensures { result ≡ spec.symbol_entry bytes.now }
    {
        SymbolEntry {
            st_name: word(bytes, 0),
            st_value: word(bytes, 4),
            st_size: word(bytes, 8),
            st_info: byte(bytes, 12),
            st_other: byte(bytes, 13),
            st_shndx: half(bytes, 14),
        }
    }
}

/// The `size` bytes from `offset` on, where they lie within the file. No bytes lie anywhere.
#[tactic(auto, unfolding(crate::specs::Layout::part))]
pub fn part(bytes: &[u8], offset: u32, size: u32) -> Option<&[u8]>
    ensures value { option_copied result ≡ spec.part offset size bytes.now }
    ensures size { IfSome result (λ found. length found.now ≡ size) }
{
    if size == 0 {
        return Some(&[]);
    }
    let start = offset as usize;
    let end = start + size as usize;
    if end <= bytes.len() {
        Some(&bytes[start..end])
    } else {
        None
    }
}
