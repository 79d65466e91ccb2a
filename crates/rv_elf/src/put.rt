//! The records of an ELF32 file, put at the end of the bytes so far.
ghost use Rattle.std.specs.Prelude.{◌≡◌, ◌++◌, OnOk, replicate};
ghost use Rattle.byteorder.specs.Endian.{little_bytes};
ghost use Rattle.rv_elf.specs.Written as spec;

use crate::layout::{FileHeader, ProgramHeader, SectionHeader, SymbolEntry};
use byteorder::{ByteOrder, LittleEndian};
use rv_memory::store::NoMemory;

fn word(out: &mut Vec<u8>, value: u32) -> Result<(), NoMemory>
    ensures { OnOk result (out.new.items ≡ out.old.items ++ little_bytes 4 value) }
{
    let mut bytes = [0; 4];
    LittleEndian::write_u32(&mut bytes, value);
    out.extend_from_slice(&bytes)?;
    Ok(())
}

fn half(out: &mut Vec<u8>, value: u16) -> Result<(), NoMemory>
    ensures { OnOk result (out.new.items ≡ out.old.items ++ little_bytes 2 value) }
{
    let mut bytes = [0; 2];
    LittleEndian::write_u16(&mut bytes, value);
    out.extend_from_slice(&bytes)?;
    Ok(())
}

fn words(out: &mut Vec<u8>, values: &[u32]) -> Result<(), NoMemory>
    ensures { OnOk result (out.new.items ≡ out.old.items ++ spec.words values.now) }
{
    for value in values {
        word(out, *value)?;
    }
    Ok(())
}

fn halves(out: &mut Vec<u8>, values: &[u16]) -> Result<(), NoMemory>
    ensures { OnOk result (out.new.items ≡ out.old.items ++ spec.halves values.now) }
{
    for value in values {
        half(out, *value)?;
    }
    Ok(())
}

/// So many zeros.
pub fn zeros(out: &mut Vec<u8>, count: u32) -> Result<(), NoMemory>
    ensures { OnOk result (out.new.items ≡ out.old.items ++ replicate count 0) }
{
    for _ in 0..count {
        out.push(0)?;
    }
    Ok(())
}

#[tactic(auto, unfolding(crate::specs::Written::file_header_bytes))]
pub fn file_header(out: &mut Vec<u8>, header: &FileHeader) -> Result<(), NoMemory>
    ensures { OnOk result (out.new.items ≡ out.old.items ++ spec.file_header_bytes header.now) }
{
    words(out, &[header.ei_mag])?;
    out.extend_from_slice(&[header.ei_class, header.ei_data, header.ei_version])?;
    zeros(out, 9)?;
    halves(out, &[header.e_type, header.e_machine])?;
    words(
        out,
        &[
            header.e_version,
            header.e_entry,
            header.e_phoff,
            header.e_shoff,
            header.e_flags,
        ],
    )?;
    halves(
        out,
        &[
            header.e_ehsize,
            header.e_phentsize,
            header.e_phnum,
            header.e_shentsize,
            header.e_shnum,
            header.e_shstrndx,
        ],
    )
}

#[tactic(auto, unfolding(crate::specs::Written::program_header_bytes))]
pub fn program_header(out: &mut Vec<u8>, header: &ProgramHeader) -> Result<(), NoMemory>
    ensures { OnOk result (out.new.items ≡ out.old.items ++ spec.program_header_bytes header.now) }
{
    words(
        out,
        &[
            header.p_type,
            header.p_offset,
            header.p_vaddr,
            header.p_paddr,
            header.p_filesz,
            header.p_memsz,
            header.p_flags,
            header.p_align,
        ],
    )
}

#[tactic(auto, unfolding(crate::specs::Written::section_header_bytes))]
pub fn section_header(out: &mut Vec<u8>, header: &SectionHeader) -> Result<(), NoMemory>
    ensures { OnOk result (out.new.items ≡ out.old.items ++ spec.section_header_bytes header.now) }
{
    words(
        out,
        &[
            header.sh_name,
            header.sh_type,
            header.sh_flags,
            header.sh_addr,
            header.sh_offset,
            header.sh_size,
            header.sh_link,
            header.sh_info,
            header.sh_addralign,
            header.sh_entsize,
        ],
    )
}

#[tactic(auto, unfolding(crate::specs::Written::symbol_entry_bytes))]
pub fn symbol_entry(out: &mut Vec<u8>, entry: &SymbolEntry) -> Result<(), NoMemory>
    ensures { OnOk result (out.new.items ≡ out.old.items ++ spec.symbol_entry_bytes entry.now) }
{
    words(out, &[entry.st_name, entry.st_value, entry.st_size])?;
    out.extend_from_slice(&[entry.st_info, entry.st_other])?;
    halves(out, &[entry.st_shndx])
}
