//! The file's header, tested.
ghost use Rattle.std.specs.Prelude.{◌≡◌};
ghost use Rattle.rv_elf.specs.Loaded as spec;

use crate::fault::LoadFault;
use crate::layout::{FILE_HEADER_SIZE, FileHeader};

/// The first four bytes of an ELF file, 7f 45 4c 46.
pub const ELF_MAGIC: u32 = 0x464c_457f;
/// ELFCLASS32, ELFDATA2LSB and EV_CURRENT.
pub const CLASS_32: u8 = 1;

pub const DATA_LITTLE: u8 = 1;

pub const VERSION_CURRENT: u8 = 1;
/// ET_EXEC and EM_RISCV.
pub const EXECUTABLE: u16 = 2;

pub const RISCV: u16 = 243;

fn is_elf32_little(header: &FileHeader) -> bool
    ensures { result ≡ spec.is_elf32_little header.now }
{
    header.ei_class == CLASS_32
        && header.ei_data == DATA_LITTLE
        && header.ei_version == VERSION_CURRENT
        && header.e_version == u32::from(VERSION_CURRENT)
}

/// Whether the header and the entries of the tables that the file has are of the sizes of version 1.
fn has_known_sizes(header: &FileHeader) -> bool
    ensures { result ≡ spec.has_known_sizes header.now }
{
    header.e_ehsize == 52
        && (header.e_phnum == 0 || header.e_phentsize == 32)
        && (header.e_shoff == 0 || header.e_shnum == 0 || header.e_shentsize == 40)
}

#[tactic(auto, unfolding(crate::specs::Loaded::header_test))]
fn header_test(header: &FileHeader) -> Result<(), LoadFault>
    ensures { result ≡ spec.header_test header.now }
{
    if header.ei_mag != ELF_MAGIC {
        return Err(LoadFault::NotElf);
    }
    if !is_elf32_little(header) {
        return Err(LoadFault::NotElf32Little);
    }
    if header.e_type != EXECUTABLE {
        return Err(LoadFault::NotExecutable);
    }
    if header.e_machine != RISCV {
        return Err(LoadFault::NotRiscV);
    }
    if !has_known_sizes(header) {
        return Err(LoadFault::HeaderSize);
    }
    Ok(())
}

/// The header of a file for this machine, or the first test that it fails.
#[tactic(auto, unfolding(crate::specs::Loaded::header_of))]
pub fn header_of(bytes: &[u8]) -> Result<FileHeader, LoadFault>
    ensures { result ≡ spec.header_of bytes.now }
{
    if bytes.len() < FILE_HEADER_SIZE {
        return Err(LoadFault::Truncated);
    }
    let header = FileHeader::read(bytes);
    header_test(&header)?;
    Ok(header)
}
