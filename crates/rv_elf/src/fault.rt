//! Why an image could not be loaded.
use rv_memory::store::NoMemory;
use thiserror::Error;

/// The first test that a file fails, by its name. The tests come in the order of
/// `specs/Loaded.antt`; `NoMemory` comes after all of them.
#[derive(Clone, Copy, Debug, PartialEq, Eq, Error)]
pub enum LoadFault {
    /// The file ends before its header, its program headers or a segment's bytes do.
    #[error("Truncated")]
    Truncated,
    /// The first four bytes are not those of an ELF file.
    #[error("NotElf")]
    NotElf,
    /// It is not a file of 32 bits, least significant byte first, of version 1.
    #[error("NotElf32Little")]
    NotElf32Little,
    /// `e_type` is not ET_EXEC.
    #[error("NotExecutable")]
    NotExecutable,
    /// `e_machine` is not EM_RISCV.
    #[error("NotRiscV")]
    NotRiscV,
    /// A program header is PT_DYNAMIC or PT_INTERP.
    #[error("NotStatic")]
    NotStatic,
    /// A header has not the size of version 1.
    #[error("HeaderSize")]
    HeaderSize,
    /// There are more than 64 program headers.
    #[error("TooManySegments")]
    TooManySegments,
    /// A segment has more bytes in the file than in memory.
    #[error("FileLongerThanMemory")]
    FileLongerThanMemory,
    /// A segment ends past the last address.
    #[error("PastEnd")]
    PastEnd,
    /// Two segments share an address, or one shares one with the harts' stacks.
    #[error("Overlap")]
    Overlap,
    /// The segments have more than 16,777,216 bytes together.
    #[error("TooLarge")]
    TooLarge,
    /// No word that may be executed lies at the entry.
    #[error("BadEntry")]
    BadEntry,
    /// The section headers, the symbol table or its strings are malformed, or too large together.
    #[error("BadSymbols")]
    BadSymbols,
    /// A growth was refused.
    #[error("NoMemory")]
    NoMemory,
}

impl From<NoMemory> for LoadFault {
    ghost use Rattle.std.specs.Prelude.{◌≡◌};
    ghost use Rattle.rv_elf.specs.declared.fault.LoadFault.TheVariants as faults;

    ghost from_gives = { λ _ fault. fault ≡ faults.NoMemory };

    fn from(_: NoMemory) -> LoadFault {
        LoadFault::NoMemory
    }
}
