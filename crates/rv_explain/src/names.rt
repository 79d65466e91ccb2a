//! How an address is written: by its symbol, as Linux writes addresses in its own reports.
ghost use Rattle.std.specs.Prelude.{◌≡◌};
ghost use Rattle.rv_hart.specs.Arithmetic.{minus};

use crate::instruction::instruction_line;
use crate::source::{at_text, inlined_row};
use rv_memory::store::NoMemory;
use rv_symbols::escaped::escaped;
use rv_symbols::symbol_table::SymbolTable;
use std::alloc::Global;

/// How many bytes of a symbol's name a text shows at most, since a file may have names of megabytes.
pub const TEXT_NAME: usize = 200;

/// How many bytes of a symbol's name a picture shows at most.
pub const PICTURE_NAME: usize = 40;

/// A name, or its first bytes up to a character's end, at most so many, and two dots.
fn shown(alloc: Global, most: usize, name: &str) -> Result<String, NoMemory> {
    let (front, rest) = name.split_at(name.floor_char_boundary(most));
    let front = escaped(alloc, front.as_bytes())?;
    // It is ASCII.
    let front = String::from_utf8_lossy(alloc, &front)?;
    let dots = if rest.is_empty() { "" } else { ".." };
    Ok(format!(in alloc; "{front}{dots}")?)
}

/// The symbols that name addresses, and how many bytes of a symbol's name are shown at most.
#[derive(Clone, Copy)]
pub(crate) struct Names<'a, 's> {
    pub symbols: &'a SymbolTable<'s>,
    pub most: usize,
}

impl Names<'_, '_> {
    /// An address by its symbol, as `take+0x14/0x28`, where it has one.
    fn symbol(&self, alloc: Global, address: u32) -> Result<Option<String>, NoMemory> {
        let Some(symbol) = self.symbols.symbol_of(address) else {
            return Ok(None);
        };
        let name = shown(alloc, self.most, &symbol.name)?;
        let offset = address.saturating_sub(symbol.value);
        let size = symbol.size;
        if size == 0 {
            return Ok(Some(format!(in alloc; "{name}+0x{offset:x}")?));
        }
        Ok(Some(format!(in alloc; "{name}+0x{offset:x}/0x{size:x}")?))
    }

    /// The same, or the address's eight digits.
    pub(crate) fn name(&self, alloc: Global, address: u32) -> Result<String, NoMemory> {
        match self.symbol(alloc, address)? {
            Some(name) => Ok(name),
            None => Ok(format!(in alloc; "{address:08x}")?),
        }
    }

    /// The digits of an address, and its name where it has one, as `00010074 take+0x14/0x28`.
    pub(crate) fn address(&self, alloc: Global, address: u32) -> Result<String, NoMemory> {
        match self.symbol(alloc, address)? {
            Some(name) => Ok(format!(in alloc; "{address:08x} {name}")?),
            None => Ok(format!(in alloc; "{address:08x}")?),
        }
    }

    /// ` at FILE:LINE` of the innermost frame of an instruction, where that is known.
    fn source(&self, alloc: Global, address: u32) -> Result<String, NoMemory> {
        let mut frames = self.symbols.frames_at(address);
        at_text(alloc, frames.next_frame())
    }

    /// The address of an instruction, its name, and its source line.
    pub(crate) fn place(&self, alloc: Global, address: u32) -> Result<String, NoMemory> {
        let place = self.address(alloc, address)?;
        let source = self.source(alloc, address)?;
        Ok(format!(in alloc; "{place}{source}")?)
    }

    /// The same of where a function returns to: the source line is that of the call in front of it.
    pub(crate) fn caller(&self, alloc: Global, address: u32) -> Result<String, NoMemory> {
        let place = self.address(alloc, address)?;
        let source = self.source(alloc, call_before(address))?;
        Ok(format!(in alloc; "{place}{source}")?)
    }

    /// The address of an instruction, its name, the line of the word that memory had there, and its source line.
    pub(crate) fn instruction(
        &self,
        alloc: Global,
        address: u32,
        word: Option<u32>,
    ) -> Result<String, NoMemory> {
        let place = self.address(alloc, address)?;
        let source = self.source(alloc, address)?;
        let Some(word) = word else {
            return Ok(format!(in alloc; "{place}: unreadable{source}")?);
        };
        let line = instruction_line(alloc, word, address)?;
        Ok(format!(in alloc; "{place}: {line}{source}")?)
    }

    /// Adds a row for each further frame of an instruction, which its function was inlined into.
    pub(crate) fn add_inlined(
        &self,
        alloc: Global,
        rows: &mut Vec<Vec<u8>>,
        address: u32,
    ) -> Result<(), NoMemory> {
        let mut frames = self.symbols.frames_at(address);
        let _ = frames.next_frame();
        while let Some(frame) = frames.next_frame() {
            rows.push(inlined_row(alloc, &frame)?)?;
        }
        Ok(())
    }
}

/// The call that a function returns from to an address.
pub(crate) fn call_before(address: u32) -> u32
    ensures { result ≡ minus address 4 }
{
    address.wrapping_sub(4)
}

/// Adds the row of a caller, and those of the functions that the call was inlined into.
pub(crate) fn add_caller(
    alloc: Global,
    rows: &mut Vec<Vec<u8>>,
    names: &Names,
    caller: Option<u32>,
) -> Result<(), NoMemory> {
    let Some(address) = caller else {
        return Ok(());
    };
    let place = names.caller(alloc, address)?;
    rows.push(format!(in alloc; "    called from {place}")?.into_bytes())?;
    names.add_inlined(alloc, rows, call_before(address))
}

/// The name of an address, as `take+0x14/0x28`, or its eight digits where it has no symbol.
pub fn name_text(alloc: Global, symbols: &SymbolTable, address: u32) -> Result<Vec<u8>, NoMemory> {
    let most = TEXT_NAME;
    Ok(Names { symbols, most }.name(alloc, address)?.into_bytes())
}

/// Where an instruction comes from, as ` at ring.c:33`, or nothing where that isn't known.
pub fn source_text(alloc: Global, symbols: &SymbolTable, address: u32) -> Result<String, NoMemory> {
    let most = TEXT_NAME;
    Names { symbols, most }.source(alloc, address)
}

/// The name of the function at an address, as `take`, or the address's eight digits.
pub fn function_text(
    alloc: Global,
    symbols: &SymbolTable,
    address: u32,
) -> Result<Vec<u8>, NoMemory> {
    match symbols.symbol_of(address) {
        Some(symbol) => Ok(shown(alloc, TEXT_NAME, &symbol.name)?.into_bytes()),
        None => Ok(format!(in alloc; "{address:08x}")?.into_bytes()),
    }
}

/// The name of the variable at an address and how far into it that is, as `rings+0x8`, or the address's eight digits.
pub fn variable_text(
    alloc: Global,
    symbols: &SymbolTable,
    address: u32,
) -> Result<Vec<u8>, NoMemory> {
    let Some(symbol) = symbols.symbol_of(address) else {
        return Ok(format!(in alloc; "{address:08x}")?.into_bytes());
    };
    let name = shown(alloc, TEXT_NAME, &symbol.name)?;
    let offset = address.saturating_sub(symbol.value);
    Ok(format!(in alloc; "{name}+0x{offset:x}")?.into_bytes())
}

/// The digits of an address, and its name where it has one, as `00010074 take+0x14/0x28`.
pub fn address_text(
    alloc: Global,
    symbols: &SymbolTable,
    address: u32,
) -> Result<Vec<u8>, NoMemory> {
    let most = TEXT_NAME;
    Ok(
        Names { symbols, most }
            .address(alloc, address)?
            .into_bytes(),
    )
}
