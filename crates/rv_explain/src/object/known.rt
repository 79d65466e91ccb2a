//! How a list of races names a race: as `hunt --list` writes it and `--ignore` reads it.
use rv_memory::store::NoMemory;
use rv_symbols::escaped::{escaped, escaped_field};
use rv_symbols::symbol_table::SymbolTable;
use rv_text::hexadecimal::{byte_digits, read_word, word_digits};
use std::alloc::Global;

/// The longest word of a list.
const LONGEST_WORD: usize = 65_536;

/// Whether a word says something else than a name: a comment, any instruction, or an address.
fn says_other(word: &[u8]) -> bool {
    word.first() == Some(&b'#') || word == b"*".as_slice() || read_word(word).is_some()
}

/// The function of an instruction's innermost frame as a list has it, where it is known and a line can have it.
fn function_of(
    alloc: Global,
    symbols: &SymbolTable,
    address: u32,
) -> Result<Option<Vec<u8>>, NoMemory> {
    let mut frames = symbols.frames_at(address);
    let Some(frame) = frames.next_frame() else {
        return Ok(None);
    };
    match frame.known_function() {
        Some(name) if name.len() <= LONGEST_WORD => { word_of(alloc, &escaped_field(alloc, name)?) }
        _ => Ok(None),
    }
}

/// The name of an address as a list has it, where a line can have it.
fn name_of(
    alloc: Global,
    symbols: &SymbolTable,
    address: u32,
) -> Result<Option<Vec<u8>>, NoMemory> {
    let Some(symbol) = symbols.symbol_of(address) else {
        return Ok(None);
    };
    if symbol.name.len() > LONGEST_WORD {
        return Ok(None);
    }
    word_of(alloc, &escaped(alloc, symbol.name.as_bytes())?)
}

/// What is shown as a word of a list, where a line can have it.
fn word_of(alloc: Global, shown: &[u8]) -> Result<Option<Vec<u8>>, NoMemory> {
    let mut word = Vec::new(alloc);
    match shown {
        [first, rest @ ..] if says_other(shown) => {
            word.extend_from_slice(b"\\x")?;
            word.extend_from_slice(&byte_digits(*first))?;
            word.extend_from_slice(rest)?;
        }
        all => word.extend_from_slice(all)?,
    }
    if word.is_empty() || word.len() > LONGEST_WORD {
        return Ok(None);
    }
    Ok(Some(word))
}

/// Adds an instruction, by its function or else by its address.
fn push_side(
    alloc: Global,
    text: &mut Vec<u8>,
    symbols: &SymbolTable,
    address: u32,
) -> Result<(), NoMemory> {
    if let Some(function) = function_of(alloc, symbols, address)? {
        text.extend_from_slice(&function)?;
        return Ok(());
    }
    match name_of(alloc, symbols, address)? {
        Some(name) => text.extend_from_slice(&name)?,
        None => text.extend_from_slice(&word_digits(address))?,
    }
    Ok(())
}

/// The two instructions of a race and its variable, where it has a name.
pub fn known_as(
    alloc: Global,
    symbols: &SymbolTable,
    first: u32,
    second: Option<u32>,
    address: Option<u32>,
) -> Result<Vec<u8>, NoMemory> {
    let mut text = Vec::new(alloc);
    push_side(alloc, &mut text, symbols, first)?;
    text.push(b' ')?;
    match second {
        Some(second) => push_side(alloc, &mut text, symbols, second)?,
        None => text.push(b'*')?,
    }
    if let Some(address) = address {
        if let Some(name) = name_of(alloc, symbols, address)? {
            text.extend_from_slice(b" on ")?;
            text.extend_from_slice(&name)?;
        }
    }
    Ok(text)
}
