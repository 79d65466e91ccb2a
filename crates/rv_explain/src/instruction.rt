//! The line of an instruction, as people read it: a FENCE by letters, as the manual writes it, in place of the listing's numbers.
use rv_asm::line_of;
use rv_memory::store::NoMemory;
use std::alloc::Global;

/// The bits of a FENCE that are fixed, those of fm, rd and rs1 among them, which are 0 in what the assembly language writes.
const FENCE_BITS: u32 = 0xf00f_ffff;

const FENCE: u32 = 0x0000_000f;

/// `fence w, 0`, which the manual calls PAUSE.
const PAUSE: u32 = 0x0100_000f;

/// What a FENCE may order, by its bits.
const LETTERS: [(u32, &str); 4] = [(8, "i"), (4, "o"), (2, "r"), (1, "w")];

/// What a FENCE orders on one side, as `iorw`, or `0`.
fn letters(alloc: Global, set: u32) -> Result<String, NoMemory> {
    let mut text = String::new(alloc);
    for letter in &LETTERS {
        if set & letter.0 != 0 {
            text.push_str(letter.1)?;
        }
    }
    if text.is_empty() {
        text.push_str("0")?;
    }
    Ok(text)
}

/// The line of a word at an address.
pub(crate) fn instruction_line(alloc: Global, word: u32, address: u32) -> Result<String, NoMemory> {
    if word == PAUSE {
        return Ok(format!(in alloc; "pause")?);
    }
    if word & FENCE_BITS != FENCE {
        return line_of(alloc, word, address);
    }
    let before = letters(alloc, word >> 24)?;
    let after = letters(alloc, word >> 20)?;
    Ok(format!(in alloc; "fence {before}, {after}")?)
}
