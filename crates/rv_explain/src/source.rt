//! Where an instruction comes from, for people: the file and the line of each of its frames.
use rv_memory::store::NoMemory;
use rv_symbols::frames::Frame;
use std::alloc::Global;
use std::str;

/// How many bytes of a function, of a file or of a place are shown at most.
const MOST_FIELD: usize = 4096;

/// A field as its file has it, or its first bytes up to a character's end and two dots.
pub(crate) fn field_text(alloc: Global, field: &[u8]) -> Result<String, NoMemory> {
    // Its file is UTF-8.
    let text = str::from_utf8(field).unwrap_or("?");
    let (front, rest) = text.split_at(text.floor_char_boundary(MOST_FIELD));
    let dots = if rest.is_empty() { "" } else { ".." };
    Ok(format!(in alloc; "{front}{dots}")?)
}

/// ` at FILE:LINE` of a frame, where there is one and its file is known.
pub(crate) fn at_text(alloc: Global, frame: Option<Frame<'_>>) -> Result<String, NoMemory> {
    match frame {
        Some(frame) if frame.file().is_some() => {
            let place = field_text(alloc, frame.place)?;
            Ok(format!(in alloc; " at {place}")?)
        }
        _ => Ok(String::new(alloc)),
    }
}

/// The row of a frame that an instruction's function was inlined into.
pub(crate) fn inlined_row(alloc: Global, frame: &Frame<'_>) -> Result<Vec<u8>, NoMemory> {
    let function = field_text(alloc, frame.function)?;
    let place = field_text(alloc, frame.place)?;
    Ok(format!(in alloc; "      (inlined by) {function} at {place}")?.into_bytes())
}
