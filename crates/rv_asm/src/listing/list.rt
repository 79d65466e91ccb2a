//! The listing of an image.
ghost use Rattle.std.specs.Prelude.{◌≡◌, ◌≤◌, ◌<◌, ◌^◌, ◌+◌, ◌||◌, ◌∷◌, [], ◌++◌, length, IfOk, OnOk, MatchOption};
ghost use Rattle.std.specs.Io.KnownBytes.{Appends};
ghost use Rattle.std.specs.String.{string_bytes};
ghost use Rattle.rv_elf.specs.Contents.{IsSegment};
ghost use Rattle.rv_text.specs.Lines.{text_of_lines};
ghost use Rattle.rv_asm.specs.Listing as spec;
ghost use Rattle.rv_asm.specs.declared.listing.list.ListFault.TheVariants as faults;

use crate::listing::line::line_of;
use crate::listing::whole::digits_of;
use rv_elf::Image;
use rv_memory::flagged::WriteFault;
use rv_memory::output::{Output, put_pieces};
use rv_memory::region::Region;
use rv_memory::store::NoMemory;
use std::alloc::Global;

/// Why a listing is not whole. What was written before is not said.
#[derive(Clone, Copy)]
pub enum ListFault {
    /// The writer failed.
    Write = 1,
    /// A growth was refused.
    NoMemory = 2,
}

impl From<WriteFault> for ListFault {
    ghost from_gives = { λ _ fault. fault ≡ faults.Write };

    fn from(_: WriteFault) -> ListFault {
        ListFault::Write
    }
}

impl From<NoMemory> for ListFault {
    ghost from_gives = { λ _ fault. fault ≡ faults.NoMemory };

    fn from(_: NoMemory) -> ListFault {
        ListFault::NoMemory
    }
}

/// The line of a word with its address and its digits before it, as `00010000: 00020337 lui x6, 0x20`.
pub fn listed(alloc: Global, address: u32, word: u32) -> Result<String, NoMemory>
    ensures { IfOk result (λ text. string_bytes text ≡ spec.listed address word) }
{
    let line = line_of(alloc, word, address)?;
    let (place, digits) = (digits_of(alloc, address)?, digits_of(alloc, word)?);
    Ok(format!(in alloc; "{place}: {digits} {line}")?)
}

/// Writes the line of a word at an address.
fn list_word<O: Output>(
    alloc: Global,
    writer: &mut O,
    address: u32,
    word: u32,
) -> Result<(), ListFault>
    ensures ok { OnOk result (Appends (O.written writer.old) (O.written writer.new)
        (spec.listed address word ++ 10 ∷ [])) }
    ensures failed { O.has_failed writer.new ≡ (O.has_failed writer.old || spec.is_write_fault result) }
{
    let line = listed(alloc, address, word)?;
    put_pieces(writer, &[line.as_bytes(), b"\n"])?;
    Ok(())
}

/// The word in the first four bytes, the least significant first, and the bytes after it.
fn split_word(bytes: &[u8]) -> Option<(u32, &[u8])>
    ensures { MatchOption result (spec.split_word bytes.now ≡ None)
        (λ r. spec.split_word bytes.now ≡ Some (r.0, r.1.now)) }
{
    match bytes {
        [a, b, c, d, after @ ..] => Some((u32::from_le_bytes([*a, *b, *c, *d]), after)),
        _ => None,
    }
}

fn list_words<O: Output>(
    alloc: Global,
    writer: &mut O,
    start: u32,
    bytes: &[u8],
) -> Result<(), ListFault>
    requires { start + length bytes.now ≤ 2 ^ 32 }
    ensures ok { OnOk result (Appends (O.written writer.old) (O.written writer.new)
        (text_of_lines (spec.word_lines start bytes.now))) }
    ensures failed { O.has_failed writer.new ≡ (O.has_failed writer.old || spec.is_write_fault result) }
{
    let mut address = u64::from(start);
    let mut rest = bytes;
    while let Some((word, after)) = split_word(rest) {
        list_word(alloc, writer, address as u32, word)?;
        address += 4;
        rest = after;
    }
    Ok(())
}

/// Writes the lines of a segment, if it may be executed.
fn list_segment<O: Output>(alloc: Global, writer: &mut O, segment: &Region) -> Result<(), ListFault>
    requires { IsSegment segment.now }
    ensures ok { OnOk result (Appends (O.written writer.old) (O.written writer.new)
        (text_of_lines (spec.segment_lines segment.now))) }
    ensures failed { O.has_failed writer.new ≡ (O.has_failed writer.old || spec.is_write_fault result) }
{
    let misaligned = (4 - segment.start % 4) % 4;
    let bytes = segment.bytes.as_slice();
    if !segment.x || bytes.len() <= misaligned as usize {
        return Ok(());
    }
    list_words(
        alloc,
        writer,
        segment.start + misaligned,
        &bytes[misaligned as usize..],
    )
}

/// Writes the listing of an image: for each executable segment, in the image's order, and each aligned
/// whole word within its file bytes, ascending, a line as `00010000: 00020337 lui x6, 0x20`.
pub fn list<O: Output>(alloc: Global, image: &Image, writer: &mut O) -> Result<(), ListFault>
    ensures ok { OnOk result (Appends (O.written writer.old) (O.written writer.new)
        (spec.listing image.now)) }
    ensures failed { O.has_failed writer.new ≡ (O.has_failed writer.old || spec.is_write_fault result) }
{
    for segment in image.segments() {
        list_segment(alloc, writer, segment)?;
    }
    Ok(())
}
