//! The text that tells GDB what the harts' registers are, as `specs/Features.antt` has it.
ghost use Rattle.std.specs.Prelude.{◌≡◌, ◌+◌, ◌^◌, ◌<◌, ◌++◌, ◌||◌, is_err, nat_lt, take, drop, OnOk};
ghost use Rattle.std.specs.Io.KnownBytes.{Appends};
ghost use Rattle.rv_gdb.specs.Features as spec;
ghost use Rattle.rv_gdb.specs.Sheet as sheet;

use crate::fields::Range;
use crate::sheet::Sheet;
use rv_memory::flagged::WriteFault;
use rv_memory::output::{Output, put_pieces};
use rv_text::decimal::Decimal;
use std::alloc::Global;

/// The most bytes of a part.
pub const MOST_PART: u32 = 512;

const HEAD: &[u8] =
    b"<?xml version=\"1.0\"?><!DOCTYPE target SYSTEM \"gdb-target.dtd\"><target version=\"1.0\"><architecture>riscv:rv32</architecture><osabi>none</osabi><feature name=\"org.gnu.gdb.riscv.cpu\">";

const TAIL: &[u8] =
    b"<reg name=\"pc\" bitsize=\"32\" type=\"code_ptr\" regnum=\"32\"/></feature></target>";

#[tactic(auto, unfolding(crate::specs::Features::head))]
fn head() -> &'static [u8]
    ensures { result.now ≡ spec.head }
{
    HEAD
}

#[tactic(auto, unfolding(crate::specs::Features::tail))]
fn tail() -> &'static [u8]
    ensures { result.now ≡ spec.tail }
{
    TAIL
}

fn type_of(r: u8) -> &'static [u8]
    ensures { result.now ≡ spec.type_of r }
{
    match r {
        1 => b"code_ptr",
        2..=4 => b"data_ptr",
        _ => b"int",
    }
}

fn write_register<O: Output>(writer: &mut O, r: u8) -> Result<(), WriteFault>
    ensures ok { OnOk result (Appends (O.written writer.old) (O.written writer.new) (spec.register_element r)) }
    ensures failed { O.has_failed writer.new ≡ (O.has_failed writer.old || is_err result) }
{
    let number = Decimal::new(u64::from(r));
    put_pieces(
        writer,
        &[
            b"<reg name=\"x",
            number.as_bytes(),
            b"\" bitsize=\"32\" type=\"",
            type_of(r),
            b"\" regnum=\"",
            number.as_bytes(),
            b"\"/>",
        ],
    )?;
    Ok(())
}

fn write_registers<O: Output>(writer: &mut O) -> Result<(), WriteFault>
    ensures ok { OnOk result (Appends (O.written writer.old) (O.written writer.new) spec.register_elements) }
    ensures failed { O.has_failed writer.new ≡ (O.has_failed writer.old || is_err result) }
{
    for r in 0..32 {
        write_register(writer, r)?;
    }
    Ok(())
}

/// Writes the whole text.
fn write_features<O: Output>(writer: &mut O) -> Result<(), WriteFault>
    ensures ok { OnOk result (Appends (O.written writer.old) (O.written writer.new) spec.features_text) }
    ensures failed { O.has_failed writer.new ≡ (O.has_failed writer.old || is_err result) }
{
    writer.put(head())?;
    write_registers(writer)?;
    writer.put(tail())?;
    Ok(())
}

/// Whether a part of a text does not reach its end, so that there is more of it.
fn has_more(length: usize, from: usize, count: usize) -> bool
    requires { from + count < 2 ^ 64 }
    ensures { result ≡ nat_lt (from + count) length }
{
    from + count < length
}

/// A part of a text.
fn part(text: &[u8], from: usize, count: usize) -> &[u8]
    ensures { result.now ≡ take count (drop from text.now) }
{
    let from = from.min(text.len());
    let rest = &text[from..];
    &rest[..count.min(rest.len())]
}

/// Writes a part of the text.
pub fn write_features_part(
    alloc: Global,
    writer: &mut Sheet,
    range: Range,
) -> Result<(), WriteFault>
    ensures { OnOk result (sheet.bytes writer.new ≡ sheet.bytes writer.old ++ spec.features_part range) }
{
    let mut whole = Sheet::new(alloc);
    write_features(&mut whole)?;
    let text = whole.as_bytes();
    let from = range.from as usize;
    let count = range.length.min(MOST_PART) as usize;
    let front: &[u8] = if has_more(text.len(), from, count) {
        b"m"
    } else {
        b"l"
    };
    put_pieces(writer, &[front, part(text, from, count)])
}
