//! What is shown of a machine's state, as `specs/Shown.antt` has it.
ghost use Rattle.std.specs.Prelude.{◌≡◌, ◌<◌, ◌≤◌, ◌++◌, ◌||◌, IfSome, IfNone, is_err, length, OnOk, Some};
ghost use Rattle.std.specs.Io.KnownBytes.{Appends};
ghost use Rattle.rv_gdb.specs.Shown as spec;
ghost use Rattle.rv_hart.specs.SomeHart.{SomeHart};
ghost use Rattle.rv_memory.specs.Memory.{byte};

use crate::fields::Range;
use crate::hexadecimal::Hexadecimal;
use rv_hart::machine::Machine;
use rv_memory::flagged::WriteFault;
use rv_memory::output::{Output, put_pieces};
use rv_memory::store::ByteStore;
use rv_text::hexadecimal::byte_digits;

/// Writes a word, its low byte first.
pub(crate) fn write_word<O: Output>(writer: &mut O, word: u32) -> Result<(), WriteFault>
    ensures ok { OnOk result (Appends (O.written writer.old) (O.written writer.new) (spec.word_text word)) }
    ensures failed { O.has_failed writer.new ≡ (O.has_failed writer.old || is_err result) }
{
    put_pieces(
        writer,
        &[
            &byte_digits((word % 256) as u8),
            &byte_digits((word / 0x100 % 256) as u8),
            &byte_digits((word / 0x1_0000 % 256) as u8),
            &byte_digits((word / 0x100_0000) as u8),
        ],
    )
}

/// Writes all registers of a hart, and its pc.
pub fn write_registers<S: ByteStore, O: Output>(
    writer: &mut O,
    machine: &Machine<S>,
    h: u8,
) -> Result<(), WriteFault>
    requires { h < length machine.now.state.harts }
    ensures ok { OnOk result (SomeHart (λ hart.
        Appends (O.written writer.old) (O.written writer.new) (spec.registers_text hart)) machine.now.state h) }
    ensures failed { O.has_failed writer.new ≡ (O.has_failed writer.old || is_err result) }
{
    for r in 0..32 {
        write_word(writer, machine.register(h, r))?;
    }
    write_word(writer, machine.pc(h))?;
    Ok(())
}

/// A register of a hart: 0 to 31, or pc as register 32. None where there is no such register.
pub(crate) fn register_at<S: ByteStore>(machine: &Machine<S>, h: u8, r: u32) -> Option<u32>
    requires { h < length machine.now.state.harts }
    ensures { SomeHart (λ hart. result ≡ spec.register_at hart r) machine.now.state h }
{
    if r < 32 {
        return Some(machine.register(h, r as u8));
    }
    if r == 32 {
        return Some(machine.pc(h));
    }
    None
}

/// The byte at an address, which may lie past the last one.
pub(crate) fn byte_at<S: ByteStore>(machine: &Machine<S>, address: u64) -> Option<u8>
    ensures { result ≡ byte machine.now.state.memory address }
{
    machine.no_byte_past_the_last();
    match u32::try_from(address) {
        Ok(address) => machine.byte(address),
        Err(_) => None,
    }
}

/// Writes the bytes of a range, up to the first that is not there.
pub fn write_bytes<S: ByteStore, O: Output>(
    writer: &mut O,
    machine: &Machine<S>,
    range: Range,
) -> Result<(), WriteFault>
    ensures ok { OnOk result (Appends (O.written writer.old) (O.written writer.new)
        (spec.bytes_text machine.now.state.memory range.from range.length)) }
    ensures failed { O.has_failed writer.new ≡ (O.has_failed writer.old || is_err result) }
{
    for i in 0..range.length {
        match byte_at(machine, u64::from(range.from) + u64::from(i)) {
            Some(byte) => writer.put(&byte_digits(byte))?,
            None => return Ok(()),
        }
    }
    Ok(())
}

/// Writes the thread of a hart behind another one.
fn write_next_thread<O: Output>(writer: &mut O, hart: u8) -> Result<(), WriteFault>
    ensures ok { OnOk result (Appends (O.written writer.old) (O.written writer.new) (spec.next_thread hart)) }
    ensures failed { O.has_failed writer.new ≡ (O.has_failed writer.old || is_err result) }
{
    let thread = Hexadecimal::new(u32::from(hart) + 1);
    put_pieces(writer, &[b",", thread.as_bytes()])
}

/// Writes the threads of so many harts.
pub fn write_threads<O: Output>(writer: &mut O, harts: u8) -> Result<(), WriteFault>
    requires { 1 ≤ harts }
    ensures ok { OnOk result (Appends (O.written writer.old) (O.written writer.new) (spec.threads_text harts)) }
    ensures failed { O.has_failed writer.new ≡ (O.has_failed writer.old || is_err result) }
{
    writer.put(b"m1")?;
    for hart in 1..harts {
        write_next_thread(writer, hart)?;
    }
    Ok(())
}

/// Writes bytes in hexadecimal digits.
pub fn write_digits<O: Output>(writer: &mut O, bytes: &[u8]) -> Result<(), WriteFault>
    ensures ok { OnOk result (Appends (O.written writer.old) (O.written writer.new) (spec.digits_of bytes.now)) }
    ensures failed { O.has_failed writer.new ≡ (O.has_failed writer.old || is_err result) }
{
    for byte in bytes {
        writer.put(&byte_digits(*byte))?;
    }
    Ok(())
}
