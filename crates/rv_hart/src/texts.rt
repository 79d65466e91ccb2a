//! The texts that harts are shown in. They are written piece by piece and take no memory.
ghost use Rattle.std.specs.Prelude.{◌≡◌, ◌<◌, ◌∷◌, [], ◌++◌, ◌||◌, is_err, length, OnOk};
ghost use Rattle.std.specs.Io.KnownBytes.{Appends};
ghost use Rattle.rv_hart.specs.SomeHart.{SomeHart};
ghost use Rattle.rv_text.specs.Lines.{text_of_lines};
ghost use Rattle.rv_hart.specs.Texts as spec;

use crate::access::Access;
use crate::hart::Status;
use crate::machine::Machine;
use rv_memory::flagged::WriteFault;
use rv_memory::output::{Output, put_pieces};
use rv_memory::store::ByteStore;
use rv_text::decimal::Decimal;
use rv_text::hexadecimal::{byte_digits, word_digits};

/// Writes whether a hart runs, or how it ended.
pub fn write_status<O: Output>(writer: &mut O, status: Status) -> Result<(), WriteFault>
    ensures ok { OnOk result (Appends (O.written writer.old) (O.written writer.new)
        (spec.status_text status)) }
    ensures failed { O.has_failed writer.new ≡ (O.has_failed writer.old || is_err result) }
{
    match status {
        Status::Running => writer.put(b"running"),
        Status::Exited(code) => put_pieces(writer, &[b"exited ", &word_digits(code)]),
        Status::Stopped(cause) => {
            let number = Decimal::new(u64::from(cause.number()));
            put_pieces(writer, &[b"stopped ", number.as_bytes()])
        }
    }
}

/// Writes a register, unless it is 0.
fn write_register<O: Output>(writer: &mut O, r: u8, value: u32) -> Result<(), WriteFault>
    ensures ok { OnOk result (Appends (O.written writer.old) (O.written writer.new)
        (spec.value_text r value)) }
    ensures failed { O.has_failed writer.new ≡ (O.has_failed writer.old || is_err result) }
{
    if value == 0 {
        return writer.put(b"");
    }
    let number = Decimal::new(u64::from(r));
    put_pieces(
        writer,
        &[b" x", number.as_bytes(), b" ", &word_digits(value)],
    )
}

fn write_registers<S: ByteStore, O: Output>(
    writer: &mut O,
    machine: &Machine<S>,
    h: u8,
) -> Result<(), WriteFault>
    requires { h < length machine.now.state.harts }
    ensures ok { OnOk result (SomeHart (λ hart.
        Appends (O.written writer.old) (O.written writer.new)
        (spec.registers_text hart.registers)) machine.now.state h) }
    ensures failed { O.has_failed writer.new ≡ (O.has_failed writer.old || is_err result) }
{
    for r in 0..32 {
        write_register(writer, r, machine.register(h, r))?;
    }
    Ok(())
}

fn write_reservation<O: Output>(writer: &mut O, reservation: Option<u32>) -> Result<(), WriteFault>
    ensures ok { OnOk result (Appends (O.written writer.old) (O.written writer.new)
        (spec.reservation_text reservation)) }
    ensures failed { O.has_failed writer.new ≡ (O.has_failed writer.old || is_err result) }
{
    match reservation {
        None => writer.put(b""),
        Some(address) => put_pieces(writer, &[b" lr ", &word_digits(address)]),
    }
}

/// Writes how the line of a hart begins.
fn write_front<O: Output>(writer: &mut O, h: u8) -> Result<(), WriteFault>
    ensures ok { OnOk result (Appends (O.written writer.old) (O.written writer.new)
        (spec.front_text h)) }
    ensures failed { O.has_failed writer.new ≡ (O.has_failed writer.old || is_err result) }
{
    let number = Decimal::new(u64::from(h));
    put_pieces(writer, &[b"hart ", number.as_bytes(), b" "])
}

fn write_pc<O: Output>(writer: &mut O, pc: u32) -> Result<(), WriteFault>
    ensures ok { OnOk result (Appends (O.written writer.old) (O.written writer.new)
        (spec.pc_text pc)) }
    ensures failed { O.has_failed writer.new ≡ (O.has_failed writer.old || is_err result) }
{
    put_pieces(writer, &[b" pc ", &word_digits(pc)])
}

/// Writes the line of hart `h`, with its line feed.
pub fn write_hart<S: ByteStore, O: Output>(
    writer: &mut O,
    machine: &Machine<S>,
    h: u8,
) -> Result<(), WriteFault>
    requires { h < length machine.now.state.harts }
    ensures ok { OnOk result (SomeHart (λ hart.
        Appends (O.written writer.old) (O.written writer.new)
        (spec.hart_line h hart ++ 10 ∷ [])) machine.now.state h) }
    ensures failed { O.has_failed writer.new ≡ (O.has_failed writer.old || is_err result) }
{
    write_front(writer, h)?;
    write_status(writer, machine.status(h))?;
    write_pc(writer, machine.pc(h))?;
    write_registers(writer, machine, h)?;
    write_reservation(writer, machine.reservation(h))?;
    writer.put(b"\n")?;
    Ok(())
}

/// Writes the line of the printed bytes, with its line feed.
pub fn write_output<O: Output>(writer: &mut O, output: &[u8]) -> Result<(), WriteFault>
    ensures ok { OnOk result (Appends (O.written writer.old) (O.written writer.new)
        (spec.output_line output.now ++ 10 ∷ [])) }
    ensures failed { O.has_failed writer.new ≡ (O.has_failed writer.old || is_err result) }
{
    writer.put(b"out")?;
    for byte in output {
        put_pieces(writer, &[b" ", &byte_digits(*byte)])?;
    }
    writer.put(b"\n")?;
    Ok(())
}

fn write_harts<S: ByteStore, O: Output>(
    writer: &mut O,
    machine: &Machine<S>,
) -> Result<(), WriteFault>
    ensures ok { OnOk result (Appends (O.written writer.old) (O.written writer.new)
        (text_of_lines (spec.hart_lines 0 machine.now.state.harts))) }
    ensures failed { O.has_failed writer.new ≡ (O.has_failed writer.old || is_err result) }
{
    for h in 0..machine.harts() {
        write_hart(writer, machine, h)?;
    }
    Ok(())
}

/// Writes what the machine's state is shown as: a line of each hart, and a line of the output.
#[tactic(auto, unfolding(crate::specs::Texts::state_text))]
pub fn write_state<S: ByteStore, O: Output>(
    writer: &mut O,
    machine: &Machine<S>,
) -> Result<(), WriteFault>
    ensures ok { OnOk result (Appends (O.written writer.old) (O.written writer.new)
        (spec.state_text machine.now.state)) }
    ensures failed { O.has_failed writer.new ≡ (O.has_failed writer.old || is_err result) }
{
    write_harts(writer, machine)?;
    write_output(writer, machine.output())?;
    Ok(())
}

/// Writes an access: `pc ADDR KIND ADDR SIZE`.
pub fn write_access<O: Output>(writer: &mut O, access: &Access) -> Result<(), WriteFault>
    ensures ok { OnOk result (Appends (O.written writer.old) (O.written writer.new)
        (spec.access_text access.now)) }
    ensures failed { O.has_failed writer.new ≡ (O.has_failed writer.old || is_err result) }
{
    put_pieces(
        writer,
        &[
            b"pc ",
            &word_digits(access.pc),
            b" ",
            kind_text(access),
            b" ",
        ],
    )?;
    let size = Decimal::new(u64::from(access.size));
    put_pieces(writer, &[&word_digits(access.first), b" ", size.as_bytes()])
}

fn kind_text(access: &Access) -> &'static [u8]
    ensures { result.now ≡ spec.kind_text access.now.read access.now.write }
{
    match (access.read, access.write) {
        (true, true) => b"both",
        (false, true) => b"store",
        (_, false) => b"load",
    }
}
