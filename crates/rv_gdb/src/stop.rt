//! Where the run stops, as `specs/Stops.antt` has it.
ghost use Rattle.std.specs.Prelude.{◌≡◌, ◌∷◌, [], ◌++◌, ◌||◌, ◌<◌, is_err, OnOk, IfOk, codes};
ghost use Rattle.std.specs.Io.KnownBytes.{Appends};
ghost use Rattle.std.specs.String.{string_bytes};
ghost use Rattle.rv_remote.specs.Framed.{packet_of};
ghost use Rattle.rv_gdb.specs.Stops as spec;

use crate::hexadecimal::Hexadecimal;
use crate::point::Kind;
use crate::points::Sight;
use rv_hart::hart::Cause;
use rv_memory::flagged::WriteFault;
use rv_memory::output::Output;
use rv_remote::framed::write_packet_of;
use rv_text::hexadecimal::byte_digits;

/// The signal where nothing went wrong.
pub const TRAP: u8 = 5;

/// Why the run stops.
#[derive(Clone, Copy)]
pub enum Why {
    /// It stands there: by a point at an instruction, a step, an end of its hart.
    Stands,
    /// A byte that a point watches is about to be accessed; on the way back, the access is about to be taken back.
    Watched(Sight),
    /// The record ends.
    End,
    /// The record begins.
    Begin,
}

/// A stop: its place and its hart, why, and the signal's number.
#[derive(Clone, Copy)]
pub struct Stop {
    pub place: u32,
    pub hart: u8,
    pub why: Why,
    pub signal: u8,
}

/// What a stop gives before the address of a watchpoint: its name, and a colon.
fn watch_front(kind: Kind) -> &'static [u8]
    ensures { result.now ≡ spec.watch_name kind ++ codes ":" }
{
    match kind {
        Kind::Write => b"watch:",
        Kind::Read => b"rwatch:",
        Kind::Access => b"awatch:",
        Kind::Software | Kind::Hardware => b":",
    }
}

/// Writes the packet of a stop, with the text of why the run stops in three pieces.
fn write_stop_by<'p, O: Output>(
    writer: &mut O,
    stop: &Stop,
    front: &'p [u8],
    address: &'p [u8],
    end: &'p [u8],
) -> Result<(), WriteFault>
    requires { front.now ++ (address.now ++ end.now) ≡ spec.why_text stop.now.why }
    ensures ok { OnOk result (Appends (O.written writer.old) (O.written writer.new) (packet_of (spec.stop_text stop.now))) }
    ensures failed { O.has_failed writer.new ≡ (O.has_failed writer.old || is_err result) }
{
    let signal = byte_digits(stop.signal);
    let thread = Hexadecimal::new(u32::from(stop.hart) + 1);
    let number = thread.as_bytes();
    write_packet_of(
        writer,
        &[b"T", &signal, front, address, end, b"thread:", number, b";"],
    )
}

/// Writes the packet of what is told of a stop. It takes no memory.
pub fn write_stop_packet<O: Output>(writer: &mut O, stop: &Stop) -> Result<(), WriteFault>
    ensures ok { OnOk result (Appends (O.written writer.old) (O.written writer.new) (packet_of (spec.stop_text stop.now))) }
    ensures failed { O.has_failed writer.new ≡ (O.has_failed writer.old || is_err result) }
{
    match stop.why {
        Why::Stands => write_stop_by(writer, stop, b"", b"", b""),
        Why::Watched(sight) => {
            let address = Hexadecimal::new(sight.address);
            write_stop_by(
                writer,
                stop,
                watch_front(sight.kind),
                address.as_bytes(),
                b";",
            )
        }
        Why::End => write_stop_by(writer, stop, b"replaylog:end;", b"", b""),
        Why::Begin => write_stop_by(writer, stop, b"replaylog:begin;", b"", b""),
    }
}

/// The signal of a hart that is stopped by a cause.
pub fn signal_of(cause: Cause) -> u8
    ensures { result ≡ spec.signal_of cause }
{
    match cause {
        Cause::TargetMisaligned | Cause::LoadMisaligned | Cause::StoreMisaligned => 10,
        Cause::FetchFault | Cause::LoadFault | Cause::StoreFault => 11,
        Cause::Illegal => 4,
        Cause::Breakpoint => 5,
        Cause::UnknownCall => 12,
    }
}
