//! The answers that need no more than the state at the place and what is chosen, as `specs/Replies.antt` has them.
ghost use Rattle.std.specs.Prelude.{◌≡◌, ◌<◌, ◌++◌, ◌||◌, None, IfOk, IsSomeAnd, MatchBool, OnOk, is_err, length};
ghost use Rattle.std.specs.Io.KnownBytes.{Appends};
ghost use Rattle.std.specs.Option.{option_copied};
ghost use Rattle.rv_gdb.specs.Chosen.{IsAmong};
ghost use Rattle.rv_gdb.specs.Sheet as sheet;
ghost use Rattle.rv_gdb.specs.Replies as spec;
ghost use Rattle.rv_hart.specs.SomeHart.{SomeHart};

use crate::chosen::Chosen;
use crate::features::write_features_part;
use crate::fields::Range;
use crate::hexadecimal::Hexadecimal;
use crate::packet::Request;
use crate::sheet::Sheet;
use crate::shown::{byte_at, register_at, write_bytes, write_registers, write_threads, write_word};
use rv_hart::machine::Machine;
use rv_memory::flagged::WriteFault;
use rv_memory::output::{Output, put_pieces};
use rv_memory::store::ByteStore;
use std::alloc::Global;

/// Why a request is refused.
#[derive(Clone, Copy)]
pub enum Refusal {
    /// What stands behind the word that the request is known by is not as it should be.
    Malformed = 1,
    /// There is no such thread, register, byte or text.
    NoSuch = 2,
    /// A record is not written.
    ReadOnly = 3,
    /// A growth was refused, or there are too many points.
    NoMemory = 4,
}

impl Refusal {
    /// What is answered.
    pub fn text(self) -> &'static [u8]
        ensures { result.now ≡ spec.refusal_text self }
    {
        match self {
            Refusal::Malformed => b"E01",
            Refusal::NoSuch => b"E02",
            Refusal::ReadOnly => b"E03",
            Refusal::NoMemory => b"E04",
        }
    }
}

const SUPPORTED: &[u8] =
    b"PacketSize=200;QStartNoAckMode+;qXfer:features:read+;vContSupported+;ReverseStep+;ReverseContinue+";

/// The answer to a request that has one and the same at each place.
pub fn known_reply(request: &Request<'_>) -> Option<&'static [u8]>
    ensures { option_copied result ≡ spec.known_reply request.now }
{
    match request {
        Request::Supported => Some(SUPPORTED),
        Request::StartNoAck | Request::Detach => Some(b"OK"),
        Request::Attached => Some(b"1"),
        Request::MoreThreads => Some(b"l"),
        Request::ActionNames => Some(b"vCont;c;C;s;S"),
        Request::OtherAnnex => Some(Refusal::NoSuch.text()),
        Request::Write => Some(Refusal::ReadOnly.text()),
        Request::Unknown => Some(b""),
        _ => None,
    }
}

fn write_register<S: ByteStore, O: Output>(
    writer: &mut O,
    machine: &Machine<S>,
    hart: u8,
    r: u32,
) -> Result<(), WriteFault>
    requires { hart < length machine.now.state.harts }
    ensures ok { OnOk result (SomeHart (λ hart.
        Appends (O.written writer.old) (O.written writer.new) (spec.register_reply r hart)) machine.now.state hart) }
    ensures failed { O.has_failed writer.new ≡ (O.has_failed writer.old || is_err result) }
{
    match register_at(machine, hart, r) {
        Some(word) => write_word(writer, word),
        None => writer.put(Refusal::NoSuch.text()),
    }
}

fn write_memory<S: ByteStore, O: Output>(
    writer: &mut O,
    machine: &Machine<S>,
    range: Range,
) -> Result<(), WriteFault>
    ensures ok { OnOk result (Appends (O.written writer.old) (O.written writer.new)
        (spec.memory_reply machine.now.state.memory range)) }
    ensures failed { O.has_failed writer.new ≡ (O.has_failed writer.old || is_err result) }
{
    if range.length == 0 || byte_at(machine, u64::from(range.from)).is_none() {
        return writer.put(Refusal::NoSuch.text());
    }
    write_bytes(writer, machine, range)?;
    Ok(())
}

/// Writes the answer to a request for what the state is; whether it is one.
pub fn write_state_reply<S: ByteStore>(
    alloc: Global,
    writer: &mut Sheet,
    machine: &Machine<S>,
    chosen: &Chosen,
    request: &Request<'_>,
) -> Result<bool, WriteFault>
    requires { IsAmong (length machine.now.state.harts) chosen.now }
    ensures text { IfOk result (λ answered. MatchBool answered
        (IsSomeAnd (spec.state_reply machine.now.state chosen.now request.now) (λ text.
        sheet.bytes writer.new ≡ sheet.bytes writer.old ++ text))
        ((spec.state_reply machine.now.state chosen.now request.now ≡ None) × (writer.new ≡ writer.old))) }
{
    match request {
        Request::Current => {
            let thread = Hexadecimal::new(u32::from(chosen.focus) + 1);
            put_pieces(writer, &[b"QC", thread.as_bytes()])?;
        }
        Request::FirstThreads => write_threads(writer, machine.harts())?,
        Request::Registers => write_registers(writer, machine, chosen.standing())?,
        Request::Register(r) => write_register(writer, machine, chosen.standing(), *r)?,
        Request::Memory(range) => write_memory(writer, machine, *range)?,
        Request::Features(range) => write_features_part(alloc, writer, *range)?,
        _ => return Ok(false),
    }
    Ok(true)
}
