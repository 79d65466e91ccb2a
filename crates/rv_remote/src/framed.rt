//! The packets that are written, as `specs/Framed.antt` has them.
ghost use Rattle.std.specs.Prelude.{◌≡◌, ◌%◌, ◌||◌, is_err, sum, OnOk};
ghost use Rattle.std.specs.Io.KnownBytes.{Appends};
ghost use Rattle.std.specs.List.{flat_map};
ghost use Rattle.rv_remote.specs.Framed as spec;

use rv_memory::flagged::WriteFault;
use rv_memory::output::{Output, put_pieces};
use rv_text::hexadecimal::byte_digits;

/// The sum of some bytes modulo 256.
fn sum_of(bytes: &[u8]) -> u8
    ensures { result ≡ sum bytes.now % 256 }
{
    let mut total: u8 = 0;
    for byte in bytes {
        total = total.wrapping_add(*byte);
    }
    total
}

/// The sum of the bytes of some pieces modulo 256.
fn sum_of_pieces(pieces: &[&[u8]]) -> u8
    ensures { result ≡ sum (flat_map (λ piece. piece.now) pieces.now) % 256 }
{
    let mut total: u8 = 0;
    for piece in pieces {
        total = total.wrapping_add(sum_of(piece));
    }
    total
}

/// Writes the packet of data that stands in pieces. It takes no memory.
pub fn write_packet_of<O: Output>(writer: &mut O, pieces: &[&[u8]]) -> Result<(), WriteFault>
    ensures ok { OnOk result (Appends (O.written writer.old) (O.written writer.new)
        (spec.packet_of (flat_map (λ piece. piece.now) pieces.now))) }
    ensures failed { O.has_failed writer.new ≡ (O.has_failed writer.old || is_err result) }
{
    writer.put(b"$")?;
    put_pieces(writer, pieces)?;
    put_pieces(writer, &[b"#", &byte_digits(sum_of_pieces(pieces))])
}

/// Writes the packet of some data.
pub fn write_packet<O: Output>(writer: &mut O, bytes: &[u8]) -> Result<(), WriteFault>
    ensures ok { OnOk result (Appends (O.written writer.old) (O.written writer.new) (spec.packet_of bytes.now)) }
    ensures failed { O.has_failed writer.new ≡ (O.has_failed writer.old || is_err result) }
{
    put_pieces(writer, &[b"$", bytes, b"#", &byte_digits(sum_of(bytes))])
}
