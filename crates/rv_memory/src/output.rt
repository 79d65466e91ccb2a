ghost use Rattle.std.specs.Prelude.{◌≡◌, ◌||◌, is_err, OnOk};
ghost use Rattle.std.specs.Io.KnownBytes.{Appends};
ghost use Rattle.std.specs.List.{flat_map};

use crate::flagged::{Flagged, WriteFault, write_whole};
use std::io::Write;

/// What texts are put into, piece by piece: a writer that remembers a failure, buffered or not. A function
/// that writes a text of some value is generic over it.
pub trait Output {
    ghost use Rattle.std.specs.Prelude.{Bool, List, Option, ℕ};

    /// All that was put, where that is known.
    ghost written: { Self → Option (List ℕ) };

    /// Whether its device has failed.
    ghost has_failed: { Self → Bool };

    /// Takes all of the bytes, after those that it has taken before.
    fn put(&mut self, bytes: &[u8]) -> Result<(), WriteFault>
        ensures ok { OnOk result (Appends (written self.old) (written self.new) bytes.now) }
        ensures failed { has_failed self.new ≡ (has_failed self.old || is_err result) };
}

/// Each piece goes to the device at once.
impl<W: Write> Output for Flagged<W> {
    ghost use Rattle.rv_memory.specs.Flagged as flag;

    ghost written = { λ writer. W.contents (flag.device writer) };

    ghost has_failed = { λ writer. flag.has_failed writer };

    fn put(&mut self, bytes: &[u8]) -> Result<(), WriteFault> {
        write_whole(self, bytes)
    }
}

/// Puts the pieces, one after another.
pub fn put_pieces<O: Output>(writer: &mut O, pieces: &[&[u8]]) -> Result<(), WriteFault>
    ensures ok { OnOk result (Appends (O.written writer.old) (O.written writer.new)
        (flat_map (λ piece. piece.now) pieces.now)) }
    ensures failed { O.has_failed writer.new ≡ (O.has_failed writer.old || is_err result) }
{
    for piece in pieces {
        writer.put(piece)?;
    }
    Ok(())
}
