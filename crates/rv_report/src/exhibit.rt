//! What an exhibit is, the text that shows it, and why there is none.
ghost use Rattle.std.specs.Prelude.{◌≡◌, ◌∷◌, [], ◌++◌, ◌||◌, is_err, OnOk};
ghost use Rattle.std.specs.Io.KnownBytes.{Appends};
ghost use Rattle.rv_hart.specs.Texts.{access_text};
ghost use Rattle.rv_report.specs.ExhibitText as spec;

use rv_collide::replay::Why;
use rv_hart::access::Access;
use rv_hart::texts::write_access;
use rv_memory::flagged::WriteFault;
use rv_memory::output::{Output, put_pieces};
use rv_text::decimal::Decimal;
use thiserror::Error;

/// A report that whoever has the image can check with the plain machine alone: the harts of a list of steps from the
/// start, and the accesses that its last two steps make. They conflict, and the harts of those two steps differ.
#[derive(Drop)]
pub struct Exhibit {
    pub harts: Vec<u8>,
    /// The access that the other hart made.
    pub first: Access,
    /// The access that the paused hart would have made.
    pub second: Access,
}

impl Exhibit {
    /// Writes the lines of both accesses, and of the harts of the list. It takes no memory.
    pub fn write_exhibit<O: Output>(&self, writer: &mut O) -> Result<(), WriteFault>
        ensures ok { OnOk result (Appends (O.written writer.old) (O.written writer.new) (spec.exhibit_text self.now)) }
        ensures failed { O.has_failed writer.new ≡ (O.has_failed writer.old || is_err result) }
    {
        write_access_line(writer, b"first ", &self.first)?;
        write_access_line(writer, b"second ", &self.second)?;
        writer.put(b"steps")?;
        write_harts(writer, &self.harts)?;
        writer.put(b"\n")
    }
}

/// Writes the line of an access, with a word before it.
fn write_access_line<O: Output>(
    writer: &mut O,
    word: &[u8],
    access: &Access,
) -> Result<(), WriteFault>
    ensures ok { OnOk result (Appends (O.written writer.old) (O.written writer.new)
        ((word.now ++ access_text access.now) ++ 10 ∷ [])) }
    ensures failed { O.has_failed writer.new ≡ (O.has_failed writer.old || is_err result) }
{
    writer.put(word)?;
    write_access(writer, access)?;
    writer.put(b"\n")
}

/// Writes the numbers of harts, a blank before each.
fn write_harts<O: Output>(writer: &mut O, harts: &[u8]) -> Result<(), WriteFault>
    ensures ok { OnOk result (Appends (O.written writer.old) (O.written writer.new) (spec.harts_text harts.now)) }
    ensures failed { O.has_failed writer.new ≡ (O.has_failed writer.old || is_err result) }
{
    for hart in harts {
        let number = Decimal::new(u64::from(*hart));
        put_pieces(writer, &[b" ", number.as_bytes()])?;
    }
    Ok(())
}

/// Why there is no exhibit. Replay is tested first, then NoEnding, NotReport and TextChanged; NoMemory comes where a
/// growth was refused. Each is told by its name, but Replay by the reason.
#[derive(Clone, Copy, Debug, PartialEq, Eq, Error)]
pub enum ExhibitFault {
    /// The schedule has no ending of the number.
    #[error("NoEnding")]
    NoEnding,
    /// The ending is Quiet.
    #[error("NotReport")]
    NotReport,
    /// When the other hart made its access, the word of the paused instruction was another than at the pause.
    #[error("TextChanged")]
    TextChanged,
    /// A growth was refused.
    #[error("NoMemory")]
    NoMemory,
    /// The list is no schedule: its first entry that is not what a call would add, and why.
    #[error("{why}")]
    Replay { place: u32, why: Why },
}
