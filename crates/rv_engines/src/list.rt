//! The engine of `list`: an image in, its listing out.
ghost use Rattle.std.specs.Prelude.{◌≡◌, ◌||◌, IfErr, IfSome, OnOk, IsOkAnd};
ghost use Rattle.std.specs.Io.KnownBytes.{Appends, Keeps};
ghost use Rattle.rv_memory.specs.Buffered as buffer;
ghost use Rattle.rv_memory.specs.Flagged as flag;
ghost use Rattle.rv_faults.specs.Fault.{IsToldFault, fails_by, is_read, is_write};
ghost use Rattle.rv_faults.specs.FaultText.{status};
ghost use Rattle.rv_engines.specs.Images as spec;

use crate::image::read_image;
use rv_asm::list;
use rv_faults::fault::Fault;
use rv_memory::buffered::Buffered;
use rv_memory::flagged::Flagged;
use std::alloc::Global;
use std::io::{Read, Write};

/// Reads an image and writes its listing. A refused image writes nothing; where the writer fails or memory is
/// out, what was written before is not said.
#[tactic(auto, unfolding(crate::specs::Images::list_text))]
pub fn run_list<R: Read, W: Write>(
    alloc: Global,
    reader: &mut Flagged<R>,
    writer: &mut Buffered<W>,
) -> Result<(), Fault>
    ensures text { OnOk result (IfSome (R.remaining (flag.device reader.old)) (λ bytes.
        IsOkAnd (spec.list_text bytes)
        (Appends (buffer.written W.contents writer.old) (buffer.sent W.contents writer.new)))) }
    ensures refused { IfErr result (λ fault. IfSome (R.remaining (flag.device reader.old)) (λ bytes.
        IsToldFault (spec.list_text bytes) fault)) }
    ensures nothing { IfErr result (λ fault. status fault ≡ 1
        → Keeps (buffer.sent W.contents writer.old) (buffer.sent W.contents writer.new)) }
    ensures reader { flag.has_failed reader.new ≡ (flag.has_failed reader.old || fails_by is_read result) }
    ensures writer { buffer.has_failed writer.new ≡ (buffer.has_failed writer.old || fails_by is_write result) }
{
    let image = read_image(alloc, reader)?;
    list(alloc, &image, writer)?;
    writer.finish()?;
    Ok(())
}
