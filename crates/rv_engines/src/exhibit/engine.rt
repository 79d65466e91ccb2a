//! The engine of `exhibit`: an image, a schedule and the number of an ending in, text out.
ghost use Rattle.std.specs.Prelude.{◌≡◌, ◌||◌, false, IfOk, IfErr, OnOk, IsOkAnd};
ghost use Rattle.std.specs.Io.KnownBytes.{Appends, Keeps};
ghost use Rattle.rv_memory.specs.Buffered as buffer;
ghost use Rattle.rv_memory.specs.Flagged as flag;
ghost use Rattle.rv_report.specs.ExhibitText.{exhibit_text};
ghost use Rattle.rv_engines.specs.Exhibits as spec;
ghost use Rattle.rv_faults.specs.Fault.{fails_by, is_read, is_write};
ghost use Rattle.rv_engines.specs.Replay.{IfKnown, run_of};
ghost use Rattle.rv_faults.specs.declared.fault.Fault.TheVariants as fault;

use crate::image::read_image;
use crate::replay::input::read_entries;
use rv_faults::fault::Fault;
use rv_memory::buffered::Buffered;
use rv_memory::flagged::Flagged;
use rv_report::exhibit::Exhibit;
use rv_report::exhibiting::exhibit;
use std::alloc::Global;
use std::io::{Read, Write};

/// Reads an image and then a schedule; the exhibit of its ending of the number.
fn read_exhibit<R: Read, Q: Read>(
    alloc: Global,
    image: &mut Flagged<R>,
    schedule: &mut Flagged<Q>,
    number: u32,
) -> Result<Exhibit, Fault>
    ensures ok { IfOk result (λ shown.
        IfKnown (R.remaining (flag.device image.old)) (Q.remaining (flag.device schedule.old)) (λ i s.
        IsOkAnd (run_of i s) (λ run. spec.IsCertificate run number shown))) }
    ensures err { IfErr result (λ fault.
        IfKnown (R.remaining (flag.device image.old)) (Q.remaining (flag.device schedule.old)) (λ i s.
        spec.IsExhibitRefusal i s number fault)) }
    ensures readers { (flag.has_failed image.new || flag.has_failed schedule.new)
        ≡ (flag.has_failed image.old || flag.has_failed schedule.old || fails_by is_read result) }
    ensures writer { fails_by is_write result ≡ false }
{
    let contents = read_image(alloc, image)?;
    let (plan, entries) = read_entries(alloc, schedule)?;
    match exhibit(alloc, &contents, plan, &entries, number) {
        Ok(shown) => Ok(shown),
        Err(fault) => Err(Fault::from(fault)),
    }
}

/// Writes an exhibit to the last byte.
fn show_exhibit<W: Write>(writer: &mut Buffered<W>, shown: &Exhibit) -> Result<(), Fault>
    ensures text { OnOk result (Appends (buffer.written W.contents writer.old) (buffer.sent W.contents writer.new)
        (exhibit_text shown.now)) }
    ensures refused { IfErr result (λ told. told ≡ fault.Write) }
    ensures writer { buffer.has_failed writer.new ≡ (buffer.has_failed writer.old || fails_by is_write result) }
{
    shown.write_exhibit(writer)?;
    writer.finish()?;
    Ok(())
}

/// Reads an image and then a schedule, and writes the report of the ending of the number as a list of steps from the
/// start, the last two of which make two accesses that conflict. Where one of the files is refused, an entry is not
/// what its call adds, or the ending has no exhibit, nothing is written; where the writer fails, what was written
/// before is not said. A failed reader is told of either file.
pub fn run_exhibit<R: Read, Q: Read, W: Write>(
    alloc: Global,
    image: &mut Flagged<R>,
    schedule: &mut Flagged<Q>,
    number: u32,
    writer: &mut Buffered<W>,
) -> Result<(), Fault>
    ensures text { OnOk result (
        IfKnown (R.remaining (flag.device image.old)) (Q.remaining (flag.device schedule.old)) (λ i s.
        IsOkAnd (run_of i s) (λ run. spec.IsCertified run number
        (Appends (buffer.written W.contents writer.old) (buffer.sent W.contents writer.new))))) }
    ensures refused { IfErr result (λ fault.
        IfKnown (R.remaining (flag.device image.old)) (Q.remaining (flag.device schedule.old)) (λ i s.
        spec.IsExhibitRefusal i s number fault)) }
    ensures nothing { IfErr result (λ fault. is_write fault ≡ false
        → Keeps (buffer.sent W.contents writer.old) (buffer.sent W.contents writer.new)) }
    ensures readers { (flag.has_failed image.new || flag.has_failed schedule.new)
        ≡ (flag.has_failed image.old || flag.has_failed schedule.old || fails_by is_read result) }
    ensures writer { buffer.has_failed writer.new ≡ (buffer.has_failed writer.old || fails_by is_write result) }
{
    let shown = read_exhibit(alloc, image, schedule, number)?;
    show_exhibit(writer, &shown)
}
