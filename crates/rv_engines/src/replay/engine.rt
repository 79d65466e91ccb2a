//! The engine of `replay`: an image and a schedule in, text out.
ghost use Rattle.std.specs.Prelude.{◌≡◌, ◌||◌, false, IfErr, OnOk, IsOkAnd};
ghost use Rattle.std.specs.Io.KnownBytes.{Appends, Keeps};
ghost use Rattle.rv_memory.specs.Buffered as buffer;
ghost use Rattle.rv_memory.specs.Flagged as flag;
ghost use Rattle.rv_faults.specs.Fault.{fails_by, is_read, is_write};
ghost use Rattle.rv_engines.specs.Replay as spec;
ghost use Rattle.rv_faults.specs.declared.fault.Fault.TheVariants as fault;

use crate::replay::input::read_run;
use crate::replay::report::write_run;
use rv_collide::collider::Collider;
use rv_faults::fault::Fault;
use rv_memory::buffered::Buffered;
use rv_memory::flagged::Flagged;
use rv_memory::flat::Flat;
use std::alloc::Global;
use std::io::{Read, Write};

/// Writes the endings of a run, its harts and its output, to the last byte.
fn show_run<W: Write>(writer: &mut Buffered<W>, run: &Collider<Flat>) -> Result<(), Fault>
    ensures text { OnOk result (spec.IsShown run.now
        (Appends (buffer.written W.contents writer.old) (buffer.sent W.contents writer.new))) }
    ensures refused { IfErr result (λ told. told ≡ fault.Write) }
    ensures writer { buffer.has_failed writer.new ≡ (buffer.has_failed writer.old || fails_by is_write result) }
{
    write_run(writer, run)?;
    writer.finish()?;
    Ok(())
}

/// Reads an image and then a schedule, makes the schedule's calls, and writes the endings of its pauses, the
/// harts and the output. Where one of the files is refused, or an entry is not what its call adds, nothing is
/// written; where the writer fails, what was written before is not said. A failed reader is told of either
/// file.
pub fn run_replay<R: Read, Q: Read, W: Write>(
    alloc: Global,
    image: &mut Flagged<R>,
    schedule: &mut Flagged<Q>,
    writer: &mut Buffered<W>,
) -> Result<(), Fault>
    ensures text { OnOk result (
        spec.IfKnown (R.remaining (flag.device image.old)) (Q.remaining (flag.device schedule.old)) (λ i s.
        IsOkAnd (spec.run_of i s) (λ run. spec.IsShown run
        (Appends (buffer.written W.contents writer.old) (buffer.sent W.contents writer.new))))) }
    ensures refused { IfErr result (λ fault.
        spec.IfKnown (R.remaining (flag.device image.old)) (Q.remaining (flag.device schedule.old)) (λ i s.
        spec.IsReplayRefusal i s fault)) }
    ensures nothing { IfErr result (λ fault. is_write fault ≡ false
        → Keeps (buffer.sent W.contents writer.old) (buffer.sent W.contents writer.new)) }
    ensures readers { (flag.has_failed image.new || flag.has_failed schedule.new)
        ≡ (flag.has_failed image.old || flag.has_failed schedule.old || fails_by is_read result) }
    ensures writer { buffer.has_failed writer.new ≡ (buffer.has_failed writer.old || fails_by is_write result) }
{
    let run = read_run(alloc, image, schedule)?;
    show_run(writer, &run)
}
