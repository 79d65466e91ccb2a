//! The engine of `gdb`: an image and a schedule in, and then a talk with GDB over the run that they say.
ghost use Rattle.std.specs.Prelude.{◌≡◌, ◌||◌, true, IfErr, IfSome, OnOk, IsOkAnd};
ghost use Rattle.std.specs.Io.KnownBytes.{Appends, Keeps};
ghost use Rattle.rv_engines.specs.Debug as debug;
ghost use Rattle.rv_debug.specs.Fault as packets;
ghost use Rattle.rv_faults.specs.Fault as files;
ghost use Rattle.rv_engines.specs.Replay.{IfKnown, run_of};
ghost use Rattle.rv_memory.specs.Buffered as buffer;
ghost use Rattle.rv_memory.specs.Flagged as flag;
ghost use Rattle.rv_stub.specs.GdbFault as spec;
ghost use Rattle.rv_stub.specs.Heard.{opening};
ghost use Rattle.rv_stub.specs.Talk as talk;

use crate::fault::GdbFault;
use crate::talk::converse;
use rv_engines::debug::input::read_files;
use rv_memory::buffered::Buffered;
use rv_memory::flagged::Flagged;
use std::alloc::Global;
use std::io::{Read, Write};

/// Reads an image and then a schedule, and answers the packets of the third input, each before more is read. Where one
/// of the files is refused, no byte of it is read and nothing is written.
pub fn run_gdb<R: Read, Q: Read, C: Read, W: Write>(
    alloc: Global,
    image: &mut Flagged<R>,
    schedule: &mut Flagged<Q>,
    commands: &mut Flagged<C>,
    writer: &mut Buffered<W>,
) -> Result<(), GdbFault>
    ensures text { OnOk result (
        IfKnown (R.remaining (flag.device image.old)) (Q.remaining (flag.device schedule.old)) (λ i s.
        IsOkAnd (run_of i s) (λ run. debug.IsTalkOver run (λ start.
        IfSome (C.remaining (flag.device commands.old)) (λ input.
        talk.IsWhole (opening start) input
        (Appends (buffer.written W.contents writer.old) (buffer.sent W.contents writer.new))))))) }
    ensures refused { IfErr result (λ fault.
        IfKnown (R.remaining (flag.device image.old)) (Q.remaining (flag.device schedule.old)) (λ i s.
        spec.IsGdbRefusal i s
        (Keeps (buffer.sent W.contents writer.old) (buffer.sent W.contents writer.new))
        (λ start stop. IfSome (C.remaining (flag.device commands.old)) (λ input.
        talk.IsStopped (opening start) input (C.remaining (flag.device commands.new))
        (Appends (buffer.written W.contents writer.old) (buffer.sent W.contents writer.new)) stop)) fault)) }
    ensures nothing { IfErr result (λ fault. spec.is_of_files fault ≡ true
        → Keeps (buffer.sent W.contents writer.old) (buffer.sent W.contents writer.new)) }
    ensures readers { (flag.has_failed image.new || flag.has_failed schedule.new || flag.has_failed commands.new)
        ≡ (flag.has_failed image.old || flag.has_failed schedule.old || flag.has_failed commands.old
        || spec.fails_by files.is_read packets.is_read result) }
    ensures writer { buffer.has_failed writer.new
        ≡ (buffer.has_failed writer.old || spec.fails_by files.is_write packets.is_write result) }
{
    let opened = read_files(alloc, image, schedule)?;
    converse(alloc, opened.session, commands, writer)?;
    Ok(())
}
