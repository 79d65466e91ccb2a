//! The engine of `debug`: an image and a schedule in, and then a talk over the run that they say.
ghost use Rattle.std.specs.Prelude.{◌≡◌, ◌||◌, false, IfErr, IfSome, OnOk, IsOkAnd};
ghost use Rattle.std.specs.Io.KnownBytes.{Appends, Keeps};
ghost use Rattle.rv_debug.specs.Talk as talk;
ghost use Rattle.rv_memory.specs.Buffered as buffer;
ghost use Rattle.rv_memory.specs.Flagged as flag;
ghost use Rattle.rv_text.specs.Lines.{lines_of};
ghost use Rattle.rv_engines.specs.Debug as spec;
ghost use Rattle.rv_faults.specs.Fault.{fails_by, is_read, is_write};
ghost use Rattle.rv_engines.specs.Replay.{IfKnown, run_of};

use crate::debug::input::read_session;
use rv_debug::talk::talk;
use rv_faults::fault::Fault;
use rv_memory::buffered::Buffered;
use rv_memory::flagged::Flagged;
use std::alloc::Global;
use std::io::{Read, Write};

/// Reads an image and then a schedule, and answers the commands of the third input line by line, each before
/// the next is read. Where one of the files is refused no command is read and nothing is written. Where a line
/// asks for what is not there, that is its answer, and the session goes on.
pub fn run_debug<R: Read, Q: Read, C: Read, W: Write>(
    alloc: Global,
    image: &mut Flagged<R>,
    schedule: &mut Flagged<Q>,
    commands: &mut Flagged<C>,
    writer: &mut Buffered<W>,
) -> Result<(), Fault>
    ensures text { OnOk result (
        IfKnown (R.remaining (flag.device image.old)) (Q.remaining (flag.device schedule.old)) (λ i s.
        IsOkAnd (run_of i s) (λ run. spec.IsTalkOver run (λ start.
        IfSome (C.remaining (flag.device commands.old)) (λ input.
        talk.IsTalk start (talk.lines_before_quit (lines_of input))
        (Appends (buffer.written W.contents writer.old) (buffer.sent W.contents writer.new))))))) }
    ensures within { OnOk result (IfSome (C.remaining (flag.device commands.old)) talk.IsWithin) }
    ensures refused { IfErr result (λ fault.
        IfKnown (R.remaining (flag.device image.old)) (Q.remaining (flag.device schedule.old)) (λ i s.
        spec.IsDebugRefusal i s
        (Keeps (buffer.sent W.contents writer.old) (buffer.sent W.contents writer.new))
        (λ start stop. IfSome (C.remaining (flag.device commands.old)) (λ input.
        talk.IsStopped start input (C.remaining (flag.device commands.new))
        (Appends (buffer.written W.contents writer.old) (buffer.sent W.contents writer.new)) stop)) fault)) }
    ensures nothing { IfErr result (λ fault. spec.stops_talk fault ≡ false
        → Keeps (buffer.sent W.contents writer.old) (buffer.sent W.contents writer.new)) }
    ensures readers { (flag.has_failed image.new || flag.has_failed schedule.new || flag.has_failed commands.new)
        ≡ (flag.has_failed image.old || flag.has_failed schedule.old || flag.has_failed commands.old
        || fails_by is_read result) }
    ensures writer { buffer.has_failed writer.new ≡ (buffer.has_failed writer.old || fails_by is_write result) }
{
    let mut session = read_session(alloc, image, schedule)?;
    talk(alloc, &mut session, commands, writer)?;
    Ok(())
}
