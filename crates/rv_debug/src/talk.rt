//! The talk of a debugger: a line in, its answer out, line by line.
ghost use Rattle.std.specs.Prelude.{◌≡◌, ◌||◌, IfErr, IfSome, OnOk};
ghost use Rattle.std.specs.Io.KnownBytes.{Appends};
ghost use Rattle.rv_memory.specs.Buffered as buffer;
ghost use Rattle.rv_memory.specs.Flagged as flag;
ghost use Rattle.rv_text.specs.Lines.{lines_of};
ghost use Rattle.rv_debug.specs.Fault.{fails_by, is_read, is_write};
ghost use Rattle.rv_debug.specs.Talk as spec;

use crate::answer::answer;
use crate::command::{is_quit, read_command};
use crate::fault::TalkFault;
use crate::lines::LineSource;
use crate::session::Session;
use rv_memory::buffered::Buffered;
use rv_memory::flagged::{Flagged, INPUT_LIMIT};
use rv_text::laws::decimal_has_one_spelling;
use std::alloc::Global;
use std::io::{Read, Write};

/// Answers the lines of the input up to `q` or the end, each before the next is read. Where a line asks for what
/// is not there, that is its answer, and the talk goes on.
pub fn talk<C: Read, W: Write>(
    alloc: Global,
    session: &mut Session,
    commands: &mut Flagged<C>,
    writer: &mut Buffered<W>,
) -> Result<(), TalkFault>
    ensures text { OnOk result (IfSome (C.remaining (flag.device commands.old)) (λ input.
        spec.IsTalk session.old (spec.lines_before_quit (lines_of input))
        (Appends (buffer.written W.contents writer.old) (buffer.sent W.contents writer.new)))) }
    ensures within { OnOk result (IfSome (C.remaining (flag.device commands.old)) spec.IsWithin) }
    ensures stopped { IfErr result (λ fault. IfSome (C.remaining (flag.device commands.old)) (λ input.
        spec.IsStopped session.old input (C.remaining (flag.device commands.new))
        (Appends (buffer.written W.contents writer.old) (buffer.sent W.contents writer.new)) fault)) }
    ensures reader { flag.has_failed commands.new ≡ (flag.has_failed commands.old || fails_by is_read result) }
    ensures writer { buffer.has_failed writer.new ≡ (buffer.has_failed writer.old || fails_by is_write result) }
{
    decimal_has_one_spelling();
    let mut lines = LineSource::new(INPUT_LIMIT);
    'lines: loop {
        writer.finish()?;
        let line = match lines.next_line(commands)? {
            Some(line) => line,
            None => return Ok(()),
        };
        let command = read_command(line.as_bytes());
        if is_quit(command) {
            return Ok(());
        }
        answer(alloc, session, command, writer)?;
    }
}
