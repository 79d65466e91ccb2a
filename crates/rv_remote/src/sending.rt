//! What is handed to the other side at once.
ghost use Rattle.std.specs.Prelude.{◌≡◌, ◌||◌, [], is_err, OnOk, codes, if◌then◌else◌};
ghost use Rattle.std.specs.Io.KnownBytes.{Appends, Keeps};
ghost use Rattle.rv_memory.specs.Buffered as buffer;

use rv_memory::buffered::Buffered;
use rv_memory::flagged::WriteFault;
use rv_memory::output::Output;
use std::io::Write;

/// Writes whether a packet is taken, and flushes it before the answer is looked for.
pub fn acknowledge<W: Write>(writer: &mut Buffered<W>, right: bool) -> Result<(), WriteFault>
    ensures ok { OnOk result (Appends (buffer.written W.contents writer.old) (buffer.written W.contents writer.new) (if right then codes "+" else codes "-")) }
    ensures sent { OnOk result (Appends (buffer.written W.contents writer.old) (buffer.sent W.contents writer.new) (if right then codes "+" else codes "-")) }
    ensures pending { OnOk result (buffer.pending writer.new ≡ []) }
    ensures failed { buffer.has_failed writer.new ≡ (buffer.has_failed writer.old || is_err result) }
{
    writer.put(if right { b"+" } else { b"-" })?;
    writer.finish()
}

/// Sends the last answers: nothing is put after them.
pub fn send_last<W: Write>(answers: &mut Buffered<W>) -> Result<(), WriteFault>
    ensures sent { OnOk result (Keeps (buffer.written W.contents answers.old) (buffer.sent W.contents answers.new)) }
    ensures failed { buffer.has_failed answers.new ≡ (buffer.has_failed answers.old || is_err result) }
{
    answers.finish()
}
