//! The engine of `words`: bytes in, text out.
ghost use Rattle.std.specs.Prelude.{◌≡◌, ◌||◌, false, IfOk, IfErr, IfSome, OnOk, Ok, IsOkAnd};
ghost use Rattle.std.specs.Io.KnownBytes.{Appends, Keeps};
ghost use Rattle.rv_memory.specs.Buffered as buffer;
ghost use Rattle.rv_memory.specs.Flagged as flag;
ghost use Rattle.rv_engines.specs.Words as spec;
ghost use Rattle.rv_faults.specs.Fault.{IsToldFault, fails_by, is_read, is_write};

use rv_faults::fault::Fault;
use rv_hart::machine::Machine;
use rv_hart::texts::write_state;
use rv_memory::buffered::Buffered;
use rv_memory::flagged::{Flagged, INPUT_LIMIT, read_whole};
use rv_memory::flat::Flat;
use rv_words::machine_after;
use std::alloc::Global;
use std::io::{Read, Write};

#[tactic(auto, unfolding(crate::specs::Words::state_of))]
fn read_machine<R: Read>(alloc: Global, reader: &mut Flagged<R>) -> Result<Machine<Flat>, Fault>
    ensures ok { IfOk result (λ machine. IfSome (R.remaining (flag.device reader.old)) (λ bytes.
        spec.state_of bytes ≡ Ok machine.state)) }
    ensures err { IfErr result (λ fault. IfSome (R.remaining (flag.device reader.old)) (λ bytes.
        IsToldFault (spec.state_of bytes) fault)) }
    ensures reader { flag.has_failed reader.new ≡ (flag.has_failed reader.old || fails_by is_read result) }
    ensures writer { fails_by is_write result ≡ false }
{
    let text = read_whole(alloc, reader, INPUT_LIMIT)?;
    Ok(machine_after(alloc, &text)?)
}

/// Reads the input of `words`, makes its steps, and writes the harts and the output. Where the input is
/// refused nothing is written; where the writer fails, what was written before is not said.
#[tactic(auto, unfolding(crate::specs::Words::words_text))]
pub fn run_words<R: Read, W: Write>(
    alloc: Global,
    reader: &mut Flagged<R>,
    writer: &mut Buffered<W>,
) -> Result<(), Fault>
    ensures text { OnOk result (IfSome (R.remaining (flag.device reader.old)) (λ bytes.
        IsOkAnd (spec.words_text bytes)
        (Appends (buffer.written W.contents writer.old) (buffer.sent W.contents writer.new)))) }
    ensures refused { IfErr result (λ fault. IfSome (R.remaining (flag.device reader.old)) (λ bytes.
        IsToldFault (spec.words_text bytes) fault)) }
    ensures nothing { IfErr result (λ fault. is_write fault ≡ false
        → Keeps (buffer.sent W.contents writer.old) (buffer.sent W.contents writer.new)) }
    ensures reader { flag.has_failed reader.new ≡ (flag.has_failed reader.old || fails_by is_read result) }
    ensures writer { buffer.has_failed writer.new ≡ (buffer.has_failed writer.old || fails_by is_write result) }
{
    let machine = read_machine(alloc, reader)?;
    write_state(writer, &machine)?;
    writer.finish()?;
    Ok(())
}
