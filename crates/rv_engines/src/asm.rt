//! The engine of `asm`: a source in, the file of its image out.
ghost use Rattle.std.specs.Prelude.{◌≡◌, ◌≤◌, ◌||◌, false, Ok, IfOk, IfErr, IfSome, OnOk, IsOkAnd, length};
ghost use Rattle.rv_memory.specs.Flagged as flag;
ghost use Rattle.rv_faults.specs.Fault.{IsToldFault, fails_by, is_read, is_write};
ghost use Rattle.rv_engines.specs.Sources as spec;

use crate::new_file::NewFile;
use rv_asm::{AsmFault, AsmKind, assemble};
use rv_elf::write;
use rv_faults::fault::Fault;
use rv_memory::flagged::{Flagged, INPUT_LIMIT, read_whole};
use std::alloc::Global;
use std::io::Read;

/// The line after these bytes, from 1 on.
fn line_after(bytes: &[u8]) -> u64
    requires { length bytes.now ≤ INPUT_LIMIT }
    ensures { result ≡ spec.line_after bytes.now }
{
    bytes.iter().filter(|byte| **byte == 10).count() as u64 + 1
}

/// The text of a source, whose bytes are not too many.
#[tactic(auto, using(crate::proofs::SourceLemmas::is_text, crate::proofs::SourceLemmas::is_other))]
fn text_of(bytes: &[u8]) -> Result<&str, Fault>
    requires { length bytes.now ≤ INPUT_LIMIT }
    ensures ok { IfOk result (λ text. spec.unless_other bytes.now ≡ Ok text.now) }
    ensures err { IfErr result (IsToldFault (spec.unless_other bytes.now)) }
    ensures reader { fails_by is_read result ≡ false }
    ensures writer { fails_by is_write result ≡ false }
{
    match str::from_utf8(bytes) {
        Ok(text) => Ok(text),
        Err(error) => Err(Fault::Asm(AsmFault {
            line: line_after(&bytes[..error.valid_up_to()]),
            kind: AsmKind::Word,
        })),
    }
}

/// The bytes of the image's file of a source, whose bytes are not too many.
#[tactic(auto, unfolding(crate::specs::Sources::file_of))]
fn file_of(alloc: Global, bytes: &[u8]) -> Result<Vec<u8>, Fault>
    requires { length bytes.now ≤ INPUT_LIMIT }
    ensures ok { IfOk result (λ file. spec.file_of bytes.now ≡ Ok file.items) }
    ensures err { IfErr result (IsToldFault (spec.file_of bytes.now)) }
    ensures reader { fails_by is_read result ≡ false }
    ensures writer { fails_by is_write result ≡ false }
{
    let image = assemble(alloc, text_of(bytes)?)?;
    Ok(write(alloc, &image)?)
}

/// Reads a source and makes the file of its image. Where the source is refused no file is made.
#[tactic(auto, unfolding(crate::specs::Sources::file_of))]
pub fn run_asm<R: Read, F: NewFile>(
    alloc: Global,
    reader: &mut Flagged<R>,
    file: &mut F,
) -> Result<(), Fault>
    ensures made { OnOk result (IfSome (R.remaining (flag.device reader.old)) (λ bytes.
        IsOkAnd (spec.file_of bytes) (F.Holds file.new))) }
    ensures refused { IfErr result (λ fault. IfSome (R.remaining (flag.device reader.old)) (λ bytes.
        IsToldFault (spec.file_of bytes) fault)) }
    ensures none { IfErr result (λ fault. is_write fault ≡ false → F.is_made file.new ≡ F.is_made file.old) }
    ensures reader { flag.has_failed reader.new ≡ (flag.has_failed reader.old || fails_by is_read result) }
    ensures writer { F.has_failed file.new ≡ (F.has_failed file.old || fails_by is_write result) }
{
    let bytes = read_whole(alloc, reader, INPUT_LIMIT)?;
    let made = file_of(alloc, &bytes)?;
    file.make(&made)?;
    Ok(())
}
