//! The line of a word in a listing.
ghost use Rattle.std.specs.Prelude.{◌≡◌, IfOk};
ghost use Rattle.std.specs.String.{string_bytes};
ghost use Rattle.rv_isa.specs.Table.{form_of};
ghost use Rattle.rv_asm.specs.Line as spec;

use crate::listing::operands::operands_text;
use crate::listing::whole::digits_of;
use crate::reading::mnemonic::ordering_suffix;
use rv_isa::codec::decode;
use rv_isa::form::Form;
use rv_isa::instr::Instr;
use rv_memory::store::NoMemory;
use std::alloc::Global;

/// Whether the assembly language can write the instruction: it has no way to say that FENCE's fm, rd or
/// rs1 is not 0.
fn is_written(instr: &Instr) -> bool
    ensures { result ≡ spec.is_written (form_of instr.now.op) instr.now }
{
    match instr.op.form() {
        Form::Fence => instr.rd == 0 && instr.rs1 == 0 && instr.imm.unsigned_abs() < 256,
        _ => true,
    }
}

fn instr_line(alloc: Global, instr: &Instr, address: u32) -> Result<String, NoMemory>
    ensures { IfOk result (λ text. string_bytes text ≡ spec.instr_line instr.now address) }
{
    let mnemonic = instr.op.mnemonic();
    let suffix = ordering_suffix(instr.aq, instr.rl);
    match instr.op.form() {
        Form::Plain => Ok(format!(in alloc; "{mnemonic}{suffix}")?),
        _ => {
            let operands = operands_text(alloc, instr, address)?;
            Ok(format!(in alloc; "{mnemonic}{suffix} {operands}")?)
        }
    }
}

fn word_line(alloc: Global, word: u32) -> Result<String, NoMemory>
    ensures { IfOk result (λ text. string_bytes text ≡ spec.word_line word) }
{
    let digits = digits_of(alloc, word)?;
    Ok(format!(in alloc; ".word 0x{digits}")?)
}

/// The line of a word at an address, a multiple of 4, in a listing: the statement that is assembled to the
/// word there. It is the instruction that the word is, and `.word` where it is none, or is a FENCE that the
/// assembly language cannot write.
///
/// `listed` has it with its address and digits. It is public for itself since it is what `word_at` reads back.
#[tactic(auto, unfolding(crate::specs::Line::line))]
pub fn line_of(alloc: Global, word: u32, address: u32) -> Result<String, NoMemory>
    ensures { IfOk result (λ text. string_bytes text ≡ spec.line word address) }
{
    match decode(word) {
        Some(instr) => {
            if is_written(&instr) {
                instr_line(alloc, &instr, address)
            } else {
                word_line(alloc, word)
            }
        }
        None => word_line(alloc, word),
    }
}
