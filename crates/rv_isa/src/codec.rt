ghost use Rattle.std.specs.Prelude.{◌≡◌, ◌↔◌, ◌<◌, ◌^◌, ℕ, Some, IfSome, IsSome};
ghost use Rattle.rv_isa.specs.Decoded.{with_operands, decoded};
ghost use Rattle.rv_isa.specs.Encoded.{assembled, encoded, scattered};
ghost use Rattle.rv_isa.specs.Instr.{Row, operands};
ghost use Rattle.rv_isa.specs.Table.{Matches, form_of, match_of};
ghost use Rattle.rv_isa.specs.declared.instr.Instr.{Instr};

use crate::candidate::candidate;
use crate::form::Form;
use crate::instr::Instr;
use crate::op::Op;
use crate::operands::operands_of;

/// The instruction that a word is, or None where no row of the table matches it.
pub fn decode(word: u32) -> Option<Instr>
    ensures value { result ≡ decoded word }
    ensures row { (i : Instr) → (result ≡ Some i) ↔ Row word i }
{
    decode_as(candidate(word), word)
}

/// The instruction that a word is, where it is one of this operation, or None where the operation's row
/// does not match it. Where the operation is a constant, this is one test and the operands of one format.
#[inline(always)]
#[tactic(auto, using(crate::proofs::RowLemmas::decoded_as))]
pub fn decode_as(op: Op, word: u32) -> Option<Instr>
    ensures value { IfSome result (λ i. decoded word ≡ Some i) }
    ensures operation { IfSome result (λ i. i.op ≡ op) }
    ensures row { IsSome result ↔ Matches word op }
{
    if word & op.form().mask() == op.fixed_bits() {
        Some(with_operands(op, word))
    } else {
        None
    }
}

/// The operation with a word's operands in its format.
#[inline(always)]
fn with_operands(op: Op, word: u32) -> Instr
    ensures { result ≡ with_operands op word }
{
    let operands = operands_of(op.form(), word);
    Instr {
        op,
        rd: operands.rd,
        rs1: operands.rs1,
        rs2: operands.rs2,
        imm: operands.imm,
        aq: operands.aq,
        rl: operands.rl,
    }
}

/// The word of an instruction, the one that `decode` reads as it.
#[tactic(auto, unfolding(crate::specs::Encoded::encoded))]
pub fn encode(instr: &Instr) -> u32
    ensures value { result ≡ encoded instr.now }
    ensures row { Row result instr.now }
    ensures only { (w : ℕ) → w < 2 ^ 32 → Row w instr.now → result ≡ w }
{
    assembled(instr)
}

/// The operation's fixed bits with the operands in their places.
fn assembled(instr: &Instr) -> u32
    ensures { result ≡ assembled (form_of instr.now.op) (match_of instr.now.op) (operands instr.now) }
{
    let form = instr.op.form();
    let aq: u32 = if instr.aq { 0x400_0000 } else { 0 };
    let rl: u32 = if instr.rl { 0x200_0000 } else { 0 };
    let rd = u32::from(instr.rd) * 0x80;
    let rs1 = u32::from(instr.rs1) * 0x8000;
    let rs2 = u32::from(instr.rs2) * 0x10_0000;
    let operands = (rd + rs1 + rs2) + (aq + rl);
    instr
        .op
        .fixed_bits()
        .wrapping_add(operands)
        .wrapping_add(scattered(form, instr.imm.cast_unsigned()))
}

/// The bits of an immediate in their places.
fn scattered(form: Form, bits: u32) -> u32
    ensures { result ≡ scattered form bits }
{
    match form {
        Form::R | Form::Plain | Form::Lr | Form::Amo => 0,
        Form::I | Form::Fence => bits % 0x1000 * 0x10_0000,
        Form::S => (bits >> 5) % 0x80 * 0x200_0000 + bits % 0x20 * 0x80,
        Form::B => {
            let high = (bits >> 12) % 2 * 0x8000_0000 + (bits >> 5) % 0x40 * 0x200_0000;
            let low = (bits >> 1) % 0x10 * 0x100 + (bits >> 11) % 2 * 0x80;
            high + low
        }
        Form::U => bits % 0x10_0000 * 0x1000,
        Form::J => {
            let high = (bits >> 20) % 2 * 0x8000_0000 + (bits >> 1) % 0x400 * 0x20_0000;
            let low = (bits >> 11) % 2 * 0x10_0000 + (bits >> 12) % 0x100 * 0x1000;
            high + low
        }
        Form::Shift => bits % 0x20 * 0x10_0000,
    }
}
