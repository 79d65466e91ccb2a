//! Instructions from their operands.
ghost use Rattle.std.specs.Prelude.{◌≡◌};
ghost use Rattle.rv_asm.specs.Instruction as spec;

use crate::statement::AsmKind;
use rv_isa::instr::Instr;
use rv_isa::op::Op;
use rv_isa::operands::Operands;

/// No immediate is below the first or above the second.
const LEAST_IMMEDIATE: i64 = -0x8000_0000;

const MOST_IMMEDIATE: i64 = 0x7fff_ffff;

/// The operands of an instruction without ordering bits.
pub(crate) fn fields(rd: u8, rs1: u8, rs2: u8, imm: i32) -> Operands
    ensures { result ≡ spec.fields rd rs1 rs2 imm }
{
    Operands {
        rd,
        rs1,
        rs2,
        imm,
        aq: false,
        rl: false,
    }
}

/// The instruction with these operands, where they are in the range of its format.
pub(crate) fn instruction(op: Op, operands: Operands) -> Result<Instr, AsmKind>
    ensures { result ≡ spec.instruction op operands }
{
    Instr::new(
        op,
        operands.rd,
        operands.rs1,
        operands.rs2,
        operands.imm,
        operands.aq,
        operands.rl,
    )
    .ok_or(AsmKind::Range)
}

/// The instruction with these operands and this immediate.
pub(crate) fn with_number(op: Op, operands: Operands, imm: i64) -> Result<Instr, AsmKind>
    ensures { result ≡ spec.instruction op (record operands { imm = imm }) }
{
    if imm < LEAST_IMMEDIATE {
        return Err(AsmKind::Range);
    }
    if MOST_IMMEDIATE < imm {
        return Err(AsmKind::Range);
    }
    let imm = imm as i32;
    instruction(op, Operands { imm, ..operands })
}

/// How far a target is from an address, modulo 2^32 and read as signed.
fn distance(address: u32, target: u32) -> i32
    ensures { result ≡ spec.distance address target }
{
    target.wrapping_sub(address).cast_signed()
}

/// The branch or jump at an address to a target, where that is in its reach.
pub(crate) fn aimed(
    op: Op,
    rd: u8,
    rs1: u8,
    rs2: u8,
    address: u32,
    target: u32,
) -> Result<Instr, AsmKind>
    ensures { result ≡ spec.instruction op (spec.fields rd rs1 rs2 (spec.distance address target)) }
{
    instruction(op, fields(rd, rs1, rs2, distance(address, target)))
}

/// What LUI loads of 32 bits: their upper 20, rounded to the nearest.
fn upper_part(bits: u32) -> i32
    ensures { result ≡ spec.upper_part bits }
{
    (bits.wrapping_add(0x800) >> 12) as i32
}

/// What ADDI adds to it: the low 12 bits, sign-extended.
fn lower_part(bits: u32) -> i32
    ensures { result ≡ spec.lower_part bits }
{
    let low = (bits % 0x1000) as i32;
    if low < 0x800 { low } else { low - 0x1000 }
}

/// The two instructions that load 32 bits.
pub(crate) fn load_pair(rd: u8, bits: u32) -> Result<(Instr, Instr), AsmKind>
    ensures { result ≡ spec.load_pair rd bits }
{
    let upper = instruction(Op::Lui, fields(rd, 0, 0, upper_part(bits)))?;
    let lower = instruction(Op::Addi, fields(rd, rd, 0, lower_part(bits)))?;
    Ok((upper, lower))
}
