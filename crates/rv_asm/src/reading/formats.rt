//! Instructions by the format of their operands.
ghost use Rattle.std.specs.Prelude.{◌≡◌, pos, ◌≤ℤ◌, ◌+ℤ◌, ◌*ℤ◌};
ghost use Rattle.rv_isa.specs.Table.{form_of};
ghost use Rattle.rv_asm.specs.Faults.{both};
ghost use Rattle.rv_asm.specs.Instruction as instructions;
ghost use Rattle.rv_asm.specs.SourceLine as spec;

use crate::reading::instruction::{fields, instruction, with_number};
use crate::reading::mnemonic::{Mnemonic, is_indexed};
use crate::reading::operand::{Operand, Operands};
use crate::reading::shapes::{
    address_in, base_in, both, expression_at, number_in, order_in, register_in, within,
};
use crate::statement::{AsmKind, Expression, Statement};
use rv_isa::form::Form;
use rv_isa::op::Op;
use rv_isa::operands::Operands as Fields;

/// One instruction whose operands are registers.
fn one_instr<'s>(op: Op, operands: Fields) -> Result<Statement<'s>, AsmKind>
    ensures { result ≡ spec.one_instr op operands }
{
    let instr = instruction(op, operands)?;
    Ok(Statement::Instr(instr))
}

/// One instruction with a number.
pub(crate) fn numbered<'s>(
    op: Op,
    rd: u8,
    rs1: u8,
    rs2: u8,
    imm: i64,
) -> Result<Statement<'s>, AsmKind>
    ensures { result ≡ spec.one_instr op (instructions.fields rd rs1 rs2 imm) }
{
    let instr = with_number(op, fields(rd, rs1, rs2, 0), imm)?;
    Ok(Statement::Instr(instr))
}

/// `add x1, x2, x3`.
fn registers_instr<'s>(op: Op, operands: Operands<'s>) -> Result<Statement<'s>, AsmKind>
    ensures { result ≡ spec.registers_instr op operands.entry }
{
    let Operands::Three(rd, rs1, rs2) = operands else {
        return Err(AsmKind::Word);
    };
    let (rd, (rs1, rs2)) = both(register_in(rd), both(register_in(rs1), register_in(rs2)))?;
    one_instr(op, fields(rd, rs1, rs2, 0))
}

/// `addi x1, x2, -5`.
fn immediate_instr<'s>(op: Op, operands: Operands<'s>) -> Result<Statement<'s>, AsmKind>
    ensures { result ≡ spec.immediate_instr op operands.entry }
{
    let Operands::Three(rd, rs1, imm) = operands else {
        return Err(AsmKind::Word);
    };
    let (rd, (rs1, imm)) = both(register_in(rd), both(register_in(rs1), number_in(imm)))?;
    numbered(op, rd, rs1, 0, imm)
}

/// `lw x5, 0(x6)`.
fn indexed_instr<'s>(op: Op, operands: Operands<'s>) -> Result<Statement<'s>, AsmKind>
    ensures { result ≡ spec.indexed_instr op operands.entry }
{
    let Operands::Two(rd, address) = operands else {
        return Err(AsmKind::Word);
    };
    let (rd, (offset, base)) = both(register_in(rd), address_in(address))?;
    numbered(op, rd, base, 0, offset)
}

/// `sw x10, 0(x6)`.
fn store_instr<'s>(op: Op, operands: Operands<'s>) -> Result<Statement<'s>, AsmKind>
    ensures { result ≡ spec.store_instr op operands.entry }
{
    let Operands::Two(rs2, address) = operands else {
        return Err(AsmKind::Word);
    };
    let (rs2, (offset, base)) = both(register_in(rs2), address_in(address))?;
    numbered(op, 0, base, rs2, offset)
}

/// The operands of a branch: two registers, and where it goes.
fn compared_and_target<'s>(
    rs1: Option<Operand<'s>>,
    rs2: Option<Operand<'s>>,
    target: Option<Operand<'s>>,
) -> Result<(u8, (u8, Expression<'s>)), AsmKind>
    ensures { result ≡ both (spec.register_in rs1.entry) (both (spec.register_in rs2.entry) (spec.expression_at target.entry)) }
{
    both(
        register_in(rs1),
        both(register_in(rs2), expression_at(target)),
    )
}

/// `beq x1, x2, target`.
fn branch_instr<'s>(op: Op, operands: Operands<'s>) -> Result<Statement<'s>, AsmKind>
    ensures { result ≡ spec.branch_instr op operands.entry }
{
    let Operands::Three(rs1, rs2, target) = operands else {
        return Err(AsmKind::Word);
    };
    let (rs1, (rs2, target)) = compared_and_target(rs1, rs2, target)?;
    Ok(Statement::Jump {
        op,
        rd: 0,
        rs1,
        rs2,
        target,
    })
}

/// `jal x1, target`.
fn jump_instr<'s>(op: Op, operands: Operands<'s>) -> Result<Statement<'s>, AsmKind>
    ensures { result ≡ spec.jump_instr op operands.entry }
{
    let Operands::Two(rd, target) = operands else {
        return Err(AsmKind::Word);
    };
    let (rd, target) = both(register_in(rd), expression_at(target))?;
    Ok(Statement::Jump {
        op,
        rd,
        rs1: 0,
        rs2: 0,
        target,
    })
}

/// `lui x6, 0x20`.
fn upper_instr<'s>(op: Op, operands: Operands<'s>) -> Result<Statement<'s>, AsmKind>
    ensures { result ≡ spec.upper_instr op operands.entry }
{
    let Operands::Two(rd, imm) = operands else {
        return Err(AsmKind::Word);
    };
    let (rd, imm) = both(register_in(rd), number_in(imm))?;
    numbered(op, rd, 0, 0, imm)
}

/// Both halves of FENCE's immediate.
fn order_bits(before: i64, after: i64) -> i64
    requires least_before { pos 0 ≤ℤ before }
    requires most_before { before ≤ℤ pos 15 }
    requires least_after { pos 0 ≤ℤ after }
    requires most_after { after ≤ℤ pos 15 }
    ensures { result ≡ before *ℤ pos 16 +ℤ after }
{
    before * 16 + after
}

fn ordered_instr<'s>(op: Op, pred: i64, succ: i64) -> Result<Statement<'s>, AsmKind>
    ensures { result ≡ spec.ordered_instr op pred succ }
{
    let before = within(0, 15, pred)?;
    let after = within(0, 15, succ)?;
    numbered(op, 0, 0, 0, order_bits(before, after))
}

/// `fence`, which orders all, or `fence 1, 0`.
fn fence_instr<'s>(op: Op, operands: Operands<'s>) -> Result<Statement<'s>, AsmKind>
    ensures { result ≡ spec.fence_instr op operands.entry }
{
    match operands {
        Operands::Empty => numbered(op, 0, 0, 0, 255),
        Operands::Two(pred, succ) => {
            let (pred, succ) = both(order_in(pred), order_in(succ))?;
            ordered_instr(op, pred, succ)
        }
        _ => Err(AsmKind::Word),
    }
}

/// `ecall`.
fn plain_instr<'s>(op: Op, operands: Operands<'s>) -> Result<Statement<'s>, AsmKind>
    ensures { result ≡ spec.plain_instr op operands.entry }
{
    match operands {
        Operands::Empty => one_instr(op, fields(0, 0, 0, 0)),
        _ => Err(AsmKind::Word),
    }
}

/// `lr.w x5, (x6)`.
fn reserve_instr<'s>(mnemonic: Mnemonic, operands: Operands<'s>) -> Result<Statement<'s>, AsmKind>
    ensures { result ≡ spec.reserve_instr mnemonic operands.entry }
{
    let Operands::Two(rd, base) = operands else {
        return Err(AsmKind::Word);
    };
    let (rd, base) = both(register_in(rd), base_in(base))?;
    let Mnemonic { op, aq, rl } = mnemonic;
    one_instr(
        op,
        Fields {
            aq,
            rl,
            ..fields(rd, base, 0, 0)
        },
    )
}

/// `sc.w x7, x5, (x6)`.
fn atomic_instr<'s>(mnemonic: Mnemonic, operands: Operands<'s>) -> Result<Statement<'s>, AsmKind>
    ensures { result ≡ spec.atomic_instr mnemonic operands.entry }
{
    let Operands::Three(rd, rs2, base) = operands else {
        return Err(AsmKind::Word);
    };
    let (rd, (rs2, base)) = both(register_in(rd), both(register_in(rs2), base_in(base)))?;
    let Mnemonic { op, aq, rl } = mnemonic;
    one_instr(
        op,
        Fields {
            aq,
            rl,
            ..fields(rd, base, rs2, 0)
        },
    )
}

/// The instruction of a mnemonic with these operands.
pub(crate) fn instr_of<'s>(
    mnemonic: Mnemonic,
    operands: Operands<'s>,
) -> Result<Statement<'s>, AsmKind>
    ensures { result ≡ spec.instr_of (form_of mnemonic.op) mnemonic operands.entry }
{
    let op = mnemonic.op;
    match op.form() {
        Form::R => registers_instr(op, operands),
        Form::I => {
            if is_indexed(op) {
                indexed_instr(op, operands)
            } else {
                immediate_instr(op, operands)
            }
        }
        Form::Shift => immediate_instr(op, operands),
        Form::S => store_instr(op, operands),
        Form::B => branch_instr(op, operands),
        Form::J => jump_instr(op, operands),
        Form::U => upper_instr(op, operands),
        Form::Fence => fence_instr(op, operands),
        Form::Plain => plain_instr(op, operands),
        Form::Lr => reserve_instr(mnemonic, operands),
        Form::Amo => atomic_instr(mnemonic, operands),
    }
}
