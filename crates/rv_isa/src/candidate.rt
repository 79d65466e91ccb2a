ghost use Rattle.std.specs.Prelude.{◌≡◌, ◌<◌};
ghost use Rattle.rv_isa.specs.Table.{Matches};
ghost use Rattle.rv_isa.specs.declared.op.Op.{Op};
ghost use Rattle.rv_isa.specs.internal.Candidate as spec;

use crate::op::{self, Op};

/// The one operation whose row the word may have: whether it has it is for the table's mask to say.
#[inline(always)]
pub(crate) fn candidate(word: u32) -> Op
    ensures { (op : Op) → Matches word op → result ≡ op }
{
    by_fields(word)
}

#[inline(always)]
#[tactic(auto, unfolding(crate::specs::internal::Candidate::candidate))]
fn by_fields(word: u32) -> Op
    ensures { result ≡ spec.candidate word }
{
    let funct3 = (word >> 12) % 8;
    let funct7 = (word >> 25) % 128;
    match word % 128 {
        0x03 => by_funct3(&op::LOADS, funct3),
        0x0f => Op::Fence,
        0x13 => immediate(funct3, funct7),
        0x17 => Op::Auipc,
        0x23 => by_funct3(&op::STORES, funct3),
        0x2f => atomic((word >> 27) % 32),
        0x33 => register(funct3, funct7),
        0x37 => Op::Lui,
        0x63 => by_funct3(&op::BRANCHES, funct3),
        0x67 => Op::Jalr,
        0x6f => Op::Jal,
        _ => system((word >> 20) % 32),
    }
}

#[inline(always)]
fn by_funct3(operations: &[Op; 8], funct3: u32) -> Op
    requires { funct3 < 8 }
    ensures { result ≡ spec.at operations.now funct3 }
{
    operations[funct3 as usize]
}

#[inline(always)]
fn immediate(funct3: u32, funct7: u32) -> Op
    requires { funct3 < 8 }
    ensures { result ≡ spec.immediate funct3 funct7 }
{
    // These bits belong to the immediate, save in shifts, of which two have funct3 5.
    if funct3 == 5 && funct7 != 0 {
        by_funct3(&op::IMMEDIATES_ELSE, funct3)
    } else {
        by_funct3(&op::IMMEDIATES, funct3)
    }
}

#[inline(always)]
fn register(funct3: u32, funct7: u32) -> Op
    requires { funct3 < 8 }
    ensures { result ≡ spec.register funct3 funct7 }
{
    match funct7 {
        0 => by_funct3(&op::REGISTERS, funct3),
        1 => by_funct3(&op::PRODUCTS, funct3),
        _ => by_funct3(&op::REGISTERS_ELSE, funct3),
    }
}

#[inline(always)]
fn atomic(funct5: u32) -> Op
    requires { funct5 < 32 }
    ensures { result ≡ spec.atomic funct5 }
{
    op::ATOMICS[funct5 as usize]
}

#[inline(always)]
fn system(source: u32) -> Op
    ensures { result ≡ spec.system source }
{
    if source == 0 { Op::Ecall } else { Op::Ebreak }
}
