ghost use Rattle.std.specs.Prelude.{◌≡◌, ◌<◌, ◌^◌, pos, ◌*ℤ◌};
ghost use Rattle.rv_memory.specs.Memory.{IsSize};
ghost use Rattle.rv_hart.specs.Act as spec;
ghost use Rattle.rv_hart.specs.Registers.{get};
ghost use Rattle.rv_hart.specs.Arithmetic as arithmetic;

use crate::action::{Action, Combine};
use crate::hart::{Cause, Hart};
use rv_isa::instr::Instr;
use rv_isa::op::Op;

/// The environment calls, by the number in x17.
const EXIT: u32 = 93;

const PRINT: u32 = 1;

/// A register's value; x0's is 0.
#[inline(always)]
pub fn register(hart: &Hart, register: u8) -> u32
    ensures { result ≡ get hart.now.registers register }
{
    hart.registers.read(register)
}

/// What an instruction does, before its access is tested.
#[inline(always)]
pub fn act(instr: &Instr, hart: &Hart) -> Action
    ensures { result ≡ spec.action_of instr.now hart.now }
{
    let a = register(hart, instr.rs1);
    let b = register(hart, instr.rs2);
    let imm = instr.imm.cast_unsigned();
    let address = a.wrapping_add(imm);
    match instr.op {
        Op::Lui => set(instr, hart, shift_left(imm, 12)),
        Op::Auipc => set(instr, hart, hart.pc.wrapping_add(shift_left(imm, 12))),
        Op::Jal => jump(instr, hart, hart.pc.wrapping_add(imm)),
        Op::Jalr => jump(instr, hart, address - address % 2),
        Op::Beq => branch(instr, hart, a == b),
        Op::Bne => branch(instr, hart, a != b),
        Op::Blt => branch(instr, hart, less_signed(a, b)),
        Op::Bge => branch(instr, hart, !less_signed(a, b)),
        Op::Bltu => branch(instr, hart, a < b),
        Op::Bgeu => branch(instr, hart, !(a < b)),
        Op::Lb => load(instr, address, 1, true),
        Op::Lh => load(instr, address, 2, true),
        Op::Lw => load(instr, address, 4, false),
        Op::Lbu => load(instr, address, 1, false),
        Op::Lhu => load(instr, address, 2, false),
        Op::Sb => store(address, 1, b),
        Op::Sh => store(address, 2, b),
        Op::Sw => store(address, 4, b),
        Op::Addi => set(instr, hart, a.wrapping_add(imm)),
        Op::Slti => set(instr, hart, flag(less_signed(a, imm))),
        Op::Sltiu => set(instr, hart, flag(a < imm)),
        Op::Xori => set(instr, hart, a ^ imm),
        Op::Ori => set(instr, hart, a | imm),
        Op::Andi => set(instr, hart, a & imm),
        Op::Slli => set(instr, hart, shift_left(a, imm % 32)),
        Op::Srli => set(instr, hart, a >> (imm % 32)),
        Op::Srai => set(instr, hart, shift_right_signed(a, imm % 32)),
        Op::Add => set(instr, hart, a.wrapping_add(b)),
        Op::Sub => set(instr, hart, a.wrapping_sub(b)),
        Op::Sll => set(instr, hart, shift_left(a, b % 32)),
        Op::Slt => set(instr, hart, flag(less_signed(a, b))),
        Op::Sltu => set(instr, hart, flag(a < b)),
        Op::Xor => set(instr, hart, a ^ b),
        Op::Srl => set(instr, hart, a >> (b % 32)),
        Op::Sra => set(instr, hart, shift_right_signed(a, b % 32)),
        Op::Or => set(instr, hart, a | b),
        Op::And => set(instr, hart, a & b),
        Op::Fence => proceed(hart),
        Op::Ecall => environment_call(hart),
        Op::Ebreak => Action::Trap(Cause::Breakpoint),
        Op::Mul => set(instr, hart, low_half(a, b)),
        Op::Mulh => set(instr, hart, high_half_signed(a, b)),
        Op::Mulhsu => set(instr, hart, high_half_signed_by_unsigned(a, b)),
        Op::Mulhu => set(instr, hart, high_half(a, b)),
        Op::Div => set(instr, hart, quotient_signed(a, b)),
        Op::Divu => set(instr, hart, quotient(a, b)),
        Op::Rem => set(instr, hart, remainder_signed(a, b)),
        Op::Remu => set(instr, hart, remainder(a, b)),
        Op::LrW => reserve(instr, a),
        Op::ScW => conditional(instr, a, b),
        Op::AmoswapW => replace(instr, a, Combine::Swap, b),
        Op::AmoaddW => replace(instr, a, Combine::Add, b),
        Op::AmoxorW => replace(instr, a, Combine::Xor, b),
        Op::AmoandW => replace(instr, a, Combine::And, b),
        Op::AmoorW => replace(instr, a, Combine::Or, b),
        Op::AmominW => replace(instr, a, Combine::Min, b),
        Op::AmomaxW => replace(instr, a, Combine::Max, b),
        Op::AmominuW => replace(instr, a, Combine::MinUnsigned, b),
        Op::AmomaxuW => replace(instr, a, Combine::MaxUnsigned, b),
    }
}

/// What an AMO stores, of the loaded word and the source register's.
#[inline(always)]
pub fn combined(combine: Combine, loaded: u32, value: u32) -> u32
    ensures { result ≡ arithmetic.combined combine loaded value }
{
    match combine {
        Combine::Swap => value,
        Combine::Add => loaded.wrapping_add(value),
        Combine::Xor => loaded ^ value,
        Combine::And => loaded & value,
        Combine::Or => loaded | value,
        Combine::Min => min_signed(loaded, value),
        Combine::Max => max_signed(loaded, value),
        Combine::MinUnsigned => loaded.min(value),
        Combine::MaxUnsigned => loaded.max(value),
    }
}

/// Loaded bytes, extended to a word.
#[inline(always)]
pub fn extended(signed: bool, size: u8, bits: u32) -> u32
    requires size { IsSize size }
    requires fits { bits < 256 ^ size }
    ensures { result ≡ arithmetic.extended signed size bits }
{
    match size {
        1 if signed && bits >= 0x80 => bits + 0xffff_ff00,
        2 if signed && bits >= 0x8000 => bits + 0xffff_0000,
        _ => bits,
    }
}

#[inline(always)]
fn min_signed(a: u32, b: u32) -> u32
    ensures { result ≡ arithmetic.combined Combine.Min a b }
{
    a.cast_signed().min(b.cast_signed()).cast_unsigned()
}

#[inline(always)]
fn max_signed(a: u32, b: u32) -> u32
    ensures { result ≡ arithmetic.combined Combine.Max a b }
{
    a.cast_signed().max(b.cast_signed()).cast_unsigned()
}

#[inline(always)]
fn flag(b: bool) -> u32
    ensures { result ≡ arithmetic.flag b }
{
    u32::from(b)
}

#[inline(always)]
fn less_signed(a: u32, b: u32) -> bool
    ensures { result ≡ arithmetic.less_signed a b }
{
    a.cast_signed() < b.cast_signed()
}

#[inline(always)]
fn shift_left(a: u32, amount: u32) -> u32
    requires { amount < 32 }
    ensures { result ≡ arithmetic.shift_left a amount }
{
    a << amount
}

#[inline(always)]
fn shift_right_signed(a: u32, amount: u32) -> u32
    requires { amount < 32 }
    ensures { result ≡ arithmetic.shift_right_signed a amount }
{
    a.cast_signed().wrapping_shr(amount).cast_unsigned()
}

/// The low half of the product, which is the same however the factors are read.
#[inline(always)]
fn low_half(a: u32, b: u32) -> u32
    ensures { result ≡ arithmetic.low_half (arithmetic.integer a *ℤ arithmetic.integer b) }
{
    a.wrapping_mul(b)
}

/// The high half of the product of two words read as signed.
#[inline(always)]
fn high_half_signed(a: u32, b: u32) -> u32
    ensures { result ≡ arithmetic.high_half (arithmetic.integer a *ℤ arithmetic.integer b) }
{
    high_of(i64::from(a.cast_signed()) * i64::from(b.cast_signed()))
}

/// The high half of the product of a word read as signed and one read as unsigned.
#[inline(always)]
fn high_half_signed_by_unsigned(a: u32, b: u32) -> u32
    ensures { result ≡ arithmetic.high_half (arithmetic.integer a *ℤ pos b) }
{
    high_of(i64::from(a.cast_signed()) * i64::from(b))
}

/// The high half of the product of two words read as unsigned.
#[inline(always)]
fn high_half(a: u32, b: u32) -> u32
    ensures { result ≡ arithmetic.high_half (pos a *ℤ pos b) }
{
    ((u64::from(a) * u64::from(b)) >> 32) as u32
}

/// The upper 32 bits of 64.
#[inline(always)]
fn high_of(product: i64) -> u32
    ensures { result ≡ arithmetic.high_half product }
{
    (product.cast_unsigned() >> 32) as u32
}

/// The quotient of two words read as unsigned.
#[inline(always)]
fn quotient(a: u32, b: u32) -> u32
    ensures { result ≡ arithmetic.quotient a b }
{
    if b == 0 { u32::MAX } else { a / b }
}

/// The quotient of two words read as signed, rounded towards zero.
#[inline(always)]
fn quotient_signed(a: u32, b: u32) -> u32
    ensures { result ≡ arithmetic.quotient_signed a b }
{
    if b == 0 {
        u32::MAX
    } else {
        a.cast_signed()
            .wrapping_div(b.cast_signed())
            .cast_unsigned()
    }
}

/// The remainder of two words read as unsigned.
#[inline(always)]
fn remainder(a: u32, b: u32) -> u32
    ensures { result ≡ arithmetic.remainder a b }
{
    if b == 0 { a } else { a % b }
}

/// The remainder of two words read as signed, with the dividend's sign.
#[inline(always)]
fn remainder_signed(a: u32, b: u32) -> u32
    ensures { result ≡ arithmetic.remainder_signed a b }
{
    if b == 0 {
        a
    } else {
        a.cast_signed()
            .wrapping_rem(b.cast_signed())
            .cast_unsigned()
    }
}

#[inline(always)]
fn following(hart: &Hart) -> u32
    ensures { result ≡ spec.following hart.now }
{
    hart.pc.wrapping_add(4)
}

#[inline(always)]
fn set(instr: &Instr, hart: &Hart, value: u32) -> Action
    ensures { result ≡ spec.result_is instr.now hart.now value }
{
    Action::Set {
        rd: instr.rd,
        value,
        next: following(hart),
    }
}

#[inline(always)]
fn proceed(hart: &Hart) -> Action
    ensures { result ≡ Action.Set 0 0 (spec.following hart.now) }
{
    Action::Set {
        rd: 0,
        value: 0,
        next: following(hart),
    }
}

#[inline(always)]
fn jump(instr: &Instr, hart: &Hart, target: u32) -> Action
    ensures { result ≡ spec.jump instr.now hart.now target }
{
    if target % 4 == 0 {
        Action::Set {
            rd: instr.rd,
            value: following(hart),
            next: target,
        }
    } else {
        Action::Trap(Cause::TargetMisaligned)
    }
}

#[inline(always)]
fn branch(instr: &Instr, hart: &Hart, taken: bool) -> Action
    ensures { result ≡ spec.branch instr.now hart.now taken }
{
    if !taken {
        return proceed(hart);
    }
    let next = hart.pc.wrapping_add(instr.imm.cast_unsigned());
    if next % 4 == 0 {
        Action::Set {
            rd: 0,
            value: 0,
            next,
        }
    } else {
        Action::Trap(Cause::TargetMisaligned)
    }
}

#[inline(always)]
fn load(instr: &Instr, address: u32, size: u8, signed: bool) -> Action
    ensures { result ≡ Action.Load instr.now.rd address size signed }
{
    Action::Load {
        rd: instr.rd,
        address,
        size,
        signed,
    }
}

#[inline(always)]
fn store(address: u32, size: u8, value: u32) -> Action
    ensures { result ≡ Action.Store address size value }
{
    Action::Store {
        address,
        size,
        value,
    }
}

#[inline(always)]
fn reserve(instr: &Instr, address: u32) -> Action
    ensures { result ≡ Action.Reserve instr.now.rd address }
{
    Action::Reserve {
        rd: instr.rd,
        address,
    }
}

#[inline(always)]
fn conditional(instr: &Instr, address: u32, value: u32) -> Action
    ensures { result ≡ Action.Conditional instr.now.rd address value }
{
    Action::Conditional {
        rd: instr.rd,
        address,
        value,
    }
}

#[inline(always)]
fn replace(instr: &Instr, address: u32, combine: Combine, value: u32) -> Action
    ensures { result ≡ Action.Replace instr.now.rd address combine value }
{
    Action::Replace {
        rd: instr.rd,
        address,
        combine,
        value,
    }
}

fn environment_call(hart: &Hart) -> Action
    ensures { result ≡ spec.environment_call hart.now }
{
    let number = register(hart, 17);
    let argument = register(hart, 10);
    if number == EXIT {
        Action::Exit(argument)
    } else if number == PRINT {
        Action::Print((argument % 256) as u8)
    } else {
        Action::Trap(Cause::UnknownCall)
    }
}
