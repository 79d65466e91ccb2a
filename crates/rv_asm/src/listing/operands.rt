//! The operands of an instruction as a listing has them.
ghost use Rattle.std.specs.Prelude.{◌≡◌, ◌<◌, IfOk};
ghost use Rattle.std.specs.String.{string_bytes};
ghost use Rattle.rv_isa.specs.Table.{form_of};
ghost use Rattle.rv_isa.specs.declared.form.Form.TheVariants as form;
ghost use Rattle.rv_asm.specs.Line as spec;

use crate::listing::whole::digits_of;
use crate::reading::mnemonic::is_indexed;
use crate::reading::register::number_name;
use rv_isa::form::Form;
use rv_isa::instr::Instr;
use rv_memory::store::NoMemory;
use std::alloc::Global;

/// The address that an instruction at `address` names by its distance.
fn target_of(address: u32, distance: i32) -> u32
    ensures { result ≡ spec.target_of address distance }
{
    address.wrapping_add(distance.cast_unsigned())
}

/// `x1, x2, -5`.
fn immediate_text(alloc: Global, instr: &Instr) -> Result<String, NoMemory>
    ensures { IfOk result (λ text. string_bytes text ≡ spec.immediate_text instr.now) }
{
    let (rd, rs1, imm) = (number_name(instr.rd), number_name(instr.rs1), instr.imm);
    Ok(format!(in alloc; "{rd}, {rs1}, {imm}")?)
}

/// `x5, -4(x6)`.
fn indexed_text(alloc: Global, register: u8, offset: i32, base: u8) -> Result<String, NoMemory>
    requires register { register < 32 }
    requires base { base < 32 }
    ensures { IfOk result (λ text. string_bytes text ≡ spec.indexed_text register offset base) }
{
    let (register, base) = (number_name(register), number_name(base));
    Ok(format!(in alloc; "{register}, {offset}({base})")?)
}

/// `x1, x2, 0x00010008`.
fn branch_text(alloc: Global, instr: &Instr, address: u32) -> Result<String, NoMemory>
    ensures { IfOk result (λ text. string_bytes text ≡ spec.operands_text form.B instr.now address) }
{
    let (rs1, rs2) = (number_name(instr.rs1), number_name(instr.rs2));
    let target = digits_of(alloc, target_of(address, instr.imm))?;
    Ok(format!(in alloc; "{rs1}, {rs2}, 0x{target}")?)
}

/// `x1, 0x00010010`.
fn jump_text(alloc: Global, instr: &Instr, address: u32) -> Result<String, NoMemory>
    ensures { IfOk result (λ text. string_bytes text ≡ spec.operands_text form.J instr.now address) }
{
    let rd = number_name(instr.rd);
    let target = digits_of(alloc, target_of(address, instr.imm))?;
    Ok(format!(in alloc; "{rd}, 0x{target}")?)
}

// The texts below are the same at each address, so their contracts name the address 0.

/// `x1, x2, x3`.
fn registers_text(alloc: Global, instr: &Instr) -> Result<String, NoMemory>
    ensures { IfOk result (λ text. string_bytes text ≡ spec.operands_text form.R instr.now 0) }
{
    let (rd, rs1, rs2) = (
        number_name(instr.rd),
        number_name(instr.rs1),
        number_name(instr.rs2),
    );
    Ok(format!(in alloc; "{rd}, {rs1}, {rs2}")?)
}

/// `x1, 0x12345`.
fn upper_text(alloc: Global, instr: &Instr) -> Result<String, NoMemory>
    ensures { IfOk result (λ text. string_bytes text ≡ spec.operands_text form.U instr.now 0) }
{
    let rd = number_name(instr.rd);
    Ok(format!(in alloc; "{rd}, 0x{:x}", instr.imm.unsigned_abs())?)
}

/// `15, 15`: what a FENCE orders before and after it.
fn fence_text(alloc: Global, instr: &Instr) -> Result<String, NoMemory>
    ensures { IfOk result (λ text. string_bytes text ≡ spec.operands_text form.Fence instr.now 0) }
{
    let order = instr.imm.unsigned_abs();
    Ok(format!(in alloc; "{}, {}", order / 16, order % 16)?)
}

/// `x1, (x2)`.
fn reserve_text(alloc: Global, instr: &Instr) -> Result<String, NoMemory>
    ensures { IfOk result (λ text. string_bytes text ≡ spec.operands_text form.Lr instr.now 0) }
{
    let (rd, rs1) = (number_name(instr.rd), number_name(instr.rs1));
    Ok(format!(in alloc; "{rd}, ({rs1})")?)
}

/// `x1, x3, (x2)`.
fn atomic_text(alloc: Global, instr: &Instr) -> Result<String, NoMemory>
    ensures { IfOk result (λ text. string_bytes text ≡ spec.operands_text form.Amo instr.now 0) }
{
    let (rd, rs1, rs2) = (
        number_name(instr.rd),
        number_name(instr.rs1),
        number_name(instr.rs2),
    );
    Ok(format!(in alloc; "{rd}, {rs2}, ({rs1})")?)
}

/// The operands of an instruction at an address.
pub(crate) fn operands_text(alloc: Global, instr: &Instr, address: u32) -> Result<String, NoMemory>
    ensures { IfOk result (λ text. string_bytes text ≡ spec.operands_text (form_of instr.now.op) instr.now address) }
{
    let (rd, rs1, rs2, imm) = (instr.rd, instr.rs1, instr.rs2, instr.imm);
    match instr.op.form() {
        Form::R => registers_text(alloc, instr),
        Form::Shift => immediate_text(alloc, instr),
        Form::I => {
            if is_indexed(instr.op) {
                indexed_text(alloc, rd, imm, rs1)
            } else {
                immediate_text(alloc, instr)
            }
        }
        Form::S => indexed_text(alloc, rs2, imm, rs1),
        Form::B => branch_text(alloc, instr, address),
        Form::J => jump_text(alloc, instr, address),
        Form::U => upper_text(alloc, instr),
        Form::Fence => fence_text(alloc, instr),
        Form::Plain => Ok(String::new(alloc)),
        Form::Lr => reserve_text(alloc, instr),
        Form::Amo => atomic_text(alloc, instr),
    }
}
