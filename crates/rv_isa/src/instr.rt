ghost use Rattle.std.specs.Prelude.{◌≡◌, ◌↔◌, IsTrue, IsSome, IfSome};
ghost use Rattle.rv_isa.specs.Operands.{are_operands, is_register, is_immediate, is_ordering};
ghost use Rattle.rv_isa.specs.Table.{form_of};

use crate::form::Form;
use crate::op::Op;
use crate::shape::Shape;

/// An instruction: its operation and its operands. Registers are 0 to 31. The immediate is in the
/// format's range: sign-extended, but 0 to 0xfffff in LUI and AUIPC (the 20 bits), 0 to 31 in a shift,
/// and 0 to 4095 in FENCE (fm, pred and succ); it is even in a branch and in JAL. A field that the format
/// has not is 0 or false.
#[derive(Clone, Copy, Debug, PartialEq, Eq)]
pub struct Instr {
    pub op: Op,
    pub rd: u8,
    pub rs1: u8,
    pub rs2: u8,
    pub imm: i32,
    pub aq: bool,
    pub rl: bool,
    pub ghost in_range: { IsTrue (are_operands (form_of op)
        (record { rd = rd; rs1 = rs1; rs2 = rs2; imm = imm; aq = aq; rl = rl })) },
}

impl Instr {
    ghost use Rattle.rv_isa.specs.Instr.{operands};
    ghost use Rattle.rv_isa.specs.Shape.{shape_of};

    /// The instruction with these operands, where they are in the range of the operation's format.
    pub fn new(op: Op, rd: u8, rs1: u8, rs2: u8, imm: i32, aq: bool, rl: bool) -> Option<Instr>
        ensures valid { IsSome result ↔ IsTrue (are_operands (form_of op)
            (record { rd = rd; rs1 = rs1; rs2 = rs2; imm = imm; aq = aq; rl = rl })) }
        ensures operation { IfSome result (λ i. i.op ≡ op) }
        ensures operands { IfSome result (λ i. operands i
            ≡ record { rd = rd; rs1 = rs1; rs2 = rs2; imm = imm; aq = aq; rl = rl }) }
        ensures only { (i : Instr) → i.op ≡ op → operands i
            ≡ record { rd = rd; rs1 = rs1; rs2 = rs2; imm = imm; aq = aq; rl = rl } → result ≡ Some i }
    {
        let form = op.form();
        let registers = is_register(form.has_rd(), rd)
            && is_register(form.has_rs1(), rs1)
            && is_register(form.has_rs2(), rs2);
        let orderings = is_ordering(form.has_ordering(), aq)
            && is_ordering(form.has_ordering(), rl);
        if registers && is_immediate(form, imm) && orderings {
            Some(Instr {
                op,
                rd,
                rs1,
                rs2,
                imm,
                aq,
                rl,
            })
        } else {
            None
        }
    }

    /// How the instruction accesses memory.
    pub fn shape(&self) -> Shape
        ensures { result ≡ shape_of self.now.op }
    {
        match self.op {
            Op::Lb | Op::Lbu => Shape::PlainLoad(1),
            Op::Lh | Op::Lhu => Shape::PlainLoad(2),
            Op::Lw => Shape::PlainLoad(4),
            Op::Sb => Shape::PlainStore(1),
            Op::Sh => Shape::PlainStore(2),
            Op::Sw => Shape::PlainStore(4),
            Op::LrW => Shape::Lr,
            Op::ScW => Shape::Sc,
            Op::AmoswapW
            | Op::AmoaddW
            | Op::AmoxorW
            | Op::AmoandW
            | Op::AmoorW
            | Op::AmominW
            | Op::AmomaxW
            | Op::AmominuW
            | Op::AmomaxuW => Shape::Amo,
            _ => Shape::Other,
        }
    }
}

/// A register's number is below 32, and 0 where the format has none.
fn is_register(has: bool, register: u8) -> bool
    ensures { result ≡ is_register has register }
{
    if has { register < 32 } else { register == 0 }
}

fn is_ordering(has: bool, bit: bool) -> bool
    ensures { result ≡ is_ordering has bit }
{
    has || !bit
}

fn is_immediate(form: Form, imm: i32) -> bool
    ensures { result ≡ is_immediate form imm }
{
    let is_even = imm.unsigned_abs() % 2 == 0;
    match form {
        Form::R | Form::Plain | Form::Lr | Form::Amo => imm.unsigned_abs() == 0,
        Form::I | Form::S => -2048 <= imm && imm <= 2047,
        Form::B => -4096 <= imm && imm <= 4094 && is_even,
        Form::U => 0 <= imm && imm <= 0xf_ffff,
        Form::J => -1_048_576 <= imm && imm <= 1_048_574 && is_even,
        Form::Shift => 0 <= imm && imm <= 31,
        Form::Fence => 0 <= imm && imm <= 4095,
    }
}
