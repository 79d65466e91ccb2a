//! The fields of a word beside its fixed bits, in each operand format.
ghost use Rattle.std.specs.Prelude.{◌≡◌, ◌/◌, ◌%◌, ◌^◌, IsTrue};
ghost use Rattle.rv_isa.specs.Fields as fields;
ghost use Rattle.rv_isa.specs.Operands as spec;

use crate::form::Form;

/// What an instruction says beside its operation. A field that the format has not is 0 or false.
#[derive(Clone, Copy)]
pub struct Operands {
    pub rd: u8,
    pub rs1: u8,
    pub rs2: u8,
    pub imm: i32,
    pub aq: bool,
    pub rl: bool,
}

/// No operands: what the formats begin from.
const NONE: Operands = Operands {
    rd: 0,
    rs1: 0,
    rs2: 0,
    imm: 0,
    aq: false,
    rl: false,
};

/// The operands of a word in a format.
#[inline(always)]
#[tactic(auto, using(crate::specs::OperandsFit::operands_fit))]
pub(crate) fn operands_of(form: Form, word: u32) -> Operands
    ensures value { result ≡ spec.operands_of form word }
    ensures fit { IsTrue (spec.are_operands form result) }
{
    let rd = field_5(word >> 7);
    let rs1 = field_5(word >> 15);
    let rs2 = field_5(word >> 20);
    let aq = (word >> 26) % 2 == 1;
    let rl = (word >> 25) % 2 == 1;
    match form {
        Form::R => Operands {
            rd,
            rs1,
            rs2,
            ..NONE
        },
        Form::I => Operands {
            rd,
            rs1,
            imm: immediate_i(word),
            ..NONE
        },
        Form::S => Operands {
            rs1,
            rs2,
            imm: immediate_s(word),
            ..NONE
        },
        Form::B => Operands {
            rs1,
            rs2,
            imm: immediate_b(word),
            ..NONE
        },
        Form::U => Operands {
            rd,
            imm: (word >> 12) as i32,
            ..NONE
        },
        Form::J => Operands {
            rd,
            imm: immediate_j(word),
            ..NONE
        },
        Form::Shift => Operands {
            rd,
            rs1,
            imm: ((word >> 20) % 32) as i32,
            ..NONE
        },
        Form::Fence => Operands {
            rd,
            rs1,
            imm: (word >> 20) as i32,
            ..NONE
        },
        Form::Plain => NONE,
        Form::Lr => Operands {
            rd,
            rs1,
            aq,
            rl,
            ..NONE
        },
        Form::Amo => Operands {
            rd,
            rs1,
            rs2,
            aq,
            rl,
            ..NONE
        },
    }
}

/// The low five bits: a register's number.
#[inline(always)]
fn field_5(bits: u32) -> u8
    ensures { result ≡ bits % 2 ^ 5 }
{
    (bits % 32) as u8
}

#[inline(always)]
fn immediate_i(word: u32) -> i32
    ensures { result ≡ fields.immediate_i word }
{
    upper_12(word)
}

// The sign of the others stands in bit 31 first, from where one shift spreads it.

#[inline(always)]
fn immediate_s(word: u32) -> i32
    ensures { result ≡ fields.immediate_s word }
{
    let high = (word >> 25) * 0x0200_0000;
    let low = (word >> 7) % 32 * 0x0010_0000;
    upper_12(high + low)
}

#[inline(always)]
fn immediate_b(word: u32) -> i32
    ensures { result ≡ fields.immediate_b word }
{
    let high = (word >> 31) * 0x8000_0000 + (word >> 7) % 2 * 0x4000_0000;
    let low = (word >> 25) % 64 * 0x0100_0000 + (word >> 8) % 16 * 0x0010_0000;
    upper_13(high + low)
}

#[inline(always)]
fn immediate_j(word: u32) -> i32
    ensures { result ≡ fields.immediate_j word }
{
    let high = (word >> 31) * 0x8000_0000 + (word >> 12) % 256 * 0x0080_0000;
    let low = (word >> 20) % 2 * 0x0040_0000 + (word >> 21) % 1024 * 0x1000;
    upper_21(high + low)
}

/// The number that the upper 12 bits stand for in two's complement.
#[inline(always)]
fn upper_12(bits: u32) -> i32
    ensures { result ≡ fields.signed 12 (bits / 2 ^ 20) }
{
    bits.cast_signed().wrapping_shr(20)
}

/// The same of the upper 13.
#[inline(always)]
fn upper_13(bits: u32) -> i32
    ensures { result ≡ fields.signed 13 (bits / 2 ^ 19) }
{
    bits.cast_signed().wrapping_shr(19)
}

/// The same of the upper 21.
#[inline(always)]
fn upper_21(bits: u32) -> i32
    ensures { result ≡ fields.signed 21 (bits / 2 ^ 11) }
{
    bits.cast_signed().wrapping_shr(11)
}
