ghost use Rattle.std.specs.Prelude.{◌≡◌};
ghost use Rattle.rv_isa.specs.Table as spec;

use crate::form::Form;

/// The operations of RV32I and of the extensions M and A (RISC-V Unprivileged ISA, "RV32/64G Instruction Set
/// Listings"), but for FENCE.I, which is none of them.
#[derive(Clone, Copy, Debug, PartialEq, Eq)]
pub enum Op {
    Lui,
    Auipc,
    Jal,
    Jalr,
    Beq,
    Bne,
    Blt,
    Bge,
    Bltu,
    Bgeu,
    Lb,
    Lh,
    Lw,
    Lbu,
    Lhu,
    Sb,
    Sh,
    Sw,
    Addi,
    Slti,
    Sltiu,
    Xori,
    Ori,
    Andi,
    Slli,
    Srli,
    Srai,
    Add,
    Sub,
    Sll,
    Slt,
    Sltu,
    Xor,
    Srl,
    Sra,
    Or,
    And,
    Fence,
    Ecall,
    Ebreak,
    Mul,
    Mulh,
    Mulhsu,
    Mulhu,
    Div,
    Divu,
    Rem,
    Remu,
    LrW,
    ScW,
    AmoswapW,
    AmoaddW,
    AmoxorW,
    AmoandW,
    AmoorW,
    AmominW,
    AmomaxW,
    AmominuW,
    AmomaxuW,
}

/// The operations, in the order of the manual's listing.
pub const OPS: [Op; 59] = [
    Op::Lui,
    Op::Auipc,
    Op::Jal,
    Op::Jalr,
    Op::Beq,
    Op::Bne,
    Op::Blt,
    Op::Bge,
    Op::Bltu,
    Op::Bgeu,
    Op::Lb,
    Op::Lh,
    Op::Lw,
    Op::Lbu,
    Op::Lhu,
    Op::Sb,
    Op::Sh,
    Op::Sw,
    Op::Addi,
    Op::Slti,
    Op::Sltiu,
    Op::Xori,
    Op::Ori,
    Op::Andi,
    Op::Slli,
    Op::Srli,
    Op::Srai,
    Op::Add,
    Op::Sub,
    Op::Sll,
    Op::Slt,
    Op::Sltu,
    Op::Xor,
    Op::Srl,
    Op::Sra,
    Op::Or,
    Op::And,
    Op::Fence,
    Op::Ecall,
    Op::Ebreak,
    Op::Mul,
    Op::Mulh,
    Op::Mulhsu,
    Op::Mulhu,
    Op::Div,
    Op::Divu,
    Op::Rem,
    Op::Remu,
    Op::LrW,
    Op::ScW,
    Op::AmoswapW,
    Op::AmoaddW,
    Op::AmoxorW,
    Op::AmoandW,
    Op::AmoorW,
    Op::AmominW,
    Op::AmomaxW,
    Op::AmominuW,
    Op::AmomaxuW,
];

// The operations of an opcode by funct3, or by funct5, as the manual's listing has them. Where it has none, another stands there, whose row
// no such word has.

/// LOAD by funct3.
pub const LOADS: [Op; 8] = [
    Op::Lb,
    Op::Lh,
    Op::Lw,
    Op::Lb,
    Op::Lbu,
    Op::Lhu,
    Op::Lb,
    Op::Lb,
];

/// STORE by funct3.
pub const STORES: [Op; 8] = [
    Op::Sb,
    Op::Sh,
    Op::Sw,
    Op::Sb,
    Op::Sb,
    Op::Sb,
    Op::Sb,
    Op::Sb,
];

/// BRANCH by funct3.
pub const BRANCHES: [Op; 8] = [
    Op::Beq,
    Op::Bne,
    Op::Beq,
    Op::Beq,
    Op::Blt,
    Op::Bge,
    Op::Bltu,
    Op::Bgeu,
];

/// OP-IMM by funct3; a shift where its funct7 is 0.
pub const IMMEDIATES: [Op; 8] = [
    Op::Addi,
    Op::Slli,
    Op::Slti,
    Op::Sltiu,
    Op::Xori,
    Op::Srli,
    Op::Ori,
    Op::Andi,
];

/// OP-IMM by funct3, where bit 30 tells it from those.
pub const IMMEDIATES_ELSE: [Op; 8] = [
    Op::Srai,
    Op::Srai,
    Op::Srai,
    Op::Srai,
    Op::Srai,
    Op::Srai,
    Op::Srai,
    Op::Srai,
];

/// OP by funct3, where funct7 is 0.
pub const REGISTERS: [Op; 8] = [
    Op::Add,
    Op::Sll,
    Op::Slt,
    Op::Sltu,
    Op::Xor,
    Op::Srl,
    Op::Or,
    Op::And,
];

/// OP by funct3, where funct7 is 1.
pub const PRODUCTS: [Op; 8] = [
    Op::Mul,
    Op::Mulh,
    Op::Mulhsu,
    Op::Mulhu,
    Op::Div,
    Op::Divu,
    Op::Rem,
    Op::Remu,
];

/// OP by funct3, where funct7 is another.
pub const REGISTERS_ELSE: [Op; 8] = [
    Op::Sub,
    Op::Sub,
    Op::Sub,
    Op::Sub,
    Op::Sub,
    Op::Sra,
    Op::Sub,
    Op::Sub,
];

/// AMO by funct5.
pub const ATOMICS: [Op; 32] = [
    Op::AmoaddW,
    Op::AmoswapW,
    Op::LrW,
    Op::ScW,
    Op::AmoxorW,
    Op::AmoaddW,
    Op::AmoaddW,
    Op::AmoaddW,
    Op::AmoorW,
    Op::AmoaddW,
    Op::AmoaddW,
    Op::AmoaddW,
    Op::AmoandW,
    Op::AmoaddW,
    Op::AmoaddW,
    Op::AmoaddW,
    Op::AmominW,
    Op::AmoaddW,
    Op::AmoaddW,
    Op::AmoaddW,
    Op::AmomaxW,
    Op::AmoaddW,
    Op::AmoaddW,
    Op::AmoaddW,
    Op::AmominuW,
    Op::AmoaddW,
    Op::AmoaddW,
    Op::AmoaddW,
    Op::AmomaxuW,
    Op::AmoaddW,
    Op::AmoaddW,
    Op::AmoaddW,
];

impl Op {
    /// The format of the operation's words.
    #[inline(always)]
    pub fn form(self) -> Form
        ensures { result ≡ spec.form_of self }
    {
        match self {
            Op::Lui | Op::Auipc => Form::U,
            Op::Jal => Form::J,
            Op::Jalr
            | Op::Lb
            | Op::Lh
            | Op::Lw
            | Op::Lbu
            | Op::Lhu
            | Op::Addi
            | Op::Slti
            | Op::Sltiu
            | Op::Xori
            | Op::Ori
            | Op::Andi => Form::I,
            Op::Beq | Op::Bne | Op::Blt | Op::Bge | Op::Bltu | Op::Bgeu => Form::B,
            Op::Sb | Op::Sh | Op::Sw => Form::S,
            Op::Slli | Op::Srli | Op::Srai => Form::Shift,
            Op::Add
            | Op::Sub
            | Op::Sll
            | Op::Slt
            | Op::Sltu
            | Op::Xor
            | Op::Srl
            | Op::Sra
            | Op::Or
            | Op::And
            | Op::Mul
            | Op::Mulh
            | Op::Mulhsu
            | Op::Mulhu
            | Op::Div
            | Op::Divu
            | Op::Rem
            | Op::Remu => Form::R,
            Op::Fence => Form::Fence,
            Op::Ecall | Op::Ebreak => Form::Plain,
            Op::LrW => Form::Lr,
            Op::ScW
            | Op::AmoswapW
            | Op::AmoaddW
            | Op::AmoxorW
            | Op::AmoandW
            | Op::AmoorW
            | Op::AmominW
            | Op::AmomaxW
            | Op::AmominuW
            | Op::AmomaxuW => Form::Amo,
        }
    }

    /// The fixed bits of the operation's words, in their places.
    #[inline(always)]
    pub fn fixed_bits(self) -> u32
        ensures { result ≡ spec.match_of self }
    {
        match self {
            Op::Lui => 0x0000_0037,
            Op::Auipc => 0x0000_0017,
            Op::Jal => 0x0000_006f,
            Op::Jalr => 0x0000_0067,
            Op::Beq => 0x0000_0063,
            Op::Bne => 0x0000_1063,
            Op::Blt => 0x0000_4063,
            Op::Bge => 0x0000_5063,
            Op::Bltu => 0x0000_6063,
            Op::Bgeu => 0x0000_7063,
            Op::Lb => 0x0000_0003,
            Op::Lh => 0x0000_1003,
            Op::Lw => 0x0000_2003,
            Op::Lbu => 0x0000_4003,
            Op::Lhu => 0x0000_5003,
            Op::Sb => 0x0000_0023,
            Op::Sh => 0x0000_1023,
            Op::Sw => 0x0000_2023,
            Op::Addi => 0x0000_0013,
            Op::Slti => 0x0000_2013,
            Op::Sltiu => 0x0000_3013,
            Op::Xori => 0x0000_4013,
            Op::Ori => 0x0000_6013,
            Op::Andi => 0x0000_7013,
            Op::Slli => 0x0000_1013,
            Op::Srli => 0x0000_5013,
            Op::Srai => 0x4000_5013,
            Op::Add => 0x0000_0033,
            Op::Sub => 0x4000_0033,
            Op::Sll => 0x0000_1033,
            Op::Slt => 0x0000_2033,
            Op::Sltu => 0x0000_3033,
            Op::Xor => 0x0000_4033,
            Op::Srl => 0x0000_5033,
            Op::Sra => 0x4000_5033,
            Op::Or => 0x0000_6033,
            Op::And => 0x0000_7033,
            Op::Fence => 0x0000_000f,
            Op::Ecall => 0x0000_0073,
            Op::Ebreak => 0x0010_0073,
            Op::Mul => 0x0200_0033,
            Op::Mulh => 0x0200_1033,
            Op::Mulhsu => 0x0200_2033,
            Op::Mulhu => 0x0200_3033,
            Op::Div => 0x0200_4033,
            Op::Divu => 0x0200_5033,
            Op::Rem => 0x0200_6033,
            Op::Remu => 0x0200_7033,
            Op::LrW => 0x1000_202f,
            Op::ScW => 0x1800_202f,
            Op::AmoswapW => 0x0800_202f,
            Op::AmoaddW => 0x0000_202f,
            Op::AmoxorW => 0x2000_202f,
            Op::AmoandW => 0x6000_202f,
            Op::AmoorW => 0x4000_202f,
            Op::AmominW => 0x8000_202f,
            Op::AmomaxW => 0xa000_202f,
            Op::AmominuW => 0xc000_202f,
            Op::AmomaxuW => 0xe000_202f,
        }
    }

    /// The mnemonic of the operation, without ordering bits.
    pub fn mnemonic(self) -> &'static str
        ensures { result.now ≡ spec.mnemonic_of self }
    {
        match self {
            Op::Lui => "lui",
            Op::Auipc => "auipc",
            Op::Jal => "jal",
            Op::Jalr => "jalr",
            Op::Beq => "beq",
            Op::Bne => "bne",
            Op::Blt => "blt",
            Op::Bge => "bge",
            Op::Bltu => "bltu",
            Op::Bgeu => "bgeu",
            Op::Lb => "lb",
            Op::Lh => "lh",
            Op::Lw => "lw",
            Op::Lbu => "lbu",
            Op::Lhu => "lhu",
            Op::Sb => "sb",
            Op::Sh => "sh",
            Op::Sw => "sw",
            Op::Addi => "addi",
            Op::Slti => "slti",
            Op::Sltiu => "sltiu",
            Op::Xori => "xori",
            Op::Ori => "ori",
            Op::Andi => "andi",
            Op::Slli => "slli",
            Op::Srli => "srli",
            Op::Srai => "srai",
            Op::Add => "add",
            Op::Sub => "sub",
            Op::Sll => "sll",
            Op::Slt => "slt",
            Op::Sltu => "sltu",
            Op::Xor => "xor",
            Op::Srl => "srl",
            Op::Sra => "sra",
            Op::Or => "or",
            Op::And => "and",
            Op::Fence => "fence",
            Op::Ecall => "ecall",
            Op::Ebreak => "ebreak",
            Op::Mul => "mul",
            Op::Mulh => "mulh",
            Op::Mulhsu => "mulhsu",
            Op::Mulhu => "mulhu",
            Op::Div => "div",
            Op::Divu => "divu",
            Op::Rem => "rem",
            Op::Remu => "remu",
            Op::LrW => "lr.w",
            Op::ScW => "sc.w",
            Op::AmoswapW => "amoswap.w",
            Op::AmoaddW => "amoadd.w",
            Op::AmoxorW => "amoxor.w",
            Op::AmoandW => "amoand.w",
            Op::AmoorW => "amoor.w",
            Op::AmominW => "amomin.w",
            Op::AmomaxW => "amomax.w",
            Op::AmominuW => "amominu.w",
            Op::AmomaxuW => "amomaxu.w",
        }
    }
}
