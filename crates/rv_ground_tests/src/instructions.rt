//! Words of instructions, from the RISC-V Unprivileged ISA's formats, worked by hand, and from GNU as.
use crate::assertion::{assert_at, assert_is};
use rv_isa::codec::{decode, decode_as, encode};
use rv_isa::form::Form;
use rv_isa::instr::Instr;
use rv_isa::op::Op;
use rv_isa::shape::Shape;
use std::fmt::Debug;
use std::process::Abort;

/// The same of a word.
fn assert_of<T: PartialEq + Debug + Drop>(
    rt: &impl Abort,
    found: T,
    wanted: T,
    what: &str,
    word: u32,
) {
    assert_at(rt, found, wanted, what, u64::from(word));
}

fn decoded(rt: &impl Abort, word: u32) -> Instr {
    match decode(word) {
        None => panic!(rt; "{word:08x} is illegal"),
        Some(instr) => instr,
    }
}

/// A word, its operation, its registers, and its immediate.
type Row = (u32, Op, (u8, u8, u8), i32);

/// A word is this instruction, and the instruction is this word.
fn is(rt: &impl Abort, word: u32, op: Op, registers: (u8, u8, u8), imm: i32) {
    let instr = decoded(rt, word);
    assert_of(rt, instr.op, op, "operation", word);
    assert_of(
        rt,
        (instr.rd, instr.rs1, instr.rs2),
        registers,
        "registers",
        word,
    );
    assert_of(rt, instr.imm, imm, "immediate", word);
    assert_of(
        rt,
        (instr.aq, instr.rl),
        (false, false),
        "ordering bits",
        word,
    );
    assert_of(rt, encode(&instr), word, "encoding", word);
}

fn are(rt: &impl Abort, rows: &[Row]) {
    for (word, op, registers, imm) in rows {
        is(rt, *word, *op, *registers, *imm);
    }
}

const BASE_FORMATS: [Row; 28] = [
    (0x0002_0337, Op::Lui, (6, 0, 0), 0x20),
    (0xffff_f297, Op::Auipc, (5, 0, 0), 0xf_ffff),
    (0x0020_00ef, Op::Jal, (1, 0, 0), 2),
    (0xffdf_f06f, Op::Jal, (0, 0, 0), -4),
    (0x8000_006f, Op::Jal, (0, 0, 0), -1_048_576),
    (0x7fff_f06f, Op::Jal, (0, 0, 0), 1_048_574),
    (0x0000_8067, Op::Jalr, (0, 1, 0), 0),
    (0x0005_0663, Op::Beq, (0, 10, 0), 12),
    (0x8020_9063, Op::Bne, (0, 1, 2), -4096),
    (0x7e20_cfe3, Op::Blt, (0, 1, 2), 4094),
    (0xfe20_dee3, Op::Bge, (0, 1, 2), -4),
    (0x0020_e463, Op::Bltu, (0, 1, 2), 8),
    (0x0020_f463, Op::Bgeu, (0, 1, 2), 8),
    (0x0050_0093, Op::Addi, (1, 0, 0), 5),
    (0x8002_8293, Op::Addi, (5, 5, 0), -2048),
    (0x7ff0_0293, Op::Addi, (5, 0, 0), 2047),
    (0xfff2_a313, Op::Slti, (6, 5, 0), -1),
    (0xfff2_b313, Op::Sltiu, (6, 5, 0), -1),
    (0xfff2_c313, Op::Xori, (6, 5, 0), -1),
    (0x0012_e313, Op::Ori, (6, 5, 0), 1),
    (0x0012_f393, Op::Andi, (7, 5, 0), 1),
    (0x01f2_9313, Op::Slli, (6, 5, 0), 31),
    (0x0002_d313, Op::Srli, (6, 5, 0), 0),
    (0x41f2_d313, Op::Srai, (6, 5, 0), 31),
    (0x0000_0073, Op::Ecall, (0, 0, 0), 0),
    (0x0010_0073, Op::Ebreak, (0, 0, 0), 0),
    (0x0ff0_000f, Op::Fence, (0, 0, 0), 0x0ff),
    (0x8330_000f, Op::Fence, (0, 0, 0), 0x833),
];

#[test]
fn base_formats(rt: HostRuntime) {
    are(&rt, &BASE_FORMATS);
}

/// Multiplications and divisions, as GNU as encodes them.
const PRODUCTS_AND_QUOTIENTS: [Row; 8] = [
    (0x0262_83b3, Op::Mul, (7, 5, 6), 0),
    (0x0273_12b3, Op::Mulh, (5, 6, 7), 0),
    (0x03ff_afb3, Op::Mulhsu, (31, 31, 31), 0),
    (0x0200_b0b3, Op::Mulhu, (1, 1, 0), 0),
    (0x0262_c3b3, Op::Div, (7, 5, 6), 0),
    (0x0262_d3b3, Op::Divu, (7, 5, 6), 0),
    (0x0262_e3b3, Op::Rem, (7, 5, 6), 0),
    (0x0262_f3b3, Op::Remu, (7, 5, 6), 0),
];

#[test]
fn products_and_quotients(rt: HostRuntime) {
    are(&rt, &PRODUCTS_AND_QUOTIENTS);
}

const MEMORY_AND_REGISTERS: [Row; 29] = [
    (0x0013_4283, Op::Lbu, (5, 6, 0), 1),
    (0xfff3_0283, Op::Lb, (5, 6, 0), -1),
    (0x0003_1283, Op::Lh, (5, 6, 0), 0),
    (0x0003_2283, Op::Lw, (5, 6, 0), 0),
    (0x0003_5283, Op::Lhu, (5, 6, 0), 0),
    (0x00a3_0123, Op::Sb, (0, 6, 10), 2),
    (0xfea3_1fa3, Op::Sh, (0, 6, 10), -1),
    (0x00a3_2023, Op::Sw, (0, 6, 10), 0),
    (0x0031_00b3, Op::Add, (1, 2, 3), 0),
    (0x4031_00b3, Op::Sub, (1, 2, 3), 0),
    (0x0031_10b3, Op::Sll, (1, 2, 3), 0),
    (0x0031_20b3, Op::Slt, (1, 2, 3), 0),
    (0x0031_30b3, Op::Sltu, (1, 2, 3), 0),
    (0x0031_40b3, Op::Xor, (1, 2, 3), 0),
    (0x0031_50b3, Op::Srl, (1, 2, 3), 0),
    (0x4031_50b3, Op::Sra, (1, 2, 3), 0),
    (0x0031_60b3, Op::Or, (1, 2, 3), 0),
    (0x0031_70b3, Op::And, (1, 2, 3), 0),
    (0x1003_22af, Op::LrW, (5, 6, 0), 0),
    (0x1853_23af, Op::ScW, (7, 6, 5), 0),
    (0x0873_22af, Op::AmoswapW, (5, 6, 7), 0),
    (0x0073_22af, Op::AmoaddW, (5, 6, 7), 0),
    (0x2073_22af, Op::AmoxorW, (5, 6, 7), 0),
    (0x6073_22af, Op::AmoandW, (5, 6, 7), 0),
    (0x4073_22af, Op::AmoorW, (5, 6, 7), 0),
    (0x8073_22af, Op::AmominW, (5, 6, 7), 0),
    (0xa073_22af, Op::AmomaxW, (5, 6, 7), 0),
    (0xc073_22af, Op::AmominuW, (5, 6, 7), 0),
    (0xe073_22af, Op::AmomaxuW, (5, 6, 7), 0),
];

#[test]
fn memory_and_registers(rt: HostRuntime) {
    are(&rt, &MEMORY_AND_REGISTERS);
}

/// All zeros and all ones; slli with bit 25 set; lr.w with an rs2; ecall with an rd; a load and a
/// branch of no such width; FENCE.I; an addition with funct7 2; amo.d.
const ILLEGAL: [u32; 11] = [
    0,
    0xffff_ffff,
    0x0205_1513,
    0x1013_22af,
    0x0000_00f3,
    0x0003_3283,
    0x0000_2063,
    0x0000_100f,
    0x0462_83b3,
    0x0073_32af,
    0x0020_0073,
];

#[test]
fn illegal_words(rt: HostRuntime) {
    for word in &ILLEGAL {
        assert_of(&rt, decode(*word), None, "decoding", *word);
    }
}

#[test]
fn ordering_bits(rt: HostRuntime) {
    for (word, aq, rl) in [
        (0x1003_22af, false, false),
        (0x1403_22af, true, false),
        (0x1203_22af, false, true),
        (0x1603_22af, true, true),
    ] {
        let instr = decoded(&rt, word);
        assert_of(&rt, (instr.aq, instr.rl), (aq, rl), "ordering bits", word);
        assert_of(&rt, encode(&instr), word, "encoding", word);
    }
}

/// The least and the greatest immediate of an operation.
const BOUNDS: [(Op, i32, i32); 9] = [
    (Op::Addi, -2048, 2047),
    (Op::Sw, -2048, 2047),
    (Op::Beq, -4096, 4094),
    (Op::Jal, -1_048_576, 1_048_574),
    (Op::Lui, 0, 0xf_ffff),
    (Op::Slli, 0, 31),
    (Op::Fence, 0, 4095),
    (Op::Add, 0, 0),
    (Op::LrW, 0, 0),
];

/// Whether an operation takes an immediate.
fn takes(op: Op, imm: i32) -> bool {
    Instr::new(op, 0, 0, 0, imm, false, false).is_some()
}

#[test]
fn immediates_in_range(rt: HostRuntime) {
    for (op, low, high) in &BOUNDS {
        let within = (takes(*op, *low), takes(*op, *high));
        assert_is(&rt, (*op, within), (*op, (true, true)), "the bounds");
        let past = (
            takes(*op, low.wrapping_sub(2)),
            takes(*op, high.wrapping_add(2)),
        );
        assert_is(&rt, (*op, past), (*op, (false, false)), "past the bounds");
    }
}

/// An operation, its registers, its immediate, its ordering bits, and whether they make an instruction.
type Operands = (Op, (u8, u8, u8), i32, (bool, bool), bool);

const OPERANDS: [Operands; 10] = [
    (Op::Beq, (0, 0, 0), 3, (false, false), false),
    (Op::Jal, (0, 0, 0), -1, (false, false), false),
    (Op::Add, (31, 31, 31), 0, (false, false), true),
    (Op::Add, (32, 0, 0), 0, (false, false), false),
    (Op::Sw, (1, 0, 0), 0, (false, false), false),
    (Op::Lui, (1, 1, 0), 0, (false, false), false),
    (Op::Addi, (0, 0, 1), 0, (false, false), false),
    (Op::ScW, (1, 2, 3), 0, (true, true), true),
    (Op::Add, (1, 2, 3), 0, (true, false), false),
    (Op::Add, (1, 2, 3), 0, (false, true), false),
];

#[test]
fn operands_in_range(rt: HostRuntime) {
    for (op, registers, imm, ordering, wanted) in &OPERANDS {
        let (rd, rs1, rs2) = *registers;
        let (aq, rl) = *ordering;
        let made = Instr::new(*op, rd, rs1, rs2, *imm, aq, rl).is_some();
        let found = (*op, *registers, *imm, *ordering, made);
        let wanted = (*op, *registers, *imm, *ordering, *wanted);
        assert_is(&rt, found, wanted, "operands, and whether they are taken");
    }
}

#[test]
fn shapes(rt: HostRuntime) {
    for (word, shape) in [
        (0x0003_0283, Shape::PlainLoad(1)),
        (0x0003_5283, Shape::PlainLoad(2)),
        (0x0003_2283, Shape::PlainLoad(4)),
        (0x00a3_0123, Shape::PlainStore(1)),
        (0x00a3_1023, Shape::PlainStore(2)),
        (0x00a3_2023, Shape::PlainStore(4)),
        (0x1003_22af, Shape::Lr),
        (0x1853_23af, Shape::Sc),
        (0x0073_22af, Shape::Amo),
        (0x0050_0093, Shape::Other),
    ] {
        assert_of(&rt, decoded(&rt, word).shape(), shape, "shape", word);
    }
}

#[test]
fn forms(rt: HostRuntime) {
    assert_is(&rt, Op::Sw.form(), Form::S, "form of sw");
    assert_is(&rt, Op::ScW.fixed_bits(), 0x1800_202f, "fixed bits of sc.w");
    assert_is(&rt, Form::Amo.mask(), 0xf800_707f, "mask of an amo");
    let registers = [
        Form::Amo.has_rd(),
        Form::Amo.has_rs1(),
        Form::Amo.has_rs2(),
        Form::Plain.has_rs1(),
    ];
    assert_is(&rt, registers, [true, true, true, false], "registers");
    let ordering = (Form::Amo.has_ordering(), Form::R.has_ordering());
    assert_is(&rt, ordering, (true, false), "ordering bits");
}

#[test]
fn words_of_one_operation(rt: HostRuntime) {
    for (word, op) in [
        (0x0050_0093, Op::Addi),
        (0x8020_9063, Op::Bne),
        (0x0002_0337, Op::Lui),
    ] {
        assert_of(&rt, decoded(&rt, word).op, op, "operation", word);
        let decoded = decode_as(op, word);
        assert_of(&rt, decoded, decode(word), "decoding", word);
        let sub = decode_as(Op::Sub, word);
        assert_of(&rt, sub, None, "decoding as sub", word);
    }
}
