//! What one line of source says: its label, and its statement or the fault that it has.
ghost use Rattle.std.specs.Prelude.{◌≡◌, IsTrue};
ghost use Rattle.std.specs.Option.{SomeIff};
ghost use Rattle.rv_asm.specs.Faults as faults;
ghost use Rattle.rv_asm.specs.Text.{is_name};

use crate::reading::expressions::Expressions;
use crate::reading::text::is_name;
use rv_isa::instr::Instr;
use rv_isa::op::Op;
use std::marker::Model;

/// Why a source, or a line of it, is refused. Of several faults in a line the first by `rank` is told.
#[derive(Clone, Copy, Debug, PartialEq, Eq)]
pub enum AsmKind {
    /// A malformed line, an unknown mnemonic, operands of another shape or count.
    Word = 1,
    /// A name that is no register, where a register must stand.
    Register = 2,
    /// A number outside its range, or a target too far away.
    Range = 3,
    /// A label that an earlier line defines.
    LabelTwice = 4,
    /// A label that no line defines.
    LabelUnknown = 5,
    /// An unknown directive, or one in the wrong section.
    Directive = 6,
    /// A section past its limit, or labels that need more than 64 MiB.
    TooLarge = 7,
    /// A growth was refused.
    NoMemory = 8,
    /// No word in `.text`.
    Empty = 9,
}

impl AsmKind {
    /// Where a fault stands in the order in which those of one line are told.
    pub fn rank(self) -> u8
        ensures { result ≡ faults.rank self }
    {
        match self {
            AsmKind::LabelTwice => 0,
            AsmKind::Word => 1,
            AsmKind::Directive => 2,
            AsmKind::Register => 3,
            AsmKind::Range => 4,
            AsmKind::LabelUnknown => 5,
            AsmKind::TooLarge => 6,
            AsmKind::NoMemory => 7,
            AsmKind::Empty => 8,
        }
    }
}

/// The sections of a source.
#[derive(Clone, Copy)]
pub enum Section {
    Text,
    Data,
}

/// A name: a letter, `_`, `.` or `$`, then these or digits; at most 255 bytes.
#[derive(Drop)]
pub struct Name<'s> {
    bytes: &'s [u8],
}

impl<'s> Model for Name<'s> {
    ghost use Rattle.std.specs.Prelude.{ℕ, List, IsTrue};
    ghost use Rattle.rv_asm.specs.Text.{is_name};

    ghost Value = { List ℕ };

    ghost view = { λ n. n.bytes.now };

    ghost invariant = { λ n. IsTrue (is_name n.bytes.now) };
}

impl<'s> Name<'s> {
    /// The name that is spelled so, where the bytes are one.
    pub fn new(bytes: &'s [u8]) -> Option<Name<'s>>
        ensures { SomeIff result (IsTrue (is_name bytes.now)) bytes.now }
    {
        if is_name(bytes) {
            Some(Name { bytes })
        } else {
            None
        }
    }

    /// How the name is spelled.
    pub fn as_bytes(&self) -> &'s [u8]
        ensures value { result.now ≡ self.now }
        ensures valid { IsTrue (is_name self.now) }
    {
        self.bytes
    }
}

/// What stands for 32 bits: a label, for its address, or a number modulo 2^32.
#[derive(Drop)]
pub enum Expression<'s> {
    Label(Name<'s>),
    Number(u32),
}

/// A statement without a fault of its own.
#[derive(Drop)]
pub enum Statement<'s> {
    /// One instruction.
    Instr(Instr),
    /// Two instructions: `li` of a number that one cannot load.
    Pair(Instr, Instr),
    /// A branch or a jump, whose immediate is the distance to its target.
    Jump {
        op: Op,
        rd: u8,
        rs1: u8,
        rs2: u8,
        target: Expression<'s>,
    },
    /// `la`: the two instructions that load a label's address.
    La {
        rd: u8,
        label: Name<'s>,
    },
    /// `.text` or `.data`.
    Section(Section),
    /// `.word`: four bytes for each value, the least significant first.
    Words(Expressions<'s>),
    /// `.byte`: the low eight bits of each number.
    Bytes(Expressions<'s>),
    /// `.zero`: so many bytes that are 0.
    Zero(u32),
    /// `.globl` or `.global`, which do nothing.
    Global,
}

/// A line: the label that it defines, and its statement, if it has one, or the first fault of the
/// statement by rank. A line with a faulty statement keeps its label.
#[derive(Drop)]
pub struct Line<'s> {
    pub label: Option<Name<'s>>,
    pub statement: Result<Option<Statement<'s>>, AsmKind>,
}
