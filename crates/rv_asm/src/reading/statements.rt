//! Pseudo-instructions and directives.
ghost use Rattle.std.specs.Prelude.{◌≡◌};
ghost use Rattle.rv_asm.specs.SourceLine as spec;

use crate::reading::formats::{instr_of, numbered};
use crate::reading::instruction::load_pair;
use crate::reading::keyword::{Directive, Keyword, Pseudo};
use crate::reading::operand::{Operands, read_operands};
use crate::reading::shapes::{
    bits_of, both, expression_at, label_in, number_in, register_in, within,
};
use crate::reading::values::{Values, read_values};
use crate::statement::{AsmKind, Section, Statement};
use rv_isa::op::Op;

/// The most bytes of a `.zero`.
const MOST_ZEROS: i64 = 1_048_576;

/// Whether one instruction can load the number.
pub(crate) fn is_short(number: i64) -> bool
    ensures { result ≡ spec.is_short number }
{
    -2048 <= number && number <= 2047
}

fn loaded<'s>(rd: u8, number: i64) -> Result<Statement<'s>, AsmKind>
    ensures { result ≡ spec.loaded rd number }
{
    if is_short(number) {
        return numbered(Op::Addi, rd, 0, 0, number);
    }
    let (upper, lower) = load_pair(rd, bits_of(number))?;
    Ok(Statement::Pair(upper, lower))
}

fn nop_of<'s>(operands: Operands<'s>) -> Result<Statement<'s>, AsmKind>
    ensures { result ≡ spec.nop_of operands.entry }
{
    match operands {
        Operands::Empty => numbered(Op::Addi, 0, 0, 0, 0),
        _ => Err(AsmKind::Word),
    }
}

fn mv_of<'s>(operands: Operands<'s>) -> Result<Statement<'s>, AsmKind>
    ensures { result ≡ spec.mv_of operands.entry }
{
    let Operands::Two(rd, rs) = operands else {
        return Err(AsmKind::Word);
    };
    let (rd, rs) = both(register_in(rd), register_in(rs))?;
    numbered(Op::Addi, rd, rs, 0, 0)
}

fn j_of<'s>(operands: Operands<'s>) -> Result<Statement<'s>, AsmKind>
    ensures { result ≡ spec.j_of operands.entry }
{
    let Operands::One(target) = operands else {
        return Err(AsmKind::Word);
    };
    let target = expression_at(target)?;
    Ok(Statement::Jump {
        op: Op::Jal,
        rd: 0,
        rs1: 0,
        rs2: 0,
        target,
    })
}

fn ret_of<'s>(operands: Operands<'s>) -> Result<Statement<'s>, AsmKind>
    ensures { result ≡ spec.ret_of operands.entry }
{
    match operands {
        Operands::Empty => numbered(Op::Jalr, 0, 1, 0, 0),
        _ => Err(AsmKind::Word),
    }
}

fn li_of<'s>(operands: Operands<'s>) -> Result<Statement<'s>, AsmKind>
    ensures { result ≡ spec.li_of operands.entry }
{
    let Operands::Two(rd, number) = operands else {
        return Err(AsmKind::Word);
    };
    let (rd, number) = both(register_in(rd), number_in(number))?;
    loaded(rd, number)
}

fn la_of<'s>(operands: Operands<'s>) -> Result<Statement<'s>, AsmKind>
    ensures { result ≡ spec.la_of operands.entry }
{
    let Operands::Two(rd, label) = operands else {
        return Err(AsmKind::Word);
    };
    let (rd, label) = both(register_in(rd), label_in(label))?;
    Ok(Statement::La { rd, label })
}

fn pseudo_of<'s>(pseudo: Pseudo, operands: Operands<'s>) -> Result<Statement<'s>, AsmKind>
    ensures { result ≡ spec.pseudo_of pseudo operands.entry }
{
    match pseudo {
        Pseudo::Nop => nop_of(operands),
        Pseudo::Mv => mv_of(operands),
        Pseudo::J => j_of(operands),
        Pseudo::Ret => ret_of(operands),
        Pseudo::Li => li_of(operands),
        Pseudo::La => la_of(operands),
    }
}

/// What stands only in `.data`.
fn in_data(section: Section) -> Result<(), AsmKind>
    ensures { result ≡ spec.in_data section }
{
    match section {
        Section::Data => Ok(()),
        Section::Text => Err(AsmKind::Directive),
    }
}

fn zero_of<'s>(section: Section, operands: Operands<'s>) -> Result<Statement<'s>, AsmKind>
    ensures { result ≡ spec.zero_of section operands.entry }
{
    let Operands::One(number) = operands else {
        return Err(AsmKind::Word);
    };
    let (_, number) = both(in_data(section), number_in(number))?;
    let count = within(0, MOST_ZEROS, number)?;
    Ok(Statement::Zero(bits_of(count)))
}

fn section_of<'s>(section: Section, operands: Operands<'s>) -> Result<Statement<'s>, AsmKind>
    ensures { result ≡ spec.section_of section operands.entry }
{
    match operands {
        Operands::Empty => Ok(Statement::Section(section)),
        _ => Err(AsmKind::Word),
    }
}

fn global_of<'s>(operands: Operands<'s>) -> Result<Statement<'s>, AsmKind>
    ensures { result ≡ spec.global_of operands.entry }
{
    let Operands::One(label) = operands else {
        return Err(AsmKind::Word);
    };
    let _ = label_in(label)?;
    Ok(Statement::Global)
}

fn words_of(text: &[u8]) -> Result<Statement<'_>, AsmKind>
    ensures { result ≡ spec.words_of text.now }
{
    let values = read_values(Values::Words, text)?;
    Ok(Statement::Words(values))
}

fn bytes_of(section: Section, text: &[u8]) -> Result<Statement<'_>, AsmKind>
    ensures { result ≡ spec.bytes_of section text.now }
{
    let (_, values) = both(in_data(section), read_values(Values::Bytes, text))?;
    Ok(Statement::Bytes(values))
}

fn directive_of(
    directive: Directive,
    section: Section,
    text: &[u8],
) -> Result<Statement<'_>, AsmKind>
    ensures { result ≡ spec.directive_of directive section text.now }
{
    match directive {
        Directive::Text => section_of(Section::Text, read_operands(text)),
        Directive::Data => section_of(Section::Data, read_operands(text)),
        Directive::Word => words_of(text),
        Directive::Byte => bytes_of(section, text),
        Directive::Zero => zero_of(section, read_operands(text)),
        Directive::Globl | Directive::Global => global_of(read_operands(text)),
    }
}

/// The statement of a keyword with the text of its operands, in a section.
#[tactic(auto, unfolding(crate::specs::SourceLine::statement_of))]
pub(crate) fn statement_of(
    keyword: Keyword,
    section: Section,
    text: &[u8],
) -> Result<Statement<'_>, AsmKind>
    ensures { result ≡ spec.statement_of keyword section text.now }
{
    match keyword {
        Keyword::Instr(mnemonic) => instr_of(mnemonic, read_operands(text)),
        Keyword::Pseudo(pseudo) => pseudo_of(pseudo, read_operands(text)),
        Keyword::Directive(directive) => directive_of(directive, section, text),
    }
}
