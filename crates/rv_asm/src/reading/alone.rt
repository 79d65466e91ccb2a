//! The word that one line gives by itself.
ghost use Rattle.std.specs.Prelude.{◌≡◌, ◌==◌};
ghost use Rattle.std.specs.List.{list_any};
ghost use Rattle.rv_asm.specs.Alone as spec;

use crate::reading::expressions::Expressions;
use crate::reading::instruction::aimed;
use crate::reading::keyword::{Directive, Keyword, Pseudo, keyword_of};
use crate::reading::line::{after_colon, is_ascii, uncommented};
use crate::reading::operand::{Operand, Operands, read_operands};
use crate::reading::shapes::both;
use crate::reading::statements::{is_short, statement_of};
use crate::reading::text::{Stop, cut, trimmed};
use crate::statement::{AsmKind, Expression, Section, Statement};
use rv_isa::codec::encode;
use rv_isa::op::Op;

fn short_alone(operand: Option<Operand<'_>>) -> Result<(), AsmKind>
    ensures { result ≡ spec.short_alone operand.entry }
{
    match operand {
        Some(Operand::Number(Some(number))) => {
            if is_short(number) {
                Ok(())
            } else {
                Err(AsmKind::Word)
            }
        }
        _ => Ok(()),
    }
}

fn li_alone(operands: Operands<'_>) -> Result<(), AsmKind>
    ensures { result ≡ spec.li_alone operands.entry }
{
    match operands {
        Operands::Two(_, number) => short_alone(number),
        _ => Ok(()),
    }
}

fn pseudo_alone(pseudo: Pseudo, operands: Operands<'_>) -> Result<(), AsmKind>
    ensures { result ≡ spec.pseudo_alone pseudo operands.entry }
{
    match pseudo {
        Pseudo::La => Err(AsmKind::Word),
        Pseudo::Li => li_alone(operands),
        Pseudo::Nop | Pseudo::Mv | Pseudo::J | Pseudo::Ret => Ok(()),
    }
}

fn number_alone(operands: Operands<'_>) -> Result<(), AsmKind>
    ensures { result ≡ spec.number_alone operands.entry }
{
    match operands {
        Operands::One(Some(Operand::Number(_))) => Ok(()),
        _ => Err(AsmKind::Directive),
    }
}

fn directive_alone(directive: Directive, operands: Operands<'_>) -> Result<(), AsmKind>
    ensures { result ≡ spec.directive_alone directive operands.entry }
{
    match directive {
        Directive::Word => number_alone(operands),
        _ => Err(AsmKind::Directive),
    }
}

/// Whether a statement stands for one word by itself.
#[tactic(auto, unfolding(crate::specs::Alone::alone))]
fn alone(keyword: Keyword, text: &[u8]) -> Result<(), AsmKind>
    ensures { result ≡ spec.alone keyword text.now }
{
    match keyword {
        Keyword::Instr(_) => Ok(()),
        Keyword::Pseudo(pseudo) => pseudo_alone(pseudo, read_operands(text)),
        Keyword::Directive(directive) => directive_alone(directive, read_operands(text)),
    }
}

/// The word of a branch or jump at an address.
fn jump_word(
    op: Op,
    rd: u8,
    rs1: u8,
    rs2: u8,
    target: Expression<'_>,
    address: u32,
) -> Result<u32, AsmKind>
    ensures { result ≡ spec.jump_word op rd rs1 rs2 target.entry address }
{
    match target {
        Expression::Label(_) => Err(AsmKind::LabelUnknown),
        Expression::Number(target) => {
            let instr = aimed(op, rd, rs1, rs2, address, target)?;
            Ok(encode(&instr))
        }
    }
}

fn first_number(mut values: Expressions<'_>) -> Result<u32, AsmKind>
    ensures { result ≡ spec.first_number values.entry }
{
    match values.next_value() {
        Some(Expression::Number(number)) => Ok(number),
        _ => Err(AsmKind::Directive),
    }
}

/// The word of a statement that stands for one.
fn one_word(statement: Statement<'_>, address: u32) -> Result<u32, AsmKind>
    ensures { result ≡ spec.one_word statement.entry address }
{
    match statement {
        Statement::Instr(instr) => Ok(encode(&instr)),
        Statement::Jump {
            op,
            rd,
            rs1,
            rs2,
            target,
        } => jump_word(op, rd, rs1, rs2, target, address),
        Statement::Words(values) => first_number(values),
        _ => Err(AsmKind::Word),
    }
}

/// The word of a keyword with the text of its operands.
#[tactic(auto, unfolding(crate::specs::Alone::keyword_word))]
fn keyword_word(keyword: Keyword, text: &[u8], address: u32) -> Result<u32, AsmKind>
    ensures { result ≡ spec.keyword_word keyword text.now address }
{
    let read = both(
        alone(keyword, text),
        statement_of(keyword, Section::Data, text),
    );
    match read {
        Ok((_, statement)) => one_word(statement, address),
        Err(fault) => Err(fault),
    }
}

fn text_word(text: &[u8], address: u32) -> Result<u32, AsmKind>
    ensures { result ≡ spec.text_word text.now address }
{
    if !is_ascii(text) {
        return Err(AsmKind::Word);
    }
    let (word, rest) = cut(text, Stop::Blank);
    let keyword = keyword_of(word)?;
    keyword_word(keyword, trimmed(rest), address)
}

fn word_in(text: &[u8], address: u32) -> Result<u32, AsmKind>
    ensures { result ≡ spec.word_in text.now address }
{
    let (_, rest) = cut(text, Stop::NameEnd);
    match after_colon(rest) {
        Some(_) => Err(AsmKind::Word),
        None => text_word(text, address),
    }
}

fn has_line_feed(text: &[u8]) -> bool
    ensures { result ≡ list_any (λ byte. byte == 10) text.now }
{
    text.iter().any(|byte| *byte == b'\n')
}

/// The word that a line gives by itself at an address, a multiple of 4: of an instruction, of a
/// pseudo-instruction of one word, or of `.word` with one number. It takes no memory.
///
/// # Errors
///
/// What has no word of its own is `Word`: text with an LF, a label, a line without a statement, `la`, and
/// `li` of a number that takes two. A label as a target is `LabelUnknown`, and any directive other than
/// `.word` with one number is `Directive`, unless its operands are malformed.
///
/// No program calls it: it is public as the inverse of `line_of`, one line at a time (`laws::every_word_is_read_back`).
#[tactic(auto, unfolding(crate::specs::Alone::word_said))]
pub fn word_at(line: &str, address: u32) -> Result<u32, AsmKind>
    ensures { result ≡ spec.word_said line.now address }
{
    let text = line.as_bytes();
    if has_line_feed(text) {
        return Err(AsmKind::Word);
    }
    word_in(uncommented(text), address)
}
