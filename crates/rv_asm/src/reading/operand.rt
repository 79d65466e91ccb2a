//! The operands of a statement, by their shapes.
ghost use Rattle.std.specs.Prelude.{◌≡◌, option_map, slice_get, drop};
ghost use Rattle.rv_asm.specs.Operand as spec;

use crate::reading::number::read_number_of;
use crate::reading::text::{Stop, cut, trimmed};
use crate::statement::Name;
use rv_text::pieces::Pieces;

/// An operand's shape: `name`, `number`, `number(name)` or `(name)`. A number is None where it is below
/// -2^31 or above 2^32 - 1.
#[derive(Drop)]
pub enum Operand<'s> {
    Name(Name<'s>),
    Number(Option<i64>),
    Memory { offset: Option<i64>, base: Name<'s> },
    Base(Name<'s>),
}

/// The operands of a statement. One of no shape is None.
#[derive(Drop)]
pub enum Operands<'s> {
    Empty,
    One(Option<Operand<'s>>),
    Two(Option<Operand<'s>>, Option<Operand<'s>>),
    Three(Option<Operand<'s>>, Option<Operand<'s>>, Option<Operand<'s>>),
    More,
}

fn name_or_number(text: &[u8]) -> Option<Operand<'_>>
    ensures { result ≡ spec.name_or_number text.now }
{
    match Name::new(text) {
        Some(name) => Some(Operand::Name(name)),
        None => {
            let number = read_number_of(text)?;
            Some(Operand::Number(number))
        }
    }
}

/// Whether the text is a byte with nothing but blanks after it.
fn is_close(text: &[u8]) -> bool
    ensures { result ≡ spec.is_close text.now }
{
    match text {
        [] => false,
        [_, rest @ ..] => trimmed(rest).is_empty(),
    }
}

/// The name in `name)`.
fn closed_name(text: &[u8]) -> Option<Name<'_>>
    ensures { result ≡ spec.closed_name text.now }
{
    let (name, close) = cut(text, Stop::Close);
    if is_close(close) {
        Name::new(name)
    } else {
        None
    }
}

/// A base with an offset before it, or none.
fn at_base<'s>(offset: &'s [u8], base: Name<'s>) -> Option<Operand<'s>>
    ensures { result ≡ spec.at_base offset.now base.entry }
{
    if offset.is_empty() {
        return Some(Operand::Base(base));
    }
    let offset = read_number_of(offset)?;
    Some(Operand::Memory { offset, base })
}

/// A token with nothing or a parenthesis after it.
fn with_token<'s>(token: &'s [u8], rest: &'s [u8]) -> Option<Operand<'s>>
    ensures { result ≡ spec.with_token token.now rest.now }
{
    match rest {
        [] => name_or_number(token),
        [b'(', inner @ ..] => at_base(token, closed_name(inner)?),
        _ => None,
    }
}

/// The operand in a text that blanks may stand before and after.
pub(crate) fn read_operand(text: &[u8]) -> Option<Operand<'_>>
    ensures { result ≡ spec.operand text.now }
{
    let (token, rest) = cut(trimmed(text), Stop::TokenEnd);
    with_token(token, trimmed(rest))
}

/// The operand in the next piece, if there is one.
fn next_operand<'s>(pieces: &mut Pieces<'s>) -> Option<Option<Operand<'s>>>
    ensures first { result ≡ option_map spec.operand (slice_get pieces.old 0) }
    ensures rest { pieces.new ≡ drop 1 pieces.old }
{
    let piece = pieces.next_piece()?;
    Some(read_operand(piece))
}

/// The operands in a text, with a comma between two of them.
pub(crate) fn read_operands(text: &[u8]) -> Operands<'_>
    ensures { result ≡ spec.operands_of text.now }
{
    if text.is_empty() {
        return Operands::Empty;
    }
    let mut pieces = Pieces::of(text, b',');
    let Some(first) = next_operand(&mut pieces) else {
        return Operands::More;
    };
    let Some(second) = next_operand(&mut pieces) else {
        return Operands::One(first);
    };
    let Some(third) = next_operand(&mut pieces) else {
        return Operands::Two(first, second);
    };
    match pieces.next_piece() {
        None => Operands::Three(first, second, third),
        Some(_) => Operands::More,
    }
}
