//! The values of `.word` and `.byte`.
ghost use Rattle.std.specs.Prelude.{◌≡◌, IsTrue, slice_get, drop};
ghost use Rattle.rv_text.specs.Pieces.{pieces_of};
ghost use Rattle.rv_asm.specs.Expressions as spec;

use crate::reading::operand::{Operand, read_operand};
use crate::reading::shapes::bits_of;
use crate::statement::Expression;
use rv_text::pieces::Pieces;
use std::marker::Model;

/// The values of a `.word` or a `.byte` that are still to be taken, from its front on. They are kept as
/// the text that they are spelled in and take no memory.
#[derive(Drop)]
pub struct Expressions<'s> {
    pieces: Pieces<'s>,
}

impl<'s> Model for Expressions<'s> {
    ghost use Rattle.std.specs.Prelude.{List, IsTrue};
    ghost use Rattle.rv_asm.specs.declared.statement.Expression.{Expression};

    ghost Value = { List Expression };

    ghost use Rattle.rv_asm.specs.Expressions.{expressions_left, are_expressions};

    ghost view = { λ e. expressions_left e.pieces };

    ghost invariant = { λ e. IsTrue (are_expressions e.pieces) };
}

/// The value that an operand stands for, where it is a name or a number in range.
pub(crate) fn expression_of<'s>(operand: Operand<'s>) -> Option<Expression<'s>>
    ensures { result ≡ spec.expression_of operand.entry }
{
    match operand {
        Operand::Name(name) => Some(Expression::Label(name)),
        Operand::Number(Some(number)) => Some(Expression::Number(bits_of(number))),
        _ => None,
    }
}

/// The value in a text.
fn expression_in(text: &[u8]) -> Option<Expression<'_>>
    ensures { result ≡ spec.expression_in text.now }
{
    let operand = read_operand(text)?;
    expression_of(operand)
}

impl<'s> Expressions<'s> {
    /// The values of a text, each of which is one.
    pub(crate) fn of(text: &'s [u8]) -> Expressions<'s>
        requires { IsTrue (spec.are_expressions (pieces_of 44 text.now)) }
        ensures { result ≡ spec.expressions_left (pieces_of 44 text.now) }
    {
        Expressions {
            pieces: Pieces::of(text, b','),
        }
    }

    /// Takes the first value. None where there is no more.
    pub fn next_value(&mut self) -> Option<Expression<'s>>
        ensures first { result ≡ slice_get self.old 0 }
        ensures rest { self.new ≡ drop 1 self.old }
    {
        let piece = self.pieces.next_piece()?;
        expression_in(piece)
    }
}
