//! What may stand in `.word` and in `.byte`.
ghost use Rattle.std.specs.Prelude.{◌≡◌};
ghost use Rattle.std.specs.List.{list_all};
ghost use Rattle.rv_text.specs.Pieces.{pieces_of};
ghost use Rattle.rv_asm.specs.Operand.{operand};
ghost use Rattle.rv_asm.specs.SourceLine as spec;

use crate::reading::expressions::{Expressions, expression_of};
use crate::reading::operand::{Operand, read_operand};
use crate::statement::AsmKind;
use rv_text::pieces::Pieces;

/// Whose values they are: those of `.word` are labels or numbers, and those of `.byte` are numbers from -128
/// to 255.
#[derive(Clone, Copy)]
pub enum Values {
    Words,
    Bytes,
}

/// Whether the operand is of the shape that such a value has.
fn has_shape(values: Values, operand: Option<Operand<'_>>) -> bool
    ensures { result ≡ spec.has_shape values operand.entry }
{
    match operand {
        Some(Operand::Name(_)) => matches!(values, Values::Words),
        Some(Operand::Number(_)) => true,
        _ => false,
    }
}

/// Whether the operand is in the range of such a value.
fn is_in_range(values: Values, operand: Option<Operand<'_>>) -> bool
    ensures { result ≡ spec.is_in_range values operand.entry }
{
    match (values, operand) {
        (Values::Words, Some(operand)) => expression_of(operand).is_some(),
        (Values::Bytes, Some(Operand::Number(Some(number)))) => -128 <= number && number <= 255,
        _ => false,
    }
}

fn have_shape(values: Values, text: &[u8]) -> bool
    ensures { result ≡ list_all (λ piece. spec.has_shape values (operand piece)) (pieces_of 44 text.now) }
{
    let mut pieces = Pieces::of(text, b',');
    while let Some(piece) = pieces.next_piece() {
        if !has_shape(values, read_operand(piece)) {
            return false;
        }
    }
    true
}

fn are_in_range(values: Values, text: &[u8]) -> bool
    ensures { result ≡ list_all (λ piece. spec.is_in_range values (operand piece)) (pieces_of 44 text.now) }
{
    let mut pieces = Pieces::of(text, b',');
    while let Some(piece) = pieces.next_piece() {
        if !is_in_range(values, read_operand(piece)) {
            return false;
        }
    }
    true
}

/// The values of a list, of one or more.
pub(crate) fn read_values(values: Values, text: &[u8]) -> Result<Expressions<'_>, AsmKind>
    ensures { result ≡ spec.values_of values text.now }
{
    if !have_shape(values, text) {
        return Err(AsmKind::Word);
    }
    if !are_in_range(values, text) {
        return Err(AsmKind::Range);
    }
    Ok(Expressions::of(text))
}
