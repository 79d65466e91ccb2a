//! Operands by what must stand at their place.
ghost use Rattle.std.specs.Prelude.{◌≡◌, ◌≤ℤ◌, IfOk};
ghost use Rattle.rv_asm.specs.Expressions.{bits_of};
ghost use Rattle.rv_asm.specs.Faults as faults;
ghost use Rattle.rv_asm.specs.SourceLine as spec;
ghost use Rattle.rv_asm.specs.Registers.{register_named};
ghost use Rattle.rv_asm.specs.declared.statement.AsmKind.TheVariants as kind;

use crate::reading::operand::Operand;
use crate::reading::order::order_set;
use crate::reading::register::register_named;
use crate::statement::{AsmKind, Expression, Name};

fn register_of(name: &Name<'_>) -> Result<u8, AsmKind>
    ensures { result ≡ spec.or_else (register_named name.now) kind.Register }
{
    register_named(name.as_bytes()).ok_or(AsmKind::Register)
}

/// A register.
pub(crate) fn register_in(operand: Option<Operand<'_>>) -> Result<u8, AsmKind>
    ensures { result ≡ spec.register_in operand.entry }
{
    match operand {
        Some(Operand::Name(name)) => register_of(&name),
        _ => Err(AsmKind::Word),
    }
}

/// A number.
pub(crate) fn number_in(operand: Option<Operand<'_>>) -> Result<i64, AsmKind>
    ensures { result ≡ spec.number_in operand.entry }
{
    match operand {
        Some(Operand::Number(number)) => number.ok_or(AsmKind::Range),
        _ => Err(AsmKind::Word),
    }
}

/// `number(register)`, where no number is 0.
pub(crate) fn address_in(operand: Option<Operand<'_>>) -> Result<(i64, u8), AsmKind>
    ensures { result ≡ spec.address_in operand.entry }
{
    match operand {
        Some(Operand::Memory { offset, base }) => {
            both(offset.ok_or(AsmKind::Range), register_of(&base))
        }
        Some(Operand::Base(base)) => both(Ok(0), register_of(&base)),
        _ => Err(AsmKind::Word),
    }
}

/// `(register)`.
pub(crate) fn base_in(operand: Option<Operand<'_>>) -> Result<u8, AsmKind>
    ensures { result ≡ spec.base_in operand.entry }
{
    match operand {
        Some(Operand::Base(base)) => register_of(&base),
        _ => Err(AsmKind::Word),
    }
}

/// A label.
pub(crate) fn label_in<'s>(operand: Option<Operand<'s>>) -> Result<Name<'s>, AsmKind>
    ensures { result ≡ spec.label_in operand.entry }
{
    match operand {
        Some(Operand::Name(name)) => Ok(name),
        _ => Err(AsmKind::Word),
    }
}

/// The low 32 bits of a number in two's complement.
pub(crate) fn bits_of(number: i64) -> u32
    ensures { result ≡ bits_of number }
{
    (number.cast_unsigned() % 0x1_0000_0000) as u32
}

/// A label or a number.
#[tactic(auto, unfolding(crate::specs::SourceLine::expression_at))]
pub(crate) fn expression_at<'s>(operand: Option<Operand<'s>>) -> Result<Expression<'s>, AsmKind>
    ensures { result ≡ spec.expression_at operand.entry }
{
    match operand {
        Some(Operand::Name(name)) => Ok(Expression::Label(name)),
        Some(Operand::Number(Some(number))) => Ok(Expression::Number(bits_of(number))),
        Some(Operand::Number(None)) => Err(AsmKind::Range),
        _ => Err(AsmKind::Word),
    }
}

/// Two readings of one line: both, or the fault that is told first.
pub(crate) fn both<A: Drop, B: Drop>(
    first: Result<A, AsmKind>,
    second: Result<B, AsmKind>,
) -> Result<(A, B), AsmKind>
    ensures { result ≡ faults.both first second }
{
    match (first, second) {
        (Ok(a), Ok(b)) => Ok((a, b)),
        (Ok(_), Err(fault)) => Err(fault),
        (Err(fault), Ok(_)) => Err(fault),
        (Err(fault), Err(other)) => {
            if fault.rank() <= other.rank() {
                Err(fault)
            } else {
                Err(other)
            }
        }
    }
}

/// A number of these.
#[tactic(auto, unfolding(crate::specs::SourceLine::within))]
pub(crate) fn within(low: i64, high: i64, number: i64) -> Result<i64, AsmKind>
    ensures value { result ≡ spec.within low high number }
    ensures low { IfOk result (λ n. low ≤ℤ n) }
    ensures high { IfOk result (λ n. n ≤ℤ high) }
{
    if low <= number && number <= high {
        Ok(number)
    } else {
        Err(AsmKind::Range)
    }
}

/// What a FENCE orders: a number, or its letters.
pub(crate) fn order_in(operand: Option<Operand<'_>>) -> Result<i64, AsmKind>
    ensures { result ≡ spec.order_in operand.entry }
{
    match operand {
        Some(Operand::Name(name)) => order_set(name.as_bytes()).ok_or(AsmKind::Word),
        Some(Operand::Number(number)) => number.ok_or(AsmKind::Range),
        _ => Err(AsmKind::Word),
    }
}
