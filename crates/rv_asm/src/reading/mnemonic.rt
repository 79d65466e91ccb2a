//! The mnemonics of instructions.
ghost use Rattle.std.specs.Prelude.{◌≡◌, ◌++◌, ◌&&◌};
ghost use Rattle.std.specs.List.{find};
ghost use Rattle.std.specs.Str.{bytes_eq};
ghost use Rattle.rv_asm.specs.Mnemonics as spec;
ghost use Rattle.rv_isa.specs.Table.{operations};

use rv_isa::op::{OPS, Op};

/// An operation as its mnemonic names it, with the ordering bits, which the atomics alone may have.
#[derive(Clone, Copy)]
pub struct Mnemonic {
    pub op: Op,
    pub aq: bool,
    pub rl: bool,
}

/// What an atomic's mnemonic has added for its ordering bits.
pub(crate) fn ordering_suffix(aq: bool, rl: bool) -> &'static str
    ensures { result.now ≡ spec.ordering_suffix aq rl }
{
    match (aq, rl) {
        (false, false) => "",
        (true, false) => ".aq",
        (false, true) => ".rl",
        (true, true) => ".aqrl",
    }
}

/// Whether an operation may have these ordering bits: the atomics alone have any.
fn may_have(op: Op, aq: bool, rl: bool) -> bool
    ensures { result ≡ spec.may_have op aq rl }
{
    op.form().has_ordering() || !(aq || rl)
}

/// Whether the text is the operation's mnemonic with these ordering bits.
fn is_spelled(op: Op, aq: bool, rl: bool, text: &[u8]) -> bool
    ensures { result ≡ bytes_eq (spec.mnemonic_of op ++ spec.ordering_suffix aq rl) text.now }
{
    match text.strip_prefix(op.mnemonic().as_bytes()) {
        Some(suffix) => suffix == ordering_suffix(aq, rl).as_bytes(),
        None => false,
    }
}

/// Whether the text names the operation with these ordering bits.
fn is_named(op: Op, aq: bool, rl: bool, text: &[u8]) -> bool
    ensures { result ≡ (spec.may_have op aq rl && bytes_eq (spec.mnemonic_of op ++ spec.ordering_suffix aq rl) text.now) }
{
    may_have(op, aq, rl) && is_spelled(op, aq, rl, text)
}

fn op_named(aq: bool, rl: bool, text: &[u8]) -> Option<Op>
    ensures { result ≡ find (λ op. spec.may_have op aq rl && bytes_eq (spec.mnemonic_of op ++ spec.ordering_suffix aq rl) text.now) operations }
{
    OPS.iter().copied().find(|op| is_named(*op, aq, rl, text))
}

fn spelled_with(aq: bool, rl: bool, text: &[u8]) -> Option<Mnemonic>
    ensures { result ≡ spec.spelled_with aq rl text.now }
{
    let op = op_named(aq, rl, text)?;
    Some(Mnemonic { op, aq, rl })
}

/// The operation and the ordering bits that a mnemonic names.
pub(crate) fn mnemonic_named(text: &[u8]) -> Option<Mnemonic>
    ensures { result ≡ spec.mnemonic_named text.now }
{
    spelled_with(false, false, text)
        .or_else(|| spelled_with(true, false, text))
        .or_else(|| spelled_with(false, true, text))
        .or_else(|| spelled_with(true, true, text))
}

/// Whether the operation's operand is an address: it is a load or JALR.
pub(crate) fn is_indexed(op: Op) -> bool
    ensures { result ≡ spec.is_indexed op }
{
    matches!(op, Op::Lb | Op::Lh | Op::Lw | Op::Lbu | Op::Lhu | Op::Jalr)
}
