//! The bytes of a statement. What needs memory answers in two parts: want of memory, and within it the
//! bytes or the statement's fault.
ghost use Rattle.std.specs.Prelude.{◌≡◌, IfOk, replicate};
ghost use Rattle.rv_asm.specs.Bytes as spec;
ghost use Rattle.rv_asm.specs.internal.Listed.{listed};

use crate::passes::labels::Labels;
use crate::reading::expressions::Expressions;
use crate::reading::instruction::{aimed, load_pair};
use crate::statement::{AsmKind, Expression, Name, Statement};
use rv_isa::codec::encode;
use rv_isa::instr::Instr;
use rv_isa::op::Op;
use rv_memory::store::NoMemory;
use std::alloc::Global;

/// The bytes, or the fault that stands in their place.
pub type Bytes = Result<Vec<u8>, AsmKind>;

/// The address of a label.
#[tactic(auto, unfolding(crate::specs::Bytes::address_named))]
fn address_named(labels: &Labels, name: &Name) -> Result<u32, AsmKind>
    ensures { result ≡ spec.address_named labels.now name.now }
{
    match labels.spot_of(name.as_bytes()) {
        Some(spot) => Ok(spot.address),
        None => Err(AsmKind::LabelUnknown),
    }
}

/// What an expression stands for.
fn value_of(labels: &Labels, expression: &Expression) -> Result<u32, AsmKind>
    ensures { result ≡ spec.value_of labels.now expression.now }
{
    match expression {
        Expression::Label(name) => address_named(labels, name),
        Expression::Number(number) => Ok(*number),
    }
}

fn instr_bytes(alloc: Global, instr: &Instr) -> Result<Vec<u8>, NoMemory>
    ensures { IfOk result (λ bytes. bytes.items ≡ spec.instr_bytes instr.now) }
{
    Ok(Vec::from_slice(alloc, &encode(instr).to_le_bytes())?)
}

fn pair_bytes(alloc: Global, first: &Instr, second: &Instr) -> Result<Vec<u8>, NoMemory>
    ensures { IfOk result (λ bytes. bytes.items ≡ spec.pair_bytes (first.now, second.now)) }
{
    let mut bytes = instr_bytes(alloc, first)?;
    bytes.extend_from_slice(&encode(second).to_le_bytes())?;
    Ok(bytes)
}

/// The values of `.word`, four bytes each, the least significant first.
fn words(alloc: Global, labels: &Labels, values: Expressions) -> Result<Bytes, NoMemory>
    ensures { IfOk result (λ bytes. listed bytes ≡ spec.values_bytes spec.word_bytes labels.now values.entry) }
{
    let mut values = values;
    let mut bytes = Vec::new(alloc);
    while let Some(value) = values.next_value() {
        match value_of(labels, &value) {
            Ok(word) => bytes.extend_from_slice(&word.to_le_bytes())?,
            Err(kind) => return Ok(Err(kind)),
        }
    }
    Ok(Ok(bytes))
}

/// The values of `.byte`, the low eight bits of each.
fn low_bytes(alloc: Global, labels: &Labels, values: Expressions) -> Result<Bytes, NoMemory>
    ensures { IfOk result (λ bytes. listed bytes ≡ spec.values_bytes spec.low_byte labels.now values.entry) }
{
    let mut values = values;
    let mut bytes = Vec::new(alloc);
    while let Some(value) = values.next_value() {
        match value_of(labels, &value) {
            Ok(word) => bytes.push((word % 256) as u8)?,
            Err(kind) => return Ok(Err(kind)),
        }
    }
    Ok(Ok(bytes))
}

fn zeros(alloc: Global, count: u32) -> Result<Vec<u8>, NoMemory>
    ensures { IfOk result (λ bytes. bytes.items ≡ replicate count 0) }
{
    Ok(vec![in alloc; 0; count as usize]?)
}

/// A branch or a jump at an address, its target still to be looked up.
fn jump(
    alloc: Global,
    labels: &Labels,
    address: u32,
    op: Op,
    rd: u8,
    rs1: u8,
    rs2: u8,
    target: &Expression,
) -> Result<Bytes, NoMemory>
    ensures { IfOk result (λ bytes. listed bytes ≡ spec.jump_bytes labels.now address op rd rs1 rs2 target.now) }
{
    let to = match value_of(labels, target) {
        Ok(to) => to,
        Err(kind) => return Ok(Err(kind)),
    };
    match aimed(op, rd, rs1, rs2, address, to) {
        Ok(instr) => Ok(Ok(instr_bytes(alloc, &instr)?)),
        Err(kind) => Ok(Err(kind)),
    }
}

/// The two instructions of `la`.
#[tactic(auto, unfolding(crate::specs::Bytes::la_bytes))]
fn la(alloc: Global, labels: &Labels, rd: u8, name: &Name) -> Result<Bytes, NoMemory>
    ensures { IfOk result (λ bytes. listed bytes ≡ spec.la_bytes labels.now rd name.now) }
{
    let to = match address_named(labels, name) {
        Ok(to) => to,
        Err(kind) => return Ok(Err(kind)),
    };
    match load_pair(rd, to) {
        Ok((first, second)) => Ok(Ok(pair_bytes(alloc, &first, &second)?)),
        Err(kind) => Ok(Err(kind)),
    }
}

/// The bytes of a statement at an address.
#[tactic(auto, unfolding(crate::specs::Bytes::statement_bytes))]
fn statement_bytes(
    alloc: Global,
    labels: &Labels,
    address: u32,
    statement: Statement,
) -> Result<Bytes, NoMemory>
    ensures { IfOk result (λ bytes. listed bytes ≡ spec.statement_bytes labels.now address statement.entry) }
{
    match statement {
        Statement::Instr(instr) => Ok(Ok(instr_bytes(alloc, &instr)?)),
        Statement::Pair(first, second) => Ok(Ok(pair_bytes(alloc, &first, &second)?)),
        Statement::Jump {
            op,
            rd,
            rs1,
            rs2,
            target,
        } => jump(alloc, labels, address, op, rd, rs1, rs2, &target),
        Statement::La { rd, label } => la(alloc, labels, rd, &label),
        Statement::Words(values) => words(alloc, labels, values),
        Statement::Bytes(values) => low_bytes(alloc, labels, values),
        Statement::Zero(count) => Ok(Ok(zeros(alloc, count)?)),
        Statement::Section(_) | Statement::Global => Ok(Ok(Vec::new(alloc))),
    }
}

/// The bytes of a line's statement, if it has one.
pub fn bytes_of(
    alloc: Global,
    labels: &Labels,
    address: u32,
    statement: Option<Statement>,
) -> Result<Bytes, NoMemory>
    ensures { IfOk result (λ bytes. listed bytes ≡ spec.bytes_of labels.now address statement.entry) }
{
    match statement {
        Some(statement) => statement_bytes(alloc, labels, address, statement),
        None => Ok(Ok(Vec::new(alloc))),
    }
}
