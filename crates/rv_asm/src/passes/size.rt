//! How many bytes a statement takes.
ghost use Rattle.std.specs.Prelude.{◌≡◌, ◌*◌, nat_le, length, if◌then◌else◌, Some, None};
ghost use Rattle.rv_asm.specs.Size as spec;

use crate::reading::expressions::Expressions;
use crate::statement::{Section, Statement};

fn within(size: u32, left: u32) -> Option<u32>
    ensures { result ≡ (if nat_le size left then Some size else None) }
{
    if size <= left { Some(size) } else { None }
}

/// How many values there are, where they are no more than `limit`.
#[tactic(auto, using(crate::proofs::SizeLemmas::one_fewer))]
fn count_within(values: Expressions, limit: u32) -> Option<u32>
    ensures { result ≡ (if nat_le (length values.entry) limit then Some (length values.entry) else None) }
{
    let mut values = values;
    let mut count: u32 = 0;
    while let Some(value) = values.next_value() {
        let _ = value;
        if count == limit {
            return None;
        }
        count += 1;
    }
    Some(count)
}

/// How many bytes the words have, where they have no more than `left`.
fn words_within(values: Expressions, left: u32) -> Option<u32>
    ensures { result ≡ (if nat_le (4 * length values.entry) left then Some (4 * length values.entry) else None) }
{
    let count = count_within(values, left / 4)?;
    Some(4 * count)
}

/// How many bytes the statement takes, where it takes no more than `left`.
#[tactic(auto, unfolding(crate::specs::Size::size_of))]
pub fn size_within(statement: Statement, left: u32) -> Option<u32>
    ensures { result ≡ (if nat_le (spec.size_of statement.entry) left then Some (spec.size_of statement.entry) else None) }
{
    match statement {
        Statement::Instr(_) | Statement::Jump { .. } => within(4, left),
        Statement::Pair(_, _) | Statement::La { .. } => within(8, left),
        Statement::Section(_) | Statement::Global => within(0, left),
        Statement::Words(values) => words_within(values, left),
        Statement::Bytes(values) => count_within(values, left),
        Statement::Zero(count) => within(count, left),
    }
}

/// The section that the source is in after the statement.
#[tactic(auto, unfolding(crate::specs::Size::section_after))]
pub fn section_after(statement: &Statement, section: Section) -> Section
    ensures { result ≡ spec.section_after statement.now section }
{
    match statement {
        Statement::Section(next) => *next,
        _ => section,
    }
}
