//! A table's text is read, as `specs/HuntRead.antt` has it.
ghost use Rattle.std.specs.Prelude.{◌≡◌, ◌+◌, ◌==◌, ◌∷◌, [], true, false, length, drop, Ok, Err, IfOk, IfErr, OnOk};
ghost use Rattle.rv_collide.specs.ScheduleRead.{is_over};
ghost use Rattle.rv_tables.specs.HuntRead as spec;
ghost use Rattle.rv_tables.specs.declared.fault.ReadFault.TheVariants as faults;
ghost use Rattle.rv_tables.specs.declared.fault.TableKind.TheVariants as kinds;

use crate::fault::{ReadFault, TableFault, TableKind, at};
use crate::format::TableFormat;
use crate::line::{ends, read_first, read_row};
use crate::table::HuntTable;
use rv_text::pieces::Pieces;
use std::alloc::Global;

/// Adds the row of a line.
#[tactic(auto, unfolding(crate::specs::HuntRead::with_line))]
fn add_line(rows: &mut HuntTable, format: TableFormat, line: &[u8]) -> Result<(), ReadFault>
    ensures ok { OnOk result (spec.with_line format rows.old line.now ≡ Ok rows.new) }
    ensures err { IfErr result (spec.IsTold (spec.with_line format rows.old line.now)) }
{
    let number = rows.len() as u64 + 2;
    let (key, row) = match read_row(format, line) {
        Ok(row) => row,
        Err(kind) => return Err(at(kind, number)),
    };
    if rows.has(&key) {
        return Err(at(TableKind::Twice, number));
    }
    rows.add(key, row)?;
    Ok(())
}

/// Whether nothing stands after the LF that these lines were cut at.
fn is_over(line: &[u8], lines: &mut Pieces<'_>) -> bool
    ensures { result ≡ is_over (line.now ∷ lines.old) }
{
    line.is_empty() && lines.next_piece().is_none()
}

/// What is told where the lines end, the last of which no LF ends.
fn cut_at(rows: &HuntTable, format: TableFormat, cut: &[u8]) -> Result<(), ReadFault>
    ensures ok { OnOk result (spec.cut_at format rows.now cut.now ≡ Ok rows.now) }
    ensures err { IfErr result (spec.IsTold (spec.cut_at format rows.now cut.now)) }
{
    match format {
        TableFormat::Hunt if cut.is_empty() => Ok(()),
        TableFormat::Hunt | TableFormat::Run => Err(at(TableKind::End, rows.len() as u64 + 2)),
    }
}

/// Reads the rows of the lines that are left.
fn read_rows(
    rows: &mut HuntTable,
    format: TableFormat,
    first: &[u8],
    lines: &mut Pieces<'_>,
) -> Result<(), ReadFault>
    ensures ok { OnOk result (spec.rows_in format rows.old (first.now ∷ lines.old) ≡ Ok rows.new) }
    ensures err { IfErr result (spec.IsTold (spec.rows_in format rows.old (first.now ∷ lines.old))) }
{
    let mut line = first;
    'lines: loop {
        let Some(next) = lines.next_piece() else {
            cut_at(rows, format, line)?;
            return Ok(());
        };
        if ends(format, line) {
            if is_over(next, lines) {
                return Ok(());
            }
            return Err(at(TableKind::End, rows.len() as u64 + 3));
        }
        add_line(rows, format, line)?;
        line = next;
    }
}

/// Takes the first line, and the one behind it, and tells how many rows the first says that there are.
fn read_front<'a>(lines: &mut Pieces<'a>) -> Result<(u64, &'a [u8]), TableKind>
    ensures said { IfOk result (λ front. spec.rows_said lines.old ≡ Ok front.0) }
    ensures rest { IfOk result (λ front. drop 1 lines.old ≡ front.1.now ∷ lines.new) }
    ensures err { IfErr result (λ kind. spec.rows_said lines.old ≡ Err kind) }
{
    let Some(first) = lines.next_piece() else {
        return Err(TableKind::End);
    };
    let Some(second) = lines.next_piece() else {
        return Err(TableKind::End);
    };
    let said = read_first(first)?;
    Ok((said, second))
}

/// Whether the rows are as many as is said.
fn counted(rows: &HuntTable, said: u64) -> Result<(), ReadFault>
    ensures count { OnOk result ((length rows.now == said) ≡ true) }
    ensures other { IfErr result (λ fault. (length rows.now == said) ≡ false) }
    ensures err { IfErr result (λ fault. fault ≡ faults.Malformed (record { line = length rows.now + 2; kind = kinds.End })) }
{
    let count = rows.len() as u64;
    if count == said {
        Ok(())
    } else {
        Err(at(TableKind::End, count + 2))
    }
}

/// Reads the rows of the table that a text is into an empty table.
fn read_into(rows: &mut HuntTable, format: TableFormat, text: &[u8]) -> Result<(), ReadFault>
    requires { rows.old ≡ [] }
    ensures ok { OnOk result (spec.read format text.now ≡ Ok rows.new) }
    ensures err { IfErr result (spec.IsTold (spec.read format text.now)) }
{
    let mut lines = Pieces::of(text, b'\n');
    let (said, second) = match read_front(&mut lines) {
        Ok(front) => front,
        Err(kind) => return Err(at(kind, 1)),
    };
    read_rows(rows, format, second, &mut lines)?;
    counted(rows, said)
}

/// Reads the table that a text is.
pub fn read_table(alloc: Global, format: TableFormat, text: &[u8]) -> Result<HuntTable, ReadFault>
    ensures ok { IfOk result (λ rows. spec.read format text.now ≡ Ok rows) }
    ensures err { IfErr result (spec.IsTold (spec.read format text.now)) }
{
    let mut rows = HuntTable::new(alloc);
    read_into(&mut rows, format, text).and(Ok(rows))
}

/// The fault that is told of a text that is neither kind of table.
fn farther(hunt: TableFault, run: TableFault) -> TableFault
    ensures { result ≡ spec.farther hunt run }
{
    if hunt.line < run.line { run } else { hunt }
}

/// Reads a hunt table, or else one of `run`.
#[tactic(auto, unfolding(crate::specs::HuntRead::read_either))]
pub fn read_either(alloc: Global, text: &[u8]) -> Result<HuntTable, ReadFault>
    ensures ok { IfOk result (λ rows. spec.read_either text.now ≡ Ok rows) }
    ensures err { IfErr result (spec.IsTold (spec.read_either text.now)) }
{
    match read_table(alloc, TableFormat::Hunt, text) {
        Ok(rows) => Ok(rows),
        Err(ReadFault::NoMemory) => Err(ReadFault::NoMemory),
        Err(ReadFault::Malformed(fault)) => match read_table(alloc, TableFormat::Run, text) {
            Ok(rows) => Ok(rows),
            Err(ReadFault::NoMemory) => Err(ReadFault::NoMemory),
            Err(ReadFault::Malformed(other)) => Err(ReadFault::Malformed(farther(fault, other))),
        },
    }
}
