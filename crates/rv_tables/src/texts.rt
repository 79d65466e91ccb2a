//! The text that a hunt table is shown in. It is written piece by piece and takes no memory.
ghost use Rattle.std.specs.Prelude.{◌≡◌, ◌∷◌, [], ◌++◌, ◌||◌, codes, is_err, map, OnOk};
ghost use Rattle.std.specs.Io.KnownBytes.{Appends};
ghost use Rattle.rv_races.specs.Classes.{class_word};
ghost use Rattle.rv_tables.specs.HuntText as spec;
ghost use Rattle.rv_text.specs.Lines.{text_of_lines};

use crate::row::RaceRow;
use rv_memory::flagged::WriteFault;
use rv_memory::output::{Output, put_pieces};
use rv_races::classes::{RaceClass, class_word};
use rv_report::key::Key;
use rv_report::texts::{write_key, write_values};
use rv_text::decimal::Decimal;

fn write_count<O: Output>(writer: &mut O, row: &RaceRow) -> Result<(), WriteFault>
    ensures ok { OnOk result (Appends (O.written writer.old) (O.written writer.new) (spec.count_text row.now)) }
    ensures failed { O.has_failed writer.new ≡ (O.has_failed writer.old || is_err result) }
{
    let count = Decimal::new(row.count);
    let run = Decimal::new(u64::from(row.run));
    let place = Decimal::new(u64::from(row.entry));
    put_pieces(
        writer,
        &[
            b" count ",
            count.as_bytes(),
            b" run ",
            run.as_bytes(),
            b" entry ",
            place.as_bytes(),
            b" ",
        ],
    )
}

fn write_verdict<O: Output>(writer: &mut O, second: Option<u32>) -> Result<(), WriteFault>
    ensures ok { OnOk result (Appends (O.written writer.old) (O.written writer.new) (spec.verdict_word second)) }
    ensures failed { O.has_failed writer.new ≡ (O.has_failed writer.old || is_err result) }
{
    match second {
        Some(_) => writer.put(b"hit"),
        None => writer.put(b"changed"),
    }
}

fn write_class<O: Output>(writer: &mut O, class: RaceClass) -> Result<(), WriteFault>
    ensures ok { OnOk result (Appends (O.written writer.old) (O.written writer.new)
        ((codes " " ++ class_word class) ++ 10 ∷ [])) }
    ensures failed { O.has_failed writer.new ≡ (O.has_failed writer.old || is_err result) }
{
    put_pieces(writer, &[b" ", class_word(class), b"\n"])
}

/// Writes the line of a row.
fn write_row<O: Output>(writer: &mut O, key: &Key, row: &RaceRow) -> Result<(), WriteFault>
    ensures ok { OnOk result (Appends (O.written writer.old) (O.written writer.new)
        (spec.row_line (key.now, row.now) ++ 10 ∷ [])) }
    ensures failed { O.has_failed writer.new ≡ (O.has_failed writer.old || is_err result) }
{
    write_key(writer, key)?;
    write_count(writer, row)?;
    write_verdict(writer, key.second)?;
    write_values(writer, row.old, row.new)?;
    write_class(writer, row.class)
}

/// Writes a line of each row.
pub(crate) fn write_rows<O: Output>(
    writer: &mut O,
    rows: &[(Key, RaceRow)],
) -> Result<(), WriteFault>
    ensures ok { OnOk result (Appends (O.written writer.old) (O.written writer.new)
        (text_of_lines (map spec.row_line rows.now))) }
    ensures failed { O.has_failed writer.new ≡ (O.has_failed writer.old || is_err result) }
{
    for row in rows {
        write_row(writer, &row.0, &row.1)?;
    }
    Ok(())
}
