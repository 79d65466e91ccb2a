//! The text that a table is shown in. It is written piece by piece and takes no memory.
ghost use Rattle.std.specs.Prelude.{◌≡◌, ◌∷◌, [], ◌++◌, ◌||◌, is_err, map, OnOk};
ghost use Rattle.std.specs.Io.KnownBytes.{Appends};
ghost use Rattle.rv_collide.specs.Texts.{values_text};
ghost use Rattle.rv_report.specs.TableText as spec;
ghost use Rattle.rv_text.specs.Lines.{text_of_lines};

use crate::key::Key;
use crate::row::Row;
use indexmap::IndexMap;
use rv_collide::ending::Verdict;
use rv_memory::flagged::WriteFault;
use rv_memory::output::{Output, put_pieces};
use rv_text::decimal::Decimal;
use rv_text::hexadecimal::word_digits;

/// Writes an address, or `-` where there is none.
fn write_address<O: Output>(writer: &mut O, address: Option<u32>) -> Result<(), WriteFault>
    ensures ok { OnOk result (Appends (O.written writer.old) (O.written writer.new) (spec.address_text address)) }
    ensures failed { O.has_failed writer.new ≡ (O.has_failed writer.old || is_err result) }
{
    match address {
        Some(address) => writer.put(&word_digits(address)),
        None => writer.put(b"-"),
    }
}

/// Writes the addresses of a row, `-` for the second where it has one alone.
pub fn write_key<O: Output>(writer: &mut O, key: &Key) -> Result<(), WriteFault>
    ensures ok { OnOk result (Appends (O.written writer.old) (O.written writer.new) (spec.key_text key.now)) }
    ensures failed { O.has_failed writer.new ≡ (O.has_failed writer.old || is_err result) }
{
    put_pieces(writer, &[&word_digits(key.first), b" "])?;
    write_address(writer, key.second)
}

fn write_count<O: Output>(writer: &mut O, row: &Row) -> Result<(), WriteFault>
    ensures ok { OnOk result (Appends (O.written writer.old) (O.written writer.new) (spec.count_text row.now)) }
    ensures failed { O.has_failed writer.new ≡ (O.has_failed writer.old || is_err result) }
{
    let count = Decimal::new(row.count);
    let run = Decimal::new(u64::from(row.run));
    let place = Decimal::new(u64::from(row.ending.paused_at));
    put_pieces(
        writer,
        &[b" count ", count.as_bytes(), b" run ", run.as_bytes()],
    )?;
    put_pieces(writer, &[b" entry ", place.as_bytes(), b" "])
}

fn write_verdict<O: Output>(writer: &mut O, verdict: &Verdict) -> Result<(), WriteFault>
    ensures ok { OnOk result (Appends (O.written writer.old) (O.written writer.new) (spec.verdict_name verdict.now)) }
    ensures failed { O.has_failed writer.new ≡ (O.has_failed writer.old || is_err result) }
{
    match verdict {
        Verdict::Hit(_) => writer.put(b"hit"),
        Verdict::Changed => writer.put(b"changed"),
        Verdict::Quiet => writer.put(b"quiet"),
    }
}

/// Writes the values of a row, a blank before them.
pub fn write_values<O: Output>(writer: &mut O, old: u32, new: u32) -> Result<(), WriteFault>
    ensures ok { OnOk result (Appends (O.written writer.old) (O.written writer.new) (values_text old «new»)) }
    ensures failed { O.has_failed writer.new ≡ (O.has_failed writer.old || is_err result) }
{
    put_pieces(
        writer,
        &[b" old ", &word_digits(old), b" new ", &word_digits(new)],
    )
}

/// Writes the line of a row.
fn write_row<O: Output>(writer: &mut O, key: &Key, row: &Row) -> Result<(), WriteFault>
    ensures ok { OnOk result (Appends (O.written writer.old) (O.written writer.new)
        (spec.row_line (key.now, row.now) ++ 10 ∷ [])) }
    ensures failed { O.has_failed writer.new ≡ (O.has_failed writer.old || is_err result) }
{
    write_key(writer, key)?;
    write_count(writer, row)?;
    write_verdict(writer, &row.ending.verdict)?;
    write_values(writer, row.ending.old, row.ending.new)?;
    writer.put(b"\n")
}

/// Writes a line of each row.
pub fn write_rows<O: Output>(writer: &mut O, rows: &IndexMap<Key, Row>) -> Result<(), WriteFault>
    ensures ok { OnOk result (Appends (O.written writer.old) (O.written writer.new)
        (text_of_lines (map spec.row_line rows.now.entries))) }
    ensures failed { O.has_failed writer.new ≡ (O.has_failed writer.old || is_err result) }
{
    for (key, row) in rows.iter() {
        write_row(writer, key, row)?;
    }
    Ok(())
}

/// Writes `races N`.
pub fn write_races<O: Output>(writer: &mut O, races: u64) -> Result<(), WriteFault>
    ensures ok { OnOk result (Appends (O.written writer.old) (O.written writer.new)
        (spec.races_line races ++ 10 ∷ [])) }
    ensures failed { O.has_failed writer.new ≡ (O.has_failed writer.old || is_err result) }
{
    let races = Decimal::new(races);
    put_pieces(writer, &[b"races ", races.as_bytes(), b"\n"])
}

/// Writes `pruned named A flag B counter C`.
pub fn write_pruned<O: Output>(
    writer: &mut O,
    named: u64,
    flag: u64,
    counter: u64,
) -> Result<(), WriteFault>
    ensures ok { OnOk result (Appends (O.written writer.old) (O.written writer.new)
        (spec.pruned_line named flag counter ++ 10 ∷ [])) }
    ensures failed { O.has_failed writer.new ≡ (O.has_failed writer.old || is_err result) }
{
    let named = Decimal::new(named);
    let flag = Decimal::new(flag);
    let counter = Decimal::new(counter);
    put_pieces(
        writer,
        &[
            b"pruned named ",
            named.as_bytes(),
            b" flag ",
            flag.as_bytes(),
        ],
    )?;
    put_pieces(writer, &[b" counter ", counter.as_bytes(), b"\n"])
}
