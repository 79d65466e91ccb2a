//! The engine of `merge`, hunt tables in, one table out; and what it shares with the engine of `hunt`: the files of
//! tables, and lists of races that are to be ignored.
//!
//! What a table's file says is `specs/merge/TableFiles.antt`, what tables are merged to `specs/merge/Merge.antt`, what an
//! ignore list says and which races it fits `specs/merge/Ignore.antt`, and which fault is told of a file
//! `specs/merge/FileFault.antt`.
ghost use Rattle.std.specs.Prelude.{◌≡◌, ◌||◌, ◌++◌, [], false, Ok, IfOk, IfErr, IfSome, OnOk, IsOkAnd, Some, None, is_err, length};
ghost use Rattle.std.specs.Io.KnownBytes.{Appends, Keeps};
ghost use Rattle.std.specs.List.{list_any};
ghost use Rattle.std.specs.Option.{option_map_or};
ghost use Rattle.rv_tables.specs.HuntText.{table_text};
ghost use Rattle.rv_tables.specs.Origin.{last_line};
ghost use Rattle.rv_memory.specs.Buffered as buffer;
ghost use Rattle.rv_memory.specs.Flagged as flag;
ghost use Rattle.rv_tables.specs.merge.FileFault.{is_read, is_write, no_memory, write_failed};
ghost use Rattle.rv_tables.specs.merge.Merge as spec;
ghost use Rattle.rv_tables.specs.internal.Adding as internal;

use crate::expected::new_of;
use crate::merge::fault::FileFault;
use crate::merge::table_file::{read_expected, read_hunt_table};
use crate::merge::whole::{GivenTable, Whole, whole_of};
use crate::origin::Origin;
use crate::row::RaceRow;
use crate::table::{HuntTable, write_table};
use rv_memory::buffered::Buffered;
use rv_memory::flagged::{Flagged, WriteFault};
use rv_memory::output::Output;
use rv_memory::store::NoMemory;
use rv_report::key::Key;
use std::alloc::Global;
use std::io::{Read, Write};

pub mod fault;
pub mod ignore;
pub mod known;
pub mod listing;
pub mod parted;
mod sought;
pub mod table_file;
pub mod whole;
mod words;

/// Why `merge` does not write its table, and which file is at fault: the number of a table, from 0 on, that of all tables
/// for the one with the races that are expected, and none for the output and for want of memory between the files and it.
#[derive(Clone, Copy)]
pub struct MergeFault {
    pub file: Option<usize>,
    pub fault: FileFault,
}

impl MergeFault {
    /// A fault of the file of that number.
    fn of_file(number: usize, fault: FileFault) -> MergeFault
        ensures { result ≡ record { file = Some number; fault = fault } }
    {
        MergeFault {
            file: Some(number),
            fault,
        }
    }
}

impl From<NoMemory> for MergeFault {
    ghost from_gives = { λ _ made. made ≡ record { file = None; fault = no_memory } };

    fn from(given: NoMemory) -> MergeFault {
        MergeFault {
            file: None,
            fault: FileFault::from(given),
        }
    }
}

impl From<WriteFault> for MergeFault {
    ghost from_gives = { λ _ made. made ≡ record { file = None; fault = write_failed } };

    fn from(given: WriteFault) -> MergeFault {
        MergeFault {
            file: None,
            fault: FileFault::from(given),
        }
    }
}

/// Reads the table of that number, and adds it.
#[tactic(auto, unfolding(crate::specs::internal::Adding::with_file))]
fn add_file<R: Read>(
    alloc: Global,
    number: usize,
    reader: &mut Flagged<R>,
    tables: &mut Vec<GivenTable>,
) -> Result<(), MergeFault>
    ensures ok { OnOk result (IfSome (R.remaining (flag.device reader.old)) (λ bytes.
        internal.with_file number tables.old.items bytes ≡ Ok tables.new.items)) }
    ensures err { IfErr result (λ fault. IfSome (R.remaining (flag.device reader.old)) (λ bytes.
        spec.IsTold (internal.with_file number tables.old.items bytes) fault)) }
    ensures reader { flag.has_failed reader.new ≡ (flag.has_failed reader.old || spec.fails_by is_read result) }
    ensures writer { spec.fails_by is_write result ≡ false }
{
    let table = match read_hunt_table(alloc, reader) {
        Ok(table) => table,
        Err(fault) => return Err(MergeFault::of_file(number, fault)),
    };
    let given = GivenTable {
        number,
        rows: table.rows,
        origin: table.origin,
    };
    match tables.push(given) {
        Ok(()) => Ok(()),
        Err(_) => Err(MergeFault::of_file(number, FileFault::from(NoMemory))),
    }
}

/// Reads the tables in their order, as far as the first that is refused.
fn given_tables<R: Read>(
    alloc: Global,
    tables: &mut [Flagged<R>],
) -> Result<Vec<GivenTable>, MergeFault>
    ensures ok { IfOk result (λ given. IfSome (spec.bytes_of R.remaining tables.old) (λ files.
        internal.with_files 0 [] files ≡ Ok given.items)) }
    ensures err { IfErr result (λ fault. IfSome (spec.bytes_of R.remaining tables.old) (λ files.
        spec.IsTold (internal.with_files 0 [] files) fault)) }
    ensures readers { list_any flag.has_failed tables.new
        ≡ (list_any flag.has_failed tables.old || spec.fails_by is_read result) }
    ensures writer { spec.fails_by is_write result ≡ false }
    ensures count { length tables.new ≡ length tables.old }
{
    let mut given = Vec::new(alloc);
    for number in 0..tables.len() {
        add_file(alloc, number, &mut tables[number], &mut given)?;
    }
    Ok(given)
}

/// Reads the races that are expected, where a file has them; the file has that number.
fn expected_file<R: Read>(
    alloc: Global,
    number: usize,
    expected: &mut Option<Flagged<R>>,
) -> Result<Option<HuntTable>, MergeFault>
    ensures ok { IfOk result (λ table. IfSome (spec.bytes_if R.remaining expected.old) (λ bytes.
        spec.expected_in number bytes ≡ Ok table)) }
    ensures err { IfErr result (λ fault. IfSome (spec.bytes_if R.remaining expected.old) (λ bytes.
        spec.IsTold (spec.expected_in number bytes) fault)) }
    ensures reader { option_map_or flag.has_failed expected.new false
        ≡ (option_map_or flag.has_failed expected.old false || spec.fails_by is_read result) }
    ensures writer { spec.fails_by is_write result ≡ false }
{
    match expected {
        None => Ok(None),
        Some(reader) => match read_expected(alloc, reader) {
            Ok(table) => Ok(Some(table)),
            Err(fault) => Err(MergeFault::of_file(number, fault)),
        },
    }
}

/// Reads all tables: what they make.
fn whole_in<R: Read>(
    alloc: Global,
    gaps: bool,
    tables: &mut [Flagged<R>],
) -> Result<Whole, MergeFault>
    ensures ok { IfOk result (λ whole. IfSome (spec.bytes_of R.remaining tables.old) (λ files.
        internal.whole_in gaps files ≡ Ok whole)) }
    ensures err { IfErr result (λ fault. IfSome (spec.bytes_of R.remaining tables.old) (λ files.
        spec.IsTold (internal.whole_in gaps files) fault)) }
    ensures readers { list_any flag.has_failed tables.new
        ≡ (list_any flag.has_failed tables.old || spec.fails_by is_read result) }
    ensures writer { spec.fails_by is_write result ≡ false }
    ensures count { length tables.new ≡ length tables.old }
{
    let given = given_tables(alloc, tables)?;
    whole_of(alloc, gaps, given)
}

/// Rows of a table.
type Rows = Vec<(Key, RaceRow)>;

/// What is written, and those of its rows whose races may be bugs and are not expected.
#[derive(Drop)]
struct Merge {
    rows: Rows,
    origin: Option<Origin>,
    unexpected: Rows,
}

/// Reads all files.
fn merge_files<R: Read>(
    alloc: Global,
    gaps: bool,
    tables: &mut [Flagged<R>],
    expected: &mut Option<Flagged<R>>,
) -> Result<Merge, MergeFault>
    ensures ok { IfOk result (λ merge. IfSome (spec.files_of R.remaining tables.old expected.old) (λ files.
        spec.merge_of gaps files ≡ Ok (record {
          whole = record { rows = merge.rows.items; origin = merge.origin };
          unexpected = merge.unexpected.items;
        }))) }
    ensures err { IfErr result (λ fault. IfSome (spec.files_of R.remaining tables.old expected.old) (λ files.
        spec.IsTold (spec.merge_of gaps files) fault)) }
    ensures readers { spec.any_failed tables.new expected.new
        ≡ (spec.any_failed tables.old expected.old || spec.fails_by is_read result) }
    ensures writer { spec.fails_by is_write result ≡ false }
{
    let whole = whole_in(alloc, gaps, tables)?;
    let expected = expected_file(alloc, tables.len(), expected)?;
    let Whole { rows, origin } = whole;
    let rows = rows.into_rows(alloc)?;
    let unexpected = new_of(alloc, &expected, &rows)?;
    Ok(Merge {
        rows,
        origin,
        unexpected,
    })
}

/// Writes the line of what a table is of, where it is known.
fn write_origin<O: Output>(writer: &mut O, origin: &Option<Origin>) -> Result<(), WriteFault>
    ensures text { OnOk result (Appends (O.written writer.old) (O.written writer.new) (last_line origin.now)) }
    ensures failed { O.has_failed writer.new ≡ (O.has_failed writer.old || is_err result) }
{
    match origin {
        None => Ok(()),
        Some(origin) => origin.write(writer),
    }
}

/// Writes the table, to the last byte.
fn publish<W: Write>(merge: &Merge, writer: &mut Buffered<W>) -> Result<(), MergeFault>
    ensures text { OnOk result (Appends (buffer.written W.contents writer.old) (buffer.sent W.contents writer.new)
        (table_text merge.now.rows.items ++ last_line merge.now.origin)) }
    ensures refused { IfErr result (λ fault. fault ≡ record { file = None; fault = write_failed }) }
    ensures writer { buffer.has_failed writer.new ≡ (buffer.has_failed writer.old || spec.fails_by is_write result) }
{
    write_table(writer, &merge.rows)?;
    write_origin(writer, &merge.origin)?;
    writer.finish()?;
    Ok(())
}

/// What is told of a merge that was written.
#[derive(Drop)]
pub struct Merged {
    /// Its rows whose races may be bugs and are not expected.
    pub unexpected: Rows,
    /// Each of the tables says what it is of, and so does theirs.
    pub is_of_one: bool,
}

/// Reads hunt tables, and the table of the races that are expected, where there is one; merges the hunt tables, those of one hunt in the
/// order of their runs, and writes what they make. `gaps` allows that runs between those of two tables are missing. Where a file
/// is refused nothing is written; where the writer fails, what was written before is not said.
pub fn run_merge<R: Read, W: Write>(
    alloc: Global,
    gaps: bool,
    tables: &mut [Flagged<R>],
    expected: &mut Option<Flagged<R>>,
    writer: &mut Buffered<W>,
) -> Result<Merged, MergeFault>
    ensures text { OnOk result (IfSome (spec.files_of R.remaining tables.old expected.old) (λ files.
        IsOkAnd (spec.merge_of gaps files) (λ merge.
        Appends (buffer.written W.contents writer.old) (buffer.sent W.contents writer.new) (spec.merge_text merge)))) }
    ensures unexpected { IfOk result (λ merged. IfSome (spec.files_of R.remaining tables.old expected.old) (λ files.
        IsOkAnd (spec.merge_of gaps files) (λ merge. merged.unexpected.items ≡ merge.unexpected))) }
    ensures one { IfOk result (λ merged. IfSome (spec.files_of R.remaining tables.old expected.old) (λ files.
        IsOkAnd (spec.merge_of gaps files) (λ merge. merged.is_of_one ≡ spec.is_of_one merge))) }
    ensures refused { IfErr result (λ fault. IfSome (spec.files_of R.remaining tables.old expected.old) (λ files.
        spec.IsTold (spec.merge_of gaps files) fault)) }
    ensures nothing { IfErr result (λ fault. is_write fault.fault ≡ false
        → Keeps (buffer.sent W.contents writer.old) (buffer.sent W.contents writer.new)) }
    ensures readers { spec.any_failed tables.new expected.new
        ≡ (spec.any_failed tables.old expected.old || spec.fails_by is_read result) }
    ensures writer { buffer.has_failed writer.new ≡ (buffer.has_failed writer.old || spec.fails_by is_write result) }
{
    let merge = merge_files(alloc, gaps, tables, expected)?;
    publish(&merge, writer)?;
    Ok(Merged {
        is_of_one: merge.origin.is_some(),
        unexpected: merge.unexpected,
    })
}
