//! Files of tables are read.
ghost use Rattle.std.specs.Prelude.{◌≡◌, ◌≤◌, ◌||◌, false, Ok, IfOk, IfErr, IfSome, length};
ghost use Rattle.rv_memory.specs.Flagged as flag;
ghost use Rattle.rv_tables.specs.merge.FileFault.{IsTold, fails_by, is_read, is_write};
ghost use Rattle.rv_tables.specs.merge.TableFiles as spec;

use crate::merge::fault::FileFault;
use crate::origin_line::{ReadTable, read_hunt, read_rows};
use crate::table::HuntTable;
use rv_memory::flagged::{Flagged, INPUT_LIMIT, read_whole};
use std::alloc::Global;
use std::io::Read;

/// The hunt table of the bytes of a file, which are not too many, and what it is of.
#[tactic(auto, unfolding(crate::specs::merge::TableFiles::hunt_table))]
fn hunt_table_of(alloc: Global, bytes: &[u8]) -> Result<ReadTable, FileFault>
    requires { length bytes.now ≤ INPUT_LIMIT }
    ensures ok { IfOk result (λ table. spec.hunt_table bytes.now ≡ Ok table) }
    ensures err { IfErr result (IsTold (spec.hunt_table bytes.now)) }
    ensures reader { fails_by is_read result ≡ false }
    ensures writer { fails_by is_write result ≡ false }
{
    match read_hunt(alloc, bytes) {
        Ok(table) => Ok(table),
        Err(fault) => Err(FileFault::from(fault)),
    }
}

/// The rows of a table that says which races are expected: a hunt table, or one of `run`, whose rows count as kept.
pub(crate) fn expected_rows(alloc: Global, text: &[u8]) -> Result<HuntTable, FileFault>
    ensures ok { IfOk result (λ rows. spec.expected_rows text.now ≡ Ok rows) }
    ensures err { IfErr result (IsTold (spec.expected_rows text.now)) }
    ensures reader { fails_by is_read result ≡ false }
    ensures writer { fails_by is_write result ≡ false }
{
    match read_rows(alloc, text) {
        Ok(table) => Ok(table),
        Err(fault) => Err(FileFault::from(fault)),
    }
}

/// Reads a hunt table, and what it is of.
#[tactic(auto, unfolding(crate::specs::merge::TableFiles::hunt_table))]
pub fn read_hunt_table<R: Read>(
    alloc: Global,
    reader: &mut Flagged<R>,
) -> Result<ReadTable, FileFault>
    ensures ok { IfOk result (λ table. IfSome (R.remaining (flag.device reader.old)) (λ bytes.
        spec.hunt_table bytes ≡ Ok table)) }
    ensures err { IfErr result (λ fault. IfSome (R.remaining (flag.device reader.old)) (λ bytes.
        IsTold (spec.hunt_table bytes) fault)) }
    ensures reader { flag.has_failed reader.new ≡ (flag.has_failed reader.old || fails_by is_read result) }
    ensures writer { fails_by is_write result ≡ false }
{
    let bytes = read_whole(alloc, reader, INPUT_LIMIT)?;
    hunt_table_of(alloc, &bytes)
}

/// Reads a table that says which races are expected.
#[tactic(auto, unfolding(crate::specs::merge::TableFiles::expected_table))]
pub fn read_expected<R: Read>(
    alloc: Global,
    reader: &mut Flagged<R>,
) -> Result<HuntTable, FileFault>
    ensures ok { IfOk result (λ rows. IfSome (R.remaining (flag.device reader.old)) (λ bytes.
        spec.expected_table bytes ≡ Ok rows)) }
    ensures err { IfErr result (λ fault. IfSome (R.remaining (flag.device reader.old)) (λ bytes.
        IsTold (spec.expected_table bytes) fault)) }
    ensures reader { flag.has_failed reader.new ≡ (flag.has_failed reader.old || fails_by is_read result) }
    ensures writer { fails_by is_write result ≡ false }
{
    let bytes = read_whole(alloc, reader, INPUT_LIMIT)?;
    expected_rows(alloc, &bytes)
}
