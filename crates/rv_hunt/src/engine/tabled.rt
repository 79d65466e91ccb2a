//! The table that `show` reads: of its image, by its version, and with a last line.
ghost use Rattle.std.specs.Prelude.{◌≡◌, ◌||◌, false, Ok, Err, IfOk, IfErr, IfSome, None};
ghost use Rattle.rv_memory.specs.Flagged as flag;
ghost use Rattle.rv_tables.specs.merge.FileFault.{IsTold, fails_by, is_read, is_write};
ghost use Rattle.rv_hunt.specs.engine.TableShown as spec;
ghost use Rattle.rv_hunt.specs.internal.Remaking as internal;

use crate::engine::show::ShowFault;
use rv_memory::flagged::Flagged;
use rv_tables::fault::{TableFault, TableKind};
use rv_tables::merge::fault::FileFault;
use rv_tables::merge::table_file::read_hunt_table;
use rv_tables::origin::Origin;
use rv_tables::origin_line::ReadTable;
use rv_tables::table::HuntTable;
use std::alloc::Global;
use std::io::Read;

/// The rows of a table, and what they are of.
#[derive(Drop)]
pub struct ShownTable {
    pub rows: HuntTable,
    pub origin: Origin,
}

/// A fault of the last line of a table of so many rows.
fn last_fault(rows: usize, kind: TableKind) -> FileFault
    ensures { result ≡ spec.last_fault rows kind }
{
    let line = (rows as u64).saturating_add(2);
    FileFault::Table(TableFault { line, kind })
}

/// The fault of a last line that says of no runs how they are made.
pub(crate) fn shape_fault(table: &ShownTable) -> ShowFault
    ensures { result ≡ internal.unsaid table.now }
{
    ShowFault::Table(last_fault(table.rows.len(), TableKind::Shape))
}

/// The table, if it says that it is of an image with these digits and by this version.
fn shown_of(image: &[u8], version: &[u8], table: ReadTable) -> Result<ShownTable, FileFault>
    ensures ok { IfOk result (λ shown. spec.shown_of image.now version.now table ≡ Ok shown) }
    ensures err { IfErr result (λ fault. spec.shown_of image.now version.now table ≡ Err fault) }
{
    let ReadTable { rows, origin } = table;
    let Some(origin) = origin else {
        return Err(last_fault(rows.len(), TableKind::End));
    };
    match origin.other_than(image, version) {
        Some(kind) => Err(last_fault(rows.len(), kind)),
        None => Ok(ShownTable { rows, origin }),
    }
}

/// Reads a table that is of an image with these digits, and by this version.
#[tactic(auto, unfolding(crate::specs::engine::TableShown::table_in))]
pub(crate) fn read_shown<R: Read>(
    alloc: Global,
    image: &[u8],
    version: &[u8],
    reader: &mut Flagged<R>,
) -> Result<ShownTable, FileFault>
    ensures ok { IfOk result (λ shown. IfSome (R.remaining (flag.device reader.old)) (λ bytes.
        spec.table_in image.now version.now bytes ≡ Ok shown)) }
    ensures err { IfErr result (λ fault. IfSome (R.remaining (flag.device reader.old)) (λ bytes.
        IsTold (spec.table_in image.now version.now bytes) fault)) }
    ensures reader { flag.has_failed reader.new ≡ (flag.has_failed reader.old || fails_by is_read result) }
    ensures writer { fails_by is_write result ≡ false }
{
    match read_hunt_table(alloc, reader) {
        Ok(table) => shown_of(image, version, table),
        Err(fault) => Err(fault),
    }
}
