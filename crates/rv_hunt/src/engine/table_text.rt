//! The hunt table of what a hunt saw. All of it is made before a byte is written.
ghost use Rattle.std.specs.Prelude.{◌≡◌, ◌∷◌, ◌++◌, ◌||◌, [], Some, is_err, IfOk, OnOk};
ghost use Rattle.std.specs.Io.KnownBytes.{Appends};
ghost use Rattle.rv_tables.specs.HuntText as table;
ghost use Rattle.rv_tables.specs.Origin.{last_line, stretch_on};

use rv_memory::flagged::{Flagged, WriteFault};
use rv_memory::output::Output;
use rv_memory::store::NoMemory;
use rv_report::key::Key;
use rv_search::hunt::Hunt;
use rv_search::hunted::Hunted;
use rv_shown::options::LineParts;
use rv_tables::origin::{Heading, Stretch, stretch_on, write_line};
use rv_tables::row::RaceRow;
use rv_tables::table::write_table;
use std::alloc::Global;

/// What the tables of a hunt are of, but for their runs.
pub(crate) fn heading_of<'a>(
    hunt: &Hunt<'_>,
    line: &'a LineParts<'_>,
    digits: &'a [u8],
) -> Heading<'a>
    ensures image { result.image.now ≡ digits.entry.now }
    ensures version { result.version.now ≡ line.entry.now.version.now }
    ensures seed { result.seed ≡ hunt.now.source.seed }
    ensures given { result.given.now ≡ line.entry.now.given.now }
{
    Heading {
        image: digits,
        version: line.version.as_bytes(),
        seed: u64::from(hunt.seed),
        given: line.given.as_bytes(),
    }
}

/// The runs of a hunt that were made.
pub(crate) fn stretch_of(hunt: &Hunt<'_>, saw: &Hunted) -> Stretch
    ensures { result ≡ stretch_on hunt.now.first saw.now.tally.runs }
{
    stretch_on(u64::from(hunt.first), saw.tally.runs())
}

/// Writes a hunt table of these rows, and the line of what it is of.
fn write_all<O: Output>(
    writer: &mut O,
    rows: &[(Key, RaceRow)],
    heading: &Heading<'_>,
    stretch: Stretch,
) -> Result<(), WriteFault>
    ensures ok { OnOk result (Appends (O.written writer.old) (O.written writer.new)
        (table.table_text rows.now ++ last_line (Some (record {
          image = heading.entry.now.image.now;
          version = heading.entry.now.version.now;
          seed = heading.entry.now.seed;
          stretches = stretch ∷ [];
          given = heading.entry.now.given.now;
        })))) }
    ensures failed { O.has_failed writer.new ≡ (O.has_failed writer.old || is_err result) }
{
    write_table(writer, rows)?;
    write_line(writer, heading, &[stretch])
}

/// The text of a hunt table of these rows, and the line of what it is of.
pub(crate) fn table_of(
    alloc: Global,
    rows: &[(Key, RaceRow)],
    heading: &Heading<'_>,
    stretch: Stretch,
) -> Result<Vec<u8>, NoMemory>
    ensures { IfOk result (λ text. text.items ≡ table.table_text rows.now ++ last_line (Some (record {
      image = heading.entry.now.image.now;
      version = heading.entry.now.version.now;
      seed = heading.entry.now.seed;
      stretches = stretch ∷ [];
      given = heading.entry.now.given.now;
    }))) }
{
    let mut writer = Flagged::new(Vec::new(alloc));
    match write_all(&mut writer, rows, heading, stretch) {
        Ok(()) => Ok(writer.into_inner()),
        // Only want of memory refuses a byte.
        Err(_) => Err(NoMemory),
    }
}
