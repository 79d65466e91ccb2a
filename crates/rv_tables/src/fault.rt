//! Why a table's text is refused.
ghost use Rattle.std.specs.Prelude.{◌≡◌};
ghost use Rattle.rv_tables.specs.declared.fault.ReadFault.TheVariants as faults;

use rv_memory::store::NoMemory;

/// What is wrong with a line of a table.
#[derive(Clone, Copy)]
pub enum TableKind {
    /// The line is not `races N`, or no row, or does not say what the table is of: a hit with `-`, a changed one with two addresses or of class counter or
    /// ordered is none.
    Shape,
    /// A number is outside its field, an address is no multiple of 4, the first address is over the second, or the
    /// count is 0.
    Range,
    /// The race has a row already.
    Twice,
    /// There are other rows than the first line says, or the last LF is missing, or the last line of a table that is shown.
    End,
    /// The table is of another image than the first that is merged, or than the one whose races are shown.
    Image,
    /// It was made by another version of the program.
    Version,
    /// Other runs were asked for: by the seed, or by the options.
    Options,
    /// It has runs before the last of a table whose runs begin before.
    Overlap,
    /// Runs between those of the tables before and its own are missing.
    Gap,
    /// The run of the row makes no such report.
    NotMet,
}

/// The first line with a fault, from 1 on, and its first fault.
#[derive(Clone, Copy)]
pub struct TableFault {
    pub line: u64,
    pub kind: TableKind,
}

/// Why there is no table.
#[derive(Clone, Copy)]
pub enum ReadFault {
    /// The text is none.
    Malformed(TableFault),
    /// A growth was refused.
    NoMemory,
}

impl From<NoMemory> for ReadFault {
    ghost from_gives = { λ _ fault. fault ≡ faults.NoMemory };

    fn from(_: NoMemory) -> ReadFault {
        ReadFault::NoMemory
    }
}

/// The fault of the line of that number, from 1 on.
pub(crate) fn at(kind: TableKind, line: u64) -> ReadFault
    ensures { result ≡ faults.Malformed (record { line = line; kind = kind }) }
{
    ReadFault::Malformed(TableFault { line, kind })
}
