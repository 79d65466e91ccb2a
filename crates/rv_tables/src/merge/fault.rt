//! Why a file of a hunt is refused.
ghost use Rattle.std.specs.Prelude.{◌≡◌};
ghost use Rattle.rv_tables.specs.merge.FileFault as spec;
ghost use Rattle.rv_tables.specs.merge.FileFaultText as text;

use crate::fault::{ReadFault as TableReadFault, TableFault, TableKind};
use rv_faults::command::CommandFault;
use rv_faults::fault::Fault;
use rv_faults::sentences;
use rv_faults::source_lines::SourceFault;
use rv_lines::fault::{LinesFault, LinesKind};
use rv_memory::flagged::{ReadFault, WriteFault};
use rv_memory::store::NoMemory;
use std::fmt;

/// What is wrong with a line of an ignore list.
#[derive(Clone, Copy)]
pub enum IgnoreKind {
    /// The line is not two sides.
    Shape,
    /// A side is a name that no symbol of the image has.
    Unknown,
}

/// The first line of an ignore list with a fault, from 1 on, and its first fault.
#[derive(Clone, Copy)]
pub struct IgnoreFault {
    pub line: u64,
    pub kind: IgnoreKind,
}

/// Why a file of a hunt is refused, or a device failed.
#[derive(Clone, Copy)]
pub enum FileFault {
    /// The file is too long, a device failed, or memory is out.
    Plain(Fault),
    /// The file is no table.
    Table(TableFault),
    /// The file is no ignore list.
    Ignore(IgnoreFault),
    /// A side of what is aimed at is a name that no symbol of the image has.
    Aim,
    /// The file is none of source lines.
    Lines(LinesFault),
}

impl FileFault {
    /// The exit status of a program that tells the fault: 1 for a refused file, 3 for a device that failed, 4 for want of
    /// memory.
    pub fn status(self) -> u8
        ensures { result ≡ text.status self }
    {
        match self {
            FileFault::Plain(fault) => fault.status(),
            FileFault::Table(_) | FileFault::Ignore(_) | FileFault::Aim | FileFault::Lines(_) => 1,
        }
    }
}

impl From<ReadFault> for FileFault {
    ghost from_gives = { λ given made. made ≡ spec.fault_of_read given };

    fn from(given: ReadFault) -> FileFault {
        FileFault::Plain(Fault::from(given))
    }
}

impl From<TableReadFault> for FileFault {
    ghost from_gives = { λ given made. made ≡ spec.fault_of_table given };

    fn from(given: TableReadFault) -> FileFault {
        match given {
            TableReadFault::Malformed(fault) => FileFault::Table(fault),
            TableReadFault::NoMemory => FileFault::Plain(Fault::NoMemory),
        }
    }
}

impl From<NoMemory> for FileFault {
    ghost from_gives = { λ _ made. made ≡ spec.no_memory };

    fn from(_: NoMemory) -> FileFault {
        FileFault::Plain(Fault::NoMemory)
    }
}

impl From<WriteFault> for FileFault {
    ghost from_gives = { λ _ made. made ≡ spec.write_failed };

    fn from(_: WriteFault) -> FileFault {
        FileFault::Plain(Fault::Write)
    }
}

impl From<SourceFault> for FileFault {
    ghost from_gives = { λ given made. made ≡ spec.fault_of_source given };

    fn from(given: SourceFault) -> FileFault {
        match given {
            SourceFault::Plain(fault) => FileFault::Plain(fault),
            SourceFault::Line(fault) => FileFault::Lines(fault),
        }
    }
}

/// The fault's text, after the file's name.
impl fmt::Display for FileFault {
    ghost output = { λ told. text.fault_output told };

    fn fmt<W: fmt::Write>(&self, f: &mut fmt::Formatter<W>) -> fmt::Result {
        match self {
            FileFault::Plain(fault) => write!(f, "{fault}"),
            FileFault::Table(fault) => {
                write!(
                    f,
                    "table line {} {}",
                    fault.line,
                    table_kind_name(fault.kind)
                )
            }
            FileFault::Ignore(fault) => {
                write!(
                    f,
                    "ignore line {} {}",
                    fault.line,
                    ignore_kind_name(fault.kind)
                )
            }
            FileFault::Aim => { write!(f, "ignore aim {}", ignore_kind_name(IgnoreKind::Unknown)) }
            FileFault::Lines(fault) => {
                write!(
                    f,
                    "lines line {} {}",
                    fault.line,
                    lines_kind_name(fault.kind)
                )
            }
        }
    }
}

fn table_kind_name(kind: TableKind) -> &'static str
    ensures { result.now ≡ text.table_kind_name kind }
{
    match kind {
        TableKind::Shape => "Shape",
        TableKind::Range => "Range",
        TableKind::Twice => "Twice",
        TableKind::End => "End",
        TableKind::Image => "Image",
        TableKind::Version => "Version",
        TableKind::Options => "Options",
        TableKind::Overlap => "Overlap",
        TableKind::Gap => "Gap",
        TableKind::NotMet => "NotMet",
    }
}

fn ignore_kind_name(kind: IgnoreKind) -> &'static str
    ensures { result.now ≡ text.ignore_kind_name kind }
{
    match kind {
        IgnoreKind::Shape => "Shape",
        IgnoreKind::Unknown => "Unknown",
    }
}

fn lines_kind_name(kind: LinesKind) -> &'static str
    ensures { result.now ≡ text.lines_kind_name kind }
{
    match kind {
        LinesKind::Shape => "Shape",
        LinesKind::Order => "Order",
    }
}

/// What is wrong, or what to do.
pub fn sentence(fault: FileFault) -> &'static str
    ensures { result.now ≡ text.sentence fault }
{
    match fault {
        FileFault::Plain(fault) => sentences::sentence(CommandFault::Plain(fault)),
        FileFault::Table(fault) => table_sentence(fault.kind),
        FileFault::Ignore(fault) => ignore_sentence(fault.kind),
        FileFault::Aim => ignore_sentence(IgnoreKind::Unknown),
        FileFault::Lines(fault) => lines_sentence(fault.kind),
    }
}

fn table_sentence(kind: TableKind) -> &'static str
    ensures { result.now ≡ text.table_sentence kind }
{
    match kind {
        TableKind::Shape => "the line is not the row of a race: is this a table of hunt?",
        TableKind::Range => "a number or an address of the row is out of range",
        TableKind::Twice => "the race has a row already: use merge to add tables",
        TableKind::End =>
            "there are not as many rows as the first line says, or no last line says what they are of: was it cut off?",
        TableKind::Image =>
            "the table is of another image than the one that is given, or than the first table",
        TableKind::Version =>
            "the table was made by another version of rvcollide than this one, or than the first table",
        TableKind::Options =>
            "the runs of the table had another seed or other options than those of the first one",
        TableKind::Overlap =>
            "the table has runs that another table has, or that come before the last of another: leave one out",
        TableKind::Gap =>
            "runs are missing before those of the table: add their table, or allow it by --gaps",
        TableKind::NotMet => "the run of the row makes no such report: was the table edited?",
    }
}

fn ignore_sentence(kind: IgnoreKind) -> &'static str
    ensures { result.now ≡ text.ignore_sentence kind }
{
    match kind {
        IgnoreKind::Shape =>
            "a line is two sides, each an address of eight hexadecimal digits, a symbol's name or *; on NAME may follow",
        IgnoreKind::Unknown => "the image has no symbol with this name",
    }
}

fn lines_sentence(kind: LinesKind) -> &'static str
    ensures { result.now ≡ text.lines_sentence kind }
{
    match kind {
        LinesKind::Shape =>
            "a line is an address of eight hexadecimal digits, and for each frame a function and FILE:LINE, with tabs between",
        LinesKind::Order =>
            "the address is not greater than that of the line before: did rvcollide-lines write the file?",
    }
}
