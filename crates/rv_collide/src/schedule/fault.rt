//! Why a schedule's text is refused.
ghost use Rattle.std.specs.Prelude.{◌≡◌};

use thiserror::Error;

/// The first line with a fault, from 1 on, and its fault. Where the reader failed or memory was out, the
/// line is the one that was being read.
#[derive(Clone, Copy)]
pub struct ScheduleFault {
    pub line: u32,
    pub kind: ScheduleKind,
}

/// What is wrong with a line of a schedule's text, by its name.
#[derive(Clone, Copy, Debug, PartialEq, Eq, Error)]
pub enum ScheduleKind {
    /// The reader failed.
    #[error("Read")]
    Read,
    /// The first line names no format that is read.
    #[error("Header")]
    Header,
    /// The second line has not the plan's shape.
    #[error("PlanLine")]
    PlanLine,
    /// A number of the plan is out of its range.
    #[error("PlanRange")]
    PlanRange,
    /// The line is no entry and not `end`, or one of its numbers is out of its range.
    #[error("Entry")]
    Entry,
    /// There are more than `steps + 4 * arms` entries.
    #[error("TooMany")]
    TooMany,
    /// The text ends before `end` and its LF.
    #[error("NoEnd")]
    NoEnd,
    /// Something stands after `end` and its LF.
    #[error("AfterEnd")]
    AfterEnd,
    /// The line has more than 64 bytes, its LF not counted.
    #[error("TooLong")]
    TooLong,
    /// A growth was refused.
    #[error("NoMemory")]
    NoMemory,
}

impl ScheduleKind {
    /// The fault of the line of that number, from 1 on.
    pub(crate) fn at(self, line: u32) -> ScheduleFault
        ensures { result ≡ record { line = line; kind = self } }
    {
        ScheduleFault { line, kind: self }
    }
}
