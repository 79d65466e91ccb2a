//! Why a file of source lines is refused.
ghost use Rattle.std.specs.Prelude.{◌≡◌};
ghost use Rattle.rv_lines.specs.LinesFault as spec;

use rv_memory::store::NoMemory;

/// What is wrong with a line.
#[derive(Clone, Copy, Debug, PartialEq, Eq)]
pub enum LinesKind {
    /// The line is no address with frames.
    Shape,
    /// Its address is not greater than that of the line before.
    Order,
}

/// The first line with a fault, from 1 on, and its fault.
#[derive(Clone, Copy, Debug, PartialEq, Eq)]
pub struct LinesFault {
    pub line: u64,
    pub kind: LinesKind,
}

/// Why lines were not read.
#[derive(Clone, Copy, Debug, PartialEq, Eq)]
pub enum LinesRefusal {
    Line(LinesFault),
    NoMemory,
}

impl From<NoMemory> for LinesRefusal {
    ghost from_gives = { λ _ made. made ≡ spec.no_memory };

    fn from(_: NoMemory) -> LinesRefusal {
        LinesRefusal::NoMemory
    }
}
