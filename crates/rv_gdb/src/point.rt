//! One point: an address at which a user wants the run to stop.
use crate::fields::Range;

/// What a point stops at, in the order of the numbers 0 to 4 that GDB gives them.
#[derive(Clone, Copy)]
pub enum Kind {
    /// An instruction about to be made at the address. (GDB would put a word of its own there.)
    Software,
    /// The same. (GDB asks for a debug register.)
    Hardware,
    /// A write of one of the bytes.
    Write,
    /// A read of one of them.
    Read,
    /// Either.
    Access,
}

/// A point: what it stops at, and its bytes.
#[derive(Clone, Copy)]
pub struct Point {
    pub kind: Kind,
    pub bytes: Range,
}
