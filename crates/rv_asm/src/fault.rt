//! Why a source isn't assembled.
use crate::statement::AsmKind;

/// The first fault of the first faulty line, counted from 1 on. `Empty` and `NoMemory` are told of line 0.
#[derive(Clone, Copy)]
pub struct AsmFault {
    pub line: u64,
    pub kind: AsmKind,
}
