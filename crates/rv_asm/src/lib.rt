//! The assembler and the listing of RV32IMA.
//!
//! To the layers above, the image that a source describes, or its first fault, is `specs/Assembled.antt`, a
//! word's line in a listing is `specs/Line.antt`, and what a line of source says is `specs/SourceLine.antt`; each
//! word's line is read back as that word.
#![tactic(auto)]

mod assembly;
mod fault;
pub mod laws;
mod listing;
mod passes;
mod reading;
mod statement;

pub use assembly::assemble;
pub use fault::AsmFault;
pub use listing::line::line_of;
pub use listing::list::{ListFault, list, listed};
pub use reading::alone::word_at;
pub use statement::AsmKind;
