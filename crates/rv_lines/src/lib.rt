//! Where the instructions of an image come from: files, lines, and functions that were inlined, as a file of source lines says it.
//!
//! To the layers above, `read_lines` reads such a file as `specs/SourceLines.antt` has it, or says which line has no shape or stands in
//! no order, and `SourceLines::frames_at` gives the frames of an address: those of the last line at or before it.
#![tactic(auto)]

mod checks;
pub mod fault;
pub mod frames;
pub mod lines;
