//! Why a command writes nothing: its faults, the text and the exit status of each, a sentence for each, and the file of source
//! lines, which several commands read.
//!
//! A fault's text is that of `specs/FaultText.antt` and `specs/CommandFault.antt`, its sentence that of `specs/Sentences.antt`. A
//! path or an argument in it is shown as `specs/Shown.antt` has it.
#![tactic(auto)]

pub mod command;
pub mod fault;
pub mod sentences;
pub mod shown;
pub mod source_lines;
