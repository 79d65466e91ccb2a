//! The commands as engines over readers and writers.
//!
//! Each engine writes the text that `specs/` states of the bytes that it reads, and nothing else. What is made of
//! paths and words stands in the program. Scripts try the engines in it.
#![tactic(auto)]

pub mod asm;
pub mod built;
pub mod debug;
pub mod digest;
pub mod exhibit;
pub mod explain;
pub mod image;
pub mod list;
pub mod new_file;
pub mod replay;
pub mod run;
pub mod terms;
pub mod threads;
pub mod words;
