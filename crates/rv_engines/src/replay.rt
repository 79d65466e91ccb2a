//! The command `replay`: the calls of a schedule are made again on an image, and what its pauses have shown
//! is written.

pub mod engine;
pub mod input;
mod report;
