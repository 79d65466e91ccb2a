//! The command `words`: harts stepped over a list of instruction words.

pub mod engine;
