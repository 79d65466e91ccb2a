//! What all texts are made of: eight-digit hexadecimal words, two-digit bytes, decimal numbers, and
//! texts cut into lines and pieces.
//!
//! To the layers above, `specs/` says which bytes a number is written in, which number a text writes
//! and which lines it has; what is written here is exactly those bytes, what is read is exactly that
//! number, and a number that was written is read back. Nothing here takes memory.
#![tactic(auto)]

pub mod decimal;
pub mod hexadecimal;
pub mod laws;
pub mod lines;
pub mod numeral;
pub mod pieces;
