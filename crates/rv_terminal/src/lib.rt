//! What a terminal shows: which streams get colours, which words have one, and the line that moves while a hunt goes on.
//!
//! Colours are a writer behind the texts: what is said is the same without them.
#![tactic(auto)]

pub mod colors;
pub mod painted;
pub mod progress;
