//! What an address is told by: a symbol of the image, and the lines of its sources.
//!
//! To the layer above, `symbol_of` of a `SymbolTable`, which looks it up in tables, gives the symbol of `specs/Symbols.antt`.
//! A symbol with a size that an address is told by holds it (`laws`). A table also has the source lines that it is given.
#![tactic(auto)]

pub use rv_lines::frames;

pub mod escaped;
pub mod laws;
mod steps;
pub mod symbol_table;
pub mod symbols;
