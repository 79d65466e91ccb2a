//! Pruning: which endings are counted apart, since what they found is most likely meant.
//!
//! To the layer above, `classify` is the table of `specs/Class.antt`, the rules of what a user is not
//! shown as a race; they can be read alone. `ranges` gives the addresses of named symbols, for the first
//! of them.
#![tactic(auto)]

pub mod class;
pub mod code;
pub mod fences;
pub mod laws;
pub mod named_bytes;
pub mod names;
pub mod ordered;
pub mod pruning;
pub mod role;
mod rules;
mod waits;
