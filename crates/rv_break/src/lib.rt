//! Breakpoints: code breakpoints at armed addresses, and data breakpoints, each of which watches one access
//! of a paused hart.
//!
//! To the layer above, the armed addresses are a finite set, and a data breakpoint holds the first
//! conflicting access that another hart made since it was claimed.
#![tactic(auto)]

mod armed;
pub mod breakpoints;
pub mod claim;
pub mod laws;
mod slots;
mod span;
