//! The page of a hunt, or of its table: one HTML file that stands alone.
//!
//! What it states is `specs/PageFacts.antt`: which places, links and numbers it shows. Words and columns are tried on the built program.
#![tactic(auto)]

mod code;
mod elements;
mod near;
mod orders;
pub mod page;
mod races;
mod runs;
mod stuck;
mod style;
pub mod tabled;
mod terms;
