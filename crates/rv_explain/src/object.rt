//! What is written of races and stuck ends as JSON: the same values as their blocks show, as members of an object.
mod entries;
pub mod head;
pub mod known;
pub mod order;
pub mod places;
pub mod race;
pub mod stuck;
