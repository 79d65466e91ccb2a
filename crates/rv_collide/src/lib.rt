//! The core: a machine whose harts are paused at armed addresses, the stored schedule of what was
//! done to it, and the verdicts of its pauses.
//!
//! To the layer above, everything is told of a whole stored list of entries, by `specs/`: the machine is
//! what the list's hart steps alone make of the image, and each ending is the verdict of its pause.
#![tactic(auto)]

pub mod changed_laws;
pub mod collider;
pub mod detector;
pub mod ending;
pub mod entry;
pub mod join;
pub mod join_laws;
pub mod laws;
pub mod list_laws;
pub mod number;
mod open_pause;
pub mod pause_laws;
pub mod plan;
pub mod refused;
pub mod replay;
pub mod schedule;
pub mod texts;
pub mod told;
pub mod walk_laws;
