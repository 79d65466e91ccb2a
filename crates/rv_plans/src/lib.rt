//! Which runs a hunt makes.
//!
//! To the layer above, each run's plan is a function of its number (`specs/Plans.antt`), and whether one more is made of
//! how far the hunt has come (`specs/GoesOn.antt`). A run is made again by its plan and its number.
#![tactic(auto)]

pub mod limit;
pub mod plans;
