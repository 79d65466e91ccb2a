//! What each hart does of a machine that is stuck.
//!
//! To the layer above, a stuck end has of each hart how it ended, or the steps of a round that it goes for ever
//! (`specs/StuckEnd.antt`), and the machine is stuck (`laws`). Two stuck ends are compared by what their harts do
//! (`specs/Acts.antt`), and that by its key (`specs/Key.antt`).
#![tactic(auto)]

pub mod acts;
pub mod laws;
pub mod stuck;

pub use acts::{Act, Polled, acts_of, key_of};
pub use stuck::{Doing, MOST_ROUND, RoundStep, StuckEnd, stuck_end};
