//! The locked machine: one core that a thread for each hart shares under a lock, with the draws of a seed.
//!
//! To the layer above, what `run_threads` answers is a run whose schedule is legal, whose pauses end when they
//! are due, whose addresses are armed by the draws of the seed alone, and which has ended
//! (`specs/Threaded.antt`). `watched.rt` is the value under the lock, `seats.rt` says who goes on, `worker.rt` is the
//! work of one thread, `threads.rt` the whole. What each worker recorded is compared with the schedule at the end (`specs/Own.antt`).
#![tactic(auto)]

mod own;
mod same;
mod seats;
pub mod threads;
mod watched;
mod worker;

pub use rv_drive::gate;
pub use watched::{Stray, Taken, Watched};
