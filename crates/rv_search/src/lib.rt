//! The search of a hunt: which runs it makes, and what they saw.
//!
//! A hunt makes the runs of `specs/Hunted.antt`, of each of which it keeps what `specs/KeptRun.antt` has, and what all of them
//! saw is the fold of that: its tables, and the sums of `specs/Tally.antt`.
#![tactic(auto)]

pub mod aim;
pub mod done;
pub mod end;
pub mod end_runs;
pub mod ended;
mod gathered;
pub mod hunt;
pub mod hunted;
pub mod kept_run;
pub mod laws;
pub mod noted;
pub mod run_walk;
pub mod stuck;
pub mod summary;
pub mod tally;
mod trials;
