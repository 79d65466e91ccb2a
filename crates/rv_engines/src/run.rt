//! The command `run`: a campaign of seeded runs of an image, its race table, and the schedule of one run.

pub mod engine;
mod hunting;
pub mod lists;
pub mod options;
mod runs;
pub mod saving;
mod table;
