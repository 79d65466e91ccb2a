//! The command `threads`: a run of an image by a thread for each hart, its endings, and its schedule.

pub mod engine;
mod running;
