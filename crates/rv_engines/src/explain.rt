//! The command `explain`: a schedule's races, told for a person.
pub mod engine;
pub mod fault;
mod object;
pub mod opening;
pub mod options;
