//! The command line of `rvcollide`: which job its words ask for, and what is said of words that ask for none.
#![tactic(auto)]

pub mod arguments;
pub mod color;
pub mod command;
pub mod status;
