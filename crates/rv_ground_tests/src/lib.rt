//! The tests of the crates below the machine, rv_text, rv_isa, rv_memory and rv_lines, and of rv_sample.
//!
//! They stand in a crate of their own, so that these are not proved a second time with their tests.
#![tactic(auto)]

#[cfg(test)]
mod assertion;
#[cfg(test)]
mod instructions;
#[cfg(test)]
mod lines;
#[cfg(test)]
mod memory;
pub mod parts;
#[cfg(test)]
mod sampling;
#[cfg(test)]
mod texts;
