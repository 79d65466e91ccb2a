//! The tests of rv_hart, rv_waits, rv_orders, rv_break, rv_elf and rv_asm that no script makes, of what no contract says: that common steps are
//! made by the quick way, which addresses may be armed at one look, when waiting is seen, trials that are cut off, a file with symbols byte for byte,
//! and lines at the ends of the addresses.
//!
//! They stand in a crate of their own, so that these are not proved a second time with their tests.
#![tactic(auto)]

#[cfg(test)]
mod assembler;
#[cfg(test)]
mod assertion;
#[cfg(test)]
mod breaks;
#[cfg(test)]
mod machines;
#[cfg(test)]
mod orders;
pub mod parts;
#[cfg(test)]
mod quick;
#[cfg(test)]
mod waits;
