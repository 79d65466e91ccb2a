//! The tests of rv_collide, rv_campaign, rv_locked and rv_prune that no script makes, of what no contract says: how large an entry is, runs
//! and campaigns by threads under gates, and the rules of a flag and of a counter just met and just missed.
//!
//! They stand in a crate of their own, so that these are not proved a second time with their tests.
#![tactic(auto)]

#[cfg(test)]
mod assertion;
#[cfg(test)]
mod campaigns;
#[cfg(test)]
mod entry;
pub mod parts;
#[cfg(test)]
mod prune;
