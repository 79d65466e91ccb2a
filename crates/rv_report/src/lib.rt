//! The race table of a campaign: what its endings have shown, race by race.
//!
//! To the layer above, a table is a function of the whole list of what was added to it
//! (`specs/Races.antt`): a row for each pair of instruction addresses, in the order of first appearance,
//! and the numbers of endings that were pruned.
#![tactic(auto)]

pub mod exhibit;
pub mod exhibiting;
pub mod key;
pub mod race_table;
pub mod row;
pub mod texts;
