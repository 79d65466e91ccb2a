//! Which steps of a recorded run stop it, as it goes on from a place of its schedule, forwards and backwards.
//!
//! To the layer above, `specs/Going.antt` says which steps stop it, and which of them is the first or the last.
#![tactic(auto)]

pub mod aims;
pub mod backwards;
pub mod forwards;
mod meeting;
