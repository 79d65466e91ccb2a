//! What a hunt, or its table, came to as JSON: one object, for other programs.
//!
//! What it has is `specs/HuntObject.antt`: which of its members are told, and in which order.
#![tactic(auto)]

mod ended;
mod given;
mod near;
pub mod object;
pub mod races;
mod schedules;
mod seen;
mod stuck;
mod sums;
mod warnings;
