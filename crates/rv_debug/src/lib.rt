//! The debugger: a stored schedule that can be visited at any place, forwards and backwards.
//!
//! To the layer above, a `Session` at a place shows the state that the entries before that place lead to
//! (`specs/Placed.antt`), whatever commands brought it there; a fault leaves the place.
#![tactic(auto)]

mod answer;
mod checkpoints;
pub mod command;
pub mod fault;
mod finding;
pub mod hart_view;
pub mod laws;
mod lines;
mod listing;
mod schedule;
pub mod session;
mod shown;
pub mod talk;
pub mod word;
