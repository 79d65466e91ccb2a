//! GDB's remote protocol over a stored schedule: packets, what they ask, and what is answered of a state.
//!
//! To the layer above, `specs/` says which packets some bytes make, what each of them asks, and the answers that need no
//! more than the state and what is chosen.
#![tactic(auto)]

pub mod action;
pub mod chosen;
mod decoded;
pub mod features;
pub mod fields;
mod hexadecimal;
pub mod monitor;
pub mod packet;
pub mod point;
pub mod points;
pub mod replies;
pub mod sheet;
pub mod shown;
pub mod stop;
