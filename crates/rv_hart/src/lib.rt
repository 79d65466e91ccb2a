//! The machine: harts that execute RV32IMA over one memory, one atomic step at a time.
//!
//! To the layer above, `Machine::step` is the relation of `specs/Step.antt`, which knows no breakpoint,
//! no sampler and no pause; a refused step changes nothing.
//!
//! `act` and `effect` are the meaning's twins, one function a definition, and can make every step. `quick` is
//! there for speed alone: it makes the common steps, and its contract is that they are the same.
#![tactic(auto)]

pub mod access;
mod act;
pub mod action;
mod effect;
pub mod hart;
pub mod laws;
pub mod machine;
mod operations;
mod quick;
pub mod registers;
mod start;
pub mod stops;
pub mod texts;
pub mod write;
