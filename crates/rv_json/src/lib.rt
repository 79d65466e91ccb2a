//! JSON texts, as `specs/Object.antt` has them: tokens that read back, and of each text what is told of it.
#![tactic(auto)]

pub mod fact;
pub mod object;
