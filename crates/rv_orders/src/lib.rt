//! What difference the order of two steps makes.
//!
//! Two harts are each about to make a step. In one copy of the machine the one makes its step first, in another copy the other; both
//! go on by the same words, without pauses, and are compared at their ends. To the layer above (`specs/Trial.antt`) a trial has of
//! each copy the harts that stepped, in their order, and what each hart came to by them, and says how the two ends differ.
#![tactic(auto)]

pub mod difference;
pub mod end;
pub mod orders;
mod runner;
pub mod tried;

pub use difference::Difference;
pub use end::HartEnd;
pub use orders::trial;
pub use tried::{Trial, Tried};
