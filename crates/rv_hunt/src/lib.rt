//! The engines of `hunt` and `show`: what is made of many runs, or of a table, and written.
//!
//! They are `engine.rt`, with `specs/engine/`. What a table says of its runs is read by `given.rt`. What they show is made by `rv_shown`, `rv_page` and `rv_object`,
//! from runs that `rv_remade` makes again.
#![tactic(auto)]

pub mod engine;
pub mod given;
