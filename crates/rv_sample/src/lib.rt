//! Sampling: the addresses at which a hart may be paused, and the words that pick among them.
//!
//! To the layer above, a sampler is the ascending list of an image's sites (`specs/Sites.antt`), a word picks
//! the site at its index modulo their count, and the words are those of one PCG generator, each given
//! once, in their order (`specs/Generator.antt`).
#![tactic(auto)]

mod generator;
mod sampler;
mod scan;

pub use generator::Generator;
pub use sampler::Sampler;
