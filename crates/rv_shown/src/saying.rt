//! What a hunt says at its end. Each text is made whole, since nothing of it is written before all of it is there.
pub mod index;
pub mod lines;
pub mod order;
pub mod orders;
pub mod stuck;
pub mod unexpected;
pub mod warnings;
