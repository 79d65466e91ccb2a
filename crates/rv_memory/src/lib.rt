//! The guest's memory: regions with permissions, and the stores that keep their bytes. Beside them the
//! readers and writers that remember a failure, by which all input and output goes.
//!
//! To the layer above, a store is a finite map from addresses to bytes with a list of regions, as
//! `specs/Memory.antt` has it: `load` reads the map, `store` changes just its bytes, `ready` changes
//! none. How the bytes are kept is the store's own matter. A `Flagged` reader or writer tells by
//! `failed` whether its device has failed, and what is read or written whole is all of the bytes. A
//! `Buffered` writer keeps what is put into it until its device gets it, and its contracts tell the two
//! apart.
#![tactic(auto)]

pub mod buffered;
mod code;
mod copies;
mod fit;
pub mod flagged;
pub mod flat;
mod index;
pub mod laws;
pub mod output;
pub mod paged;
pub mod region;
pub mod store;
