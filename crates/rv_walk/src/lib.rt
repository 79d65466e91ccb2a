//! Walks: runs without pauses that pass over harts that wait, and the near pairs that they see.
//!
//! To the layer above, a walk is the list of the harts that stepped (`specs/Walked.antt`): each hart that it passed over doesn't
//! run or waits (`specs/Burst.antt`), and each pair of accesses that it tells is a near pair of that list
//! (`specs/NearPair.antt`).
#![tactic(auto)]

mod accesses;
pub mod again;
pub mod code;
pub mod course;
pub mod drawn;
pub mod near_pair;
pub mod probe;
pub mod probes;
pub mod sites;
pub mod walk;
pub mod walk_laws;
