//! The runs of a hunt that are made again, for what is shown of them in full: races, what their order makes, stuck ends, and the
//! schedules that are saved.
//!
//! A race in full is found in the part of its run, made again from the image's start on (`specs/Shown.antt`); its order is that of a
//! trial made again (`specs/OrderShown.antt`). Each run is made once for all that is shown of it.
#![tactic(auto)]

pub mod beside;
pub mod early;
pub mod folder;
pub mod orders;
pub mod showing;
pub mod shown;
pub mod stuck_ends;
