//! Drivers: what decides which call of the core comes next, and what its draws arm.
//!
//! To the layer above, a driver is a core alone. Its able harts, its pause that is due and its draws are
//! told of the stored list of entries (`specs/Able.antt`, `specs/Draws.antt`), a seeded run is the one list that these
//! and the words drive (`specs/Drawn.antt`), and `driver_laws` says what follows. A gate stands before a hart's
//! turn.
#![tactic(auto)]

mod ahead;
pub mod driver;
pub mod driver_laws;
pub mod gate;
