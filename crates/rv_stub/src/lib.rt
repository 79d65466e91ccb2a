//! A talk with GDB over a recorded run: packets in, their answers out, byte by byte.
//!
//! To the layer above, `specs/Talk.antt` says what is written of an input, and `specs/Answers.antt` what is answered to a
//! packet. Want of memory is an answer too, and leaves the talk as it stood.
#![tactic(auto)]

pub mod engine;
pub mod fault;
pub mod laws;
pub mod no_room;
pub mod reply;
pub mod resume;
pub mod resumption;
pub mod state;
pub mod talk;
