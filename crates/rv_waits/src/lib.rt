//! Which harts wait, and when a machine is stuck.
//!
//! To the layer above, a hart waits where, stepped alone, it comes back to its registers and pc and changes nothing on its
//! way (`specs/Round.antt`): a fact of one state. A machine is stuck where each hart that runs waits
//! (`specs/Stuck.antt`), and then nothing ever changes, whoever steps.
#![tactic(auto)]

pub mod laws;
mod quiet;
pub mod round;
pub mod touched;
pub mod turn;
pub mod watch;
