//! Hunts as people and programs see them: what is asked for, and what came of it as text, page and JSON.
//!
//! What the page states is `specs/PageFacts.antt`, and what the JSON has `specs/HuntObject.antt`. The values of what is shown in full, `shown.rt`, are
//! made by the engines above. Words and columns are tried on the built program.
#![tactic(auto)]

pub mod code_seen;
pub mod found;
pub mod laws;
mod onward;
pub mod options;
pub mod outcome;
pub mod saying;
pub mod shown;
pub mod texts;
