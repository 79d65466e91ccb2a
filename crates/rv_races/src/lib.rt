//! The races of a run, as people are told them: what a report counts as, the race that it is one of, its second access,
//! and the entries that are shown around it.
//!
//! To the layer above, `races_in` gives the races of the run that a core has made (`specs/Races.antt`), `class_of` what a report
//! counts as (`specs/Classes.antt`), `judged_in` by what endings are judged (`specs/Judged.antt`), `second_of` its second access (`specs/Second.antt`), and `is_shown` which entries are
//! shown (`specs/Stretches.antt`).
#![tactic(auto)]

pub mod classes;
pub mod judged;
pub mod races;
pub mod second;
pub mod stretches;
