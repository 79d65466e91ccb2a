//! The races of a stored schedule.
pub use rv_races::judged::{Judged, judged_in};
pub use rv_races::races::{Race, Report, RunRaces, races_in, reports_in, reports_of};
