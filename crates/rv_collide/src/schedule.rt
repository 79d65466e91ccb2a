//! The stored schedule's text: a plan and its entries, line by line.

mod entry_line;
mod fault;
mod format;
pub mod laws;
mod line;
mod plan_line;
mod reading;
pub mod writing;

pub use fault::{ScheduleFault, ScheduleKind};
pub use format::Format;
pub use reading::read_schedule;
pub use writing::write_schedule;
