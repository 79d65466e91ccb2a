//! The command `exhibit`: a report of a schedule is written as a plain list of hart steps.

pub mod engine;
