//! The command `debug`: a schedule is walked, place by place, by commands that are read line by line, and
//! each is answered before the next is read.

pub mod engine;
pub mod input;
