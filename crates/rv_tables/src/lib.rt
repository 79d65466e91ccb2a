//! The tables of hunts, as values and as files, and lists of races.
//!
//! To the layer above, a table is a function of the whole list of rows that were added to it (`specs/Rows.antt`). What is
//! written of it is the text of `specs/HuntText.antt`, and what is read is what `specs/HuntRead.antt` says. Beside the races
//! there are tables of changed reports, of near pairs and of orders.
//!
//! The engine of `merge`, which adds tables and has the lists of races that are to be ignored, is `merge.rt`, with
//! `specs/merge/`.
#![tactic(auto)]

pub mod changed;
mod entries;
pub mod expected;
pub mod fault;
pub mod format;
pub mod laws;
pub mod line;
pub mod merge;
pub mod near;
mod number;
pub mod orders;
pub mod origin;
pub mod origin_line;
pub mod reading;
pub mod row;
pub mod shown_rows;
mod strongest;
pub mod table;
mod texts;
