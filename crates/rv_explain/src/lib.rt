//! Reports for people: the block of a race, told by names, instructions, values and what the harts did.
//!
//! To the layer above, `race_block` makes the `Block` of a race of a run and `blocks_asked` those of a run, which are the
//! values of `specs/BlockOf.antt`; `row_here` is what is told of an entry; `stuck_block` makes that of a schedule's end where it is
//! stuck, by `specs/Stuck.antt`; `order_of` tries both orders of a race's accesses, by `specs/Order.antt`.
//! `ordered_text`, `stuck_text` and `picture` write a block for people, which knows no file: `tests/explain` and `tests/program`
//! compare their bytes, and a picture is proved to be well-formed markup.
#![tactic(auto)]

pub use rv_races::classes;
pub use rv_symbols::{frames, symbol_table, symbols};

pub mod block;
pub mod blocks;
mod caller;
pub mod explain;
mod frame;
mod instruction;
pub mod laws;
mod lines;
mod meeting;
pub mod names;
pub mod object;
pub mod order;
pub mod picture;
pub mod pieces;
pub mod race_block;
pub mod races;
pub mod row;
mod rows;
mod sides;
mod source;
pub mod stuck;
pub mod told;
mod walk;
