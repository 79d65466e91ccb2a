//! RV32I, M and A: the instruction table, and between words and instructions.
//!
//! The table is `specs/Table.antt`: one line an operation, as in the instruction listings of the RISC-V
//! Unprivileged ISA. To the layer above, `decode` and `encode` are that table.
#![tactic(auto)]

mod candidate;
pub mod codec;
pub mod form;
pub mod instr;
pub mod laws;
pub mod op;
pub mod operands;
pub mod shape;
