//! The packets of GDB's remote protocol on their way in and out: bytes that make packets, and packets that are written,
//! acknowledged and flushed.
//!
//! To the layers above, `specs/` says which packets some bytes make, and which bytes are written for a packet. What the
//! packets ask is not known here, and nothing here takes memory.
#![tactic(auto)]

pub mod framed;
pub mod framing;
pub mod sending;
