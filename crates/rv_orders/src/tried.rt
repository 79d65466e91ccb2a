//! What is told of two orders of two steps.

use crate::difference::Difference;
use crate::end::HartEnd;
use rv_hart::machine::Machine;
use rv_memory::store::ByteStore;

/// What came of one order: the harts that stepped, the first two of which are the two, and what each hart came to. A copy is over where
/// no hart runs, or all that run wait; else it was cut off.
#[derive(Drop)]
pub struct Tried {
    pub harts: Vec<u8>,
    pub is_over: bool,
    pub ends: Vec<HartEnd>,
}

/// What came of both orders, and how that differs.
#[derive(Drop)]
pub struct Trial {
    pub first: Tried,
    pub second: Tried,
    pub difference: Difference,
}

/// A copy at its end: what is told of it, its machine, and the words of memory that were written.
#[derive(Drop)]
pub(crate) struct Ended<S: ByteStore> {
    pub tried: Tried,
    pub machine: Machine<S>,
    pub written: Vec<u32>,
}
