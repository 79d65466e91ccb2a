//! What a hart is shown as.
use rv_hart::hart::Status;

/// A hart at a place: whether it runs or how it ended, the address of its next instruction, what its 32
/// registers are read as, and the address of the word that it holds a reservation of.
#[derive(Clone, Copy)]
pub struct HartView {
    pub status: Status,
    pub pc: u32,
    pub registers: [u32; 32],
    pub reservation: Option<u32>,
}
