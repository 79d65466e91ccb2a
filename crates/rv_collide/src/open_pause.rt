//! The pauses that are open.
use rv_hart::access::Access;

/// A pause that is open: its hart, its place, the slot that watches it, the access that the hart would
/// have made, and that access's bytes at that place.
#[derive(Clone, Copy)]
pub struct OpenPause {
    pub hart: u8,
    pub place: u32,
    pub slot: Option<u8>,
    pub access: Access,
    pub old: u32,
}
