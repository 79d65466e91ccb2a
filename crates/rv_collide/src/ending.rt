//! The endings of pauses.
use rv_break::claim::Seen;
use rv_hart::access::Access;

/// What a pause has shown: the first conflicting access of another hart, where a data breakpoint watched
/// and there was one; else that the bytes have changed; else nothing.
#[derive(Clone, Copy, Debug, PartialEq, Eq)]
pub enum Verdict {
    Hit(Seen),
    Changed,
    Quiet,
}

/// A pause that has ended: its hart, the places of its two entries, the access that the hart would have
/// made at the first of them, the data breakpoint that watched it, its verdict, and the access's bytes at
/// both places as little-endian numbers.
#[derive(Clone, Copy, Debug, PartialEq, Eq)]
pub struct Ending {
    pub hart: u8,
    pub paused_at: u32,
    pub resumed_at: u32,
    pub access: Access,
    pub slot: Option<u8>,
    pub verdict: Verdict,
    pub old: u32,
    pub new: u32,
}
