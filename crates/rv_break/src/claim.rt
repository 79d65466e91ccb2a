use rv_hart::access::Access;

/// The most data breakpoints that there can be.
pub const MOST_SLOTS: u8 = 8;

/// The most addresses that are armed at once.
pub const ARMED_LIMIT: u32 = 64;

/// An access that a hart made at a place of a schedule.
#[derive(Clone, Copy, Debug, PartialEq, Eq)]
pub struct Seen {
    pub place: u32,
    pub hart: u8,
    pub access: Access,
}

/// A claimed data breakpoint: the hart that claimed it, the access that it watches, and the first
/// conflicting access that another hart has made since.
#[derive(Clone, Copy)]
pub struct Claim {
    pub hart: u8,
    pub access: Access,
    pub seen: Option<Seen>,
}
