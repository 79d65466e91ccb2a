//! Want of memory, whoever tells of it.
use rv_memory::flagged::WriteFault;
use rv_memory::store::NoMemory;

/// A growth was refused.
#[derive(Clone, Copy)]
pub struct NoRoom;

impl From<NoMemory> for NoRoom {
    fn from(_: NoMemory) -> NoRoom {
        NoRoom
    }
}

/// A text is gathered in memory, so that nothing else can fail.
impl From<WriteFault> for NoRoom {
    fn from(_: WriteFault) -> NoRoom {
        NoRoom
    }
}
