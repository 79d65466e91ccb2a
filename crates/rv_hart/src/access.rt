ghost use Rattle.std.specs.Prelude.{◌≡◌, ◌↔◌, IsTrue, false};

use crate::hart::Cause;
use rv_memory::store::Need;

/// An access to memory that an instruction makes: the instruction's address, the first of `size` bytes
/// (1, 2 or 4), and whether it reads and writes them.
#[derive(Clone, Copy, Debug, PartialEq, Eq)]
pub struct Access {
    pub pc: u32,
    pub first: u32,
    pub size: u8,
    pub read: bool,
    pub write: bool,
}

/// What a step of a hart was: an instruction, with the access that it made if it made one; its exit with
/// a code; or its stop.
#[derive(Clone, Copy, Debug, PartialEq, Eq)]
pub enum Event {
    Moved(Option<Access>),
    Exited(u32),
    Stopped(Cause),
}

/// What a common step notes of an access: of the one that it made, or of a plain one that it was kept back from. Whoever has taken
/// note of the latter says that it is kept back no more.
#[derive(Clone, Copy)]
pub struct Noted {
    pub access: Access,
    pub is_kept_back: bool,
}

impl Noted {
    /// Nothing yet.
    pub fn nothing() -> Noted
        ensures access { result.access ≡ record { pc = 0; first = 0; size = 0; read = false; write = false } }
        ensures flag { result.is_kept_back ≡ false }
    {
        Noted {
            access: Access::of_no_bytes(),
            is_kept_back: false,
        }
    }
}

/// What a common step was: none was made; it made no access; or it made the access that was noted.
#[derive(Clone, Copy)]
pub enum Common {
    Untaken,
    Silent,
    Accessed,
}

/// Whether an access reads its bytes, writes them, or both.
#[derive(Clone, Copy)]
pub(crate) enum AccessKind {
    Load,
    Store,
    Both,
}

impl AccessKind {
    ghost use Rattle.rv_hart.specs.internal.AccessKind as spec;

    #[inline(always)]
    pub(crate) fn reads(self) -> bool
        ensures { result ≡ spec.does_read self }
    {
        match self {
            AccessKind::Load | AccessKind::Both => true,
            AccessKind::Store => false,
        }
    }

    #[inline(always)]
    pub(crate) fn writes(self) -> bool
        ensures { result ≡ spec.does_write self }
    {
        match self {
            AccessKind::Store | AccessKind::Both => true,
            AccessKind::Load => false,
        }
    }

    /// What its bytes are needed for.
    #[inline(always)]
    pub(crate) fn need(self) -> Need
        ensures { result ≡ spec.need_of self }
    {
        match self {
            AccessKind::Load => Need::Read,
            AccessKind::Store => Need::Write,
            AccessKind::Both => Need::ReadWrite,
        }
    }
}

impl Access {
    ghost use Rattle.rv_hart.specs.Conflict.{conflicts, Conflict};

    /// An access of no bytes: a place to note one in.
    pub fn of_no_bytes() -> Access
        ensures { result ≡ record { pc = 0; first = 0; size = 0; read = false; write = false } }
    {
        Access {
            pc: 0,
            first: 0,
            size: 0,
            read: false,
            write: false,
        }
    }

    /// Whether the two accesses conflict: some address is a byte of both, and at least one of them writes.
    /// (This project's own definition; accesses of LR, SC and AMO count as others do. An access of no bytes
    /// conflicts with nothing.)
    pub fn conflicts(&self, other: &Access) -> bool
        ensures value { result ≡ conflicts self.now other.now }
        ensures meaning { IsTrue result ↔ Conflict self.now other.now }
    {
        let end = u64::from(self.first) + u64::from(self.size);
        let other_end = u64::from(other.first) + u64::from(other.size);
        let meet = u64::from(self.first.max(other.first)) < end.min(other_end);
        meet && (self.write || other.write)
    }
}
