ghost use Rattle.std.specs.Prelude.{◌≡◌, ◌↔◌, IsTrue};
ghost use Rattle.rv_hart.specs.Cause as spec;
ghost use Rattle.rv_hart.specs.State as state;

use crate::registers::Registers;

/// Why a hart stopped. The numbers, in this order from 0, are this project's own; what a hart does to be
/// stopped so is the RISC-V Unprivileged ISA's "exception" of the chapters RV32I, M and A.
#[derive(Clone, Copy, Debug, PartialEq, Eq)]
pub enum Cause {
    /// A taken branch or a jump to an address that is no multiple of 4.
    TargetMisaligned,
    /// The four bytes at pc do not lie in an executable region.
    FetchFault,
    /// The word at pc is no instruction.
    Illegal,
    /// EBREAK.
    Breakpoint,
    /// A load or LR at an address that is no multiple of its size.
    LoadMisaligned,
    /// A load or LR of bytes that do not lie in a readable region.
    LoadFault,
    /// A store, SC or AMO at an address that is no multiple of its size.
    StoreMisaligned,
    /// A store or SC to bytes that do not lie in a writable region, or an AMO to bytes that do not lie in
    /// one both readable and writable.
    StoreFault,
    /// An environment call that there is not.
    UnknownCall,
}

impl Cause {
    /// The cause's number, 0 to 8.
    pub fn number(self) -> u8
        ensures { result ≡ spec.number self }
    {
        self as u8
    }
}

/// Whether a hart runs, and else how it ended.
#[derive(Clone, Copy, PartialEq, Eq)]
pub enum Status {
    Running,
    Exited(u32),
    Stopped(Cause),
}

impl Status {
    /// Whether the hart runs.
    #[inline(always)]
    pub fn is_running(self) -> bool
        ensures { result ≡ state.is_running self }
    {
        match self {
            Status::Running => true,
            Status::Exited(_) | Status::Stopped(_) => false,
        }
    }
}

/// One hart: its 32 registers, the address of its next instruction, its status, and the address of the word
/// that its last LR reserved, if it still holds it.
#[derive(Clone, Copy)]
pub struct Hart {
    pub registers: Registers,
    pub pc: u32,
    pub status: Status,
    pub reservation: Option<u32>,
}

impl Hart {
    ghost use Rattle.rv_hart.specs.StepLaws.{SameButReservation};

    /// Whether the two differ at most in their reservations.
    pub fn is_same_but_reservation(&self, other: &Hart) -> bool
        ensures { IsTrue result ↔ SameButReservation self.now other.now }
    {
        self.pc == other.pc && self.status == other.status && self.registers == other.registers
    }
}
