//! Why a talk stops.
ghost use Rattle.std.specs.Prelude.{◌≡◌};
ghost use Rattle.rv_debug.specs.declared.fault.TalkFault.TheVariants as fault_is;

use rv_memory::flagged::WriteFault;

/// Why a talk stops before `q` and the end of its input.
#[derive(Clone, Copy)]
pub enum TalkFault {
    /// The input has more bytes than an input may have.
    TooLong,
    /// The reader failed.
    Read,
    /// The writer failed.
    Write,
}

impl From<WriteFault> for TalkFault {
    ghost from_gives = { λ _ made. made ≡ fault_is.Write };

    fn from(_: WriteFault) -> TalkFault {
        TalkFault::Write
    }
}
