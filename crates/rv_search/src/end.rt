//! How harts end.
ghost use Rattle.std.specs.Prelude.{◌≡◌};
ghost use Rattle.rv_search.specs.Ways as spec;

use rv_hart::hart::Cause;

/// How a hart ended: it exited with a code, a trap stopped it at an address, or it ran when its run was over: all that ran waited,
/// and it polled, with the least address of its round, or did so where it may, or was parked; or the steps were spent.
#[derive(Clone, Copy)]
pub enum End {
    Exited(u32),
    Stopped(Cause, u32),
    Polls(u32),
    Idle,
    Parked,
    OutOfSteps,
}

/// In which way a hart ended, whatever its code, its cause or its address.
#[derive(Clone, Copy)]
pub enum Way {
    Exit,
    Trap,
    Wait,
    Spent,
}

impl End {
    /// In which way the hart ended.
    pub fn way(self) -> Way
        ensures { result ≡ spec.way self }
    {
        match self {
            End::Exited(_) => Way::Exit,
            End::Stopped(_, _) => Way::Trap,
            End::Polls(_) | End::Idle | End::Parked => Way::Wait,
            End::OutOfSteps => Way::Spent,
        }
    }
}
