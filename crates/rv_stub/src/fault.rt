//! Why `gdb` ends before its talk does, and which file is at fault.
ghost use Rattle.std.specs.Prelude.{◌≡◌, option_map};
ghost use Rattle.rv_stub.specs.GdbFault as spec;
ghost use Rattle.rv_stub.specs.declared.fault.GdbFault.TheVariants as fault_is;

use rv_debug::fault::TalkFault;
use rv_faults::command::CommandFault;
use rv_faults::fault::Fault;
use rv_faults::sentences::{FaultLine, Paths};

/// The image or the schedule is refused; or the talk over the run that they say is stopped.
#[derive(Clone, Copy)]
pub enum GdbFault {
    Files(Fault),
    Talk(TalkFault),
}

impl GdbFault {
    /// The same as any command tells it.
    pub fn plain(self) -> Fault
        ensures { result ≡ spec.plain self }
    {
        match self {
            GdbFault::Files(fault) => fault,
            GdbFault::Talk(fault) => Fault::from(fault),
        }
    }

    /// The line that tells it. A fault of the packets is one of no file.
    pub fn line(self, paths: Paths<'_>) -> FaultLine<'_>
        ensures file { option_map (λ path. path.now) result.file ≡ spec.at_fault paths.entry self }
        ensures fault { result.fault ≡ spec.told self }
    {
        let fault = CommandFault::Plain(self.plain());
        let file = match self {
            GdbFault::Files(_) => paths.at_fault(fault),
            GdbFault::Talk(_) => None,
        };
        FaultLine { file, fault }
    }
}

impl From<Fault> for GdbFault {
    ghost from_gives = { λ given made. made ≡ fault_is.Files given };

    fn from(given: Fault) -> GdbFault {
        GdbFault::Files(given)
    }
}

impl From<TalkFault> for GdbFault {
    ghost from_gives = { λ given made. made ≡ fault_is.Talk given };

    fn from(given: TalkFault) -> GdbFault {
        GdbFault::Talk(given)
    }
}
