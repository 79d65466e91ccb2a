//! Why `hunt` writes nothing.
ghost use Rattle.std.specs.Prelude.{◌≡◌};
ghost use Rattle.rv_hunt.specs.engine.HuntFault as spec;
ghost use Rattle.rv_hunt.specs.internal.MakeFault as made;

use rv_campaign::PoolFault;
use rv_faults::command::CommandFault;
use rv_faults::fault::Fault;
use rv_faults::source_lines::SourceFault;
use rv_memory::flagged::WriteFault;
use rv_memory::store::NoMemory;
use rv_remade::folder::FolderFault;
use rv_tables::merge::fault::FileFault;

/// Why `hunt` writes nothing, or not all.
#[derive(Clone, Copy)]
pub enum HuntFault<'a> {
    /// The image or a list of the command line is refused, the runs cannot be made, or a device failed.
    Command(CommandFault<'a>),
    /// The list of races that are to be ignored is refused.
    Ignored(FileFault),
    /// The table of races that are expected is refused.
    Expected(FileFault),
    /// What is aimed at is refused.
    Aimed(FileFault),
    /// The file of source lines is refused.
    Lines(SourceFault),
}

impl<'a> From<CommandFault<'a>> for HuntFault<'a> {
    ghost from_gives = { λ given fault. fault ≡ spec.of_command given };

    fn from(given: CommandFault<'a>) -> HuntFault<'a> {
        HuntFault::Command(given)
    }
}

impl<'a> From<WriteFault> for HuntFault<'a> {
    ghost from_gives = { λ _ fault. fault ≡ spec.write_failed };

    fn from(_: WriteFault) -> HuntFault<'a> {
        HuntFault::Command(CommandFault::Plain(Fault::Write))
    }
}

/// Why the runs of a hunt, or what is told of them, were not made.
#[derive(Clone, Copy)]
pub(crate) enum MakeFault {
    NoMemory,
    NoThread,
    /// A file could not be made.
    Write,
}

impl MakeFault {
    /// The same, as a command's fault.
    pub(crate) fn as_command<'a>(self) -> CommandFault<'a>
        ensures { result ≡ made.as_command self }
    {
        match self {
            MakeFault::NoMemory => CommandFault::Plain(Fault::NoMemory),
            MakeFault::NoThread => CommandFault::NoThread,
            MakeFault::Write => CommandFault::Plain(Fault::Write),
        }
    }
}

impl From<PoolFault> for MakeFault {
    ghost from_gives = { λ given fault. fault ≡ made.of_pool given };

    fn from(given: PoolFault) -> MakeFault {
        match given {
            PoolFault::NoMemory => MakeFault::NoMemory,
            PoolFault::NoThread => MakeFault::NoThread,
        }
    }
}

impl From<NoMemory> for MakeFault {
    ghost from_gives = { λ _ fault. fault ≡ made.no_memory };

    fn from(_: NoMemory) -> MakeFault {
        MakeFault::NoMemory
    }
}

impl From<WriteFault> for MakeFault {
    ghost from_gives = { λ _ fault. fault ≡ made.write_failed };

    fn from(_: WriteFault) -> MakeFault {
        MakeFault::Write
    }
}

impl From<FolderFault> for MakeFault {
    ghost from_gives = { λ given fault. fault ≡ made.of_folder given };

    fn from(given: FolderFault) -> MakeFault {
        match given {
            FolderFault::NoMemory => MakeFault::NoMemory,
            FolderFault::Write => MakeFault::Write,
        }
    }
}
