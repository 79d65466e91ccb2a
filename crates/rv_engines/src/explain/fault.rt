//! Why `explain` writes nothing.
ghost use Rattle.std.specs.Prelude.{◌≡◌};
ghost use Rattle.rv_engines.specs.Explains as spec;

use rv_faults::command::CommandFault;
use rv_faults::fault::Fault;
use rv_faults::source_lines::SourceFault;
use rv_memory::store::NoMemory;

/// Why `explain` writes nothing.
#[derive(Clone, Copy)]
pub enum ExplainFault<'a> {
    /// The image, the schedule, the list of names or the race is refused, or a device failed.
    Command(CommandFault<'a>),
    /// The file of source lines is refused.
    Lines(SourceFault),
}

impl<'a> From<CommandFault<'a>> for ExplainFault<'a> {
    ghost from_gives = { λ given made. made ≡ spec.of_command given };

    fn from(given: CommandFault<'a>) -> ExplainFault<'a> {
        ExplainFault::Command(given)
    }
}

impl<'a> From<SourceFault> for ExplainFault<'a> {
    ghost from_gives = { λ given made. made ≡ spec.of_lines given };

    fn from(given: SourceFault) -> ExplainFault<'a> {
        ExplainFault::Lines(given)
    }
}

impl<'a> From<NoMemory> for ExplainFault<'a> {
    ghost from_gives = { λ _ made. made ≡ spec.no_memory };

    fn from(_: NoMemory) -> ExplainFault<'a> {
        ExplainFault::Command(CommandFault::Plain(Fault::NoMemory))
    }
}

impl<'a> From<Fault> for ExplainFault<'a> {
    ghost from_gives = { λ given made. made ≡ spec.of_fault given };

    fn from(given: Fault) -> ExplainFault<'a> {
        ExplainFault::Command(CommandFault::Plain(given))
    }
}
