//! Why `run` does not write its table.
ghost use Rattle.std.specs.Prelude.{◌≡◌};
ghost use Rattle.rv_faults.specs.CommandFault as spec;
ghost use Rattle.rv_faults.specs.declared.fault.Fault.TheVariants as fault;

use crate::fault::Fault;
use rv_campaign::{CampaignFault, NumberFault};
use rv_memory::flagged::WriteFault;
use rv_memory::store::NoMemory;
use std::alloc::AllocError;
use std::convert::Infallible;
use std::fmt;

/// Why `run`, or another command, does not write its text. A text of a list stays where the command line has it.
#[derive(Clone, Copy)]
pub enum CommandFault<'a> {
    /// A fault that any command may tell.
    Plain(Fault),
    /// The first element of the list of addresses that is not eight hexadecimal digits.
    Skip(&'a str),
    /// The first name of the list that no symbol has.
    Name(&'a str),
    /// The first number of the campaign that is refused.
    Campaign(NumberFault),
    /// A worker's thread could not be started; those that were started have ended.
    NoThread,
    /// `explain` finds no race of the number that was asked for, among as many as there are.
    NoRace(u64),
}

impl CommandFault<'_> {
    /// The exit status of a program that tells the fault.
    pub fn status(self) -> u8
        ensures { result ≡ spec.status self.entry }
    {
        match self {
            CommandFault::Plain(fault) => fault.status(),
            CommandFault::Skip(_)
            | CommandFault::Name(_)
            | CommandFault::Campaign(_)
            | CommandFault::NoThread
            | CommandFault::NoRace(_) => 1,
        }
    }
}

impl<'a> From<Fault> for CommandFault<'a> {
    ghost from_gives = { λ given made. spec.refusal made ≡ spec.Plain given };

    fn from(given: Fault) -> CommandFault<'a> {
        CommandFault::Plain(given)
    }
}

impl<'a> From<CampaignFault<Infallible>> for CommandFault<'a> {
    ghost from_gives = { λ given made. spec.refusal made ≡ spec.refusal_of_campaign given };

    fn from(given: CampaignFault<Infallible>) -> CommandFault<'a> {
        match given {
            CampaignFault::NoMemory => CommandFault::Plain(Fault::NoMemory),
            CampaignFault::NoThread => CommandFault::NoThread,
            CampaignFault::TooLarge => CommandFault::Campaign(NumberFault::TooLarge),
            CampaignFault::Runs => CommandFault::Campaign(NumberFault::Runs),
            CampaignFault::Workers => CommandFault::Campaign(NumberFault::Workers),
        }
    }
}

impl<'a> From<NoMemory> for CommandFault<'a> {
    ghost from_gives = { λ _ made. spec.refusal made ≡ spec.Plain fault.NoMemory };

    fn from(_: NoMemory) -> CommandFault<'a> {
        CommandFault::Plain(Fault::NoMemory)
    }
}

impl<'a> From<AllocError> for CommandFault<'a> {
    ghost from_gives = { λ _ made. spec.refusal made ≡ spec.Plain fault.NoMemory };

    fn from(_: AllocError) -> CommandFault<'a> {
        CommandFault::Plain(Fault::NoMemory)
    }
}

impl<'a> From<WriteFault> for CommandFault<'a> {
    ghost from_gives = { λ _ made. spec.refusal made ≡ spec.Plain fault.Write };

    fn from(_: WriteFault) -> CommandFault<'a> {
        CommandFault::Plain(Fault::Write)
    }
}

/// The fault's text, after the program's name.
impl fmt::Display for CommandFault<'_> {
    ghost output = { λ told. spec.refusal_output told };

    fn fmt<W: fmt::Write>(&self, f: &mut fmt::Formatter<W>) -> fmt::Result {
        match self {
            CommandFault::Plain(fault) => write!(f, "{fault}"),
            CommandFault::Skip(element) => write!(f, "skip {element}"),
            CommandFault::Name(name) => write!(f, "name {name}"),
            CommandFault::Campaign(fault) => { write!(f, "campaign {}", number_fault_name(*fault)) }
            CommandFault::NoThread => f.write_str("campaign NoThread"),
            CommandFault::NoRace(races) => write!(f, "explain NoRace of {races}"),
        }
    }
}

fn number_fault_name(fault: NumberFault) -> &'static str
    ensures { result.now ≡ spec.number_fault_name fault }
{
    match fault {
        NumberFault::TooLarge => "TooLarge",
        NumberFault::Runs => "Runs",
        NumberFault::Workers => "Workers",
    }
}
