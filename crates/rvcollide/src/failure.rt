ghost use Rattle.std.specs.Prelude.{◌≡◌};
ghost use Rattle.std.specs.IoError.{error_kind};
ghost use Rattle.rvcollide.specs.Failure as spec;

use crate::file_line::FileLine;
use rv_command::command::LineFault;
use rv_command::status::Status;
use rv_faults::command::CommandFault;
use rv_faults::fault::Fault;
use rv_faults::sentences::FaultLine;
use std::alloc::AllocError;
use std::{fmt, io};

/// Why the program ends with another status than 0.
#[derive(Clone, Copy)]
pub enum Failure<'a> {
    /// The command line is refused. What is wrong with it was told.
    Line,
    /// An argument is not UTF-8, and so the command line is refused.
    NotText,
    /// A fault that is told in one line.
    Told(CommandFault<'a>),
    /// One that is told with the file that is at fault and a sentence.
    Filed(FaultLine<'a>),
    /// A fault of a file of a hunt, which is told with the file and a sentence too.
    OfFile(FileLine<'a>),
    /// A hunt found what it was to look for. What it found was told.
    Found,
    /// A hunt found no race, and that means nothing. Why was told by a warning.
    Void,
}

impl Failure<'_> {
    /// Whether what is wrong was told already.
    pub fn is_told(self) -> bool
        ensures { result ≡ spec.is_told self.entry }
    {
        match self {
            Failure::Line | Failure::Found | Failure::Void => true,
            Failure::NotText | Failure::Told(_) | Failure::Filed(_) | Failure::OfFile(_) => false,
        }
    }

    /// The exit status.
    pub fn status(self) -> u8
        ensures { result ≡ spec.status_of self.entry }
    {
        match self {
            Failure::Line | Failure::NotText => Status::Line.code(),
            Failure::Told(fault) => fault.status(),
            Failure::Filed(line) => line.fault.status(),
            Failure::OfFile(line) => line.fault.status(),
            Failure::Found => Status::Found.code(),
            Failure::Void => Status::Void.code(),
        }
    }
}

/// What is still to be told of the failure, after the program's name.
impl fmt::Display for Failure<'_> {
    ghost output = { λ failure. spec.failure_output failure };

    fn fmt<W: fmt::Write>(&self, f: &mut fmt::Formatter<W>) -> fmt::Result {
        match self {
            Failure::Line | Failure::Found | Failure::Void => Ok(()),
            Failure::NotText => f.write_str("an argument is not UTF-8"),
            Failure::Told(fault) => write!(f, "{fault}"),
            Failure::Filed(line) => write!(f, "{line}"),
            Failure::OfFile(line) => write!(f, "{line}"),
        }
    }
}

impl<'a> From<Fault> for Failure<'a> {
    ghost from_gives = { λ fault made. made ≡ spec.plain fault };

    fn from(fault: Fault) -> Failure<'a> {
        Failure::Told(CommandFault::Plain(fault))
    }
}

impl<'a> From<CommandFault<'a>> for Failure<'a> {
    ghost from_gives = { λ fault made. made ≡ spec.told fault };

    fn from(fault: CommandFault<'a>) -> Failure<'a> {
        Failure::Told(fault)
    }
}

impl<'a> From<FaultLine<'a>> for Failure<'a> {
    ghost from_gives = { λ line made. made ≡ spec.filed line };

    fn from(line: FaultLine<'a>) -> Failure<'a> {
        Failure::Filed(line)
    }
}

impl<'a> From<AllocError> for Failure<'a> {
    ghost from_gives = { λ _ made. made ≡ spec.memory };

    fn from(_: AllocError) -> Failure<'a> {
        Failure::Told(CommandFault::Plain(Fault::NoMemory))
    }
}

impl<'a> From<LineFault> for Failure<'a> {
    ghost from_gives = { λ fault made. made ≡ spec.failure_of_line fault };

    fn from(fault: LineFault) -> Failure<'a> {
        match fault {
            LineFault::Line => Failure::Line,
            LineFault::NoMemory => Failure::Told(CommandFault::Plain(Fault::NoMemory)),
        }
    }
}

/// What the system answers to the program: that memory is out, that an argument is not UTF-8, or that the
/// standard output failed.
impl<'a> From<io::Error> for Failure<'a> {
    ghost from_gives = { λ error made. made ≡ spec.failure_of_kind (error_kind error) };

    fn from(error: io::Error) -> Failure<'a> {
        match error.kind() {
            io::ErrorKind::OutOfMemory => Failure::Told(CommandFault::Plain(Fault::NoMemory)),
            io::ErrorKind::InvalidData => Failure::NotText,
            _ => Failure::Told(CommandFault::Plain(Fault::Write)),
        }
    }
}
