//! The exit statuses, and what the help says of them.
ghost use Rattle.std.specs.Prelude.{◌≡◌};
ghost use Rattle.rv_command.specs.Status as spec;

use std::fmt;

/// How the program ends.
#[derive(Clone, Copy, PartialEq, Eq)]
pub enum Status {
    Done,
    /// An input is refused.
    Input,
    /// The command line is refused.
    Line,
    /// A file or stream can't be read or written.
    Stream,
    Memory,
    /// There is a race, a stuck end, a trap or a wrong exit code that the command line asks for.
    Found,
    /// There is no race, and a warning says that this means nothing.
    Void,
}

impl Status {
    /// The number that the system is given.
    pub fn code(self) -> u8
        ensures { result ≡ spec.code self }
    {
        match self {
            Status::Done => 0,
            Status::Input => 1,
            Status::Line => 2,
            Status::Stream => 3,
            Status::Memory => 4,
            Status::Found => 5,
            Status::Void => 6,
        }
    }

    fn sentence(self) -> &'static str {
        match self {
            Status::Done => "done",
            Status::Input => "the input is refused (see rvcollide help faults)",
            Status::Line => "the command line is refused",
            Status::Stream => "a file or stream cannot be read or written",
            Status::Memory => "there is not enough memory",
            Status::Found => "there is a finding that",
            Status::Void => "there is no race, but a warning says that this means nothing",
        }
    }
}

impl fmt::Display for Status {
    fn fmt<W: fmt::Write>(&self, f: &mut fmt::Formatter<W>) -> fmt::Result {
        write!(f, "{} {}", self.code(), self.sentence())
    }
}

/// The options that ask for `Found`, and the one that asks for `Void`, where there is one.
#[derive(Clone, Copy)]
pub struct Asks {
    pub found: &'static str,
    pub void: Option<&'static str>,
}

/// The statuses of a command, as its help says them.
#[derive(Clone, Copy)]
pub struct Statuses {
    /// What asks for those of what was found, where something does.
    pub asks: Option<Asks>,
}

impl fmt::Display for Statuses {
    fn fmt<W: fmt::Write>(&self, f: &mut fmt::Formatter<W>) -> fmt::Result {
        write!(
            f,
            "Exit status: {}; {}; {};\n{}; {}",
            Status::Done,
            Status::Input,
            Status::Line,
            Status::Stream,
            Status::Memory
        )?;
        if let Some(asks) = self.asks {
            write!(f, "; {}\n{} asks for", Status::Found, asks.found)?;
            if let Some(option) = asks.void {
                write!(f, ";\n{} ({option})", Status::Void)?;
            }
        }
        f.write_str(".")
    }
}
