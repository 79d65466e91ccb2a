//! What the system says of a file or a stream that fails.
ghost use Rattle.std.specs.Prelude.{◌≡◌};
ghost use Rattle.std.specs.Io.{WritesAtMost};
ghost use Rattle.std.specs.Io.KnownBytes.{Keeps, WriteAppends};
ghost use Rattle.std.specs.IoError.{error_kind};
ghost use Rattle.rv_files.specs.System as spec;

use std::io::{self, Write};

/// What the system says that a user can mend.
#[derive(Clone, Copy)]
pub enum SystemSaid {
    Missing,
    Denied,
    IsFolder,
    NoFolder,
    ReadOnly,
    Full,
    TooLarge,
    /// The other end of a pipe is closed.
    Closed,
}

impl SystemSaid {
    /// What an error says.
    pub fn of(error: &io::Error) -> Option<SystemSaid>
        ensures { result ≡ spec.said_of (error_kind error.now) }
    {
        match error.kind() {
            io::ErrorKind::NotFound => Some(SystemSaid::Missing),
            io::ErrorKind::PermissionDenied => Some(SystemSaid::Denied),
            io::ErrorKind::IsADirectory => Some(SystemSaid::IsFolder),
            io::ErrorKind::NotADirectory => Some(SystemSaid::NoFolder),
            io::ErrorKind::ReadOnlyFilesystem => Some(SystemSaid::ReadOnly),
            io::ErrorKind::StorageFull | io::ErrorKind::QuotaExceeded => Some(SystemSaid::Full),
            io::ErrorKind::FileTooLarge => Some(SystemSaid::TooLarge),
            io::ErrorKind::BrokenPipe => Some(SystemSaid::Closed),
            _ => None,
        }
    }

    /// The sentence of a fault's line.
    pub fn sentence(self) -> &'static str
        ensures { result.now ≡ spec.sentence self }
    {
        match self {
            SystemSaid::Missing => "there is no such file or folder",
            SystemSaid::Denied => "there is no permission",
            SystemSaid::IsFolder => "it is a folder, and no file",
            SystemSaid::NoFolder => "a part of the path is no folder",
            SystemSaid::ReadOnly => "the file system is read-only",
            SystemSaid::Full => "there is no space left",
            SystemSaid::TooLarge => "the system takes no larger file",
            SystemSaid::Closed => "what reads the output has ended",
        }
    }
}

/// What the system said where it did not do what it was asked.
pub fn said_in<T>(done: &io::Result<T>) -> Option<SystemSaid> {
    match done {
        Ok(_) => None,
        Err(error) => SystemSaid::of(error),
    }
}

/// A file or a stream has failed.
#[derive(Clone, Copy)]
pub struct SystemFault {
    pub said: Option<SystemSaid>,
}

impl SystemFault {
    pub fn of(error: &io::Error) -> SystemFault {
        SystemFault {
            said: SystemSaid::of(error),
        }
    }
}

/// A writer that remembers what the system said when it failed last.
#[derive(Drop)]
pub struct Stream<W> {
    device: W,
    said: Option<SystemSaid>,
}

impl<W> Stream<W> {
    pub fn new(device: W) -> Stream<W> {
        Stream { device, said: None }
    }

    pub fn said(&self) -> Option<SystemSaid> {
        self.said
    }

    fn note(&mut self, said: Option<SystemSaid>)
        ensures { self.new.device ≡ self.old.device }
    {
        if said.is_some() {
            self.said = said;
        }
    }
}

impl<W: Write> Write for Stream<W> {
    ghost contents = { λ writer. W.contents writer.device };

    fn write(&mut self, buf: &[u8]) -> io::Result<usize>
        ensures bound { WritesAtMost result buf.now }
        ensures bytes { WriteAppends (W.contents self.old.device) (W.contents self.new.device) result buf.now }
    {
        let written = self.device.write(buf);
        self.note(said_in(&written));
        written
    }

    fn flush(&mut self) -> io::Result<()>
        ensures { Keeps (W.contents self.old.device) (W.contents self.new.device) }
    {
        let flushed = self.device.flush();
        self.note(said_in(&flushed));
        flushed
    }
}
