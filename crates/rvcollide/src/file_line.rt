//! The line of a fault of a file of a hunt: with the file, and a sentence that says what is wrong or what to do.
ghost use Rattle.std.specs.Prelude.{◌≡◌, Some};
ghost use Rattle.rvcollide.specs.Failure as spec;

use rv_faults::fault::Fault;
use rv_faults::shown::Shown;
use rv_files::folder::Saved;
use rv_files::system::SystemSaid;
use rv_tables::merge::fault::{FileFault, sentence};
use std::fmt;

/// A file or a folder, or a schedule in a folder.
#[derive(Clone, Copy)]
pub struct FilePlace<'a> {
    pub path: &'a str,
    pub schedule: Option<Saved>,
}

impl fmt::Display for FilePlace<'_> {
    ghost output = { λ place. Some (spec.place_output place) };

    fn fmt<W: fmt::Write>(&self, f: &mut fmt::Formatter<W>) -> fmt::Result {
        match self.schedule {
            Some(file) => write!(f, "{}/{file}.schedule", Shown(self.path)),
            None => write!(f, "{}", Shown(self.path)),
        }
    }
}

/// A fault with the file that is at fault, where one is, whether that was to be made and was there already, and what the system said.
#[derive(Clone, Copy)]
pub struct FileLine<'a> {
    pub file: Option<FilePlace<'a>>,
    pub stands: bool,
    pub said: Option<SystemSaid>,
    pub fault: FileFault,
}

/// A fault and its sentence.
#[derive(Drop)]
struct Said {
    stands: bool,
    said: Option<SystemSaid>,
    fault: FileFault,
}

impl fmt::Display for Said {
    ghost output = { λ said. spec.file_said_output said.stands said.said said.fault };

    fn fmt<W: fmt::Write>(&self, f: &mut fmt::Formatter<W>) -> fmt::Result {
        write!(
            f,
            "{}: {}",
            self.fault,
            sentence_of(self.stands, self.said, self.fault)
        )
    }
}

/// Whether a device has failed.
fn is_of_device(fault: FileFault) -> bool
    ensures { result ≡ spec.is_of_device fault }
{
    match fault {
        FileFault::Plain(Fault::Read | Fault::Write) => true,
        _ => false,
    }
}

/// What is wrong, or what to do.
fn sentence_of(stands: bool, said: Option<SystemSaid>, fault: FileFault) -> &'static str
    ensures { result.now ≡ spec.sentence_of stands said fault }
{
    if stands {
        return "that file is there already: name another folder";
    }
    match said {
        Some(said) if is_of_device(fault) => said.sentence(),
        _ => sentence(fault),
    }
}

/// The line, after the program's name.
impl fmt::Display for FileLine<'_> {
    ghost output = { λ line. spec.file_line_output line };

    fn fmt<W: fmt::Write>(&self, f: &mut fmt::Formatter<W>) -> fmt::Result {
        let said = Said {
            stands: self.stands,
            said: self.said,
            fault: self.fault,
        };
        match self.file {
            Some(file) => write!(f, "{file}: {said}"),
            None => write!(f, "{said}"),
        }
    }
}
