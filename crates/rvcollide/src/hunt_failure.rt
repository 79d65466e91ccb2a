//! The lines of a hunt's faults, each with the file that is at fault.
use crate::failure::Failure;
use crate::file_line::{FileLine, FilePlace};
use crate::paths::{
    expect_path, folder_path, ignore_path, json_path, lines_path, list_path, page_path,
    table_to_path,
};
use rv_command::arguments::ImagePath;
use rv_command::command::hunt::HuntLine;
use rv_faults::command::CommandFault;
use rv_faults::fault::Fault;
use rv_faults::sentences::{FaultLine, Paths};
use rv_files::folder::{Saved, ScheduleFolder};
use rv_files::system::SystemSaid;
use rv_hunt::engine::fault::HuntFault;
use rv_tables::merge::fault::FileFault;

const WRITE: FileFault = FileFault::Plain(Fault::Write);

/// A file that could not be made.
pub const WRITE_FAULT: HuntFault<'static> = HuntFault::Command(CommandFault::Plain(Fault::Write));

/// What of a folder is at fault.
#[derive(Clone, Copy)]
pub enum AtFault {
    Nothing,
    Folder,
    /// A schedule.
    Schedule(Saved),
    /// The same, which was there before the hunt.
    Standing(Saved),
}

/// Which of a hunt's files have failed, and what the system said of each file and of the streams. The others' faults name their file.
#[derive(Clone, Copy)]
pub struct Failed {
    pub image: bool,
    pub folder: AtFault,
    pub page: bool,
    pub list: bool,
    pub table: bool,
    pub json: bool,
    pub said: Said,
}

/// What the system said of each file of a hunt, and of what it writes its text to.
#[derive(Clone, Copy)]
pub struct Said {
    pub image: Option<SystemSaid>,
    pub lines: Option<SystemSaid>,
    pub ignored: Option<SystemSaid>,
    pub expected: Option<SystemSaid>,
    pub folder: Option<SystemSaid>,
    pub page: Option<SystemSaid>,
    pub list: Option<SystemSaid>,
    pub table: Option<SystemSaid>,
    pub json: Option<SystemSaid>,
    pub output: Option<SystemSaid>,
}

impl Failed {
    /// Whether a file that the hunt makes has failed.
    pub fn has_file(&self) -> bool {
        let has_text = self.page || self.list || self.table || self.json;
        has_text || !matches!(self.folder, AtFault::Nothing)
    }
}

/// What is at fault in a folder, where one is given.
pub fn at_fault_in(folder: &Option<ScheduleFolder<'_>>) -> AtFault {
    match folder {
        Some(folder) if folder.has_failed() => match folder.at_fault() {
            Some(file) if folder.stands() => AtFault::Standing(file),
            Some(file) => AtFault::Schedule(file),
            None => AtFault::Folder,
        },
        _ => AtFault::Nothing,
    }
}

/// The line of a fault of a file.
pub fn of_file<'a>(
    path: Option<&'a str>,
    said: Option<SystemSaid>,
    fault: FileFault,
) -> Failure<'a> {
    let file = match path {
        Some(path) => Some(FilePlace {
            path,
            schedule: None,
        }),
        None => None,
    };
    Failure::OfFile(FileLine {
        file,
        stands: false,
        said,
        fault,
    })
}

/// The line of a schedule in a folder, which was there before the hunt or can't be written.
fn of_schedule<'a>(
    folder: Option<&'a str>,
    schedule: Saved,
    stands: bool,
    said: Option<SystemSaid>,
) -> Failure<'a> {
    let file = match folder {
        Some(path) => Some(FilePlace {
            path,
            schedule: Some(schedule),
        }),
        None => None,
    };
    Failure::OfFile(FileLine {
        file,
        stands,
        said,
        fault: WRITE,
    })
}

/// The line of a fault of the image or of the command line.
fn of_image<'a>(image: ImagePath<'a>, failed: Failed, fault: CommandFault<'a>) -> Failure<'a> {
    let paths = Paths {
        image: image.0,
        schedule: None,
        failed: failed.image.then_some(image.0),
    };
    let said = if failed.image {
        failed.said.image
    } else {
        failed.said.output
    };
    filed(paths, said, fault)
}

/// The line of a command's fault, with the file that is at fault, and what the system said of a device that failed.
pub fn filed<'a>(
    paths: Paths<'a>,
    said: Option<SystemSaid>,
    fault: CommandFault<'a>,
) -> Failure<'a> {
    let file = paths.at_fault(fault);
    filed_line(FaultLine { file, fault }, said)
}

/// The same of a fault whose file is known.
pub fn filed_line<'a>(line: FaultLine<'a>, said: Option<SystemSaid>) -> Failure<'a> {
    match line.fault {
        CommandFault::Plain(Fault::Read) => of_file(line.file, said, FileFault::Plain(Fault::Read)),
        CommandFault::Plain(Fault::Write) => of_file(line.file, said, WRITE),
        _ => Failure::Filed(line),
    }
}

/// The line of a fault that is not one of a list's file.
fn of_command<'a>(
    image: ImagePath<'a>,
    line: &HuntLine<'a>,
    failed: Failed,
    fault: CommandFault<'a>,
) -> Failure<'a> {
    match failed.folder {
        AtFault::Folder => of_file(folder_path(line.save_to), failed.said.folder, WRITE),
        AtFault::Schedule(file) => {
            of_schedule(folder_path(line.save_to), file, false, failed.said.folder)
        }
        AtFault::Standing(file) => of_schedule(folder_path(line.save_to), file, true, None),
        AtFault::Nothing if failed.page => of_file(page_path(line.page), failed.said.page, WRITE),
        AtFault::Nothing if failed.list => of_file(list_path(line.list), failed.said.list, WRITE),
        AtFault::Nothing if failed.table => {
            of_file(table_to_path(line.table_to), failed.said.table, WRITE)
        }
        AtFault::Nothing if failed.json => of_file(json_path(line.json), failed.said.json, WRITE),
        AtFault::Nothing => of_image(image, failed, fault),
    }
}

/// The line of a fault.
pub fn failure_of<'a>(
    image: ImagePath<'a>,
    line: &HuntLine<'a>,
    failed: Failed,
    fault: HuntFault<'a>,
) -> Failure<'a> {
    match fault {
        HuntFault::Lines(fault) => of_file(
            lines_path(line.lines),
            failed.said.lines,
            FileFault::from(fault),
        ),
        HuntFault::Ignored(fault) => of_file(ignore_path(line.ignore), failed.said.ignored, fault),
        HuntFault::Expected(fault) => of_file(
            expect_path(line.expect),
            failed.said.expected,
            fault,
        ),
        HuntFault::Aimed(fault) => of_file(Some(image.0), None, fault),
        HuntFault::Command(fault) => of_command(image, line, failed, fault),
    }
}
