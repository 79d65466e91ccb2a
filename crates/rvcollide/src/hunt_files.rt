//! The files of a line of `hunt` or `show`: those that it reads, and those that it makes beside its text.
use crate::hunt_failure::{Failed, Said, at_fault_in};
use crate::paths::{expect_path, ignore_path, json_path, lines_path, list_path, page_path};
use rv_command::arguments::{FolderPath, ImagePath};
use rv_command::command::hunt::HuntLine;
use rv_files::files::InputFile;
use rv_files::folder::ScheduleFolder;
use rv_files::kept_file::{KeptFile, has_failed, said_by};
use rv_files::system::SystemSaid;
use rv_hunt::engine::inputs::Inputs;
use rv_hunt::engine::outputs::Outputs;
use rv_memory::flagged::Flagged;

/// Whether the file of the table has failed, and what the system said of it and of the standard output.
#[derive(Clone, Copy)]
pub struct Beside {
    pub has_failed: bool,
    pub table: Option<SystemSaid>,
    pub output: Option<SystemSaid>,
}

/// The files that a line reads. Each is opened when it is first read.
pub fn inputs_of<'a>(
    rt: &'a HostRuntime,
    image: ImagePath<'a>,
    line: &HuntLine<'a>,
) -> Inputs<InputFile<'a, HostRuntime>> {
    Inputs {
        image: Flagged::new(InputFile::new(rt, image.0)),
        lines: file_if(rt, lines_path(line.lines)),
        ignored: file_if(rt, ignore_path(line.ignore)),
        expected: file_if(rt, expect_path(line.expect)),
    }
}

/// Those that it makes.
pub fn outputs_of<'a>(
    rt: &'a HostRuntime,
    line: &HuntLine<'a>,
) -> Outputs<ScheduleFolder<'a>, KeptFile<'a>> {
    Outputs {
        folder: folder_if(rt, line.save_to),
        page: made_if(rt, page_path(line.page)),
        list: made_if(rt, list_path(line.list)),
        json: made_if(rt, json_path(line.json)),
    }
}

/// Which of them have failed, and what the system said of each.
pub fn failed_of(
    inputs: Inputs<InputFile<'_, HostRuntime>>,
    outputs: Outputs<ScheduleFolder<'_>, KeptFile<'_>>,
    beside: Beside,
) -> Failed {
    let Inputs {
        image,
        lines,
        ignored,
        expected,
    } = inputs;
    let Outputs {
        folder,
        page,
        list,
        json,
    } = outputs;
    Failed {
        image: image.failed(),
        folder: at_fault_in(&folder),
        page: has_failed(&page),
        list: has_failed(&list),
        table: beside.has_failed,
        json: has_failed(&json),
        said: Said {
            image: image.into_inner().said(),
            lines: said_of(lines),
            ignored: said_of(ignored),
            expected: said_of(expected),
            folder: folder_said(&folder),
            page: said_by(&page),
            list: said_by(&list),
            table: beside.table,
            json: said_by(&json),
            output: beside.output,
        },
    }
}

/// The file of a path, where one is given. It is opened when it is first read.
pub fn file_if<'a>(
    rt: &'a HostRuntime,
    path: Option<&'a str>,
) -> Option<Flagged<InputFile<'a, HostRuntime>>> {
    let path = path?;
    Some(Flagged::new(InputFile::new(rt, path)))
}

/// The folder of a path, where one is given.
fn folder_if<'a>(rt: &'a HostRuntime, path: Option<FolderPath<'a>>) -> Option<ScheduleFolder<'a>> {
    let path = path?;
    Some(ScheduleFolder::new(rt, path.0))
}

/// The file that is made at a path, where one is given.
fn made_if<'a>(rt: &'a HostRuntime, path: Option<&'a str>) -> Option<KeptFile<'a>> {
    let path = path?;
    Some(KeptFile::new(rt, path))
}

/// What the system said of a file, where one is given.
pub fn said_of(file: Option<Flagged<InputFile<'_, HostRuntime>>>) -> Option<SystemSaid> {
    let file = file?;
    file.into_inner().said()
}

fn folder_said(folder: &Option<ScheduleFolder<'_>>) -> Option<SystemSaid> {
    match folder {
        Some(folder) => folder.said(),
        None => None,
    }
}
