//! The engine of `merge` on the files of a line.
ghost use Rattle.std.specs.Prelude.{◌≡◌, map, option_and_then, option_map};
ghost use Rattle.rv_command.specs.declared.arguments.TablePath.{TablePath};
ghost use Rattle.rv_files.specs.Files.{path_of};

use crate::failure::Failure;
use crate::file_line::{FileLine, FilePlace};
use crate::hunt_files::said_of;
use rv_command::arguments::{TablePath, TablePaths};
use rv_faults::command::CommandFault;
use rv_faults::fault::Fault;
use rv_files::files::InputFile;
use rv_files::system::Stream;
use rv_memory::buffered::Buffered;
use rv_memory::flagged::Flagged;
use rv_tables::merge::listing::plain_names;
use rv_tables::merge::run_merge;
use rv_terminal::colors::Colors;
use rv_terminal::painted::tell_painted;

/// What is told where a table doesn't say what it is of.
const NOT_OF_ONE: &str =
    "rvcollide: warning: a table does not say what it is of (it has no last line of ..), so they are added in the order given: nothing tells whether they are of one hunt\n";

/// The path of the file of a number, where there is one: the tables count from 0, and the table of what is expected comes
/// behind them.
fn path_of<'a>(
    tables: TablePaths<'a>,
    expected: Option<TablePath<'a>>,
    number: Option<usize>,
) -> Option<&'a str>
    ensures { option_map (λ path. path.now) result ≡ option_and_then (path_of
        (map (λ path. path.now) tables.entry.0.now) (option_map (λ (path : TablePath). path.0.now) expected.entry)) number }
{
    let number = number?;
    if let Some(path) = tables.0.get(number) {
        return Some(*path);
    }
    let path = expected?;
    Some(path.0)
}

/// The same, as a fault's line names it.
fn place_of<'a>(
    tables: TablePaths<'a>,
    expected: Option<TablePath<'a>>,
    number: Option<usize>,
) -> Option<FilePlace<'a>> {
    let path = path_of(tables, expected, number)?;
    Some(FilePlace {
        path,
        schedule: None,
    })
}

/// The file of what is expected, where one is given.
fn expected_file<'a>(
    rt: &'a HostRuntime,
    expected: Option<TablePath<'a>>,
) -> Option<Flagged<InputFile<'a, HostRuntime>>> {
    let path = expected?;
    Some(Flagged::new(InputFile::new(rt, path.0)))
}

/// Names races on the standard error.
fn tell_names(rt: &HostRuntime, colors: Colors, names: &[u8]) {
    // They are ASCII.
    if let Ok(text) = String::from_utf8_lossy(rt.alloc(), names) {
        tell_painted(rt, colors.errors, text.as_str());
    }
}

/// Runs the engine of `merge` on files.
pub fn merge_files<'a>(
    rt: &HostRuntime,
    tables: TablePaths<'a>,
    expected: Option<TablePath<'a>>,
    gaps: bool,
    colors: Colors,
) -> Result<(), Failure<'a>> {
    let alloc = rt.alloc();
    let mut files = Vec::new(alloc);
    for path in tables.0 {
        let file = Flagged::new(InputFile::new(rt, *path));
        if files.push(file).is_err() {
            return Err(Failure::Told(CommandFault::Plain(Fault::NoMemory)));
        }
    }
    let mut known = expected_file(rt, expected);
    let mut writer = Buffered::new(alloc, Stream::new(rt.stdout()));
    match run_merge(alloc, gaps, &mut files, &mut known, &mut writer) {
        Ok(merged) => {
            if !merged.is_of_one {
                tell_painted(rt, colors.errors, NOT_OF_ONE);
            }
            if merged.unexpected.is_empty() {
                return Ok(());
            }
            if let Ok(names) = plain_names(alloc, &merged.unexpected) {
                tell_names(rt, colors, &names);
            }
            Err(Failure::Found)
        }
        Err(fault) => {
            let said = match fault.file {
                Some(number) if number < files.len() => files
                    .swap_remove(number)
                    .into_inner()
                    .said(),
                Some(_) => said_of(known),
                None => writer.into_inner().said(),
            };
            Err(Failure::OfFile(FileLine {
                file: place_of(tables, expected, fault.file),
                stands: false,
                said,
                fault: fault.fault,
            }))
        }
    }
}
