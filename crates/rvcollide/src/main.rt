//! `rvcollide`: the program that reads its command line (`rv_command`) and runs the engine of the command on files and the
//! standard input and output.
#![tactic(auto)]

ghost use Rattle.std.specs.Prelude.{◌≡◌};
ghost use Rattle.std.specs.Process.{exit_status};
ghost use Rattle.rvcollide.specs.Failure.{status_of};

mod early_folder;
pub mod failure;
pub mod file_line;
pub mod hunt_failure;
mod hunt_files;
mod hunting;
mod keeper;
mod merging;
mod paths;
mod showing;
mod shown_line;

use crate::failure::Failure;
use crate::hunt_failure::{filed, filed_line, of_file};
use crate::hunt_files::{file_if, said_of as file_said};
use crate::hunting::hunt_file;
use crate::merging::merge_files;
use crate::paths::{json_path, lines_path};
use crate::showing::show_file;
use rv_collide::plan::Plan;
use rv_command::arguments::{
    ImagePath, JsonPath, LinesPath, PicturePath, SavePath, SchedulePath, SourcePath,
};
use rv_command::color::{Color, ColorFault, color_line};
use rv_command::command::complaint::Complaint;
use rv_command::command::{Job, LineFault, Notice, VERSION, command_of, notice_of};
use rv_engines::asm::run_asm;
use rv_engines::debug::engine::run_debug;
use rv_engines::exhibit::engine::run_exhibit;
use rv_engines::explain::engine::run_explain;
use rv_engines::explain::fault::ExplainFault;
use rv_engines::explain::options::{About, ExplainOptions};
use rv_engines::list::run_list;
use rv_engines::replay::engine::run_replay;
use rv_engines::run::engine::run_campaign;
use rv_engines::run::options::Options;
use rv_engines::threads::engine::run_by_threads;
use rv_engines::words::engine::run_words;
use rv_faults::command::CommandFault;
use rv_faults::fault::Fault;
use rv_faults::sentences::Paths;
use rv_faults::source_lines::MISS_WORDS;
use rv_files::files::{InputFile, OutputFile, failed_input, failed_output, path_of, said_of};
use rv_files::system::Stream;
use rv_memory::buffered::Buffered;
use rv_memory::flagged::Flagged;
use rv_stub::engine::run_gdb;
use rv_tables::merge::fault::FileFault;
use rv_terminal::colors::Colors;
use rv_terminal::painted::{Painted, tell_painted};
use std::env;
use std::process::ExitCode;
use std::sync::Wait;
use std::thread::Threads;

fn main(rt: HostRuntime) -> ExitCode {
    match run_arguments(&rt, &rt) {
        Ok(status) => status,
        Err(failure) => tell_failure(&rt, failure),
    }
}

/// Runs the command of the program's arguments, and tells why it fails while they are there.
fn run_arguments(
    rt: &HostRuntime,
    threads: &(impl Threads + Wait + Sync),
) -> Result<ExitCode, Failure<'static>> {
    let alloc = rt.alloc();
    let arguments: Vec<String> = env::args(rt)?.collect(alloc)?;
    let words: Vec<&str> = arguments.iter().map(|word| word.as_str()).collect(alloc)?;
    Ok(run_colored(rt, threads, &words))
}

/// Tells a failure, unless that was done, and gives its exit status.
fn tell_failure(rt: &HostRuntime, failure: Failure<'_>) -> ExitCode
    ensures { exit_status result ≡ status_of failure.entry }
{
    if !failure.is_told() {
        // Where the standard error fails there is nothing left to tell it to.
        let _ = eprintln!(rt; "rvcollide: {failure}");
    }
    ExitCode::from(failure.status())
}

/// Runs the command of a line, with the colours that it asks for.
fn run_colored(
    rt: &HostRuntime,
    threads: &(impl Threads + Wait + Sync),
    words: &[&str],
) -> ExitCode {
    let line = match color_line(rt.alloc(), words) {
        Ok(line) => line,
        Err(fault) => return tell_failure(rt, color_failure(rt, fault)),
    };
    let colors = Colors::of(rt, line.color);
    match run_line(rt, threads, &line.words, colors) {
        Ok(()) => ExitCode::SUCCESS,
        Err(failure) => tell_failure(rt, failure),
    }
}

/// Why a line has no colours.
fn color_failure(rt: &HostRuntime, fault: ColorFault<'_>) -> Failure<'static> {
    let ColorFault::Value(value) = fault else {
        return Failure::Told(CommandFault::Plain(Fault::NoMemory));
    };
    let complaint = Complaint::Color { value };
    let Ok(text) = format!(in rt.alloc(); "{complaint}") else {
        return Failure::Told(CommandFault::Plain(Fault::NoMemory));
    };
    let colors = Colors::of(rt, Color::Auto);
    tell_painted(rt, colors.errors, text.as_str());
    Failure::Line
}

/// Runs the command of a line.
fn run_line<'a>(
    rt: &'a HostRuntime,
    threads: &(impl Threads + Wait + Sync),
    words: &'a [&'a str],
    colors: Colors,
) -> Result<(), Failure<'a>> {
    match command_of(rt.alloc(), words) {
        Ok(job) => run_job(rt, threads, words, job, colors),
        Err(LineFault::Line) => tell(rt, words, colors),
        Err(fault) => Err(Failure::from(fault)),
    }
}

/// Runs the engine of a job. Below, in a function for each command, a path becomes a file, and nowhere else.
fn run_job<'a>(
    rt: &'a HostRuntime,
    threads: &(impl Threads + Wait + Sync),
    words: &[&str],
    job: Job<'a>,
    colors: Colors,
) -> Result<(), Failure<'a>> {
    match job {
        Job::Words => Ok(words_read(rt)?),
        Job::Asm { source, image } => Ok(asm_files(rt, source, image)?),
        Job::List { image } => Ok(list_file(rt, image)?),
        Job::Replay { image, schedule } => Ok(replay_files(rt, image, schedule)?),
        Job::Exhibit {
            image,
            schedule,
            number,
        } => Ok(exhibit_files(rt, image, schedule, number)?),
        Job::Debug { image, schedule } => Ok(debug_files(rt, image, schedule)?),
        Job::Gdb { image, schedule } => gdb_files(rt, image, schedule),
        Job::Hunt { image, line } => hunt_file(rt, threads, words, image, &line, colors),
        Job::Merge {
            tables,
            expected,
            gaps,
        } => merge_files(rt, tables, expected, gaps, colors),
        Job::Show { image, table, line } => {
            show_file(rt, threads, words, image, table, &line, colors)
        }
        Job::Run {
            image,
            options,
            save,
        } => Ok(run_files(rt, threads, image, &options, save)?),
        Job::Explain {
            image,
            schedule,
            options,
            lines,
            picture,
            json,
        } => explain_files(rt, image, schedule, &options, lines, picture, json, colors),
        Job::Threads {
            image,
            plan,
            seed,
            save,
        } => Ok(threads_files(rt, threads, image, plan, seed, save)?),
    }
}

/// Runs the engine of `words` on the standard input.
fn words_read(rt: &HostRuntime) -> Result<(), Fault> {
    let alloc = rt.alloc();
    let mut writer = Buffered::new(alloc, rt.stdout());
    run_words(alloc, &mut Flagged::new(rt.stdin()), &mut writer)
}

/// Runs the engine of `asm` on a file, and on one that it makes.
fn asm_files(rt: &HostRuntime, source: SourcePath<'_>, image: ImagePath<'_>) -> Result<(), Fault> {
    let mut reader = Flagged::new(InputFile::new(rt, source.0));
    run_asm(rt.alloc(), &mut reader, &mut OutputFile::new(rt, image.0))
}

/// Runs the engine of `list` on a file.
fn list_file(rt: &HostRuntime, image: ImagePath<'_>) -> Result<(), Fault> {
    let alloc = rt.alloc();
    let mut writer = Buffered::new(alloc, rt.stdout());
    run_list(
        alloc,
        &mut Flagged::new(InputFile::new(rt, image.0)),
        &mut writer,
    )
}

/// Runs the engine of `replay` on two files.
fn replay_files(
    rt: &HostRuntime,
    image: ImagePath<'_>,
    schedule: SchedulePath<'_>,
) -> Result<(), Fault> {
    let alloc = rt.alloc();
    let mut image = Flagged::new(InputFile::new(rt, image.0));
    let mut schedule = Flagged::new(InputFile::new(rt, schedule.0));
    let mut writer = Buffered::new(alloc, rt.stdout());
    run_replay(alloc, &mut image, &mut schedule, &mut writer)
}

/// Runs the engine of `exhibit` on two files.
fn exhibit_files(
    rt: &HostRuntime,
    image: ImagePath<'_>,
    schedule: SchedulePath<'_>,
    number: u32,
) -> Result<(), Fault> {
    let alloc = rt.alloc();
    let mut image = Flagged::new(InputFile::new(rt, image.0));
    let mut schedule = Flagged::new(InputFile::new(rt, schedule.0));
    let mut writer = Buffered::new(alloc, rt.stdout());
    run_exhibit(alloc, &mut image, &mut schedule, number, &mut writer)
}

/// Runs the engine of `threads` on a file, and on one that it makes where that is asked for.
fn threads_files(
    rt: &HostRuntime,
    threads: &(impl Threads + Wait + Sync),
    image: ImagePath<'_>,
    plan: Plan,
    seed: u32,
    save: Option<SavePath<'_>>,
) -> Result<(), Fault> {
    let alloc = rt.alloc();
    let mut image = Flagged::new(InputFile::new(rt, image.0));
    let mut file = save.map(|path| OutputFile::new(rt, path.0));
    let mut writer = Buffered::new(alloc, rt.stdout());
    run_by_threads(
        threads,
        alloc,
        plan,
        seed,
        &mut image,
        &mut file,
        &mut writer,
    )
}

/// Runs the engine of `debug` on two files, with commands from the standard input.
fn debug_files(
    rt: &HostRuntime,
    image: ImagePath<'_>,
    schedule: SchedulePath<'_>,
) -> Result<(), Fault> {
    let alloc = rt.alloc();
    let mut image = Flagged::new(InputFile::new(rt, image.0));
    let mut schedule = Flagged::new(InputFile::new(rt, schedule.0));
    let mut commands = Flagged::new(rt.stdin());
    let mut writer = Buffered::new(alloc, rt.stdout());
    run_debug(alloc, &mut image, &mut schedule, &mut commands, &mut writer)
}

/// Runs the engine of `run` on a file, and on one that it makes where that is asked for.
fn run_files<'a>(
    rt: &HostRuntime,
    threads: &(impl Threads + Wait + Sync),
    image: ImagePath<'_>,
    options: &Options<'a>,
    save: Option<SavePath<'_>>,
) -> Result<(), CommandFault<'a>> {
    let alloc = rt.alloc();
    let mut image = Flagged::new(InputFile::new(rt, image.0));
    let mut file = save.map(|path| OutputFile::new(rt, path.0));
    let mut writer = Buffered::new(alloc, rt.stdout());
    run_campaign(threads, alloc, options, &mut image, &mut file, &mut writer)
}

/// Runs the engine of `explain` on two files, on source lines, and on files that it makes where that is asked for.
fn explain_files<'a>(
    rt: &'a HostRuntime,
    image: ImagePath<'a>,
    schedule: SchedulePath<'a>,
    options: &ExplainOptions<'a>,
    lines: Option<LinesPath<'a>>,
    picture: Option<PicturePath<'a>>,
    json: Option<JsonPath<'a>>,
    colors: Colors,
) -> Result<(), Failure<'a>> {
    let alloc = rt.alloc();
    let mut image_file = Flagged::new(InputFile::new(rt, image.0));
    let mut schedule_file = Flagged::new(InputFile::new(rt, schedule.0));
    let mut source = file_if(rt, lines_path(lines));
    let mut made = made_file(rt, picture_path(picture));
    let mut object = made_file(rt, json_path(json));
    let about = About {
        path: image.0,
        version: VERSION,
    };
    let output = Painted::new(alloc, rt.stdout(), colors.output);
    let mut writer = Buffered::new(alloc, Stream::new(output));
    let told = run_explain(
        alloc,
        options,
        &about,
        &mut image_file,
        &mut schedule_file,
        &mut source,
        &mut made,
        &mut object,
        &mut writer,
    );
    let fault = match told {
        Ok(misses) => {
            warn_if(rt, misses, colors);
            return Ok(());
        }
        Err(ExplainFault::Lines(fault)) => {
            let said = file_said(source);
            return Err(of_file(lines_path(lines), said, FileFault::from(fault)));
        }
        Err(ExplainFault::Command(fault)) => fault,
    };
    let failed = failed_input(image_file).or(failed_input(schedule_file));
    let failed = failed.or(failed_output(made)).or(failed_output(object));
    let said = said_of(failed, writer.into_inner().said());
    let paths = Paths {
        image: image.0,
        schedule: Some(schedule.0),
        failed: path_of(failed),
    };
    Err(filed(paths, said, fault))
}

/// Warns that the source lines have no frame of the image.
fn warn_if(rt: &HostRuntime, misses: bool, colors: Colors) {
    if misses {
        tell_painted(rt, colors.errors, "rvcollide: warning: ");
        // Where the standard error fails there is nothing left to tell it to.
        let _ = eprintln!(rt; "{MISS_WORDS}");
    }
}

/// Runs the engine of `gdb` on two files, with packets from the standard input.
fn gdb_files<'a>(
    rt: &'a HostRuntime,
    image: ImagePath<'a>,
    schedule: SchedulePath<'a>,
) -> Result<(), Failure<'a>> {
    let alloc = rt.alloc();
    let mut image_file = Flagged::new(InputFile::new(rt, image.0));
    let mut schedule_file = Flagged::new(InputFile::new(rt, schedule.0));
    let mut packets = Flagged::new(rt.stdin());
    let mut writer = Buffered::new(alloc, Stream::new(rt.stdout()));
    let told = run_gdb(
        alloc,
        &mut image_file,
        &mut schedule_file,
        &mut packets,
        &mut writer,
    );
    let Err(fault) = told else {
        return Ok(());
    };
    let failed = failed_input(image_file).or(failed_input(schedule_file));
    let said = said_of(failed, writer.into_inner().said());
    let paths = Paths {
        image: image.0,
        schedule: Some(schedule.0),
        failed: path_of(failed),
    };
    Err(filed_line(fault.line(paths), said))
}

/// The file that is made at a path, where one is given.
fn made_file<'a>(
    rt: &'a HostRuntime,
    path: Option<&'a str>,
) -> Option<OutputFile<'a, HostRuntime>> {
    let path = path?;
    Some(OutputFile::new(rt, path))
}

/// The path of the picture.
fn picture_path<'a>(path: Option<PicturePath<'a>>) -> Option<&'a str> {
    let path = path?;
    Some(path.0)
}

/// Writes why the words give no job, or the help that they ask for.
fn tell<'a>(rt: &HostRuntime, words: &'a [&'a str], colors: Colors) -> Result<(), Failure<'a>> {
    match notice_of(rt.alloc(), words)? {
        Notice::Answer(text) => Ok(print!(rt; "{text}")?),
        Notice::Refusal(text) => {
            tell_painted(rt, colors.errors, text.as_str());
            Err(Failure::Line)
        }
    }
}
