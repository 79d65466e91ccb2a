//! The engine of `show` on the files of a line, and what is told while it works.
use crate::failure::Failure;
use crate::hunt_failure::{Failed, WRITE_FAULT, failure_of, of_file};
use crate::hunt_files::{Beside, failed_of, inputs_of, outputs_of};
use crate::hunting::{checks_of, ending_of, workers_of};
use crate::shown_line::ShownLine;
use rv_command::arguments::{ImagePath, TablePath};
use rv_command::command::hunt::{DEFAULT_BUDGET, DEFAULT_SEED, HuntLine};
use rv_command::command::show::ShowLine;
use rv_files::files::InputFile;
use rv_files::system::{Stream, SystemSaid};
use rv_hunt::engine::remaking::WatchRuns;
use rv_hunt::engine::show::{ShowFault, ShowOptions, run_show};
use rv_memory::buffered::Buffered;
use rv_memory::flagged::Flagged;
use rv_plans::limit::Limit;
use rv_search::hunt::Watch;
use rv_search::hunted::Hunted;
use rv_shown::options::{LineParts, MOST_WORKERS};
use rv_terminal::colors::Colors;
use rv_terminal::painted::Painted;
use rv_terminal::progress::{Progress, Told};
use std::sync::Wait;
use std::thread::Threads;

/// Tells how far `show` has come.
#[derive(Drop)]
struct ShowProgress<'a>(Progress<'a>);

impl Watch for ShowProgress<'_> {
    fn saw(&mut self, _: &Hunted) {}

    fn shows(&mut self, shown: usize, all: usize) {
        self.0.shows(shown, all);
    }

    fn ends(&mut self) {
        self.0.ends();
    }
}

impl WatchRuns for ShowProgress<'_> {
    fn made(&mut self, made: usize, all: usize) {
        self.0.made(made, all);
    }
}

/// A line of `hunt` with the same files and checks. What its runs are is not asked of it.
fn hunt_line<'a>(line: &ShowLine<'a>) -> HuntLine<'a> {
    HuntLine {
        harts: None,
        seed: DEFAULT_SEED,
        first: 0,
        limit: Limit::Budget(DEFAULT_BUDGET),
        workers: line.workers,
        lengths: None,
        slots: None,
        sampled: false,
        aim: None,
        named: None,
        skip: None,
        idle: None,
        lines: line.lines,
        ignore: line.ignore,
        save_to: line.save_to,
        page: line.page,
        list: line.list,
        table_to: None,
        json: line.json,
        blocks: line.blocks,
        shows_table: false,
        checks: line.checks,
        checks_all: line.checks_all,
        check_ends: false,
        right: None,
        expect: line.expect,
        is_quiet: line.is_quiet,
        progress: line.progress,
        no_orders: true,
    }
}

/// Runs the engine of `show` on the files of a line.
pub fn show_file<'a>(
    rt: &'a HostRuntime,
    threads: &(impl Threads + Wait + Sync),
    words: &[&str],
    image: ImagePath<'a>,
    table: TablePath<'a>,
    line: &ShowLine<'a>,
    colors: Colors,
) -> Result<(), Failure<'a>> {
    let alloc = rt.alloc();
    let line = hunt_line(line);
    let shown = ShownLine::of(alloc, words, image, &line)?;
    show_by(rt, threads, image, table, &line, shown.parts(), colors)
}

/// The line of a fault.
fn show_failure<'a>(
    image: ImagePath<'a>,
    table: TablePath<'a>,
    line: &HuntLine<'a>,
    failed: Failed,
    said: Option<SystemSaid>,
    fault: ShowFault,
) -> Failure<'a> {
    match fault {
        ShowFault::Table(fault) => of_file(Some(table.0), said, fault),
        ShowFault::Hunt(fault) => failure_of(image, line, failed, fault),
    }
}

/// The same, with what the text tells of the line.
fn show_by<'a>(
    rt: &'a HostRuntime,
    threads: &(impl Threads + Wait + Sync),
    image: ImagePath<'a>,
    table: TablePath<'a>,
    line: &HuntLine<'a>,
    parts: LineParts<'_>,
    colors: Colors,
) -> Result<(), Failure<'a>> {
    let alloc = rt.alloc();
    let options = ShowOptions {
        workers: workers_of(threads, line),
        blocks: line.blocks,
        line: parts,
        checks: checks_of(line),
    };
    if MOST_WORKERS < options.workers {
        return Err(Failure::Line);
    }
    let mut inputs = inputs_of(rt, image, line);
    let mut outputs = outputs_of(rt, line);
    let mut rows = Flagged::new(InputFile::new(rt, table.0));
    let output = Painted::new(alloc, rt.stdout(), colors.output);
    let mut writer = Buffered::new(alloc, Stream::new(output));
    let mut notes = Buffered::new(alloc, Painted::new(alloc, rt.stderr(), colors.errors));
    let told = Told::of(rt, line.is_quiet, line.progress);
    let mut progress = ShowProgress(Progress::new(rt, told, colors.errors));
    let shown = run_show(
        threads,
        alloc,
        &options,
        &mut inputs,
        &mut rows,
        &mut outputs,
        &mut writer,
        &mut notes,
        &mut progress,
    );
    progress.ends();
    let beside = Beside {
        has_failed: false,
        table: None,
        output: writer.into_inner().said(),
    };
    let failed = failed_of(inputs, outputs, beside);
    match shown {
        // What a file's fault left is written by now.
        Ok(_) if failed.has_file() => Err(failure_of(image, line, failed, WRITE_FAULT)),
        Ok(found) => ending_of(line, found),
        Err(fault) => {
            let said = rows.into_inner().said();
            Err(show_failure(image, table, line, failed, said, fault))
        }
    }
}
