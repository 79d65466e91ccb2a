//! The options of the command `show` in what `clap` finds.
ghost use Rattle.std.specs.Prelude.{◌≡◌, MatchResult, Some, None};
ghost use Rattle.clap.specs.Matches.{found_of};
ghost use Rattle.clap.specs.Walk.{rows_of};
ghost use Rattle.rv_command.specs.Command as spec;
ghost use Rattle.rv_command.specs.ShowLine as line;

use super::complaint::Complaint;
use super::hunt::{
    BLOCKS, DEFAULT_BLOCKS, expect_of, folder_of, ignore_of, json_of, lines_of, list_of, page_of,
    progress_of,
};
use super::number::{flag_of, number_if, number_or};
use super::run::WORKERS;
use super::{Job, text_of};
use crate::arguments::{
    FolderPath, IgnorePath, ImagePath, JsonPath, LinesPath, ListPath, PagePath, TablePath,
};
use clap::ArgMatches;

/// What `show` is asked for, beside its image and its table. What its runs are the table says.
#[derive(Clone, Copy)]
pub struct ShowLine<'a> {
    /// How many threads make the runs; without it as many as there are processors.
    pub workers: Option<u8>,
    /// The file of source lines.
    pub lines: Option<LinesPath<'a>>,
    /// The list of races that are to be ignored.
    pub ignore: Option<IgnorePath<'a>>,
    /// The folder for the schedules of the races.
    pub save_to: Option<FolderPath<'a>>,
    /// The file for the page.
    pub page: Option<PagePath<'a>>,
    /// The file for the list of the races.
    pub list: Option<ListPath<'a>>,
    /// The file for what was found, for other programs.
    pub json: Option<JsonPath<'a>>,
    /// How many races are shown in full.
    pub blocks: u32,
    /// A race that may be a bug gives the status 5.
    pub checks: bool,
    /// So does one that is likely benign.
    pub checks_all: bool,
    /// The table or the list of the races that are expected: another one that may be a bug gives the status 5 too.
    pub expect: Option<TablePath<'a>>,
    /// No progress is told.
    pub is_quiet: bool,
    /// It is told where the standard error is no terminal, too.
    pub progress: bool,
}

/// `show` with its options.
pub fn show_of<'a>(given: &ArgMatches<'a>) -> Result<Job<'a>, Complaint<'a>>
    ensures { MatchResult result (λ job. spec.show_at (rows_of (found_of given.now)) ≡ Some (spec.asked job))
        (λ _. spec.show_at (rows_of (found_of given.now)) ≡ None) }
{
    let image = text_of(given, "IMAGE").ok_or(Complaint::Words)?;
    let table = text_of(given, "TABLE").ok_or(Complaint::Words)?;
    let line = line_of(given)?;
    Ok(Job::Show {
        image: ImagePath(image),
        table: TablePath(table),
        line,
    })
}

fn line_of<'a>(given: &ArgMatches<'a>) -> Result<ShowLine<'a>, Complaint<'a>>
    ensures { MatchResult result (λ wanted. line.showing_at (rows_of (found_of given.now)) ≡ Some (line.showing wanted))
        (λ _. line.showing_at (rows_of (found_of given.now)) ≡ None) }
{
    let workers = number_if(given, WORKERS)?;
    let blocks = number_or(given, BLOCKS, u64::from(DEFAULT_BLOCKS))?;
    let progress = progress_of(given)?;
    Ok(ShowLine {
        workers: workers.map(|n| n as u8),
        lines: lines_of(given),
        ignore: ignore_of(given),
        save_to: folder_of(given),
        page: page_of(given),
        list: list_of(given),
        json: json_of(given),
        blocks: blocks as u32,
        checks: flag_of(given, "check"),
        checks_all: flag_of(given, "check-all"),
        expect: expect_of(given),
        is_quiet: flag_of(given, "quiet"),
        progress,
    })
}
