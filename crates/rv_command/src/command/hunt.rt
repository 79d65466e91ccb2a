//! The options of the command `hunt` in what `clap` finds.
ghost use Rattle.std.specs.Prelude.{◌≡◌, ◌-◌, ◌∷◌, MatchResult, Some, None, option_map, codes};
ghost use Rattle.clap.specs.Matches.{found_of};
ghost use Rattle.clap.specs.Walk.{first_of, rows_of};
ghost use Rattle.rv_command.specs.Command as spec;
ghost use Rattle.rv_command.specs.HuntLine as line;

use super::complaint::{Complaint, NumberOption};
use super::number::{flag_of, number_between, number_if, number_or};
use super::run::{HARTS, SEED, SLOTS, WORKERS};
use super::{Job, text_of};
use crate::arguments::{
    Aim, FolderPath, IgnorePath, ImagePath, JsonPath, LinesPath, ListPath, PagePath, TablePath,
    TableToPath,
};
use clap::ArgMatches;
use rv_collide::plan::{MOST_ARMS, MOST_PAUSE, MOST_STEPS};
use rv_plans::limit::{Limit, MOST_BUDGET};
use rv_plans::plans::Lengths;
use rv_text::pieces::Pieces;

/// The seed where the line gives none.
pub const DEFAULT_SEED: u32 = 1;

/// The greatest number of a run.
pub const LAST_RUN: u32 = 4_294_967_295;

/// How many steps a hunt makes where the line does not say.
pub const DEFAULT_BUDGET: u64 = 50_000_000;

/// How many races are shown in full where the line does not say.
pub const DEFAULT_BLOCKS: u32 = 50;

/// The most races that are shown in full.
pub const MOST_BLOCKS: u32 = 10_000;

/// The greatest exit code.
pub const MOST_CODE: u32 = 4_294_967_295;

pub const BLOCKS: NumberOption = NumberOption {
    name: "blocks",
    least: 0,
    most: MOST_BLOCKS as u64,
};

pub const FIRST: NumberOption = NumberOption {
    name: "first",
    least: 0,
    most: LAST_RUN as u64,
};

pub const BUDGET: NumberOption = NumberOption {
    name: "budget",
    least: 1,
    most: MOST_BUDGET,
};

/// What `hunt` is asked for, beside its image.
#[derive(Clone, Copy)]
pub struct HuntLine<'a> {
    /// How many harts each run has; without it they go by turns.
    pub harts: Option<u8>,
    pub seed: u32,
    /// The number of the first run.
    pub first: u32,
    pub limit: Limit,
    /// How many threads make the runs; without it as many as there are processors.
    pub workers: Option<u8>,
    /// The lengths of each run; without them they go through all scales.
    pub lengths: Option<Lengths>,
    /// How many pauses can be watched at once; without it as many as the kind of its runs has.
    pub slots: Option<u8>,
    /// Every run is a sampled one.
    pub sampled: bool,
    /// Only near pairs of these two sides are probed.
    pub aim: Option<Aim<'a>>,
    /// Names of symbols, with a comma between two: races on their bytes are told apart.
    pub named: Option<&'a str>,
    /// Addresses in eight hexadecimal digits, with a comma between two: no hart is paused there.
    pub skip: Option<&'a str>,
    /// Names of functions, with a comma between two: harts may wait in them for ever.
    pub idle: Option<&'a str>,
    /// The file of source lines.
    pub lines: Option<LinesPath<'a>>,
    /// The list of races that are to be ignored.
    pub ignore: Option<IgnorePath<'a>>,
    /// The folder for the schedules of the races.
    pub save_to: Option<FolderPath<'a>>,
    /// The file for the page.
    pub page: Option<PagePath<'a>>,
    /// The file for the list of the races.
    pub list: Option<ListPath<'a>>,
    /// The file for the table.
    pub table_to: Option<TableToPath<'a>>,
    /// The file for what was found as JSON.
    pub json: Option<JsonPath<'a>>,
    /// How many races are shown in full.
    pub blocks: u32,
    /// The standard output is the table alone.
    pub shows_table: bool,
    /// A race that may be a bug gives the status 5.
    pub checks: bool,
    /// So does one that is likely benign.
    pub checks_all: bool,
    /// So does a stuck end that is reported, a trap that stopped a hart, and an exit with a wrong code.
    pub check_ends: bool,
    /// The exit codes that are right, with a comma between two, where 0 alone isn't.
    pub right: Option<&'a str>,
    /// The table or the list of the races that are expected: another one that may be a bug gives the status 5 too.
    pub expect: Option<TablePath<'a>>,
    /// No progress is told.
    pub is_quiet: bool,
    /// It is told where the standard error is no terminal, too.
    pub progress: bool,
    /// Orders of races' accesses aren't tried.
    pub no_orders: bool,
}

/// `hunt` with its options.
pub fn hunt_of<'a>(given: &ArgMatches<'a>) -> Result<Job<'a>, Complaint<'a>>
    ensures { MatchResult result (λ job. spec.hunt_at (rows_of (found_of given.now)) ≡ Some (spec.asked job))
        (λ _. spec.hunt_at (rows_of (found_of given.now)) ≡ None) }
{
    let image = text_of(given, "IMAGE").ok_or(Complaint::Words)?;
    let line = line_of(given)?;
    Ok(Job::Hunt {
        image: ImagePath(image),
        line,
    })
}

fn line_of<'a>(given: &ArgMatches<'a>) -> Result<HuntLine<'a>, Complaint<'a>>
    ensures { MatchResult result (λ wanted. line.hunting_at (rows_of (found_of given.now)) ≡ Some (line.hunting wanted))
        (λ _. line.hunting_at (rows_of (found_of given.now)) ≡ None) }
{
    let harts = number_if(given, HARTS)?;
    let seed = number_or(given, SEED, u64::from(DEFAULT_SEED))?;
    let first = number_or(given, FIRST, 0)? as u32;
    let limit = limit_of(given, first)?;
    let workers = number_if(given, WORKERS)?;
    let lengths = lengths_of(given)?;
    let slots = number_if(given, SLOTS)?;
    let aim = aim_of(given)?;
    let blocks = number_or(given, BLOCKS, u64::from(DEFAULT_BLOCKS))?;
    let right = right_of(given)?;
    let progress = progress_of(given)?;
    Ok(HuntLine {
        harts: harts.map(|n| n as u8),
        seed: seed as u32,
        first,
        limit,
        workers: workers.map(|n| n as u8),
        lengths,
        slots: slots.map(|n| n as u8),
        sampled: flag_of(given, "sampled"),
        aim,
        named: text_of(given, "named"),
        skip: text_of(given, "skip"),
        idle: text_of(given, "idle"),
        lines: lines_of(given),
        ignore: ignore_of(given),
        save_to: folder_of(given),
        page: page_of(given),
        list: list_of(given),
        table_to: table_to_of(given),
        json: json_of(given),
        blocks: blocks as u32,
        shows_table: flag_of(given, "table"),
        checks: flag_of(given, "check"),
        checks_all: flag_of(given, "check-all"),
        check_ends: flag_of(given, "check-ends"),
        right,
        expect: expect_of(given),
        is_quiet: flag_of(given, "quiet"),
        progress,
        no_orders: flag_of(given, "no-orders"),
    })
}

/// The file of source lines.
pub fn lines_of<'a>(given: &ArgMatches<'a>) -> Option<LinesPath<'a>>
    ensures { option_map (λ path. path.0.now) result ≡ first_of (codes "lines") (rows_of (found_of given.now)) }
{
    text_of(given, "lines").map(|path| LinesPath(path))
}

/// The list of races that are to be ignored.
pub fn ignore_of<'a>(given: &ArgMatches<'a>) -> Option<IgnorePath<'a>>
    ensures { option_map (λ path. path.0.now) result ≡ first_of (codes "ignore") (rows_of (found_of given.now)) }
{
    text_of(given, "ignore").map(|path| IgnorePath(path))
}

/// The folder for schedules.
pub fn folder_of<'a>(given: &ArgMatches<'a>) -> Option<FolderPath<'a>>
    ensures { option_map (λ path. path.0.now) result ≡ first_of (codes "save-to") (rows_of (found_of given.now)) }
{
    text_of(given, "save-to").map(|path| FolderPath(path))
}

/// The file for the page.
pub fn page_of<'a>(given: &ArgMatches<'a>) -> Option<PagePath<'a>>
    ensures { option_map (λ path. path.0.now) result ≡ first_of (codes "page") (rows_of (found_of given.now)) }
{
    text_of(given, "page").map(|path| PagePath(path))
}

/// The file for the list of the races.
pub fn list_of<'a>(given: &ArgMatches<'a>) -> Option<ListPath<'a>>
    ensures { option_map (λ path. path.0.now) result ≡ first_of (codes "list") (rows_of (found_of given.now)) }
{
    text_of(given, "list").map(|path| ListPath(path))
}

/// The file for the table.
fn table_to_of<'a>(given: &ArgMatches<'a>) -> Option<TableToPath<'a>>
    ensures { option_map (λ path. path.0.now) result ≡ first_of (codes "table-to") (rows_of (found_of given.now)) }
{
    text_of(given, "table-to").map(|path| TableToPath(path))
}

/// The file for what was found as JSON.
pub(super) fn json_of<'a>(given: &ArgMatches<'a>) -> Option<JsonPath<'a>>
    ensures { option_map (λ path. path.0.now) result ≡ first_of (codes "json") (rows_of (found_of given.now)) }
{
    text_of(given, "json").map(|path| JsonPath(path))
}

/// The table or the list of the races that are expected.
pub fn expect_of<'a>(given: &ArgMatches<'a>) -> Option<TablePath<'a>>
    ensures { option_map (λ path. path.0.now) result ≡ first_of (codes "expect") (rows_of (found_of given.now)) }
{
    text_of(given, "expect").map(|path| TablePath(path))
}

/// How far the hunt goes. The budget has to be one also where it does not count.
fn limit_of<'a>(given: &ArgMatches<'a>, first: u32) -> Result<Limit, Complaint<'a>>
    ensures { MatchResult result (λ limit. line.limit_at first (rows_of (found_of given.now)) ≡ Some limit)
        (λ _. line.limit_at first (rows_of (found_of given.now)) ≡ None) }
{
    let budget = number_or(given, BUDGET, DEFAULT_BUDGET)?;
    let runs = number_if(given, runs_option(first))?;
    match runs {
        Some(runs) => Ok(Limit::Runs(runs)),
        None => Ok(Limit::Budget(budget)),
    }
}

/// The option of how many runs there are: no more than there are from the first on.
fn runs_option(first: u32) -> NumberOption
    ensures name { result.name.now ≡ codes "runs" }
    ensures least { result.least ≡ 1 }
    ensures most { result.most ≡ line.runs_from first }
{
    NumberOption {
        name: "runs",
        least: 1,
        most: u64::from(LAST_RUN) + 1 - u64::from(first),
    }
}

/// The lengths that all runs have, where they are given.
fn lengths_of<'a>(given: &ArgMatches<'a>) -> Result<Option<Lengths>, Complaint<'a>>
    ensures { MatchResult result (λ lengths. line.lengths_at (rows_of (found_of given.now)) ≡ Some lengths)
        (λ _. line.lengths_at (rows_of (found_of given.now)) ≡ None) }
{
    let Some(value) = text_of(given, "plan") else {
        return Ok(None);
    };
    match lengths_in(value) {
        Some(lengths) => Ok(Some(lengths)),
        None => Err(Complaint::Lengths { value }),
    }
}

/// The lengths that a text writes, as in `2000,64,100`.
fn lengths_in(text: &str) -> Option<Lengths>
    ensures { result ≡ line.lengths_in text.now }
{
    let mut pieces = Pieces::of(text.as_bytes(), b',');
    let steps = pieces.next_piece()?;
    let arms = pieces.next_piece()?;
    let pause = pieces.next_piece()?;
    if pieces.next_piece().is_some() {
        return None;
    }
    three_lengths(steps, arms, pause)
}

/// The lengths that three texts write.
fn three_lengths(steps: &[u8], arms: &[u8], pause: &[u8]) -> Option<Lengths>
    ensures { result ≡ line.three_lengths steps.now arms.now pause.now }
{
    let steps = number_between(steps, 1, u64::from(MOST_STEPS))?;
    let arms = number_between(arms, 0, u64::from(MOST_ARMS))?;
    let pause = number_between(pause, 1, u64::from(MOST_PAUSE))?;
    Some(Lengths {
        steps: steps as u32,
        arms: arms as u32,
        pause: pause as u32,
    })
}

/// The sides that are aimed at, where they are given.
fn aim_of<'a>(given: &ArgMatches<'a>) -> Result<Option<Aim<'a>>, Complaint<'a>>
    ensures { MatchResult result (λ aim. line.aim_at (rows_of (found_of given.now)) ≡ Some (option_map line.sides aim))
        (λ _. line.aim_at (rows_of (found_of given.now)) ≡ None) }
{
    let Some(value) = text_of(given, "aim") else {
        return Ok(None);
    };
    if flag_of(given, "sampled") {
        return Err(Complaint::SampledAim);
    }
    match aim_in(value) {
        Some(aim) => Ok(Some(aim)),
        None => Err(Complaint::Aim { value }),
    }
}

/// The sides that a text names, as in `main,00010054`.
#[tactic(auto, using(std::proofs::lemmas::List::Splits::slice_split_first, crate::proofs::CommaLemmas::one_piece, crate::proofs::CommaLemmas::too_many))]
fn aim_in<'a>(text: &'a str) -> Option<Aim<'a>>
    ensures { option_map line.sides result ≡ line.sides_in text.entry.now }
{
    let (one, other) = text.split_once(',')?;
    if other.split_once(',').is_some() || one.is_empty() || other.is_empty() {
        return None;
    }
    Some(Aim { one, other })
}

/// The exit codes that are right, where they are given.
fn right_of<'a>(given: &ArgMatches<'a>) -> Result<Option<&'a str>, Complaint<'a>>
    ensures { MatchResult result (λ right. line.right_at (rows_of (found_of given.now)) ≡ Some (option_map (λ text. text.now) right))
        (λ _. line.right_at (rows_of (found_of given.now)) ≡ None) }
{
    let Some(value) = text_of(given, "right") else {
        return Ok(None);
    };
    if are_codes(value) {
        Ok(Some(value))
    } else {
        Err(Complaint::Right { value })
    }
}

/// Whether progress is told where the standard error is no terminal, too.
pub(super) fn progress_of<'a>(given: &ArgMatches<'a>) -> Result<bool, Complaint<'a>>
    ensures { MatchResult result (λ progress. line.progress_at (rows_of (found_of given.now)) ≡ Some progress)
        (λ _. line.progress_at (rows_of (found_of given.now)) ≡ None) }
{
    let progress = flag_of(given, "progress");
    if progress && flag_of(given, "quiet") {
        return Err(Complaint::QuietProgress);
    }
    Ok(progress)
}

/// Whether a text is a list of exit codes, as `0,255`.
fn are_codes(text: &str) -> bool
    ensures { result ≡ line.are_codes text.now }
{
    let mut pieces = Pieces::of(text.as_bytes(), b',');
    while let Some(piece) = pieces.next_piece() {
        if number_between(piece, 0, u64::from(MOST_CODE)).is_none() {
            return false;
        }
    }
    true
}
