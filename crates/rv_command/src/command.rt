//! The command line: which job its words ask for. `clap` reads the words, and this module says which
//! commands there are.
ghost use Rattle.std.specs.Prelude.{◌≡◌, ◌≢◌, IfErr, IfOk, IfSome, MatchResult, Some, None, true, false, option_and_then, option_map, map, codes};
ghost use Rattle.std.specs.Str.{bytes_eq};
ghost use Rattle.std.specs.String.{string_bytes};
ghost use Rattle.clap.specs.Faults.{fault_of};
ghost use Rattle.clap.specs.Kinds.{FailsBy};
ghost use Rattle.clap.specs.Matches.{found_of};
ghost use Rattle.clap.specs.Simple.{app_of, subcommand_of, subcommand_rows_of};
ghost use Rattle.clap.specs.Values.{kind_of};
ghost use Rattle.clap.specs.Walk.{first_of, rows_of};
ghost use Rattle.rv_command.specs.Command as spec;
ghost use Rattle.rv_command.specs.Given.{IsGiven};
ghost use Rattle.rv_command.specs.Notice as notice;
ghost use Rattle.rv_command.specs.ClapProgram as known;
ghost use Rattle.rv_faults.specs.Shown.{shown as escaped};

pub mod commands;
pub mod complaint;
pub mod exhibit;
pub mod explain;
pub mod help;
pub mod hunt;
pub mod merge;
pub mod number;
pub mod paths;
pub mod run;
pub mod show;
pub mod subcommand;
pub mod threads;

use crate::arguments::{
    ImagePath, JsonPath, LinesPath, PicturePath, SavePath, SchedulePath, SourcePath, TablePath,
    TablePaths,
};
use crate::command::commands::COMMANDS;
use crate::command::complaint::Complaint;
use crate::command::exhibit::exhibit_of;
use crate::command::explain::explain_of;
use crate::command::help::{FAULTS, OVERVIEW, Words};
use crate::command::hunt::{HuntLine, hunt_of};
use crate::command::merge::merge_of;
use crate::command::paths::{asm_of, debug_of, gdb_of, list_of, replay_of};
use crate::command::run::run_of;
use crate::command::show::{ShowLine, show_of};
use crate::command::subcommand::with_subcommands;
use crate::command::threads::threads_of;
use clap::error::ErrorKind;
use clap::{ArgMatches, Command, Error};
use rv_collide::plan::Plan;
use rv_engines::explain::options::ExplainOptions;
use rv_engines::run::options::Options;
use rv_faults::shown::Shown;
use std::alloc::{AllocError, Global};
use std::fmt::Display;

/// What a command line asks for.
#[derive(Clone, Copy)]
pub enum Job<'a> {
    /// `words`: run the words of the standard input.
    Words,
    /// `asm SOURCE IMAGE`: make the image of a source.
    Asm {
        source: SourcePath<'a>,
        image: ImagePath<'a>,
    },
    /// `list IMAGE`: list an image.
    List {
        image: ImagePath<'a>,
    },
    /// `replay IMAGE SCHEDULE`: run a schedule again.
    Replay {
        image: ImagePath<'a>,
        schedule: SchedulePath<'a>,
    },
    /// `debug IMAGE SCHEDULE`: show the places of a schedule.
    Debug {
        image: ImagePath<'a>,
        schedule: SchedulePath<'a>,
    },
    /// `run IMAGE` with its options: hunt races in many runs, and save a schedule where a file is given.
    Run {
        image: ImagePath<'a>,
        options: Options<'a>,
        save: Option<SavePath<'a>>,
    },
    /// `threads IMAGE` with its options: one run by a thread for each hart, whose schedule is saved where a file is
    /// given.
    Threads {
        image: ImagePath<'a>,
        plan: Plan,
        seed: u32,
        save: Option<SavePath<'a>>,
    },
    /// `exhibit IMAGE SCHEDULE N`: show the report of ending N as a list of steps.
    Exhibit {
        image: ImagePath<'a>,
        schedule: SchedulePath<'a>,
        number: u32,
    },
    /// `explain IMAGE SCHEDULE` with its options: tell the races of a schedule for a person, and draw one where a file
    /// is given.
    Explain {
        image: ImagePath<'a>,
        schedule: SchedulePath<'a>,
        options: ExplainOptions<'a>,
        lines: Option<LinesPath<'a>>,
        picture: Option<PicturePath<'a>>,
        json: Option<JsonPath<'a>>,
    },
    /// `gdb IMAGE SCHEDULE`: serve a schedule to GDB.
    Gdb {
        image: ImagePath<'a>,
        schedule: SchedulePath<'a>,
    },
    /// `hunt IMAGE` with its options: hunt races in runs of all scales, and tell each for a person.
    Hunt {
        image: ImagePath<'a>,
        line: HuntLine<'a>,
    },
    /// `merge TABLE..`: add up the tables of a hunt's pieces, and compare them with what is expected.
    Merge {
        tables: TablePaths<'a>,
        expected: Option<TablePath<'a>>,
        gaps: bool,
    },
    /// `show IMAGE TABLE` with its options: make the runs of a table's rows again, and tell each race for a person.
    Show {
        image: ImagePath<'a>,
        table: TablePath<'a>,
        line: ShowLine<'a>,
    },
}

/// The version of the program.
pub const VERSION: &str = "0.1.0";

/// Why a command line gives no job.
#[derive(Clone, Copy)]
pub enum LineFault {
    /// The words are no command with its arguments.
    Line,
    /// There is no memory.
    NoMemory,
}

/// What the program writes where a line gives no job.
#[derive(Drop)]
pub enum Notice {
    /// The help or the version, which the line asks for. It goes to the standard output.
    Answer(String),
    /// Why the line is refused. It goes to the standard error.
    Refusal(String),
}

/// The job that the words of a command line ask for, the program's name first. `Line` comes where they
/// spell none, and also where they ask for the help or the version: `notice_of` has those texts.
#[tactic(auto, unfolding(crate::specs::Command::job_of), using(crate::proofs::GivenLemmas::is_given, crate::proofs::LineLemmas::short_line))]
pub fn command_of<'a>(alloc: Global, words: &'a [&'a str]) -> Result<Job<'a>, LineFault>
    ensures job { IfOk result (λ job. spec.job_of (spec.texts words.entry.now) ≡ Some (spec.asked job)) }
    ensures given { IsGiven (spec.texts words.entry.now) }
    ensures line { IfErr result (λ e. e ≡ LineFault.Line → spec.job_of (spec.texts words.entry.now) ≡ None) }
{
    match words {
        [_, command, rest @ ..] if *command == "merge" => merge_of(rest).ok_or(LineFault::Line),
        [_, command, ..] => job_by_clap(alloc, words, *command),
        _ => Err(LineFault::Line),
    }
}

/// The job of a line of another command.
#[tactic(auto, using(crate::proofs::LineLemmas::among_some))]
fn job_by_clap<'a>(alloc: Global, words: &'a [&'a str], command: &str) -> Result<Job<'a>, LineFault>
    ensures job { IfOk result (λ job. spec.job_by_clap command.now (spec.texts words.entry.now) ≡ Some (spec.asked job)) }
    ensures line { IfErr result (λ e. e ≡ LineFault.Line → spec.job_by_clap command.now (spec.texts words.entry.now) ≡ None) }
{
    match read_line(alloc, words, &[]) {
        Ok(matches) => job_in(command, &matches).map_err(|_| LineFault::Line),
        Err(error) => Err(line_fault(&error)),
    }
}

/// What to write of a line that `command_of` refuses. The words are the same.
pub fn notice_of<'a>(alloc: Global, words: &'a [&'a str]) -> Result<Notice, LineFault>
    ensures answer { IfOk result (λ n. notice.is_answer n ≡ true → notice.asks (spec.texts words.entry.now) ≡ true) }
    ensures refusal { IfOk result (λ n. notice.is_answer n ≡ false → notice.only_asks (spec.texts words.entry.now) ≡ false) }
    ensures topic { IfOk result (λ n. notice.asks_topic (spec.texts words.entry.now) ≡ true → notice.is_answer n ≡ true) }
    ensures memory { IfErr result (λ e. e ≡ LineFault.NoMemory) }
{
    if asks_for_topic(words) {
        return Ok(Notice::Answer(topic_text(alloc, words)?));
    }
    notice_by_clap(alloc, words)
}

/// Whether the line is `help faults` or `help words`.
fn asks_for_topic(words: &[&str]) -> bool
    ensures { result ≡ notice.asks_topic (spec.texts words.now) }
{
    match words {
        [_, command, topic] => *command == "help" && (*topic == "faults" || *topic == "words"),
        _ => false,
    }
}

/// What is said of the topic of such a line.
fn topic_text(alloc: Global, words: &[&str]) -> Result<String, LineFault>
    ensures { IfErr result (λ e. e ≡ LineFault.NoMemory) }
{
    match words {
        [_, _, topic] if *topic == "words" => text(alloc, &Words),
        _ => text(alloc, &FAULTS),
    }
}

/// What `clap` says of a line that is no job.
fn notice_by_clap<'a>(alloc: Global, words: &'a [&'a str]) -> Result<Notice, LineFault>
    ensures answer { IfOk result (λ n. notice.is_answer n ≡ true → notice.asks_clap (spec.texts words.entry.now) ≡ true) }
    ensures refusal { IfOk result (λ n. notice.is_answer n ≡ false → notice.only_asks_clap (spec.texts words.entry.now) ≡ false) }
    ensures memory { IfErr result (λ e. e ≡ LineFault.NoMemory) }
{
    match read_line(alloc, words, &[]) {
        Ok(matches) => refused(alloc, &matches),
        Err(error) => notice_in(alloc, words, &error),
    }
}

fn notice_in(alloc: Global, words: &[&str], error: &Error) -> Result<Notice, LineFault>
    ensures notice { IfOk result (λ n. (notice.is_answer n ≡ notice.is_request (kind_of error.now))
        × (kind_of error.now ≢ ErrorKind.OutOfMemory)) }
    ensures memory { IfErr result (λ e. e ≡ LineFault.NoMemory) }
{
    match error.kind() {
        ErrorKind::OutOfMemory => Err(LineFault::NoMemory),
        ErrorKind::DisplayHelp | ErrorKind::DisplayVersion => Ok(Notice::Answer(clap_text(
            alloc, words,
        )?)),
        _ => Ok(Notice::Refusal(clap_text(alloc, words)?)),
    }
}

/// What `clap` writes of the words. It prints them as they are, the program's name too, so it is asked of the words as messages
/// show them: none becomes a command or an option by that, or stops being one.
fn clap_text(alloc: Global, words: &[&str]) -> Result<String, LineFault>
    ensures memory { IfErr result (λ e. e ≡ LineFault.NoMemory) }
{
    let texts = shown_words(alloc, words)?;
    let shown: Result<Vec<&str>, AllocError> = texts
        .iter()
        .map(|word| word.as_str())
        .collect(alloc);
    let shown = shown.map_err(|_| LineFault::NoMemory)?;
    let after = after_helps(alloc).map_err(|_| LineFault::NoMemory)?;
    match read_line(alloc, &shown, &after) {
        Ok(_) => text(alloc, &Complaint::Words),
        Err(error) => match error.kind() {
            ErrorKind::OutOfMemory => Err(LineFault::NoMemory),
            _ => text(alloc, &error),
        },
    }
}

/// The words as messages show them.
fn shown_words(alloc: Global, words: &[&str]) -> Result<Vec<String>, LineFault>
    ensures shown { IfOk result (λ shown. map string_bytes shown.items ≡ map escaped (spec.texts words.now)) }
    ensures memory { IfErr result (λ e. e ≡ LineFault.NoMemory) }
{
    let mut shown = Vec::new(alloc);
    for word in words {
        let text = text(alloc, &Shown(*word))?;
        shown.push(text).map_err(|_| LineFault::NoMemory)?;
    }
    Ok(shown)
}

/// What the help of each command says after its arguments.
fn after_helps(alloc: Global) -> Result<Vec<String>, AllocError> {
    let mut texts = Vec::new(alloc);
    for command in &COMMANDS {
        texts.push(command.after_help(alloc)?)?;
    }
    Ok(texts)
}

/// The refusal of a line in which `clap` finds no fault.
fn refused<'a>(alloc: Global, matches: &ArgMatches<'a>) -> Result<Notice, LineFault>
    ensures notice { IfOk result (λ n. notice.is_answer n ≡ false) }
    ensures memory { IfErr result (λ e. e ≡ LineFault.NoMemory) }
{
    let complaint = complaint_of(matches);
    Ok(Notice::Refusal(text(alloc, &complaint)?))
}

/// Why the values that `clap` found make no job.
fn complaint_of<'a>(matches: &ArgMatches<'a>) -> Complaint<'a> {
    match matches.subcommand() {
        Some((command, _)) => job_in(command, matches).err().unwrap_or(Complaint::Words),
        None => Complaint::Words,
    }
}

fn text<T: Display>(alloc: Global, shown: &T) -> Result<String, LineFault>
    ensures text { IfOk result (λ text. IfSome (T.output shown.now) (λ bytes. string_bytes text ≡ bytes)) }
    ensures memory { IfErr result (λ e. e ≡ LineFault.NoMemory) }
{
    format!(in alloc; "{shown}").map_err(|_| LineFault::NoMemory)
}

fn line_fault(error: &Error) -> LineFault
    ensures memory { kind_of error.now ≡ ErrorKind.OutOfMemory → result ≡ LineFault.NoMemory }
    ensures line { kind_of error.now ≢ ErrorKind.OutOfMemory → result ≡ LineFault.Line }
{
    match error.kind() {
        ErrorKind::OutOfMemory => LineFault::NoMemory,
        _ => LineFault::Line,
    }
}

/// What `clap` finds in the words, and what the help of each command says after its arguments, where that may be written.
fn read_line<'a>(
    alloc: Global,
    words: &'a [&'a str],
    after: &'a [String],
) -> Result<ArgMatches<'a>, Error>
    ensures rows { IfOk result (λ m. subcommand_rows_of m ≡ subcommand_of known.program (spec.texts words.entry.now)) }
    ensures kinds { FailsBy (fault_of known.program (spec.texts words.entry.now)) result }
{
    program(alloc, after)?.try_get_matches_from(words)
}

/// The program with all its commands.
fn program<'a>(alloc: Global, after: &'a [String]) -> Result<Command<'a>, AllocError>
    ensures { IfOk result (λ c. app_of c ≡ known.program) }
{
    let program = Command::new(alloc, "rvcollide")
        .version(VERSION)
        .override_help(OVERVIEW)
        .subcommand_required(true);
    with_subcommands(alloc, program, &COMMANDS, after)
}

/// The job of the command of this name in what `clap` found.
fn job_in<'a>(command: &str, matches: &ArgMatches<'a>) -> Result<Job<'a>, Complaint<'a>>
    ensures { MatchResult result
        (λ job. option_and_then (spec.found_job command.now) (subcommand_rows_of matches.now) ≡ Some (spec.asked job))
        (λ _. option_and_then (spec.found_job command.now) (subcommand_rows_of matches.now) ≡ None) }
{
    let (_, given) = matches.subcommand().ok_or(Complaint::Words)?;
    job_at(command, given)
}

/// The job of the command of this name.
fn job_at<'a>(command: &str, given: &ArgMatches<'a>) -> Result<Job<'a>, Complaint<'a>>
    ensures { MatchResult result (λ job. spec.job_at command.now (rows_of (found_of given.now)) ≡ Some (spec.asked job))
        (λ _. spec.job_at command.now (rows_of (found_of given.now)) ≡ None) }
{
    match command {
        "run" => run_of(given),
        "threads" => threads_of(given),
        "exhibit" => exhibit_of(given),
        "explain" => explain_of(given),
        "hunt" => hunt_of(given),
        "show" => show_of(given),
        // Its tables do not stand together, or it were a job before `clap` read it.
        "merge" => Err(Complaint::Tables),
        _ => path_job_at(command, given).ok_or(Complaint::Words),
    }
}

/// The job of a command that has paths alone.
fn path_job_at<'a>(command: &str, given: &ArgMatches<'a>) -> Option<Job<'a>>
    requires run { bytes_eq command.now (codes "run") ≡ false }
    requires threads { bytes_eq command.now (codes "threads") ≡ false }
    requires exhibit { bytes_eq command.now (codes "exhibit") ≡ false }
    requires explain { bytes_eq command.now (codes "explain") ≡ false }
    requires hunt { bytes_eq command.now (codes "hunt") ≡ false }
    requires show { bytes_eq command.now (codes "show") ≡ false }
    ensures { option_map spec.asked result ≡ spec.job_at command.now (rows_of (found_of given.now)) }
{
    match command {
        "words" => Some(Job::Words),
        "asm" => asm_of(given),
        "list" => list_of(given),
        "replay" => replay_of(given),
        "debug" => debug_of(given),
        "gdb" => gdb_of(given),
        _ => None,
    }
}

/// The word that was given for an argument.
#[tactic(auto, using(crate::proofs::LineLemmas::text_found))]
pub fn text_of<'a>(given: &ArgMatches<'a>, name: &str) -> Option<&'a str>
    ensures { option_map (λ s. s.now) result ≡ first_of name.now (rows_of (found_of given.now)) }
{
    given.get_str(name)
}
