//! The lines of what a hunt came to, and the numbers that they and the page show.
ghost use Rattle.std.specs.Prelude.{◌≡◌, map};
ghost use Rattle.rv_shown.specs.Outcome as spec;
ghost use Rattle.rv_shown.specs.declared.saying.lines.Seen.{Seen};

use crate::code_seen::CodeSeen;
use crate::outcome::{Outcome, Tabled};
use crate::saying::order::{benign, bugs, of_class, reports_of, unwatched};
use crate::saying::warnings::all_sampled;
use rv_explain::block::RaceClass;
use rv_explain::symbol_table::SymbolTable;
use rv_memory::store::NoMemory;
use rv_report::key::Key;
use rv_search::ended::{ended_rows, ways_words};
use rv_search::hunted::Hunted;
use rv_search::tally::Tally;
use rv_tables::near::Fate;
use rv_tables::row::RaceRow;
use std::alloc::Global;

/// How many races no data breakpoint watched, where there are any.
fn unwatched_words(alloc: Global, rows: &[(Key, RaceRow)]) -> Result<String, NoMemory> {
    match unwatched(rows) {
        0 => Ok(String::new(alloc)),
        number => Ok(format!(in alloc; ", unwatched {number}")?),
    }
}

/// The first line.
pub fn summary_line(alloc: Global, outcome: &Outcome) -> Result<String, NoMemory> {
    let saw = &outcome.saw.tally;
    let bugs = bugs(outcome.races);
    let benign = benign(outcome.races);
    let apart = unwatched_words(alloc, outcome.races)?;
    let reports = saw.counts().hit.saturating_add(saw.counts().changed);
    let pauses = saw.pauses();
    let runs = saw.runs();
    Ok(format!(in alloc;
        "races {bugs}{apart}, likely benign {benign}, reports {reports} of {pauses} endings in {runs} runs\n"
    )?)
}

/// The first line of what is told of a table.
pub fn tabled_line(alloc: Global, tabled: &Tabled) -> Result<String, NoMemory> {
    let bugs = bugs(tabled.rows);
    let benign = benign(tabled.rows);
    let apart = unwatched_words(alloc, tabled.rows)?;
    let reports = reports_of(tabled.rows).saturating_add(reports_of(tabled.ignored));
    let runs = tabled.runs;
    Ok(format!(in alloc;
        "races {bugs}{apart}, likely benign {benign}, reports {reports} in {runs} runs\n"
    )?)
}

/// How many of a thing there are.
pub fn counted(alloc: Global, number: u64, thing: &str) -> Result<String, NoMemory> {
    let many = if number == 1 { "" } else { "s" };
    Ok(format!(in alloc; "{number} {thing}{many}")?)
}

/// Adds how many races were counted and not shown, where there are any.
fn push_apart(
    alloc: Global,
    text: &mut Vec<u8>,
    word: &str,
    rows: &[(Key, RaceRow)],
) -> Result<(), NoMemory> {
    if rows.is_empty() {
        return Ok(());
    }
    let reports = counted(alloc, reports_of(rows), "report")?;
    let races = counted(alloc, rows.len() as u64, "race")?;
    let line = format!(in alloc; "{word} {reports} of {races}\n")?;
    text.extend_from_slice(line.as_bytes())?;
    Ok(())
}

/// A number of what was seen: what stands before its name in the line, its name, and what it counts.
#[derive(Clone, Copy)]
pub struct Seen {
    pub before: &'static str,
    pub name: &'static str,
    pub number: u64,
    pub meaning: &'static str,
}

fn number_seen(before: &'static str, name: &'static str, number: u64, meaning: &'static str) -> Seen
    ensures { result.number ≡ number }
{
    Seen {
        before,
        name,
        number,
        meaning,
    }
}

/// The sites, and of the sampled runs how the pauses ended, and the steps.
pub fn sampled_numbers(sites: u64, saw: &Tally) -> [Seen; 9]
    ensures { map (λ (one : Seen). one.number) result ≡ spec.sampled_numbers sites saw.now }
{
    let counts = saw.sampled();
    [
        number_seen(
            " ",
            "sites",
            sites,
            "loads and stores that a hart may pause at",
        ),
        number_seen(
            ", ",
            "armed",
            saw.armed().count(),
            "sites that had a breakpoint",
        ),
        number_seen(
            ", ",
            "paused at",
            saw.paused().count(),
            "sites at which a hart was paused",
        ),
        number_seen(
            "; ",
            "pauses",
            counts.pauses(),
            "how often a hart was paused",
        ),
        number_seen(
            ": ",
            "quiet",
            counts.quiet,
            "pauses that showed no other access",
        ),
        number_seen(", ", "hit", counts.hit, "pauses that caught another access"),
        number_seen(
            ", ",
            "changed",
            counts.changed,
            "pauses that found other bytes",
        ),
        number_seen(
            "; ",
            "unwatched",
            counts.unwatched,
            "pauses without a data breakpoint",
        ),
        number_seen(
            "; ",
            "steps",
            counts.steps,
            "instructions that harts executed",
        ),
    ]
}

/// The walks, their probes, and what came of the near pairs.
pub fn walk_numbers(saw: &Hunted) -> [Seen; 9]
    ensures { map (λ (one : Seen). one.number) result ≡ spec.walk_numbers saw.now }
{
    let held = saw.near.how_many(&saw.table, Fate::Held);
    let waited = saw.near.how_many(&saw.table, Fate::OthersWaited);
    let never = saw.near.how_many(&saw.table, Fate::NeverReached);
    [
        number_seen("; ", "walks", saw.tally.walks(), "runs without a pause"),
        number_seen(
            ", ",
            "probes",
            saw.tally.probes(),
            "runs from the middle of a walk on, in which a hart is held",
        ),
        number_seen(
            "; ",
            "near pairs",
            saw.near.len() as u64,
            "pairs of instructions that touched the same bytes from two harts soon after one another",
        ),
        number_seen(
            ": ",
            "met",
            saw.near.how_many(&saw.table, Fate::Met),
            "pairs that a report is of",
        ),
        number_seen(
            ", ",
            "not met",
            held.saturating_add(waited).saturating_add(never),
            "pairs that were probed, and no report is of them",
        ),
        number_seen(
            " (",
            "held",
            held,
            "of these a hart was held while others stepped",
        ),
        number_seen(
            ", ",
            "others waited",
            waited,
            "of these a hart came there only while all others waited",
        ),
        number_seen(
            ", ",
            "never reached",
            never,
            "of these no hart came there again",
        ),
        number_seen(
            "), ",
            "not tried",
            saw.near.how_many(&saw.table, Fate::Untried),
            "pairs that were not probed",
        ),
    ]
}

/// How many runs there were.
pub fn runs_seen(saw: &Tally) -> Seen
    ensures { result.number ≡ saw.now.runs }
{
    number_seen("; ", "runs", saw.runs(), "whole runs of the program")
}

/// Adds numbers, each with its name.
fn push_numbers(alloc: Global, text: &mut Vec<u8>, numbers: &[Seen]) -> Result<(), NoMemory> {
    for seen in numbers {
        let before = seen.before;
        let name = seen.name;
        let number = seen.number;
        let part = format!(in alloc; "{before}{name} {number}")?;
        text.extend_from_slice(part.as_bytes())?;
    }
    Ok(())
}

/// Adds what was seen; the runs are in the first line.
fn push_seen(alloc: Global, text: &mut Vec<u8>, outcome: &Outcome) -> Result<(), NoMemory> {
    let saw = outcome.saw;
    text.extend_from_slice(b"seen")?;
    push_numbers(alloc, text, &sampled_numbers(outcome.sites, &saw.tally))?;
    if !all_sampled(outcome.mix) {
        push_numbers(alloc, text, &walk_numbers(saw))?;
    }
    text.extend_from_slice(b"\n")?;
    Ok(())
}

/// Adds how the harts of all runs ended, and in which run first.
fn push_ended(
    alloc: Global,
    text: &mut Vec<u8>,
    symbols: &SymbolTable,
    outcome: &Outcome,
) -> Result<(), NoMemory> {
    for row in &ended_rows(alloc, outcome.saw.tally.ended())? {
        let words = ways_words(alloc, symbols, row.ways)?;
        let harts = row.harts;
        let line = match outcome.ends.run_of(row.ways) {
            Some(run) => format!(in alloc; "ended {words}: {harts}, first in run {run}\n")?,
            None => format!(in alloc; "ended {words}: {harts}\n")?,
        };
        text.extend_from_slice(line.as_bytes())?;
    }
    Ok(())
}

/// Adds how much of the code was executed.
fn push_code(alloc: Global, text: &mut Vec<u8>, code: &CodeSeen) -> Result<(), NoMemory> {
    let executed = code.executed;
    let words = code.words;
    let line = format!(in alloc; "code {executed} of {words} words")?;
    text.extend_from_slice(line.as_bytes())?;
    let functions = code.functions.len();
    if functions > 0 {
        let run = code.run_functions();
        let more = format!(in alloc; ", {run} of {functions} functions")?;
        text.extend_from_slice(more.as_bytes())?;
    }
    text.extend_from_slice(b"\n")?;
    Ok(())
}

/// Adds how many races of these rows are named, and how many were ignored, where there are any.
pub(crate) fn push_counted(
    alloc: Global,
    text: &mut Vec<u8>,
    rows: &[(Key, RaceRow)],
    ignored: &[(Key, RaceRow)],
) -> Result<(), NoMemory> {
    let named = of_class(alloc, rows, RaceClass::Named)?;
    push_apart(alloc, text, "named", &named)?;
    push_apart(alloc, text, "ignored", ignored)
}

/// Adds the lines behind the blocks: which races were counted and not shown, how harts ended, what was seen, and how much of the code
/// was executed.
pub(crate) fn push_behind(
    alloc: Global,
    text: &mut Vec<u8>,
    symbols: &SymbolTable,
    outcome: &Outcome,
) -> Result<(), NoMemory> {
    push_counted(alloc, text, outcome.races, outcome.ignored)?;
    push_ended(alloc, text, symbols, outcome)?;
    push_seen(alloc, text, outcome)?;
    push_code(alloc, text, outcome.code)
}
