//! The engine of `hunt` on the files of a line, and what is told while it works.
ghost use Rattle.std.specs.Prelude.{◌≡◌, IfSome, option_map};
ghost use Rattle.rv_command.specs.HuntLine.{sides};
ghost use Rattle.rvcollide.specs.Ending as spec;
ghost use Rattle.rvcollide.specs.Hunt as asked;

use crate::failure::Failure;
use crate::hunt_failure::{AtFault, WRITE_FAULT, failure_of};
use crate::hunt_files::{Beside, failed_of, inputs_of, outputs_of};
use crate::keeper::Keeper;
use crate::shown_line::ShownLine;
use rv_collide::plan::DEFAULT_SLOTS;
use rv_command::arguments::ImagePath;
use rv_command::command::hunt::HuntLine;
use rv_faults::command::CommandFault;
use rv_faults::fault::Fault;
use rv_files::system::Stream;
use rv_hunt::engine::fault::HuntFault;
use rv_hunt::engine::run_hunt;
use rv_hunt::given::SLOTS;
use rv_memory::buffered::Buffered;
use rv_plans::plans::{Mix, Plans};
use rv_search::aim::Sides;
use rv_search::hunt::Watch;
use rv_shown::found::{Checks, Found};
use rv_shown::options::{HuntOptions, LineParts, MOST_WORKERS, Shows};
use rv_terminal::colors::Colors;
use rv_terminal::painted::Painted;
use rv_terminal::progress::{Progress, Told};
use std::sync::Wait;
use std::thread::{Threads, available_parallelism};

/// How many threads make the runs: as many as are asked for, else as many as the machine has processors.
pub fn workers_of(rt: &impl Threads, line: &HuntLine) -> u8 {
    match (line.workers, available_parallelism(rt)) {
        (Some(workers), _) => workers,
        (None, Ok(count)) => count.get().min(usize::from(MOST_WORKERS)) as u8,
        (None, Err(_)) => 1,
    }
}

/// What the runs of the line are.
fn mix_of(line: &HuntLine) -> Mix
    ensures { result ≡ asked.mix_of line.now }
{
    if line.sampled {
        Mix::Sampled
    } else if line.aim.is_some() {
        // Sampled runs make no probes.
        Mix::Walks
    } else {
        Mix::Mixed
    }
}

/// How many slots there are, where the line doesn't say.
pub fn slots_of(line: &HuntLine) -> u8
    ensures { result ≡ asked.slots_of line.now }
{
    if line.sampled { DEFAULT_SLOTS } else { SLOTS }
}

/// The engine's options, where the numbers are in their ranges, as those of a line are.
fn options_of<'a, 'b>(
    line: &HuntLine<'a>,
    workers: u8,
    parts: LineParts<'b>,
) -> Option<HuntOptions<'a, 'b>>
    ensures { IfSome result (λ options. asked.AreOptionsOf line.now workers parts.entry options) }
{
    let slots = line.slots.unwrap_or(slots_of(line));
    let plans = Plans::new(mix_of(line), line.harts, slots, line.lengths)?;
    let options = HuntOptions {
        plans,
        seed: line.seed,
        first: line.first,
        limit: line.limit,
        workers,
        named: line.named,
        skip: line.skip,
        idle: line.idle,
        right: line.right,
        aim: sides_of(line),
        shows: shown_by(line),
        blocks: line.blocks,
        line: parts,
        orders: !line.no_orders,
        checks: checks_of(line),
    };
    if options.is_legal() {
        Some(options)
    } else {
        None
    }
}

/// The two sides that the line aims at, if it does.
fn sides_of<'a>(line: &HuntLine<'a>) -> Option<Sides<'a>>
    ensures { option_map (λ both. (both.one.now, both.other.now)) result ≡ option_map sides line.now.aim }
{
    let aim = line.aim?;
    Some(Sides {
        one: aim.one,
        other: aim.other,
    })
}

/// What the line asks to be shown.
fn shown_by(line: &HuntLine) -> Shows
    ensures { result ≡ asked.shown_by line.now }
{
    if line.shows_table {
        Shows::Table
    } else {
        Shows::Text
    }
}

/// What the line asks to be told by the exit status.
pub fn checks_of(line: &HuntLine) -> Checks
    ensures { result ≡ spec.checks_of line.now }
{
    Checks {
        races: line.checks,
        all_races: line.checks_all,
        ends: line.check_ends,
    }
}

/// How the program ends where all was written: what was found goes before that nothing could be found.
pub fn ending_of<'a>(line: &HuntLine, found: Found) -> Result<(), Failure<'a>>
    ensures { result ≡ spec.ending_of line.now found }
{
    let checks = checks_of(line);
    if checks.are_met(found) {
        Err(Failure::Found)
    } else if checks.are_void(found) {
        Err(Failure::Void)
    } else {
        Ok(())
    }
}

/// Whether a hunt came to its end, so that each race that is shown in full has a schedule: then only a text can't have been written.
fn is_over(hunted: &Result<Found, HuntFault<'_>>) -> bool {
    match hunted {
        Ok(_) => true,
        Err(HuntFault::Command(CommandFault::Plain(Fault::Write))) => true,
        Err(_) => false,
    }
}

/// Runs the engine of `hunt` on the files of a line.
pub fn hunt_file<'a>(
    rt: &'a HostRuntime,
    threads: &(impl Threads + Wait + Sync),
    words: &[&str],
    image: ImagePath<'a>,
    line: &HuntLine<'a>,
    colors: Colors,
) -> Result<(), Failure<'a>> {
    let alloc = rt.alloc();
    let shown = ShownLine::of(alloc, words, image, line)?;
    hunt_by(rt, threads, image, line, shown.parts(), colors)
}

/// The same, with what the text tells of the line.
fn hunt_by<'a>(
    rt: &'a HostRuntime,
    threads: &(impl Threads + Wait + Sync),
    image: ImagePath<'a>,
    line: &HuntLine<'a>,
    parts: LineParts<'_>,
    colors: Colors,
) -> Result<(), Failure<'a>> {
    let Some(options) = options_of(line, workers_of(threads, line), parts) else {
        return Err(Failure::Line);
    };
    let alloc = rt.alloc();
    let mut inputs = inputs_of(rt, image, line);
    let mut outputs = outputs_of(rt, line);
    // A table is for tools.
    let paints = colors.output && !line.shows_table;
    let output = Painted::new(alloc, rt.stdout(), paints);
    let mut writer = Buffered::new(alloc, Stream::new(output));
    let mut notes = Buffered::new(alloc, Painted::new(alloc, rt.stderr(), colors.errors));
    let told = Told::of(rt, line.is_quiet, line.progress);
    let progress = Progress::new(rt, told, colors.errors);
    let mut keeper = Keeper::new(rt, alloc, progress, line);
    let hunted = run_hunt(
        threads,
        alloc,
        &options,
        &mut inputs,
        &mut outputs,
        &mut writer,
        &mut notes,
        &mut keeper,
    );
    keeper.ends();
    let beside = Beside {
        has_failed: keeper.table_failed(),
        table: keeper.table_said(),
        output: writer.into_inner().said(),
    };
    let failed = failed_of(inputs, outputs, beside);
    if is_over(&hunted) && matches!(failed.folder, AtFault::Nothing) {
        keeper.take_away();
    }
    match hunted {
        // What a file's fault left is written by now.
        Ok(_) if failed.has_file() => Err(failure_of(image, line, failed, WRITE_FAULT)),
        Ok(found) => ending_of(line, found),
        Err(fault) => Err(failure_of(image, line, failed, fault)),
    }
}
