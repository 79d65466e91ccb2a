//! The options of the command `run` in what `clap` finds.
ghost use Rattle.std.specs.Prelude.{◌≡◌, ◌≤◌, ◌<◌, IfOk, MatchResult, Some, None, option_map, codes};
ghost use Rattle.clap.specs.Matches.{found_of};
ghost use Rattle.clap.specs.Walk.{first_of, rows_of};
ghost use Rattle.rv_collide.specs.Numbers.{numbers};
ghost use Rattle.rv_command.specs.Command as spec;
ghost use Rattle.rv_engines.specs.Request.{request};
ghost use Rattle.rv_command.specs.RunLine as line;

use super::complaint::{Complaint, NumberOption};
use super::number::{number_in, number_of, number_or};
use super::{Job, text_of};
use crate::arguments::{ImagePath, SavePath};
use clap::ArgMatches;
use rv_campaign::{MOST_RUNS, MOST_WORKERS};
use rv_collide::plan::{
    DEFAULT_SLOTS, MOST_ARMS, MOST_HARTS, MOST_PAUSE, MOST_SLOTS, MOST_STEPS, Plan,
};
use rv_engines::run::options::Options;

/// The greatest number of a run, which a campaign of the most runs has.
pub const MOST_KEEP: u32 = MOST_RUNS - 1;

/// The greatest seed.
pub const MOST_SEED: u32 = 4_294_967_295;

pub const HARTS: NumberOption = NumberOption {
    name: "harts",
    least: 1,
    most: MOST_HARTS as u64,
};

pub const STEPS: NumberOption = NumberOption {
    name: "steps",
    least: 1,
    most: MOST_STEPS as u64,
};

pub const ARMS: NumberOption = NumberOption {
    name: "arms",
    least: 0,
    most: MOST_ARMS as u64,
};

pub const PAUSE: NumberOption = NumberOption {
    name: "pause",
    least: 1,
    most: MOST_PAUSE as u64,
};

pub const SLOTS: NumberOption = NumberOption {
    name: "slots",
    least: 1,
    most: MOST_SLOTS as u64,
};

pub const SEED: NumberOption = NumberOption {
    name: "seed",
    least: 0,
    most: MOST_SEED as u64,
};

pub const RUNS: NumberOption = NumberOption {
    name: "runs",
    least: 1,
    most: MOST_RUNS as u64,
};

pub const WORKERS: NumberOption = NumberOption {
    name: "workers",
    least: 1,
    most: MOST_WORKERS as u64,
};

pub const KEEP: NumberOption = NumberOption {
    name: "keep",
    least: 0,
    most: MOST_KEEP as u64,
};

/// `run` with its options.
pub fn run_of<'a>(given: &ArgMatches<'a>) -> Result<Job<'a>, Complaint<'a>>
    ensures { MatchResult result (λ job. spec.run_at (rows_of (found_of given.now)) ≡ Some (spec.asked job))
        (λ _. spec.run_at (rows_of (found_of given.now)) ≡ None) }
{
    let image = text_of(given, "IMAGE").ok_or(Complaint::Words)?;
    let options = options_of(given)?;
    Ok(Job::Run {
        image: ImagePath(image),
        options,
        save: text_of(given, "save").map(|path| SavePath(path)),
    })
}

fn options_of<'a>(given: &ArgMatches<'a>) -> Result<Options<'a>, Complaint<'a>>
    ensures { MatchResult result (λ options. line.request_at (rows_of (found_of given.now)) ≡ Some (request options))
        (λ _. line.request_at (rows_of (found_of given.now)) ≡ None) }
{
    let plan = plan_of(given)?;
    let seed = number_of(given, SEED)?;
    let runs = number_of(given, RUNS)? as u32;
    let workers = number_of(given, WORKERS)?;
    let keep = keep_of(given, runs)?;
    Ok(Options {
        plan,
        seed: seed as u32,
        runs,
        workers: workers as u32,
        named: text_of(given, "named"),
        skip: text_of(given, "skip"),
        keep,
    })
}

/// The numbers of a run.
pub fn plan_of<'a>(given: &ArgMatches<'a>) -> Result<Plan, Complaint<'a>>
    ensures { MatchResult result (λ plan. line.plan_at (rows_of (found_of given.now)) ≡ Some (numbers plan))
        (λ _. line.plan_at (rows_of (found_of given.now)) ≡ None) }
{
    let harts = number_of(given, HARTS)?;
    let steps = number_of(given, STEPS)?;
    let arms = number_of(given, ARMS)?;
    let pause = number_of(given, PAUSE)?;
    let slots = number_or(given, SLOTS, u64::from(DEFAULT_SLOTS))?;
    Ok(Plan {
        harts: harts as u8,
        steps: steps as u32,
        arms: arms as u32,
        pause: pause as u32,
        slots: slots as u8,
    })
}

/// The run whose schedule is saved.
fn keep_of<'a>(given: &ArgMatches<'a>, runs: u32) -> Result<u32, Complaint<'a>>
    requires { 1 ≤ runs }
    ensures keep { MatchResult result (λ keep. line.keep_at runs (rows_of (found_of given.now)) ≡ Some keep)
        (λ _. line.keep_at runs (rows_of (found_of given.now)) ≡ None) }
    ensures run { IfOk result (λ keep. keep < runs) }
{
    let Some(value) = text_of(given, KEEP.name) else {
        // There is a run at least.
        return Ok(0);
    };
    let keep = number_in(KEEP, value)? as u32;
    if keep < runs {
        Ok(keep)
    } else {
        Err(Complaint::Keep { value, runs })
    }
}
