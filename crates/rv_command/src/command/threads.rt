//! The options of the command `threads` in what `clap` finds.
ghost use Rattle.std.specs.Prelude.{◌≡◌, MatchResult, Some, None};
ghost use Rattle.clap.specs.Matches.{found_of};
ghost use Rattle.clap.specs.Walk.{rows_of};
ghost use Rattle.rv_command.specs.Command as spec;

use super::complaint::Complaint;
use super::number::number_of;
use super::run::{SEED, plan_of};
use super::{Job, text_of};
use crate::arguments::{ImagePath, SavePath};
use clap::ArgMatches;

/// `threads` with its options.
pub fn threads_of<'a>(given: &ArgMatches<'a>) -> Result<Job<'a>, Complaint<'a>>
    ensures { MatchResult result (λ job. spec.threads_at (rows_of (found_of given.now)) ≡ Some (spec.asked job))
        (λ _. spec.threads_at (rows_of (found_of given.now)) ≡ None) }
{
    let image = text_of(given, "IMAGE").ok_or(Complaint::Words)?;
    let plan = plan_of(given)?;
    let seed = number_of(given, SEED)?;
    Ok(Job::Threads {
        image: ImagePath(image),
        plan,
        seed: seed as u32,
        save: text_of(given, "save").map(|path| SavePath(path)),
    })
}
