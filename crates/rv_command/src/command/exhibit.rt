//! The arguments of the command `exhibit` in what `clap` finds.
ghost use Rattle.std.specs.Prelude.{◌≡◌, MatchResult, Some, None};
ghost use Rattle.clap.specs.Matches.{found_of};
ghost use Rattle.clap.specs.Walk.{rows_of};
ghost use Rattle.rv_command.specs.Command as spec;

use super::complaint::Complaint;
use super::number::number_between;
use super::paths::saved_of;
use super::{Job, text_of};
use clap::ArgMatches;

/// The greatest number of an ending that may be asked for.
pub const MOST_ENDING: u32 = 4_294_967_295;

/// `exhibit` with its arguments.
pub fn exhibit_of<'a>(given: &ArgMatches<'a>) -> Result<Job<'a>, Complaint<'a>>
    ensures { MatchResult result (λ job. spec.exhibit_at (rows_of (found_of given.now)) ≡ Some (spec.asked job))
        (λ _. spec.exhibit_at (rows_of (found_of given.now)) ≡ None) }
{
    let (image, schedule) = saved_of(given).ok_or(Complaint::Words)?;
    let value = text_of(given, "N").ok_or(Complaint::Words)?;
    match number_between(value.as_bytes(), 0, u64::from(MOST_ENDING)) {
        None => Err(Complaint::Ending { value }),
        Some(number) => Ok(Job::Exhibit {
            image,
            schedule,
            number: number as u32,
        }),
    }
}
