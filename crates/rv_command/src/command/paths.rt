//! The commands that take paths alone, in what `clap` finds.
ghost use Rattle.std.specs.Prelude.{◌≡◌, option_map};
ghost use Rattle.clap.specs.Matches.{found_of};
ghost use Rattle.clap.specs.Walk.{rows_of};
ghost use Rattle.rv_command.specs.Command as spec;

use super::{Job, text_of};
use crate::arguments::{ImagePath, SchedulePath, SourcePath};
use clap::ArgMatches;

/// `asm SOURCE IMAGE`.
pub fn asm_of<'a>(given: &ArgMatches<'a>) -> Option<Job<'a>>
    ensures { option_map spec.asked result ≡ spec.asm_at (rows_of (found_of given.now)) }
{
    let source = text_of(given, "SOURCE")?;
    let image = text_of(given, "IMAGE")?;
    Some(Job::Asm {
        source: SourcePath(source),
        image: ImagePath(image),
    })
}

/// `list IMAGE`.
pub fn list_of<'a>(given: &ArgMatches<'a>) -> Option<Job<'a>>
    ensures { option_map spec.asked result ≡ spec.list_at (rows_of (found_of given.now)) }
{
    let image = text_of(given, "IMAGE")?;
    Some(Job::List {
        image: ImagePath(image),
    })
}

/// IMAGE and SCHEDULE.
pub fn saved_of<'a>(given: &ArgMatches<'a>) -> Option<(ImagePath<'a>, SchedulePath<'a>)>
    ensures { option_map (λ saved. (saved.0.0.now, saved.1.0.now)) result ≡ spec.saved_at (rows_of (found_of given.now)) }
{
    let image = text_of(given, "IMAGE")?;
    let schedule = text_of(given, "SCHEDULE")?;
    Some((ImagePath(image), SchedulePath(schedule)))
}

/// `replay IMAGE SCHEDULE`.
pub fn replay_of<'a>(given: &ArgMatches<'a>) -> Option<Job<'a>>
    ensures { option_map spec.asked result ≡ option_map spec.replay (spec.saved_at (rows_of (found_of given.now))) }
{
    let (image, schedule) = saved_of(given)?;
    Some(Job::Replay { image, schedule })
}

/// `debug IMAGE SCHEDULE`.
pub fn debug_of<'a>(given: &ArgMatches<'a>) -> Option<Job<'a>>
    ensures { option_map spec.asked result ≡ option_map spec.debug (spec.saved_at (rows_of (found_of given.now))) }
{
    let (image, schedule) = saved_of(given)?;
    Some(Job::Debug { image, schedule })
}

/// `gdb IMAGE SCHEDULE`.
pub fn gdb_of<'a>(given: &ArgMatches<'a>) -> Option<Job<'a>>
    ensures { option_map spec.asked result ≡ option_map spec.gdb (spec.saved_at (rows_of (found_of given.now))) }
{
    let (image, schedule) = saved_of(given)?;
    Some(Job::Gdb { image, schedule })
}
