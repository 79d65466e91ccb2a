//! The options of the command `explain` in what `clap` finds.
ghost use Rattle.std.specs.Prelude.{◌≡◌, ◌≤◌, MatchResult, Some, None, option_map, codes};
ghost use Rattle.clap.specs.Matches.{found_of};
ghost use Rattle.clap.specs.Walk.{first_of, rows_of};
ghost use Rattle.rv_engines.specs.Asking.{asking};
ghost use Rattle.rv_command.specs.Command as spec;
ghost use Rattle.rv_command.specs.ExplainLine as line;

use super::complaint::{Complaint, NumberOption};
use super::hunt::{json_of, lines_of};
use super::number::{number_if, number_or};
use super::paths::saved_of;
use super::{Job, text_of};
use crate::arguments::PicturePath;
use clap::ArgMatches;
use rv_engines::explain::options::ExplainOptions;

/// How many entries are told around each place, where the line does not say.
pub const DEFAULT_AROUND: u32 = 3;

/// The most entries around a place in the text.
pub const MOST_AROUND: u32 = 1000;

/// The most entries around a place in a picture, where each is a row.
pub const MOST_AROUND_IN_PICTURE: u32 = 32;

/// The greatest number of a race that may be asked for.
pub const MOST_RACE: u32 = 4_294_967_295;

/// The number of the race that is told alone.
const RACE: NumberOption = NumberOption {
    name: "race",
    least: 1,
    most: MOST_RACE as u64,
};

/// `explain` with its options.
pub fn explain_of<'a>(given: &ArgMatches<'a>) -> Result<Job<'a>, Complaint<'a>>
    ensures { MatchResult result (λ job. spec.explain_at (rows_of (found_of given.now)) ≡ Some (spec.asked job))
        (λ _. spec.explain_at (rows_of (found_of given.now)) ≡ None) }
{
    let (image, schedule) = saved_of(given).ok_or(Complaint::Words)?;
    let options = options_of(given)?;
    Ok(Job::Explain {
        image,
        schedule,
        options,
        lines: lines_of(given),
        picture: text_of(given, "picture").map(|path| PicturePath(path)),
        json: json_of(given),
    })
}

fn options_of<'a>(given: &ArgMatches<'a>) -> Result<ExplainOptions<'a>, Complaint<'a>>
    ensures { MatchResult result (λ options. line.asking_at (rows_of (found_of given.now)) ≡ Some (asking options))
        (λ _. line.asking_at (rows_of (found_of given.now)) ≡ None) }
{
    let around = number_or(given, around_option(given), u64::from(DEFAULT_AROUND))?;
    let race = number_if(given, RACE)?;
    Ok(ExplainOptions {
        named: text_of(given, "named"),
        around: around as u32,
        race,
    })
}

/// The option of how many entries are told around each place, which are fewer in a picture.
fn around_option(given: &ArgMatches<'_>) -> NumberOption
    ensures name { result.name.now ≡ codes "around" }
    ensures least { result.least ≡ 0 }
    ensures most { result.most ≡ line.most_around (first_of (codes "picture") (rows_of (found_of given.now))) }
    ensures default { DEFAULT_AROUND ≤ result.most }
    ensures few { result.most ≤ MOST_AROUND }
{
    let most = match text_of(given, "picture") {
        None => MOST_AROUND,
        Some(_) => MOST_AROUND_IN_PICTURE,
    };
    NumberOption {
        name: "around",
        least: 0,
        most: u64::from(most),
    }
}
