//! What text, page and JSON are made of.
use crate::code_seen::CodeSeen;
use crate::shown::StuckEnds;
use rv_engines::built::Built;
use rv_plans::plans::Mix;
use rv_report::key::Key;
use rv_search::end_runs::EndRuns;
use rv_search::hunted::Hunted;
use rv_tables::row::RaceRow;
use std::marker::Model;

/// What a hunt came to: how many sites there are, what its runs are, what they saw, how much of the code they executed, in which
/// runs harts first ended in each way, the stuck ends, the rows of its races, the races as they are shown, the rows that are ignored, those
/// that may be bugs and are not expected, the first line of the list of expected ones with a name that the image lacks, and what the image was built with.
#[derive(Drop)]
pub struct Outcome<'a> {
    pub sites: u64,
    pub mix: Mix,
    pub saw: &'a Hunted,
    pub code: &'a CodeSeen,
    pub ends: &'a EndRuns,
    pub stuck: &'a StuckEnds,
    pub rows: &'a [(Key, RaceRow)],
    pub races: &'a [(Key, RaceRow)],
    pub ignored: &'a [(Key, RaceRow)],
    pub new: &'a [(Key, RaceRow)],
    pub gone: Option<u64>,
    pub misses: bool,
    pub built: Built,
}

/// What is told of the table of a hunt: how many runs it is of, the rows of its races, those that are ignored, those that may be bugs and are
/// not expected, the first line of the list of expected ones with a name that the image lacks, and whether the source lines have no
/// frame of the image.
#[derive(Clone, Copy)]
pub struct Tabled<'a> {
    pub runs: u64,
    pub rows: &'a [(Key, RaceRow)],
    pub ignored: &'a [(Key, RaceRow)],
    pub new: &'a [(Key, RaceRow)],
    pub gone: Option<u64>,
    pub misses: bool,
}

impl<'a> Model for Outcome<'a> {
    ghost use Rattle.std.specs.Prelude.{is_some};
    ghost use Rattle.rv_shown.specs.Outcome.{Outcome as Came};

    ghost Value = { Came };

    ghost view = { λ o. record { sites = o.sites; mix = o.mix; saw = o.saw.now; rows = o.rows.now; races = o.races.now; ignored = o.ignored.now; gone = is_some o.gone; misses = o.misses; built = o.built } };
}
