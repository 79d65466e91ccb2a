//! The races of a run, as `specs/Races.antt` has it.
ghost use Rattle.std.specs.Prelude.{◌≡◌, ◌++◌, IfOk, OnOk, length, position};
ghost use Rattle.std.specs.Option.{option_to_list};
ghost use Rattle.rv_races.specs.Races as spec;

use crate::classes::{RaceClass, class_of, rank};
use crate::judged::{Judged, judged_in};
use rv_collide::ending::{Ending, Verdict};
use rv_debug::session::Session;
use rv_elf::Image;
use rv_memory::store::NoMemory;
use rv_prune::named_bytes::NamedBytes;
use rv_report::key::{Key, key_of};
use std::alloc::Global;

/// An ending that is a report: its number among the endings of its run, what it is about, what it counts as, and the verdict that it
/// is judged by.
#[derive(Clone, Copy)]
pub struct Report {
    pub number: u32,
    pub key: Key,
    pub class: RaceClass,
    pub ending: Ending,
    pub judged: Verdict,
}

/// A race: how many reports it has, and the one that it is told by, the first of those with the strongest class.
#[derive(Clone, Copy)]
pub struct Race {
    pub reports: u64,
    pub told: Report,
}

/// The races of a run in the order of their first reports, and how many reports and endings there are.
#[derive(Drop)]
pub struct RunRaces {
    pub races: Vec<Race>,
    pub reports: u64,
    pub endings: u64,
}

/// The races of a session's run. The ranges are those of the listed names.
pub fn races_in(
    alloc: Global,
    image: &Image,
    session: &Session,
    ranges: &NamedBytes,
) -> Result<RunRaces, NoMemory>
    requires { session.now.image ≡ image.now }
    ensures found { IfOk result (λ found. spec.found_of found ≡ spec.found (spec.run_of session.now) ranges.now) }
    ensures told { IfOk result (λ found. spec.AreTold (spec.run_of session.now) found.races.items) }
{
    let reports = reports_in(alloc, image, session, ranges)?;
    let races = races_of(alloc, &reports)?;
    Ok(RunRaces {
        races,
        reports: reports.len() as u64,
        endings: session.endings().len() as u64,
    })
}

/// The reports of a session's run. The ranges are those of the listed names.
#[tactic(auto, unfolding(crate::specs::Races::reports, crate::specs::Races::judged_endings))]
pub fn reports_in(
    alloc: Global,
    image: &Image,
    session: &Session,
    ranges: &NamedBytes,
) -> Result<Vec<Report>, NoMemory>
    requires { session.now.image ≡ image.now }
    ensures { IfOk result (λ reports. reports.items ≡ spec.reports (spec.run_of session.now) ranges.now) }
{
    let (entries, endings) = (session.entries(), session.endings());
    let judged = judged_in(alloc, image, &session.plan(), &[], entries, endings)?;
    reports_of(alloc, image, ranges, &judged)
}

/// The reports among the endings of a run, each of which comes with what it is judged by.
pub fn reports_of(
    alloc: Global,
    image: &Image,
    ranges: &NamedBytes,
    endings: &[Judged],
) -> Result<Vec<Report>, NoMemory>
    ensures { IfOk result (λ reports. reports.items
        ≡ spec.reports_of image.now ranges.now endings.now (length endings.now)) }
{
    let mut reports = Vec::new(alloc);
    for n in 0..endings.len() {
        // A run has far fewer endings than 2^32.
        let Ok(number) = u32::try_from(n) else {
            return Err(NoMemory);
        };
        add_found(&mut reports, report_at(image, ranges, endings, number))?;
    }
    Ok(reports)
}

/// Adds a report, where there is one.
fn add_found(reports: &mut Vec<Report>, report: Option<Report>) -> Result<(), NoMemory>
    ensures { OnOk result (reports.new.items ≡ reports.old.items ++ option_to_list report) }
{
    if let Some(report) = report {
        reports.push(report)?;
    }
    Ok(())
}

/// Ending n as a report, where it is one.
fn report_of(image: &Image, ranges: &NamedBytes, n: u32, one: &Judged) -> Option<Report>
    ensures { result ≡ spec.report_of image.now ranges.now n one.now }
{
    let key = key_of(&one.ending)?;
    Some(Report {
        number: n,
        key,
        class: class_of(image, ranges, one),
        ending: one.ending,
        judged: one.verdict,
    })
}

/// Ending n of a run as a report, where it is one.
fn report_at(image: &Image, ranges: &NamedBytes, endings: &[Judged], n: u32) -> Option<Report>
    ensures { result ≡ spec.report_at image.now ranges.now endings.now n }
{
    report_of(image, ranges, n, endings.get(n as usize)?)
}

/// The races of reports.
fn races_of(alloc: Global, reports: &[Report]) -> Result<Vec<Race>, NoMemory>
    ensures { IfOk result (λ races. races.items ≡ spec.races_of reports.now) }
{
    let mut races = Vec::new(alloc);
    for i in 0..reports.len() {
        add_report(&mut races, &reports[i])?;
    }
    Ok(races)
}

/// A report more: of a race that there is, or of a new one.
fn add_report(races: &mut Vec<Race>, report: &Report) -> Result<(), NoMemory>
    ensures { OnOk result (races.new.items ≡ spec.with_report races.old.items report.now) }
{
    match place_of(races, report) {
        Some(place) => races[place] = raised(&races[place], report),
        None => races.push(Race {
            reports: 1,
            told: *report,
        })?,
    }
    Ok(())
}

/// Whether the report is one of the race.
fn is_of(report: &Report, race: &Race) -> bool
    ensures { result ≡ spec.is_of report.now race.now }
{
    race.told.key == report.key
}

/// The place of the report's race.
fn place_of(races: &[Race], report: &Report) -> Option<usize>
    ensures { result ≡ position (spec.is_of report.now) races.now }
{
    races.iter().position(|race| is_of(report, race))
}

/// A race that has one report more.
fn raised(race: &Race, report: &Report) -> Race
    ensures { result ≡ spec.raised race.now report.now }
{
    Race {
        reports: race.reports.saturating_add(1),
        told: told_by(&race.told, report),
    }
}

/// The later of two reports only where its class is the stronger.
fn told_by(first: &Report, later: &Report) -> Report
    ensures { result ≡ spec.told_by first.now later.now }
{
    if rank(later.class) < rank(first.class) {
        *later
    } else {
        *first
    }
}
