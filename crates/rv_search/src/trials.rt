//! The trials of a run: of reports of its probes both orders are tried, from where the probe stood before the second access.
//!
//! A walk of T steps has trials with a chance of T in `ALL_FROM`. Each race that its probes report is tried once, in the order in which the
//! reports come, until the copies have made T steps, or `ALL_FROM` where that is more. These are spread over the probes, so that long walks,
//! which all begin alike, try other races: where a share of the probes is made, no more than that share of the steps may be.
ghost use Rattle.std.specs.Prelude.{◌≡◌, [], OnOk};
ghost use Rattle.rv_search.specs.internal.Tried.{KeepsTried};

use crate::hunt::Hunt;
use rv_collide::ending::{Ending, Verdict};
use rv_collide::entry::Entry;
use rv_debug::word::word_at;
use rv_explain::order::{is_as_paused, most_steps};
use rv_hart::access::{Access, Event};
use rv_hart::machine::Machine;
use rv_memory::paged::Paged;
use rv_memory::store::NoMemory;
use rv_orders::{Trial, trial};
use rv_report::key::Key;
use rv_sample::Generator;
use rv_tables::orders::TriedOrder;
use rv_tables::row::PartReport;
use rv_walk::probes::{Part, Probes};
use std::alloc::Global;

/// From how many steps on each walk has trials, and how many steps of copies these have at least.
const ALL_FROM: u32 = 40_000;

/// What is added to the seed for the words of a run's trials.
const TRIALS: u64 = 1 << 33;

/// The second access of a report: the place of its entry, and the hart.
#[derive(Clone, Copy)]
struct Second {
    place: u32,
    hart: u8,
}

/// The trials of a run so far.
#[derive(Drop)]
pub(crate) struct Trials {
    seed: u32,
    run: u32,
    /// Whether the run has trials.
    are_made: bool,
    /// How many probes the run has, and how many steps the copies may have made at the last before another trial begins.
    probes: u64,
    most: u64,
    pub(crate) steps: u64,
    pub(crate) tried: Vec<TriedOrder>,
}

/// The word of that number for the trials of a run.
fn word_of(seed: u32, run: u32, number: u32) -> u32 {
    let stream = u64::from(number) << 32 | u64::from(run);
    Generator::new(TRIALS + u64::from(seed), stream).next()
}

/// How many steps both copies made.
fn steps_of(made: &Trial) -> u64 {
    let first = made.first.harts.len() as u64;
    first.saturating_add(made.second.harts.len() as u64)
}

/// Whether an access of another hart writes one of the bytes.
fn writes(access: &Access, bytes: &Access) -> bool {
    let end = u64::from(access.first) + u64::from(access.size);
    let other_end = u64::from(bytes.first) + u64::from(bytes.size);
    access.write && u64::from(access.first.max(bytes.first)) < end.min(other_end)
}

/// Makes the step of an entry, where it is one.
fn make_step(machine: &mut Machine<Paged>, entry: Entry) -> Result<Option<Access>, NoMemory> {
    let Entry::Stepped(h) = entry else {
        return Ok(None);
    };
    match machine.step(h) {
        Ok(Event::Moved(access)) => Ok(access),
        Ok(_) => Ok(None),
        // A hart that stepped in the probe steps here, where memory is not refused.
        Err(_) => Err(NoMemory),
    }
}

/// The last store to the bytes of a report within its pause, from a machine before that on.
fn last_store(
    machine: &mut Machine<Paged>,
    entries: &[Entry],
    ending: &Ending,
) -> Result<Option<Second>, NoMemory> {
    let mut last = None;
    for place in ending.paused_at..ending.resumed_at {
        let Some(entry) = entries.get(place as usize) else {
            return Ok(last);
        };
        let access = make_step(machine, *entry)?;
        if let (Entry::Stepped(hart), Some(access)) = (*entry, access) {
            if writes(&access, &ending.access) {
                last = Some(Second { place, hart });
            }
        }
    }
    Ok(last)
}

impl Trials {
    /// Those of the run of that number, whose walk has so many steps, and which has so many probes, before the first.
    pub(crate) fn of(
        alloc: Global,
        hunt: &Hunt<'_>,
        run: u32,
        steps: usize,
        probes: usize,
    ) -> Trials
        ensures { result.tried.items ≡ [] }
    {
        // A walk has far fewer steps than 2^32.
        let steps = u32::try_from(steps).unwrap_or(u32::MAX);
        let chance = word_of(hunt.seed, run, 0) % ALL_FROM;
        Trials {
            seed: hunt.seed,
            run,
            are_made: hunt.orders && chance < steps,
            probes: probes as u64,
            most: u64::from(steps.max(ALL_FROM)),
            steps: 0,
            tried: Vec::new(alloc),
        }
    }

    /// Whether another trial is made at the probe of that number.
    fn go_on(&self, part: u32) -> bool {
        let spent = self.steps.saturating_mul(self.probes);
        self.are_made && spent < self.most.saturating_mul(u64::from(part))
    }

    /// Whether a race was tried.
    fn has(&self, key: &Key) -> bool {
        self.tried.iter().any(|one| one.key == *key)
    }

    /// Tries the order of a report of the last part that was made, where another trial is made and its race wasn't tried.
    pub(crate) fn add(
        &mut self,
        alloc: Global,
        probes: &mut Probes<'_, Paged>,
        part: &Part,
        report: &PartReport,
    ) -> Result<(), NoMemory>
        ensures probes { probes.new ≡ probes.old }
        ensures tried { OnOk result (KeepsTried report.now self.old.tried.items self.new.tried.items) }
    {
        if !self.go_on(report.part) || self.has(&report.report.key) {
            return Ok(());
        }
        let number = self.number();
        match made_of(alloc, probes, part, &report.report.ending, number)? {
            Some(made) => self.note(report, number, &made),
            None => Ok(()),
        }
    }

    /// The number of the next trial.
    fn number(&self) -> u32 {
        let count = u32::try_from(self.tried.len()).unwrap_or(u32::MAX);
        word_of(self.seed, self.run, count.saturating_add(1))
    }

    /// Notes a trial.
    fn note(&mut self, report: &PartReport, number: u32, made: &Trial) -> Result<(), NoMemory>
        ensures { OnOk result (KeepsTried report.now self.old.tried.items self.new.tried.items) }
    {
        self.steps = self.steps.saturating_add(steps_of(made));
        self.tried.push(TriedOrder {
            key: report.report.key,
            part: report.part,
            entry: report.before.saturating_add(report.report.ending.paused_at),
            number,
            difference: made.difference,
        })?;
        Ok(())
    }
}

/// The trial of that number of a report of the last part that was made, where there is one.
fn made_of(
    alloc: Global,
    probes: &mut Probes<'_, Paged>,
    part: &Part,
    ending: &Ending,
    number: u32,
) -> Result<Option<Trial>, NoMemory>
    ensures { probes.new ≡ probes.old }
{
    let Some(second) = second_of(probes, part, ending)? else {
        return Ok(None);
    };
    let Some(mut machine) = machine_at(probes, part, ending, second)? else {
        return Ok(None);
    };
    let most = most_steps(&machine, part.place.saturating_add(second.place));
    if most < 2 {
        return Ok(None);
    }
    trial(alloc, &mut machine, second.hart, ending.hart, number, most)
}

/// The machine as it stood before the second access of a report of the last part that was made, where memory has the word at the paused
/// hart's instruction that it had at the pause.
fn machine_at(
    probes: &mut Probes<'_, Paged>,
    part: &Part,
    ending: &Ending,
    second: Second,
) -> Result<Option<Machine<Paged>>, NoMemory>
    ensures { probes.new ≡ probes.old }
{
    let Some(mut machine) = probes.before(part, ending.paused_at)? else {
        return Ok(None);
    };
    let word = word_at(&machine, ending.access.pc);
    let entries = &part.probed.finished.entries;
    for place in ending.paused_at..second.place {
        if let Some(entry) = entries.get(place as usize) {
            make_step(&mut machine, *entry)?;
        }
    }
    if is_as_paused(&machine, ending.access.pc, word) {
        Ok(Some(machine))
    } else {
        Ok(None)
    }
}

/// The second access of a report of the last part that was made; none where there is no such access.
fn second_of(
    probes: &mut Probes<'_, Paged>,
    part: &Part,
    ending: &Ending,
) -> Result<Option<Second>, NoMemory>
    ensures { probes.new ≡ probes.old }
{
    match ending.verdict {
        Verdict::Hit(seen) => Ok(Some(Second {
            place: seen.place,
            hart: seen.hart,
        })),
        Verdict::Quiet => Ok(None),
        Verdict::Changed => match probes.before(part, ending.paused_at)? {
            Some(mut machine) => { last_store(&mut machine, &part.probed.finished.entries, ending) }
            None => Ok(None),
        },
    }
}
