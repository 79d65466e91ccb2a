//! What is counted of a run, as `specs/Summary.antt` has it.
ghost use Rattle.std.specs.Prelude.{◌≡◌, ◌++◌, ◌≤◌, None, IfOk, OnOk, is_some, length, map};
ghost use Rattle.std.specs.Option.{option_to_list};
ghost use Rattle.rv_collide.specs.Entries.{stepped_at, stepped_hart, steps as steps_of};
ghost use Rattle.rv_collide.specs.Numbers.{numbers};
ghost use Rattle.rv_collide.specs.Stored.{setting_of};
ghost use Rattle.rv_hart.specs.State.{State};
ghost use Rattle.rv_search.specs.Summary as spec;
ghost use Rattle.rv_search.specs.internal.Counting as internal;

use crate::end::End;
use crate::tally::counts::{Counts, raised};
use rv_collide::collider::{Collider, Finished};
use rv_collide::ending::{Ending, Verdict};
use rv_collide::entry::Entry;
use rv_hart::hart::Status;
use rv_memory::flat::Flat;
use rv_memory::store::NoMemory;
use std::alloc::Global;

/// What is counted of a run: how many steps its plan allows, and how its harts ended, in their order; of a sampled run the
/// addresses that were armed, and those at which its harts were paused, in their order and as often as that was done; its numbers,
/// with those of its probes, and once more if it is a sampled run; how many probes it made; of a walk whether it made all steps
/// that a walk may make and saw no near pair; and how many steps the copies of its trials made.
#[derive(Drop)]
pub struct Summary {
    pub most_steps: u32,
    pub ends: Vec<End>,
    pub armed: Vec<u32>,
    pub paused: Vec<u32>,
    pub counts: Counts,
    pub sampled: Counts,
    pub probes: u64,
    pub walk: Option<bool>,
    pub tried: u64,
}

pub(crate) fn end_with(status: Status, pc: u32) -> End
    ensures { result ≡ spec.end_with status pc }
{
    match status {
        Status::Exited(code) => End::Exited(code),
        Status::Stopped(cause) => End::Stopped(cause, pc),
        Status::Running => End::OutOfSteps,
    }
}

/// How the harts of a run ended, with whose core it is over.
pub(crate) fn ends_of(alloc: Global, core: &Collider<Flat>) -> Result<Vec<End>, NoMemory>
    ensures { IfOk result (λ ends. ends.items ≡ spec.ends (setting_of core.now).start core.now.entries) }
{
    let machine = core.machine();
    let mut ends = Vec::new(alloc);
    for h in 0..machine.harts() {
        ends.push(end_with(machine.status(h), machine.pc(h)))?;
    }
    Ok(ends)
}

/// The address that an entry arms.
fn armed_address(entry: Entry) -> Option<u32>
    ensures { result ≡ spec.armed_address entry }
{
    match entry {
        Entry::Armed(address) => Some(address),
        Entry::Disarmed(_) | Entry::Stepped(_) | Entry::Paused(_, _) | Entry::Resumed(_) => None,
    }
}

/// How many steps an entry is.
fn steps_at(entry: Entry) -> u64
    ensures value { result ≡ length (option_to_list (stepped_hart entry)) }
    ensures few { result ≤ 1 }
{
    match entry {
        Entry::Stepped(_) => 1,
        Entry::Armed(_) | Entry::Disarmed(_) | Entry::Paused(_, _) | Entry::Resumed(_) => 0,
    }
}

/// Adds an address, if there is one.
fn push_some(addresses: &mut Vec<u32>, address: Option<u32>) -> Result<(), NoMemory>
    ensures { OnOk result (addresses.new.items ≡ addresses.old.items ++ option_to_list address) }
{
    if let Some(address) = address {
        addresses.push(address)?;
    }
    Ok(())
}

/// The addresses that were armed in a run.
fn armed_in(alloc: Global, entries: &[Entry]) -> Result<Vec<u32>, NoMemory>
    ensures { IfOk result (λ armed. armed.items ≡ spec.armed_in entries.now) }
{
    let mut armed = Vec::new(alloc);
    for n in 0..entries.len() {
        let entry = entries[n];
        push_some(&mut armed, armed_address(entry))?;
    }
    Ok(armed)
}

/// How many steps the harts of a run made.
fn steps_in(entries: &[Entry]) -> u64
    ensures { result ≡ length (steps_of entries.now) }
{
    let mut steps = 0u64;
    for n in 0..entries.len() {
        let entry = entries[n];
        steps += steps_at(entry);
    }
    steps
}

/// Whether a hart makes a step at a place.
#[tactic(auto, unfolding(rv_collide::specs::Entries::stepped_at))]
fn is_step(entries: &[Entry], place: u32) -> bool
    ensures { result ≡ is_some (stepped_at entries.now place) }
{
    match entries.get(place as usize) {
        Some(Entry::Stepped(_)) => true,
        _ => false,
    }
}

/// Whether a hart makes a step within a pause.
fn has_step_within(entries: &[Entry], ending: &Ending) -> bool
    ensures { result ≡ spec.has_step_within entries.now ending.now }
{
    let first = u64::from(ending.paused_at) + 1;
    for place in first..u64::from(ending.resumed_at) {
        if is_step(entries, place as u32) {
            return true;
        }
    }
    false
}

/// The numbers with one more pause, that ended so.
fn with_ending(entries: &[Entry], counts: Counts, ending: &Ending) -> Counts
    ensures { result ≡ internal.with_ending entries.now counts ending.now }
{
    let mut more = counts;
    match ending.verdict {
        Verdict::Quiet => more.quiet = counts.quiet.saturating_add(1),
        Verdict::Hit(_) => more.hit = counts.hit.saturating_add(1),
        Verdict::Changed => more.changed = counts.changed.saturating_add(1),
    }
    more.unwatched = raised(counts.unwatched, ending.slot.is_none());
    more.passed = raised(counts.passed, has_step_within(entries, ending));
    more
}

/// The numbers of a schedule whose pauses ended so.
pub(crate) fn counts_of(entries: &[Entry], endings: &[Ending]) -> Counts
    ensures { result ≡ spec.counts_of entries.now endings.now }
{
    let mut counts = Counts {
        steps: steps_in(entries),
        ..Counts::none()
    };
    for n in 0..endings.len() {
        counts = with_ending(entries, counts, &endings[n]);
    }
    counts
}

/// The addresses at which harts were paused, as often as that was done.
fn paused_in(alloc: Global, endings: &[Ending]) -> Result<Vec<u32>, NoMemory>
    ensures { IfOk result (λ paused. paused.items ≡ map spec.paused_at endings.now) }
{
    Ok(
        endings
            .iter()
            .map(|ending| ending.access.pc)
            .collect(alloc)?,
    )
}

/// What is counted of a sampled run whose harts ended so.
pub(crate) fn sampled_summary(
    alloc: Global,
    ends: Vec<End>,
    left: &Finished,
) -> Result<Summary, NoMemory>
    ensures { IfOk result (λ summary. (start : State) → ends.items ≡ spec.ends start left.now.entries.items
        → spec.IsSampledSummary start left.now summary) }
{
    let counts = counts_of(&left.entries, &left.endings);
    let armed = armed_in(alloc, &left.entries)?;
    let paused = paused_in(alloc, &left.endings)?;
    Ok(Summary {
        most_steps: left.plan.steps,
        ends,
        armed,
        paused,
        counts,
        sampled: counts,
        probes: 0,
        walk: None,
        tried: 0,
    })
}
