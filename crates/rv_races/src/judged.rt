//! By what a report is judged, as `specs/Judged.antt` has it: the last stores to the bytes of those that found them changed.
ghost use Rattle.std.specs.Prelude.{◌≡◌, Some, IfOk, OnOk, map, option_map};
ghost use Rattle.std.specs.List.{list_any};
ghost use Rattle.std.specs.Option.{option_map_or, option_to_list};
ghost use Rattle.rv_collide.specs.Entries.{stepped_hart};
ghost use Rattle.rv_hart.specs.NextAccess.{accessed};
ghost use Rattle.rv_hart.specs.Run.{run as steps_from};
ghost use Rattle.rv_hart.specs.State.{start as first_state};
ghost use Rattle.rv_races.specs.Judged as spec;
ghost use Rattle.rv_races.specs.internal.LastStores as internal;

use rv_break::claim::Seen;
use rv_collide::collider::machine_of;
use rv_collide::ending::{Ending, Verdict};
use rv_collide::entry::Entry;
use rv_collide::plan::Plan;
use rv_elf::Image;
use rv_hart::access::{Access, Event};
use rv_hart::machine::{Machine, OUTPUT_LIMIT};
use rv_memory::paged::Paged;
use rv_memory::store::{ByteStore, NoMemory};
use rv_report::exhibiting::writes_over;
use std::alloc::Global;

/// An ending, and the verdict that it is judged by: of one that found its bytes changed the hit of the last store to them.
#[derive(Clone, Copy)]
pub struct Judged {
    pub ending: Ending,
    pub verdict: Verdict,
}

fn is_changed(told: &Ending) -> bool
    ensures { result ≡ spec.is_changed told.now }
{
    match told.verdict {
        Verdict::Changed => true,
        Verdict::Hit(_) | Verdict::Quiet => false,
    }
}

/// Whether one of the endings found its bytes changed.
fn has_changed(endings: &[Ending]) -> bool
    ensures { result ≡ list_any spec.is_changed endings.now }
{
    endings.iter().any(|told| is_changed(told))
}

fn accessed(event: Event) -> Option<Access>
    ensures { result ≡ accessed event }
{
    match event {
        Event::Moved(access) => access,
        Event::Exited(_) | Event::Stopped(_) => None,
    }
}

/// An access as a report names it, where a hart made one.
fn seen_by(place: u32, hart: u8, access: Option<Access>) -> Option<Seen>
    ensures { result ≡ option_map (λ access. record { place = place; hart = hart; access = access }) access }
{
    let access = access?;
    Some(Seen {
        place,
        hart,
        access,
    })
}

/// The hart that makes a step at an entry.
fn stepped_by(entry: Entry) -> Option<u8>
    ensures { result ≡ stepped_hart entry }
{
    match entry {
        Entry::Stepped(hart) => Some(hart),
        _ => None,
    }
}

/// Makes the step of an entry, if it is one. What it accessed.
fn make_step<S: ByteStore>(
    machine: &mut Machine<S>,
    entry: Entry,
    place: u32,
) -> Result<Option<Seen>, NoMemory>
    ensures on { OnOk result (steps_from machine.old.state (option_to_list (stepped_hart entry)) ≡ Some machine.new.state) }
    ensures seen { IfOk result (λ seen. seen ≡ internal.seen_by machine.old.state place (stepped_hart entry)) }
{
    let Some(hart) = stepped_by(entry) else {
        return Ok(None);
    };
    match machine.step(hart) {
        Ok(event) => Ok(seen_by(place, hart, accessed(event))),
        // A hart that stepped in the run steps here: only want of memory refuses it.
        Err(_) => Err(NoMemory),
    }
}

/// What each entry of a run accessed that begins as a machine stands.
fn made_by<S: ByteStore>(
    alloc: Global,
    machine: &mut Machine<S>,
    entries: &[Entry],
) -> Result<Vec<Option<Seen>>, NoMemory>
    ensures { IfOk result (λ made. made.items ≡ internal.made_in machine.old.state entries.now) }
{
    let mut made = Vec::new(alloc);
    for n in 0..entries.len() {
        // A run has far fewer entries than 2^32.
        let Ok(place) = u32::try_from(n) else {
            return Err(NoMemory);
        };
        made.push(make_step(machine, entries[n], place)?)?;
    }
    Ok(made)
}

/// What the entry at a place accessed.
fn made_at(made: &[Option<Seen>], place: u32) -> Option<Seen>
    ensures { result ≡ internal.made_at made.now place }
{
    match made.get(place as usize) {
        Some(seen) => *seen,
        None => None,
    }
}

/// The later of two accesses where there is one and it writes one of the bytes.
fn last_after(paused: &Access, last: Option<Seen>, seen: Option<Seen>) -> Option<Seen>
    ensures { result ≡ option_map_or (spec.store_or paused.now last) seen last }
{
    match seen {
        Some(seen) if writes_over(paused, &seen.access) => Some(seen),
        _ => last,
    }
}

/// The last store within a pause to its bytes.
fn last_among(made: &[Option<Seen>], told: &Ending) -> Option<Seen>
    ensures { result ≡ internal.last_among made.now told.now }
{
    if told.resumed_at <= told.paused_at {
        return None;
    }
    let mut last = None;
    for place in told.paused_at + 1..told.resumed_at {
        last = last_after(&told.access, last, made_at(made, place));
    }
    last
}

fn judged_by(made: &[Option<Seen>], told: &Ending) -> Judged
    ensures { result ≡ internal.judged_with made.now told.now }
{
    let verdict = match told.verdict {
        Verdict::Changed => match last_among(made, told) {
            Some(seen) => Verdict::Hit(seen),
            None => Verdict::Changed,
        },
        verdict => verdict,
    };
    Judged {
        ending: *told,
        verdict,
    }
}

fn all_judged(
    alloc: Global,
    made: &[Option<Seen>],
    endings: &[Ending],
) -> Result<Vec<Judged>, NoMemory>
    ensures { IfOk result (λ judged. judged.items ≡ map (internal.judged_with made.now) endings.now) }
{
    Ok(
        endings
            .iter()
            .map(|told| judged_by(made, told))
            .collect(alloc)?,
    )
}

/// Makes such steps.
fn make_steps<S: ByteStore>(machine: &mut Machine<S>, steps: &[u8]) -> Result<(), NoMemory>
    ensures { OnOk result (steps_from machine.old.state steps.now ≡ Some machine.new.state) }
{
    for n in 0..steps.len() {
        make_step(machine, Entry::Stepped(steps[n]), 0)?;
    }
    Ok(())
}

/// The endings of a run behind such steps from an image's start, each with what it is judged by. The run is made again only where one
/// of them found its bytes changed.
pub fn judged_in(
    alloc: Global,
    image: &Image,
    plan: &Plan,
    steps: &[u8],
    entries: &[Entry],
    endings: &[Ending],
) -> Result<Vec<Judged>, NoMemory>
    ensures { IfOk result (λ judged. judged.items ≡ map (spec.judged (spec.run_behind image.now
        (first_state image.now.segments image.now.entry plan.now.harts) steps.now entries.now)) endings.now) }
{
    if !has_changed(endings) {
        return all_judged(alloc, &[], endings);
    }
    let mut machine: Machine<Paged> = machine_of(alloc, image, plan.harts, OUTPUT_LIMIT)?;
    make_steps(&mut machine, steps)?;
    let made = made_by(alloc, &mut machine, entries)?;
    all_judged(alloc, &made, endings)
}
