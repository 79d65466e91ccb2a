//! From a report to its exhibit.
ghost use Rattle.std.specs.Prelude.{◌≡◌, ◌≢◌, ◌==◌, ◌+◌, ◌<◌, ◌≤◌, [], IfOk, IfErr, OnOk, length, slice_get, take};
ghost use Rattle.rv_collide.specs.Entries.{steps};
ghost use Rattle.rv_collide.specs.Legal.{IsLegal};
ghost use Rattle.rv_collide.specs.Numbers.{numbers};
ghost use Rattle.rv_collide.specs.Stored.{setting_of, stored};
ghost use Rattle.rv_collide.specs.Verdict.{endings};
ghost use Rattle.rv_collide.specs.declared.ending.Verdict.TheVariants as verdict;
ghost use Rattle.rv_hart.specs.State as state;
ghost use Rattle.rv_report.specs.Exhibit as spec;
ghost use Rattle.rv_report.specs.OfPause.{EndingsAreOfPauses, IsOfPause};
ghost use Rattle.rv_report.specs.SideBySide.{StandSideBySide};
ghost use Rattle.rv_report.specs.declared.exhibit.ExhibitFault.TheVariants as fault_is;
ghost use Rattle.rv_report.specs.internal.Paused as internal;

use crate::exhibit::{Exhibit, ExhibitFault};
use rv_collide::changed_laws::changes_of_a_pause;
use rv_collide::collider::Collider;
use rv_collide::ending::{Ending, Verdict};
use rv_collide::entry::Entry;
use rv_collide::laws::schedules;
use rv_collide::number::number_at;
use rv_collide::pause_laws::pauses_that_ended;
use rv_collide::plan::Plan;
use rv_collide::replay::{ReplayFault, replay};
use rv_collide::told::{advance, collider_at};
use rv_elf::Image;
use rv_hart::access::Access;
use rv_hart::laws::{reservations_and_accesses, what_no_step_does};
use rv_memory::flat::Flat;
use rv_memory::laws::store_keeps_the_rest;
use rv_memory::store::NoMemory;
use std::alloc::Global;

/// The exhibit of ending n of a list of entries. Its list holds the steps of the entries up to the other hart's
/// access: of a Hit the one that it names, of a Changed the last within the pause that writes one of the bytes. A
/// step of the paused hart follows.
pub fn exhibit(
    alloc: Global,
    image: &Image,
    plan: Plan,
    entries: &[Entry],
    n: u32,
) -> Result<Exhibit, ExhibitFault>
    ensures ok { IfOk result (λ exhibit.
        spec.IsExhibit (setting_of (stored image.now (numbers plan) [])) entries.now n exhibit) }
    ensures side_by_side { IfOk result (λ exhibit.
        StandSideBySide (state.start image.now.segments image.now.entry plan.harts) exhibit.harts.items exhibit.first exhibit.second) }
    ensures err { IfErr result (λ fault.
        spec.IsExhibitFault (setting_of (stored image.now (numbers plan) [])) entries.now n fault) }
{
    side_by_side();
    let told = report(alloc, image, plan, entries, n)?;
    let other = other_access(alloc, image, plan, entries, &told)?;
    let same = is_same_word(alloc, image, plan, entries, &told, other.place + 1)?;
    if !same {
        return Err(ExhibitFault::TextChanged);
    }
    let harts = harts_to(alloc, entries, other.place, told.hart)?;
    Ok(Exhibit {
        harts,
        first: other.access,
        second: told.access,
    })
}

/// Laws of exhibits, in a user's words: an ending has one exhibit at most, and none where a fault but want of memory
/// may be told of it; nor may two such faults be told of it. So `exhibit` refuses exactly where its fault is stated,
/// unless a growth was refused.
pub fn exhibits()
    ensures one { spec.OneExhibit }
    ensures none { spec.NoneOfAFault }
    ensures fault { spec.OneFault }
{}

/// Each ending of a legal schedule is of a pause of it: that pause has begun before it, its hart stood still, a hit
/// names the first access that conflicts, and before a change another hart wrote one of the bytes.
pub fn endings_are_of_pauses()
    ensures { EndingsAreOfPauses }
{
    schedules();
    pauses_that_ended();
    changes_of_a_pause();
}

/// The access that a report names beside the paused one, and its place.
#[derive(Clone, Copy)]
struct Other {
    place: u32,
    access: Access,
}

impl From<NoMemory> for ExhibitFault {
    ghost from_gives = { λ _ fault. fault ≡ fault_is.NoMemory };

    fn from(_: NoMemory) -> ExhibitFault {
        ExhibitFault::NoMemory
    }
}

/// Ending n of a schedule, where it is a report.
fn report(
    alloc: Global,
    image: &Image,
    plan: Plan,
    entries: &[Entry],
    n: u32,
) -> Result<Ending, ExhibitFault>
    ensures legal { OnOk result (IsLegal (setting_of (stored image.now (numbers plan) [])) entries.now) }
    ensures ending { IfOk result (λ told.
        slice_get (endings (setting_of (stored image.now (numbers plan) [])).start entries.now) n ≡ Some told) }
    ensures of_pause { IfOk result (λ told.
        IsOfPause (setting_of (stored image.now (numbers plan) [])).start entries.now told) }
    ensures report { IfOk result (λ told. told.verdict ≢ verdict.Quiet) }
    ensures err { IfErr result (λ fault.
        spec.IsExhibitFault (setting_of (stored image.now (numbers plan) [])) entries.now n fault) }
{
    endings_are_of_pauses();
    let told = ending(alloc, image, plan, entries, n)?;
    match told.verdict {
        Verdict::Hit(_) | Verdict::Changed => Ok(told),
        Verdict::Quiet => Err(ExhibitFault::NotReport),
    }
}

/// Ending n of a schedule.
fn ending(
    alloc: Global,
    image: &Image,
    plan: Plan,
    entries: &[Entry],
    n: u32,
) -> Result<Ending, ExhibitFault>
    ensures legal { OnOk result (IsLegal (setting_of (stored image.now (numbers plan) [])) entries.now) }
    ensures ending { IfOk result (λ told.
        slice_get (endings (setting_of (stored image.now (numbers plan) [])).start entries.now) n ≡ Some told) }
    ensures err { IfErr result (λ fault.
        spec.IsExhibitFault (setting_of (stored image.now (numbers plan) [])) entries.now n fault) }
{
    let collider: Collider<Flat> = match replay(alloc, image, plan, entries) {
        Ok(collider) => collider,
        Err(ReplayFault::NoMemory) => return Err(ExhibitFault::NoMemory),
        Err(ReplayFault::Entry { place, why }) => return Err(ExhibitFault::Replay { place, why }),
    };
    if n >= collider.endings() {
        return Err(ExhibitFault::NoEnding);
    }
    Ok(collider.ending(n))
}

/// The access of a report beside the paused one.
fn other_access(
    alloc: Global,
    image: &Image,
    plan: Plan,
    entries: &[Entry],
    told: &Ending,
) -> Result<Other, NoMemory>
    requires legal { IsLegal (setting_of (stored image.now (numbers plan) [])) entries.now }
    requires of_pause { IsOfPause (setting_of (stored image.now (numbers plan) [])).start entries.now told.now }
    requires report { told.now.verdict ≢ verdict.Quiet }
    ensures { IfOk result (λ other.
        internal.IsOtherAccess (setting_of (stored image.now (numbers plan) [])).start entries.now told.now other) }
{
    match told.verdict {
        Verdict::Hit(seen) => Ok(Other {
            place: seen.place,
            access: seen.access,
        }),
        Verdict::Changed => match last_store(alloc, image, plan, entries, told)? {
            Some(other) => Ok(other),
            None => unreachable!(),
        },
        Verdict::Quiet => unreachable!(),
    }
}

/// The last access within a pause that writes one of its bytes.
fn last_store(
    alloc: Global,
    image: &Image,
    plan: Plan,
    entries: &[Entry],
    told: &Ending,
) -> Result<Option<Other>, NoMemory>
    requires legal { IsLegal (setting_of (stored image.now (numbers plan) [])) entries.now }
    requires starts { told.now.paused_at < told.now.resumed_at }
    requires inside { told.now.resumed_at < length entries.now }
    ensures { IfOk result (λ last.
        internal.LastBefore (setting_of (stored image.now (numbers plan) [])).start entries.now told.now told.now.resumed_at last) }
{
    let after = told.paused_at + 1;
    let mut collider = collider_at(alloc, image, plan, entries, after)?;
    let mut last = None;
    for place in after..told.resumed_at {
        let access = advance(&mut collider, entries, place);
        last = last_after(&told.access, last, place, access);
    }
    Ok(last)
}

/// The last such access when one more place is passed.
fn last_after(
    paused: &Access,
    last: Option<Other>,
    place: u32,
    access: Option<Access>,
) -> Option<Other>
    ensures { result ≡ internal.last_after paused.now last place access }
{
    match access {
        Some(access) => {
            if writes_over(paused, &access) {
                Some(Other { place, access })
            } else {
                last
            }
        }
        None => last,
    }
}

/// Whether an access writes one of the bytes of another.
pub fn writes_over(paused: &Access, access: &Access) -> bool
    ensures { result ≡ spec.writes_over paused.now access.now }
{
    let end = u64::from(paused.first) + u64::from(paused.size);
    let other_end = u64::from(access.first) + u64::from(access.size);
    access.write && u64::from(paused.first.max(access.first)) < end.min(other_end)
}

/// Whether the word of the paused instruction is at a place what it was at the pause.
fn is_same_word(
    alloc: Global,
    image: &Image,
    plan: Plan,
    entries: &[Entry],
    told: &Ending,
    place: u32,
) -> Result<bool, NoMemory>
    requires legal { IsLegal (setting_of (stored image.now (numbers plan) [])) entries.now }
    requires paused { told.now.paused_at ≤ length entries.now }
    requires within { place ≤ length entries.now }
    ensures { IfOk result (λ same.
        same ≡ (spec.paused_word (setting_of (stored image.now (numbers plan) [])).start entries.now told.now told.now.paused_at
        == spec.paused_word (setting_of (stored image.now (numbers plan) [])).start entries.now told.now place)) }
{
    let before = word_at(alloc, image, plan, entries, told.paused_at, told.access.pc)?;
    let after = word_at(alloc, image, plan, entries, place, told.access.pc)?;
    Ok(before == after)
}

/// The word at an address at a place.
fn word_at(
    alloc: Global,
    image: &Image,
    plan: Plan,
    entries: &[Entry],
    place: u32,
    address: u32,
) -> Result<u32, NoMemory>
    requires legal { IsLegal (setting_of (stored image.now (numbers plan) [])) entries.now }
    requires within { place ≤ length entries.now }
    ensures { IfOk result (λ word.
        word ≡ spec.word_at (setting_of (stored image.now (numbers plan) [])).start entries.now place address) }
{
    let collider = collider_at(alloc, image, plan, entries, place)?;
    Ok(number_at(collider.machine(), address, 4))
}

/// The harts of the steps up to a place, with the one there, and then the paused one.
fn harts_to(alloc: Global, entries: &[Entry], place: u32, paused: u8) -> Result<Vec<u8>, NoMemory>
    requires { place < length entries.now }
    ensures { IfOk result (λ harts. harts.items ≡ spec.harts_to entries.now place paused) }
{
    let mut harts = steps(alloc, entries, place as usize + 1)?;
    harts.push(paused)?;
    Ok(harts)
}

/// The harts of the steps of the first so many entries.
fn steps(alloc: Global, entries: &[Entry], count: usize) -> Result<Vec<u8>, NoMemory>
    requires { count ≤ length entries.now }
    ensures { IfOk result (λ harts. harts.items ≡ steps (take count entries.now)) }
{
    let mut harts = Vec::new(alloc);
    for i in 0..count {
        add_step(&mut harts, entries[i])?;
    }
    Ok(harts)
}

/// Adds the hart of an entry, if it is a step.
fn add_step(harts: &mut Vec<u8>, entry: Entry) -> Result<(), NoMemory>
    ensures { OnOk result (harts.new.items ≡ internal.with_step harts.old.items entry) }
{
    match entry {
        Entry::Stepped(hart) => harts.push(hart)?,
        Entry::Paused(_, _) | Entry::Resumed(_) | Entry::Armed(_) | Entry::Disarmed(_) => {}
    }
    Ok(())
}

/// The list of an exhibit ends in its two accesses.
fn side_by_side()
    ensures { internal.ExhibitsStandSideBySide }
{
    schedules();
    what_no_step_does();
    reservations_and_accesses();
    store_keeps_the_rest();
}
