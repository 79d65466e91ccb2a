//! The endings of the record's pauses, and the accesses that met them.
ghost use Rattle.std.specs.Prelude.{◌≡◌, ◌+◌, ◌-◌, ◌<◌, ◌≤◌, IfOk, IfSome, OnOk, length, slice_get};
ghost use Rattle.rv_collide.specs.Entries.{stepped_at, stepped_hart};
ghost use Rattle.rv_debug.specs.Placed.{setting};
ghost use Rattle.rv_debug.specs.Visited.{IsVisit};
ghost use Rattle.rv_report.specs.Exhibit.{stores_at};
ghost use Rattle.rv_report.specs.OfPause.{IsOfPause};
ghost use Rattle.rv_retrace.specs.Going.{last_in};
ghost use Rattle.rv_stub.specs.Met as spec;

use rv_collide::ending::{Ending, Verdict};
use rv_collide::entry::Entry;
use rv_debug::session::Session;
use rv_debug::session::visit::Visit;
use rv_memory::store::NoMemory;
use rv_report::exhibiting::{endings_are_of_pauses, writes_over};

/// An access of a hart other than the paused one: the place of its entry, and the hart.
#[derive(Clone, Copy)]
pub struct Met {
    pub place: u32,
    pub hart: u8,
}

fn stepped(entry: Entry) -> Option<u8>
    ensures { result ≡ stepped_hart entry }
{
    match entry {
        Entry::Stepped(hart) => Some(hart),
        Entry::Paused(_, _) | Entry::Resumed(_) | Entry::Armed(_) | Entry::Disarmed(_) => None,
    }
}

/// The hart that makes a step at a place.
#[tactic(auto, unfolding(rv_collide::specs::Entries::stepped_at))]
fn met_at(entries: &[Entry], place: u32) -> Option<u8>
    ensures value { result ≡ stepped_at entries.now place }
    ensures within { IfSome result (λ hart. place < length entries.now) }
{
    match entries.get(place as usize) {
        Some(entry) => stepped(*entry),
        None => None,
    }
}

/// Whether the step at a visit's place writes over the paused access of an ending. The visit goes on.
#[tactic(auto, unfolding(rv_report::specs::Exhibit::stores_at))]
fn stores(session: &Session, visit: &mut Visit, told: &Ending) -> Result<bool, NoMemory>
    requires here { IsVisit session.now visit.old.place visit.old }
    requires before { visit.old.place < length session.now.entries }
    ensures value { IfOk result (λ stores. stores ≡ stores_at (setting session.now).start session.now.entries told.now.access visit.old.place) }
    ensures after { OnOk result (IsVisit session.now (visit.old.place + 1) visit.new) }
{
    match session.pass_on(visit)? {
        Some(access) => Ok(writes_over(&told.access, &access)),
        None => Ok(false),
    }
}

/// The last place from a visit's on, and before the end of a pause, where a step writes over the paused access.
fn last_from(session: &Session, visit: &mut Visit, told: &Ending) -> Result<Option<u32>, NoMemory>
    requires here { IsVisit session.now visit.old.place visit.old }
    requires starts { visit.old.place ≤ told.now.resumed_at }
    requires inside { told.now.resumed_at < length session.now.entries }
    ensures { IfOk result (λ last. last ≡ last_in (spec.store_at session.now told.now) visit.old.place (told.now.resumed_at - visit.old.place)) }
{
    let mut last = None;
    for place in visit.place()..told.resumed_at {
        let _here = place;
        if stores(session, visit, told)? {
            last = Some(place);
        }
    }
    Ok(last)
}

/// The last place within a pause where a step writes over the paused access.
fn last_store(session: &mut Session, told: &Ending) -> Result<Option<u32>, NoMemory>
    requires starts { told.now.paused_at < told.now.resumed_at }
    requires inside { told.now.resumed_at < length session.old.entries }
    ensures value { IfOk result (λ last. last ≡ spec.last_store session.old told.now) }
    ensures same { session.new ≡ session.old }
{
    let _count = session.count();
    let mut visit = session.visit(told.paused_at + 1)?;
    last_from(session, &mut visit, told)
}

/// The place of the access that a report names beside the paused one.
fn place_of(session: &mut Session, told: &Ending) -> Result<Option<u32>, NoMemory>
    requires starts { told.now.paused_at < told.now.resumed_at }
    requires inside { told.now.resumed_at < length session.old.entries }
    ensures value { IfOk result (λ place. place ≡ spec.place_by session.old told.now told.now.verdict) }
    ensures same { session.new ≡ session.old }
{
    match told.verdict {
        Verdict::Hit(seen) => Ok(Some(seen.place)),
        Verdict::Changed => last_store(session, told),
        Verdict::Quiet => Ok(None),
    }
}

/// The access that met the pause of an ending. None where it is no report.
pub(crate) fn met_by(session: &mut Session, told: &Ending) -> Result<Option<Met>, NoMemory>
    requires starts { told.now.paused_at < told.now.resumed_at }
    requires inside { told.now.resumed_at < length session.old.entries }
    ensures value { IfOk result (λ met. met ≡ spec.met_by session.old told.now) }
    ensures within { IfOk result (λ met. IfSome met (λ met. met.place < length session.old.entries)) }
    ensures same { session.new ≡ session.old }
{
    let Some(place) = place_of(session, told)? else {
        return Ok(None);
    };
    match met_at(session.entries(), place) {
        Some(hart) => Ok(Some(Met { place, hart })),
        None => Ok(None),
    }
}

fn ending_at(endings: &[Ending], n: u32) -> Option<Ending>
    ensures { result ≡ slice_get endings.now n }
{
    endings.get(n as usize).copied()
}

/// The ending of a number.
pub(crate) fn ending_of(session: &Session, n: u32) -> Option<Ending>
    ensures value { result ≡ slice_get (spec.endings_of session.now) n }
    ensures of_pause { IfSome result (IsOfPause (setting session.now).start session.now.entries) }
{
    endings_are_of_pauses();
    session.facts();
    ending_at(session.endings(), n)
}
