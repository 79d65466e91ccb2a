//! The next stop of a run that goes on forwards.
ghost use Rattle.std.specs.Prelude.{◌≡◌, ◌+◌, ◌<◌, ◌≤◌, IfOk, IfSome, IfNone, length};
ghost use Rattle.rv_collide.specs.Entries.{stepped_at, stepped_hart};
ghost use Rattle.rv_debug.specs.Visited.{IsVisit};
ghost use Rattle.rv_hart.specs.declared.machine.TheConstants.{MOST_HARTS};
ghost use Rattle.rv_retrace.specs.Going as spec;

use crate::aims::{Aims, is_one};
use crate::meeting::{after_step, before_step};
use rv_collide::entry::Entry;
use rv_debug::session::Session;
use rv_debug::session::visit::Visit;
use rv_gdb::points::Points;
use rv_gdb::stop::Stop;
use rv_memory::store::NoMemory;

fn stepped(entry: Entry) -> Option<u8>
    ensures { result ≡ stepped_hart entry }
{
    match entry {
        Entry::Stepped(hart) => Some(hart),
        Entry::Paused(_, _) | Entry::Resumed(_) | Entry::Armed(_) | Entry::Disarmed(_) => None,
    }
}

/// The hart that makes a step at a place.
#[tactic(auto, unfolding(rv_collide::specs::Entries::stepped_at))]
fn stepped_at(session: &Session, place: u32) -> Option<u8>
    requires { place < length session.now.entries }
    ensures { result ≡ stepped_at session.now.entries place }
{
    stepped(session.entries()[place as usize])
}

/// The hart that makes a step at a place, if it may stop the run.
pub(crate) fn aimed_at(session: &Session, aims: &Aims, place: u32) -> Option<u8>
    requires { place < length session.now.entries }
    ensures { result ≡ spec.aimed_at session.now aims.now place }
{
    match stepped_at(session, place) {
        Some(hart) if is_one(&aims.among, hart) => Some(hart),
        _ => None,
    }
}

/// The stop at the step of a hart at a visit's place. The visit goes to where the run stops, or else to the next place.
fn stop_of_hart(
    session: &Session,
    visit: &mut Visit,
    points: &Points,
    aims: &Aims,
    hart: u8,
) -> Result<Option<Stop>, NoMemory>
    requires here { IsVisit session.now visit.old.place visit.old }
    requires before { visit.old.place < length session.now.entries }
    ensures value { IfOk result (λ stop. stop ≡ spec.forward_stop session.now points.now aims.now visit.old.place hart) }
    ensures near { IfOk result (λ stop. IfSome stop (λ stop. (stop.hart < MOST_HARTS) × (visit.old.place ≤ stop.place))) }
    ensures there { IfOk result (λ stop. IfSome stop (λ stop. IsVisit session.now stop.place visit.new)) }
    ensures next { IfOk result (λ stop. IfNone stop (IsVisit session.now (visit.old.place + 1) visit.new)) }
{
    let _count = session.count();
    let place = visit.place();
    if let Some(stop) = before_step(visit.machine(), points, place, hart) {
        return Ok(Some(stop));
    }
    let _access = session.pass_on(visit)?;
    Ok(after_step(visit.machine(), is_one(&aims.stepping, hart), place, hart))
}

/// The stop at a visit's place, as above.
#[tactic(auto, unfolding(crate::specs::Going::stop_forwards))]
fn stop_here(
    session: &Session,
    visit: &mut Visit,
    points: &Points,
    aims: &Aims,
) -> Result<Option<Stop>, NoMemory>
    requires here { IsVisit session.now visit.old.place visit.old }
    requires before { visit.old.place < length session.now.entries }
    ensures value { IfOk result (λ stop. stop ≡ spec.stop_forwards session.now points.now aims.now visit.old.place) }
    ensures near { IfOk result (λ stop. IfSome stop (λ stop. (stop.hart < MOST_HARTS) × (visit.old.place ≤ stop.place))) }
    ensures there { IfOk result (λ stop. IfSome stop (λ stop. IsVisit session.now stop.place visit.new)) }
    ensures next { IfOk result (λ stop. IfNone stop (IsVisit session.now (visit.old.place + 1) visit.new)) }
{
    match aimed_at(session, aims, visit.place()) {
        Some(hart) => stop_of_hart(session, visit, points, aims, hart),
        None => {
            let _access = session.pass_on(visit)?;
            Ok(None)
        }
    }
}

/// The first stop from a visit's place on, and before another place. The visit goes to where the run stops, or else to
/// that place: at most one step for each entry.
pub fn first_stop(
    session: &Session,
    visit: &mut Visit,
    points: &Points,
    aims: &Aims,
    to: u32,
) -> Result<Option<Stop>, NoMemory>
    requires here { IsVisit session.now visit.old.place visit.old }
    requires forwards { visit.old.place ≤ to }
    requires within { to ≤ length session.now.entries }
    ensures value { IfOk result (λ stop. stop ≡ spec.first_stop session.now points.now aims.now visit.old.place to) }
    ensures near { IfOk result (λ stop. IfSome stop (λ stop. (stop.hart < MOST_HARTS) × (visit.old.place ≤ stop.place))) }
    ensures there { IfOk result (λ stop. IfSome stop (λ stop. IsVisit session.now stop.place visit.new)) }
    ensures none { IfOk result (λ stop. IfNone stop (IsVisit session.now to visit.new)) }
{
    for place in visit.place()..to {
        let _here = place;
        let stop = stop_here(session, visit, points, aims)?;
        if stop.is_some() {
            return Ok(stop);
        }
    }
    Ok(None)
}
