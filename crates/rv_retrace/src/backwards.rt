//! The last stop of a run that goes back.
ghost use Rattle.std.specs.Prelude.{◌≡◌, ◌+◌, ◌<◌, ◌≤◌, [], IfOk, IfSome, None, Some, if◌then◌else◌, length, option_and_then};
ghost use Rattle.std.specs.Option.{option_or};
ghost use Rattle.rv_debug.specs.Visited.{IsVisit};
ghost use Rattle.rv_gdb.specs.Stops.{trap};
ghost use Rattle.rv_gdb.specs.declared.stop.Why.TheVariants as why_is;
ghost use Rattle.rv_hart.specs.declared.machine.TheConstants.{MOST_HARTS};
ghost use Rattle.rv_retrace.specs.Going as spec;

use crate::aims::{Aims, is_one};
use crate::forwards::aimed_at;
use crate::meeting::taken_back;
use rv_collide::laws::schedules;
use rv_collide::walk_laws::steps_of_legal_schedules;
use rv_debug::session::Session;
use rv_debug::session::visit::Visit;
use rv_gdb::points::Points;
use rv_gdb::stop::{Stop, TRAP, Why};
use rv_hart::laws::what_no_step_does;
use rv_memory::store::NoMemory;

/// How many entries are looked at from one checkpoint on.
const STRETCH: u32 = 1024;

/// The stop at a visit's place.
#[tactic(auto, unfolding(crate::specs::Going::stop_back))]
fn stop_here(session: &Session, visit: &Visit, points: &Points, aims: &Aims) -> Option<Stop>
    requires here { IsVisit session.now visit.now.place visit.now }
    requires before { visit.now.place < length session.now.entries }
    ensures value { result ≡ spec.stop_back session.now points.now aims.now visit.now.place }
    ensures near { IfSome result (λ stop. (stop.hart < MOST_HARTS) × (stop.place ≤ visit.now.place + 1)) }
{
    let _count = session.count();
    let place = visit.place();
    match aimed_at(session, aims, place) {
        Some(hart) => taken_back(
            visit.machine(),
            points,
            is_one(&aims.stepping, hart),
            place,
            hart,
        ),
        None => None,
    }
}

/// Where the stretch before a place begins: at a checkpoint, or where the search ends.
fn stretch_before(from: u32, end: u32) -> u32
    requires { from < end }
    ensures forwards { from ≤ result }
    ensures before { result < end }
{
    from.max((end - 1) / STRETCH * STRETCH)
}

/// The later of two stops, if there is one: the first is.
fn later(stop: Option<Stop>, last: Option<Stop>) -> Option<Stop>
    ensures { result ≡ option_or stop last }
{
    match stop {
        Some(stop) => Some(stop),
        None => last,
    }
}

/// The last stop from a visit's place on, and before another place: one step for each entry.
fn last_from(
    session: &Session,
    mut visit: Visit,
    points: &Points,
    aims: &Aims,
    to: u32,
) -> Result<Option<Stop>, NoMemory>
    requires here { IsVisit session.now visit.place visit }
    requires forwards { visit.place ≤ to }
    requires within { to ≤ length session.now.entries }
    ensures value { IfOk result (λ stop. stop ≡ spec.last_stop session.now points.now aims.now visit.place to) }
    ensures near { IfOk result (λ stop. IfSome stop (λ stop. (stop.hart < MOST_HARTS) × (stop.place ≤ to))) }
{
    let mut last = None;
    for place in visit.place()..to {
        let _here = place;
        last = later(stop_here(session, &visit, points, aims), last);
        let _access = session.pass_on(&mut visit)?;
    }
    Ok(last)
}

/// The last stop of a stretch.
fn last_in_stretch(
    session: &mut Session,
    points: &Points,
    aims: &Aims,
    start: u32,
    end: u32,
) -> Result<Option<Stop>, NoMemory>
    requires forwards { start ≤ end }
    requires within { end ≤ length session.old.entries }
    ensures value { IfOk result (λ stop. stop ≡ spec.last_stop session.old points.now aims.now start end) }
    ensures near { IfOk result (λ stop. IfSome stop (λ stop. (stop.hart < MOST_HARTS) × (stop.place ≤ end))) }
    ensures same { session.new ≡ session.old }
{
    let visit = session.visit(start)?;
    last_from(session, visit, points, aims, end)
}

/// The last stop from a place on, and before another, at the points that are set. The stretches between checkpoints are
/// looked at from the last on, and none twice.
fn last_at_points(
    session: &mut Session,
    points: &Points,
    aims: &Aims,
    from: u32,
    to: u32,
) -> Result<Option<Stop>, NoMemory>
    requires forwards { from ≤ to }
    requires within { to ≤ length session.old.entries }
    ensures value { IfOk result (λ stop. stop ≡ spec.last_stop session.old points.now aims.now from to) }
    ensures near { IfOk result (λ stop. IfSome stop (λ stop. (stop.hart < MOST_HARTS) × (stop.place ≤ to))) }
    ensures same { session.new ≡ session.old }
{
    let mut end = to;
    while end > from {
        let start = stretch_before(from, end);
        let stop = last_in_stretch(session, points, aims, start, end)?;
        if stop.is_some() {
            return Ok(stop);
        }
        end = start;
    }
    Ok(None)
}

/// The stop at the step of a hart, or of none, if that is to make one.
#[tactic(auto, using(crate::proofs::StepLemmas::within))]
fn step_of(aims: &Aims, place: u32, hart: Option<u8>) -> Option<Stop>
    ensures value { result ≡ option_and_then (λ h. if spec.is_one aims.now.stepping h then Some (spec.stop_at place h why_is.Stands trap) else None) hart }
    ensures near { IfSome result (λ stop. (stop.hart < MOST_HARTS) × (stop.place ≡ place)) }
{
    match hart {
        Some(hart) if is_one(&aims.stepping, hart) => Some(Stop {
            place,
            hart,
            why: Why::Stands,
            signal: TRAP,
        }),
        _ => None,
    }
}

/// The stop at a place where no point is set: its entry is the step of a hart that is to make one.
fn step_at(session: &Session, aims: &Aims, place: u32) -> Option<Stop>
    requires { place < length session.now.entries }
    ensures value { result ≡ spec.stop_back session.now [] aims.now place }
    ensures near { IfSome result (λ stop. (stop.hart < MOST_HARTS) × (stop.place ≡ place)) }
{
    session.facts();
    schedules();
    steps_of_legal_schedules();
    what_no_step_does();
    step_of(aims, place, aimed_at(session, aims, place))
}

/// The last stop from a place on, and before another, where no point is set. The machine makes no step.
fn last_step(session: &Session, aims: &Aims, from: u32, to: u32) -> Option<Stop>
    requires forwards { from ≤ to }
    requires within { to ≤ length session.now.entries }
    ensures value { result ≡ spec.last_stop session.now [] aims.now from to }
    ensures near { IfSome result (λ stop. (stop.hart < MOST_HARTS) × (stop.place ≤ to)) }
{
    let mut end = to;
    while end > from {
        end -= 1;
        let stop = step_at(session, aims, end);
        if stop.is_some() {
            return stop;
        }
    }
    None
}

/// The last stop from a place on, and before another. Where no point is set the entries tell it.
pub fn last_stop(
    session: &mut Session,
    points: &Points,
    aims: &Aims,
    from: u32,
    to: u32,
) -> Result<Option<Stop>, NoMemory>
    requires forwards { from ≤ to }
    requires within { to ≤ length session.old.entries }
    ensures value { IfOk result (λ stop. stop ≡ spec.last_stop session.old points.now aims.now from to) }
    ensures near { IfOk result (λ stop. IfSome stop (λ stop. (stop.hart < MOST_HARTS) × (stop.place ≤ to))) }
    ensures same { session.new ≡ session.old }
{
    if points.is_empty() {
        return Ok(last_step(session, aims, from, to));
    }
    last_at_points(session, points, aims, from, to)
}
