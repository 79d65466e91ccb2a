//! A run that goes on from its place to where it stops, as `specs/Resumed.antt` has it.
ghost use Rattle.std.specs.Prelude.{◌≡◌, ◌<◌, ◌≤◌, IfOk, IfSome, IfNone, OnErr, length, position, unwrap_or};
ghost use Rattle.std.specs.Option.{option_map_or};
ghost use Rattle.rv_debug.specs.Placed.{moved};
ghost use Rattle.rv_debug.specs.Visited.{IsVisit};
ghost use Rattle.rv_hart.specs.declared.machine.TheConstants.{MOST_HARTS};
ghost use Rattle.rv_stub.specs.Resumed as spec;

use crate::resumption::{Resumption, Way};
use rv_debug::session::visit::Visit;
use rv_debug::session::{Session, SessionFault};
use rv_gdb::points::Points;
use rv_gdb::stop::{Stop, TRAP, Why};
use rv_hart::machine::MOST_HARTS;
use rv_memory::store::NoMemory;
use rv_retrace::aims::{Aims, Harts};
use rv_retrace::backwards::last_stop;
use rv_retrace::forwards::first_stop;

/// Steps of one hart alone, which have passed others' stops: the way, the hart, and the place where they began.
#[derive(Clone, Copy)]
pub struct Passed {
    pub way: Way,
    pub hart: u8,
    pub from: u32,
}

fn is_same_way(one: Way, other: Way) -> bool
    ensures { result ≡ spec.is_same_way one other }
{
    match (one, other) {
        (Way::Forwards, Way::Forwards) | (Way::Back, Way::Back) => true,
        (Way::Forwards, Way::Back) | (Way::Back, Way::Forwards) => false,
    }
}

fn left_out(aims: &Aims, hart: u8) -> Aims
    requires { hart < MOST_HARTS }
    ensures { result ≡ spec.left_out aims.now hart }
{
    let mut among = aims.among;
    among[hart as usize] = false;
    Aims {
        among,
        stepping: [false; MOST_HARTS as usize],
    }
}

/// What is to be told of what was passed.
fn told_late(resumption: &Resumption, passed: Option<Passed>) -> Option<Passed>
    ensures { result ≡ spec.told_late resumption.now passed }
{
    match passed {
        Some(passed) if resumption.of_all && is_same_way(resumption.way, passed.way) => {
            Some(passed)
        }
        _ => None,
    }
}

/// A visit of where the search begins, forwards.
fn visit_of_begin(session: &mut Session, passed: Option<Passed>) -> Result<Visit, NoMemory>
    requires { IfSome passed (spec.IsBefore session.old.place) }
    ensures same { session.new ≡ session.old }
    ensures begin { IfOk result (λ visit. IsVisit session.old (option_map_or (λ passed. passed.from) passed session.old.place) visit) }
{
    session.facts();
    match passed {
        None => session.visit_here(),
        Some(passed) => session.visit(passed.from),
    }
}

/// The first stop forwards. The visit goes from where the search begins to it, or else to the record's end.
fn found_forwards(
    session: &Session,
    visit: &mut Visit,
    points: &Points,
    aims: &Aims,
    passed: Option<Passed>,
) -> Result<Option<Stop>, NoMemory>
    requires passed { IfSome passed (spec.IsBefore session.now.place) }
    requires begin { IsVisit session.now (option_map_or (λ passed. passed.from) passed session.now.place) visit.old }
    ensures value { IfOk result (λ found. found ≡ spec.found_forwards session.now points.now aims.now passed) }
    ensures past { IfOk result (λ found. IfNone passed (IfSome found (λ stop. (stop.hart < MOST_HARTS) × (session.now.place ≤ stop.place)))) }
    ensures there { IfOk result (λ found. IfSome found (λ stop. IsVisit session.now stop.place visit.new)) }
    ensures none { IfOk result (λ found. IfNone found (IsVisit session.now (length session.now.entries) visit.new)) }
{
    session.facts();
    if let Some(passed) = passed {
        let late = left_out(aims, passed.hart);
        let found = first_stop(session, visit, points, &late, session.place())?;
        if found.is_some() {
            return Ok(found);
        }
    }
    first_stop(session, visit, points, aims, session.count())
}

/// The last stop back.
fn found_back(
    session: &mut Session,
    points: &Points,
    aims: &Aims,
    passed: Option<Passed>,
) -> Result<Option<Stop>, NoMemory>
    requires passed { IfSome passed (spec.IsBehind session.old) }
    ensures same { session.new ≡ session.old }
    ensures value { IfOk result (λ found. found ≡ spec.found_back session.old points.now aims.now passed) }
    ensures within { IfOk result (λ found. IfSome found (λ stop. stop.place ≤ length session.old.entries)) }
    ensures past { IfOk result (λ found. IfNone passed (IfSome found (λ stop. (stop.hart < MOST_HARTS) × (stop.place ≤ session.old.place)))) }
{
    let place = session.place();
    if let Some(passed) = passed {
        let late = left_out(aims, passed.hart);
        let found = last_stop(session, points, &late, place, passed.from)?;
        if found.is_some() {
            return Ok(found);
        }
    }
    last_stop(session, points, aims, 0, place)
}

fn first_place(harts: &Harts) -> Option<usize>
    ensures value { result ≡ position (λ is. is) harts.now }
    ensures within { IfSome result (λ hart. hart < MOST_HARTS) }
{
    harts.iter().position(|is| *is)
}

/// The least of some harts.
fn first_of(harts: &Harts) -> Option<u8>
    ensures { result ≡ spec.first_of harts.now }
{
    match first_place(harts) {
        Some(hart) => Some(hart as u8),
        None => None,
    }
}

fn why_of(way: Way) -> Why
    ensures { result ≡ spec.why_of way }
{
    match way {
        Way::Forwards => Why::End,
        Way::Back => Why::Begin,
    }
}

fn end_of(way: Way, session: &Session) -> u32
    ensures { result ≡ spec.end_of way session.now }
{
    match way {
        Way::Forwards => session.count(),
        Way::Back => 0,
    }
}

/// The hart that is told of at the end of the record.
fn told_at_end(resumption: &Resumption, focus: u8) -> u8
    ensures { result ≡ spec.told_at_end resumption.now focus }
{
    if resumption.of_all {
        return focus;
    }
    first_of(&resumption.aims.among).unwrap_or(focus)
}

/// The stop where no step is found.
fn otherwise(session: &Session, resumption: &Resumption, focus: u8) -> Stop
    ensures value { result ≡ spec.otherwise session.now resumption.now focus (spec.first_of resumption.now.aims.stepping) }
    ensures within { result.place ≤ length session.now.entries }
{
    match first_of(&resumption.aims.stepping) {
        Some(hart) if !resumption.of_all => Stop {
            place: session.place(),
            hart,
            why: Why::Stands,
            signal: 0,
        },
        _ => Stop {
            place: end_of(resumption.way, session),
            hart: told_at_end(resumption, focus),
            why: why_of(resumption.way),
            signal: TRAP,
        },
    }
}

/// What is remembered of a resumption that began at a place.
fn remember(
    place: u32,
    resumption: &Resumption,
    found: &Option<Stop>,
    passed: Option<Passed>,
) -> Option<Passed>
    ensures { result ≡ spec.remembered_of place resumption.now found.now passed }
{
    let stop = match found {
        Some(stop) if !resumption.of_all => stop,
        _ => return None,
    };
    let from = match passed {
        Some(passed) if is_same_way(resumption.way, passed.way) && passed.hart == stop.hart => {
            passed.from
        }
        _ => place,
    };
    Some(Passed {
        way: resumption.way,
        hart: stop.hart,
        from,
    })
}

/// Goes on forwards: the stop, and the one that was found.
fn forwards(
    session: &mut Session,
    points: &Points,
    resumption: &Resumption,
    focus: u8,
    late: Option<Passed>,
) -> Result<(Stop, Option<Stop>), NoMemory>
    requires way { resumption.now.way ≡ Way.Forwards }
    requires late { IfSome late (spec.IsBefore session.old.place) }
    ensures found { IfOk result (λ gone. gone.1 ≡ spec.found_forwards session.old points.now resumption.now.aims late) }
    ensures stop { IfOk result (λ gone. gone.0 ≡ unwrap_or gone.1 (spec.otherwise session.old resumption.now focus (spec.first_of resumption.now.aims.stepping))) }
    ensures past { IfOk result (λ gone. IfNone late (IfSome gone.1 (λ stop. (stop.hart < MOST_HARTS) × (session.old.place ≤ stop.place)))) }
    ensures there { IfOk result (λ gone. session.new ≡ moved session.old gone.0.place) }
    ensures refused { OnErr result (session.new ≡ session.old) }
{
    let mut visit = visit_of_begin(session, late)?;
    let found = found_forwards(session, &mut visit, points, &resumption.aims, late)?;
    let stop = match found {
        Some(stop) => stop,
        None => otherwise(session, resumption, focus),
    };
    if visit.place() == stop.place {
        session.settle(visit);
    }
    Ok((stop, found))
}

/// Goes back: the stop, and the one that was found.
fn back(
    session: &mut Session,
    points: &Points,
    resumption: &Resumption,
    focus: u8,
    late: Option<Passed>,
) -> Result<(Stop, Option<Stop>), NoMemory>
    requires way { resumption.now.way ≡ Way.Back }
    requires late { IfSome late (spec.IsBehind session.old) }
    ensures found { IfOk result (λ gone. gone.1 ≡ spec.found_back session.old points.now resumption.now.aims late) }
    ensures stop { IfOk result (λ gone. gone.0 ≡ unwrap_or gone.1 (spec.otherwise session.old resumption.now focus (spec.first_of resumption.now.aims.stepping))) }
    ensures past { IfOk result (λ gone. IfNone late (IfSome gone.1 (λ stop. (stop.hart < MOST_HARTS) × (stop.place ≤ session.old.place)))) }
    ensures there { IfOk result (λ gone. session.new ≡ moved session.old gone.0.place) }
    ensures refused { OnErr result (session.new ≡ session.old) }
{
    let found = found_back(session, points, &resumption.aims, late)?;
    let stop = match found {
        Some(stop) => stop,
        None => otherwise(session, resumption, focus),
    };
    match session.go(stop.place) {
        Ok(()) => Ok((stop, found)),
        Err(SessionFault::NoPlace) => unreachable!(),
        Err(_) => Err(NoMemory),
    }
}

/// Goes on. The session goes to where the run stops; also what is remembered then.
#[tactic(auto, unfolding(crate::specs::Resumed::stop_of, crate::specs::Resumed::remembered))]
pub fn resume(
    session: &mut Session,
    points: &Points,
    resumption: &Resumption,
    focus: u8,
    passed: Option<Passed>,
) -> Result<(Stop, Option<Passed>), NoMemory>
    requires { IfSome passed (λ passed. spec.IsPassed passed.way session.old passed) }
    ensures stop { IfOk result (λ gone. gone.0 ≡ spec.stop_of session.old points.now resumption.now passed focus) }
    ensures remembered { IfOk result (λ gone. gone.1 ≡ spec.remembered session.old points.now resumption.now passed) }
    ensures kept { IfOk result (λ gone. IfSome gone.1 (λ passed. spec.IsPassed passed.way session.new passed)) }
    ensures there { IfOk result (λ gone. session.new ≡ moved session.old gone.0.place) }
    ensures refused { OnErr result (session.new ≡ session.old) }
{
    let place = session.place();
    let late = told_late(resumption, passed);
    let (stop, found) = match resumption.way {
        Way::Forwards => forwards(session, points, resumption, focus, late)?,
        Way::Back => back(session, points, resumption, focus, late)?,
    };
    Ok((stop, remember(place, resumption, &found, passed)))
}
