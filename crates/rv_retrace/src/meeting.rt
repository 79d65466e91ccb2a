//! What stops a run at one step of a hart.
ghost use Rattle.std.specs.Prelude.{◌≡◌, ◌+◌, ◌^◌, ◌<◌, ◌≤◌, IfSome, length, option_and_then};
ghost use Rattle.rv_retrace.specs.Going as spec;
ghost use Rattle.rv_gdb.specs.Points.{seen};
ghost use Rattle.rv_hart.specs.declared.machine.TheConstants.{MOST_HARTS};
ghost use Rattle.rv_hart.specs.NextAccess.{next_access};

use rv_gdb::points::{Points, Sight};
use rv_gdb::stop::{Stop, TRAP, Why, signal_of};
use rv_hart::hart::Status;
use rv_hart::machine::Machine;
use rv_memory::store::ByteStore;

/// What a point sees of a hart's next access.
fn sight<S: ByteStore>(machine: &Machine<S>, points: &Points, hart: u8) -> Option<Sight>
    requires { hart < length machine.now.state.harts }
    ensures { result ≡ option_and_then (seen points.now) (next_access machine.now.state hart) }
{
    // Where no point is set the access is not asked for: that decodes the hart's word once more.
    if points.is_empty() {
        return None;
    }
    let access = machine.next_access(hart)?;
    points.seen(&access)
}

/// The stop before a step that is not made yet.
pub(crate) fn before_step<S: ByteStore>(
    machine: &Machine<S>,
    points: &Points,
    place: u32,
    hart: u8,
) -> Option<Stop>
    ensures value { result ≡ spec.before_step points.now place hart machine.now.state }
    ensures near { IfSome result (λ stop. (stop.hart < MOST_HARTS) × (stop.place ≡ place)) }
{
    if hart >= machine.harts() {
        return None;
    }
    if points.breaks(machine.pc(hart)) {
        return Some(Stop {
            place,
            hart,
            why: Why::Stands,
            signal: TRAP,
        });
    }
    if let Some(sight) = sight(machine, points, hart) {
        return Some(Stop {
            place,
            hart,
            why: Why::Watched(sight),
            signal: TRAP,
        });
    }
    None
}

/// The stop after a step at a place that left a hart so.
fn after_status(status: Status, steps: bool, place: u32, hart: u8) -> Option<Stop>
    requires { place + 1 < 2 ^ 32 }
    ensures value { result ≡ spec.after_status steps place hart status }
    ensures near { IfSome result (λ stop. (stop.hart ≡ hart) × (stop.place ≡ place + 1)) }
{
    let signal = match status {
        Status::Running if steps => TRAP,
        Status::Exited(_) if steps => 0,
        Status::Running | Status::Exited(_) => return None,
        Status::Stopped(cause) => signal_of(cause),
    };
    Some(Stop {
        place: place + 1,
        hart,
        why: Why::Stands,
        signal,
    })
}

/// The stop after a step at a place.
pub(crate) fn after_step<S: ByteStore>(
    machine: &Machine<S>,
    steps: bool,
    place: u32,
    hart: u8,
) -> Option<Stop>
    requires { place + 1 < 2 ^ 32 }
    ensures value { result ≡ spec.after_step steps place hart machine.now.state }
    ensures near { IfSome result (λ stop. (stop.hart < MOST_HARTS) × (stop.place ≡ place + 1)) }
{
    if hart >= machine.harts() {
        return None;
    }
    after_status(machine.status(hart), steps, place, hart)
}

/// The stop where a step at a place is about to be taken back.
pub(crate) fn taken_back<S: ByteStore>(
    machine: &Machine<S>,
    points: &Points,
    steps: bool,
    place: u32,
    hart: u8,
) -> Option<Stop>
    requires { place + 1 < 2 ^ 32 }
    ensures value { result ≡ spec.taken_back points.now steps place hart machine.now.state }
    ensures near { IfSome result (λ stop. (stop.hart < MOST_HARTS) × (stop.place ≤ place + 1)) }
{
    if hart >= machine.harts() {
        return None;
    }
    if let Some(sight) = sight(machine, points, hart) {
        return Some(Stop {
            place: place + 1,
            hart,
            why: Why::Watched(sight),
            signal: TRAP,
        });
    }
    if points.breaks(machine.pc(hart)) || steps {
        return Some(Stop {
            place,
            hart,
            why: Why::Stands,
            signal: TRAP,
        });
    }
    None
}
