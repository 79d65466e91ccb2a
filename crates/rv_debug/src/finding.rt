//! The next entry that touches a byte.
ghost use Rattle.std.specs.Prelude.{◌≡◌, ◌+◌, ◌<◌, ◌≤◌, ◌↔◌, None, IsTrue, IsSomeAnd, IfOk, IfSome, length};
ghost use Rattle.rv_debug.specs.Answers as answer;
ghost use Rattle.rv_debug.specs.Placed.{placed};
ghost use Rattle.rv_debug.specs.internal.Session.{StandsAt};
ghost use Rattle.rv_hart.specs.Conflict.{Touches};

use crate::schedule::Schedule;
use rv_hart::access::Access;
use rv_hart::machine::Machine;
use rv_memory::paged::Paged;
use rv_memory::store::NoMemory;

/// The least place, from one on, whose entry touches the byte; the machine, which stood at that one, then stands at
/// the place after it.
pub(crate) fn next_touch(
    schedule: &Schedule,
    machine: &mut Machine<Paged>,
    from: u32,
    address: u32,
) -> Result<Option<u32>, NoMemory>
    requires within { from ≤ length schedule.now.entries }
    requires here { StandsAt schedule.now from machine.old }
    ensures found { IfOk result (λ found. IfSome found (λ place.
        answer.IsFirstTouch (placed schedule.now.image schedule.now.plan schedule.now.entries from) address place)) }
    ensures below { IfOk result (λ found. IfSome found (λ place. place < length schedule.now.entries)) }
    ensures after { IfOk result (λ found. IfSome found (λ place. StandsAt schedule.now (place + 1) machine.new)) }
    ensures none { IfOk result (λ found. (found ≡ None) →
        answer.HasNoTouch (placed schedule.now.image schedule.now.plan schedule.now.entries from) address) }
{
    for place in from..schedule.count() {
        let access = schedule.advance(machine, place)?;
        if touches(access, address) {
            return Ok(Some(place));
        }
    }
    Ok(None)
}

/// Whether there is an access, of the byte at the address or of it and others.
pub(crate) fn touches(access: Option<Access>, address: u32) -> bool
    ensures { IsTrue result ↔ IsSomeAnd access (λ a. Touches a address) }
{
    match access {
        None => false,
        Some(access) => {
            access.first <= address
                && u64::from(address) < u64::from(access.first) + u64::from(access.size)
        }
    }
}
