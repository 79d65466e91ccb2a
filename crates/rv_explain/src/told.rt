//! What is told of an entry of a run, as `specs/Told.antt` has it.
ghost use Rattle.std.specs.Prelude.{◌≡◌, ◌+◌, Some, IfOk, OnErr, OnOk, slice_get};
ghost use Rattle.rv_collide.specs.Entries.{stepped_hart};
ghost use Rattle.rv_debug.specs.Placed.{moved};
ghost use Rattle.rv_explain.specs.Told as spec;

use crate::row::{After, Row};
use rv_collide::entry::Entry;
use rv_collide::number::number_at;
use rv_debug::session::{Session, SessionFault};
use rv_debug::word::word_at;
use rv_hart::access::Access;
use rv_hart::hart::Status;
use rv_hart::machine::Machine;
use rv_memory::paged::Paged;
use rv_memory::store::NoMemory;

/// The hart whose instruction is told.
fn acting(entry: Entry) -> Option<u8>
    ensures { result ≡ spec.acting entry }
{
    match entry {
        Entry::Stepped(hart) | Entry::Paused(hart, _) => Some(hart),
        Entry::Resumed(_) | Entry::Armed(_) | Entry::Disarmed(_) => None,
    }
}

pub(crate) fn stepped(entry: Entry) -> Option<u8>
    ensures { result ≡ stepped_hart entry }
{
    match entry {
        Entry::Stepped(hart) => Some(hart),
        Entry::Paused(_, _) | Entry::Resumed(_) | Entry::Armed(_) | Entry::Disarmed(_) => None,
    }
}

/// The bytes of an access.
pub(crate) fn bytes_in(machine: &Machine<Paged>, access: &Access) -> u32
    ensures { result ≡ spec.bytes_in machine.now.state.memory access.now }
{
    match access.size {
        1 => number_at(machine, access.first, 1),
        2 => number_at(machine, access.first, 2),
        _ => number_at(machine, access.first, 4),
    }
}

/// The address of a hart's instruction, where there is one.
fn pc_in(machine: &Machine<Paged>, entry: Entry) -> Option<u32>
    ensures { result ≡ spec.pc_in machine.now.state entry }
{
    let hart = acting(entry)?;
    if hart < machine.harts() {
        Some(machine.pc(hart))
    } else {
        None
    }
}

pub(crate) fn access_in(machine: &Machine<Paged>, entry: Entry) -> Option<Access>
    ensures { result ≡ spec.access_in machine.now.state entry }
{
    let hart = stepped(entry)?;
    if hart < machine.harts() {
        machine.next_access(hart)
    } else {
        None
    }
}

fn after_in(machine: &Machine<Paged>, entry: Entry) -> After
    ensures { result ≡ spec.after_in (spec.hart_in machine.now.state entry) }
{
    match acting(entry) {
        Some(hart) if hart < machine.harts() => match machine.status(hart) {
            Status::Running => After::GoesOn,
            Status::Exited(_) => After::Exited,
            Status::Stopped(_) => After::Stopped,
        },
        _ => After::GoesOn,
    }
}

/// The row of the entry at the session's place, `entry`, with the bytes of the paused access after it. The session
/// goes on to the place after it; where that takes memory that there isn't, it stays.
#[tactic(auto, unfolding(crate::specs::Told::row_of))]
pub fn row_here(session: &mut Session, entry: Entry, paused: &Access) -> Result<Row, NoMemory>
    requires { slice_get session.old.entries session.old.place ≡ Some entry }
    ensures row { IfOk result (λ row. spec.IsRow session.old entry paused.now row) }
    ensures after { OnOk result (session.new ≡ moved session.old (session.old.place + 1)) }
    ensures refused { OnErr result (session.new ≡ session.old) }
{
    let place = session.place();
    let machine = session.machine();
    let pc = pc_in(machine, entry);
    let found = match pc {
        Some(pc) => word_at(machine, pc),
        None => None,
    };
    let access = access_in(machine, entry);
    match session.forward() {
        Ok(()) => {}
        Err(SessionFault::NoMemory) => return Err(NoMemory),
        Err(_) => unreachable!(),
    }
    let machine = session.machine();
    Ok(Row {
        place,
        entry,
        pc: pc.unwrap_or(0),
        word: found,
        access,
        after: after_in(machine, entry),
        bytes: bytes_in(machine, paused),
    })
}
