//! Whether a hart's step is a quiet one.
ghost use Rattle.std.specs.Prelude.{◌≡◌, true, Ok, Err, Result, ◌<◌, ◌+◌, ◌^◌, ◌≤◌, ℕ, None, Some, IfSome, length, unwrap_or};
ghost use Rattle.rv_hart.specs.NextAccess.{next_access};
ghost use Rattle.rv_hart.specs.StepAnswer.{AnswersStep};
ghost use Rattle.rv_memory.specs.Memory.{byte};
ghost use Rattle.rv_waits.specs.Round.{IsQuietStep};
ghost use Rattle.rv_waits.specs.internal.Four.{AreBytesFrom};
ghost use Rattle.rv_waits.specs.internal.MayWrite.{may_write};
ghost use Rattle.rv_waits.specs.internal.Told.{IfQuiet, answer_of};

use rv_hart::access::{Access, Event};
use rv_hart::laws::{reservations_and_accesses, what_no_step_does};
use rv_hart::machine::{Machine, StepFault};
use rv_memory::laws::store_keeps_the_rest;
use rv_memory::store::ByteStore;

/// Four bytes of memory, each None where there is none.
#[derive(Clone, Copy, PartialEq, Eq)]
pub struct FourBytes {
    pub one: Option<u8>,
    pub two: Option<u8>,
    pub three: Option<u8>,
    pub four: Option<u8>,
}

/// What a step of a hart was: a quiet one, with its access; another one; or refused.
#[derive(Clone, Copy)]
pub(crate) enum Told {
    Quiet(Option<Access>),
    Loud(Event),
    Refused(StepFault),
}

/// Whether a word may be a store's, an SC's or an AMO's, by its opcode; no other writes.
#[inline(always)]
pub(crate) fn may_write(word: u32) -> bool
    ensures { result ≡ may_write word }
{
    word & 0x70 == 0x20
}

/// One step of a hart, and whether it was a quiet one. (One that is not told as quiet may be quiet.)
pub(crate) fn told_step<S: ByteStore>(machine: &mut Machine<S>, h: u8) -> Told
    requires { h < length machine.old.state.harts }
    ensures step { AnswersStep S.can_refuse machine.old machine.new h (answer_of result) }
    ensures quiet { IfQuiet result (λ access. IsQuietStep h machine.old.state machine.new.state) }
    ensures access { IfQuiet result (λ access. access ≡ next_access machine.old.state h) }
{
    what_no_step_does();
    reservations_and_accesses();
    store_keeps_the_rest();
    if machine.at_conditional(h) {
        return loud(told_of(machine.step(h)));
    }
    let first = first_of(machine.next_access(h));
    let bytes = four_bytes(machine, first);
    let printed = machine.output().len();
    let told = told_of(machine.step(h));
    if machine.output().len() != printed {
        return loud(told);
    }
    if !has_bytes(machine, first, bytes) {
        return loud(told);
    }
    told
}

/// A move as a quiet step, until more is known.
fn told_of(answer: Result<Event, StepFault>) -> Told
    ensures { answer_of result ≡ answer }
{
    match answer {
        Ok(Event::Moved(access)) => Told::Quiet(access),
        Ok(event) => Told::Loud(event),
        Err(fault) => Told::Refused(fault),
    }
}

/// The same, as one that is not quiet.
fn loud(told: Told) -> Told
    ensures same { answer_of result ≡ answer_of told }
    ensures loud { IfQuiet result (λ access. ⊥) }
{
    match told {
        Told::Quiet(access) => Told::Loud(Event::Moved(access)),
        Told::Loud(event) => Told::Loud(event),
        Told::Refused(fault) => Told::Refused(fault),
    }
}

pub(crate) fn has_bytes<S: ByteStore>(machine: &Machine<S>, first: u32, bytes: FourBytes) -> bool
    ensures { result ≡ true → AreBytesFrom machine.now.state.memory first bytes }
{
    four_bytes(machine, first) == bytes
}

/// The first address of an access; 0 where there is none.
pub(crate) fn first_of(access: Option<Access>) -> u32
    ensures { IfSome access (λ it. result ≡ it.first) }
{
    match access {
        Some(it) => it.first,
        None => 0,
    }
}

pub(crate) fn four_bytes<S: ByteStore>(machine: &Machine<S>, first: u32) -> FourBytes
    ensures { AreBytesFrom machine.now.state.memory first result }
{
    FourBytes {
        one: byte_at(machine, first, 0),
        two: byte_at(machine, first, 1),
        three: byte_at(machine, first, 2),
        four: byte_at(machine, first, 3),
    }
}

/// The byte so far after an address.
fn byte_at<S: ByteStore>(machine: &Machine<S>, first: u32, offset: u32) -> Option<u8>
    ensures { result ≡ byte machine.now.state.memory (first + offset) }
{
    machine.no_byte_past_the_last();
    match first.checked_add(offset) {
        Some(address) => machine.byte(address),
        None => None,
    }
}
