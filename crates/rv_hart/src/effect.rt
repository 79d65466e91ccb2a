//! What an action does, one function a component of `specs/Step.antt`.
ghost use Rattle.std.specs.Prelude.{◌≡◌, ◌==◌, ◌%◌, ◌<◌, ◌+◌, ◌++◌, true, false, vec_len, vec_capacity, Some, IsTrue, is_some, OnOk, OnErr, length, map};
ghost use Rattle.rv_hart.specs.internal.Able.{HasSize, IsAble, IsAbleWrite, IsReady, Fits};
ghost use Rattle.rv_hart.specs.internal.AccessKind.{access_of_kind};
ghost use Rattle.rv_hart.specs.internal.Harts.{HartsAfter, Sees, any_holds, write_of_access};
ghost use Rattle.rv_hart.specs.Refusals.{is_print};
ghost use Rattle.rv_hart.specs.Registers as registers;
ghost use Rattle.rv_hart.specs.Step as spec;
ghost use Rattle.rv_memory.specs.Memory.{IsSize};

use crate::access::{Access, AccessKind, Event};
use crate::act::{act, combined, extended};
use crate::action::Action;
use crate::hart::{Cause, Hart, Status};
use crate::write::Write;
use rv_isa::codec::decode;
use rv_memory::laws::permitted_bytes_are_there;
use rv_memory::store::{ByteStore, Need, NoMemory};

/// The action that a hart takes next, with its access tested.
pub fn action_at<S: ByteStore>(store: &S, hart: &Hart) -> Action
    ensures value { result ≡ spec.action_at (S.memory store.now) hart.now }
    ensures able { IsAble (S.memory store.now) result }
{
    permitted_bytes_are_there();
    allowed(store, fetched(store, hart))
}

fn fetched<S: ByteStore>(store: &S, hart: &Hart) -> Action
    ensures { result ≡ spec.fetched (S.memory store.now) hart.now }
{
    let Some(word) = store.load_permitted(hart.pc, 4, Need::Execute) else {
        return Action::Trap(Cause::FetchFault);
    };
    match decode(word) {
        None => Action::Trap(Cause::Illegal),
        Some(instr) => act(&instr, hart),
    }
}

/// The action, or the trap of an access that is misaligned or not permitted.
fn allowed<S: ByteStore>(store: &S, action: Action) -> Action
    requires { HasSize action }
    ensures { result ≡ spec.allowed (S.memory store.now) action }
{
    match action {
        Action::Load { address, size, .. } => tested_load(store, address, size, action),
        Action::Reserve { address, .. } => tested_load(store, address, 4, action),
        Action::Store { address, size, .. } => {
            tested_store(store, address, size, Need::Write, action)
        }
        Action::Conditional { address, .. } => {
            tested_store(store, address, 4, Need::Write, action)
        }
        Action::Replace { address, .. } => {
            tested_store(store, address, 4, Need::ReadWrite, action)
        }
        _ => action,
    }
}

/// Whether the address is a multiple of the size. The sizes stand here one by one, since a division by a
/// number that is not known takes long.
#[inline(always)]
pub fn is_aligned(address: u32, size: u8) -> bool
    requires { IsSize size }
    ensures { result ≡ (address % size == 0) }
{
    match size {
        1 => true,
        2 => address % 2 == 0,
        _ => address % 4 == 0,
    }
}

fn tested_load<S: ByteStore>(store: &S, address: u32, size: u8, action: Action) -> Action
    requires { IsSize size }
    ensures { result ≡ spec.tested (S.memory store.now) address size Need.Read
        Cause.LoadMisaligned Cause.LoadFault action }
{
    if !is_aligned(address, size) {
        Action::Trap(Cause::LoadMisaligned)
    } else if store.permits(address, size, Need::Read) {
        action
    } else {
        Action::Trap(Cause::LoadFault)
    }
}

fn tested_store<S: ByteStore>(
    store: &S,
    address: u32,
    size: u8,
    need: Need,
    action: Action,
) -> Action
    requires { IsSize size }
    ensures { result ≡ spec.tested (S.memory store.now) address size need
        Cause.StoreMisaligned Cause.StoreFault action }
{
    if !is_aligned(address, size) {
        Action::Trap(Cause::StoreMisaligned)
    } else if store.permits(address, size, need) {
        action
    } else {
        Action::Trap(Cause::StoreFault)
    }
}

/// What the action loads.
pub fn loaded_by<S: ByteStore>(store: &S, action: Action) -> u32
    requires { IsAble (S.memory store.now) action }
    ensures value { result ≡ spec.loaded_by (S.memory store.now) action }
    ensures fits { Fits result action }
{
    match action {
        Action::Load { address, size, .. } => store.load(address, size),
        Action::Reserve { address, .. } | Action::Replace { address, .. } => store.load(address, 4),
        _ => 0,
    }
}

/// Whether what a hart has reserved is the word at an address.
#[inline(always)]
pub fn reserves(reservation: Option<u32>, address: u32) -> bool
    ensures { result ≡ spec.reserves reservation address }
{
    match reservation {
        None => false,
        Some(reserved) => reserved == address,
    }
}

/// What the action writes.
pub fn written_by(loaded: u32, hart: &Hart, action: Action) -> Option<Write>
    ensures value { result ≡ spec.written_by loaded hart.now action }
{
    match action {
        Action::Store {
            address,
            size,
            value,
        } => Some(Write {
            address,
            size,
            value,
        }),
        Action::Conditional { address, value, .. } => {
            reserves(hart.reservation, address).then_some(Write {
                address,
                size: 4,
                value,
            })
        }
        Action::Replace {
            address,
            combine,
            value,
            ..
        } => Some(Write {
            address,
            size: 4,
            value: combined(combine, loaded, value),
        }),
        _ => None,
    }
}

#[inline(always)]
fn access(hart: &Hart, first: u32, size: u8, kind: AccessKind) -> Access
    ensures { result ≡ access_of_kind kind hart.now first size }
{
    Access {
        pc: hart.pc,
        first,
        size,
        read: kind.reads(),
        write: kind.writes(),
    }
}

/// The access that the action makes.
#[inline(always)]
pub fn access_of(hart: &Hart, action: Action) -> Option<Access>
    ensures { result ≡ spec.access_of hart.now action }
{
    match action {
        Action::Load { address, size, .. } => Some(access(hart, address, size, AccessKind::Load)),
        Action::Store { address, size, .. } => Some(access(hart, address, size, AccessKind::Store)),
        Action::Reserve { address, .. } => Some(access(hart, address, 4, AccessKind::Load)),
        Action::Conditional { address, .. } => {
            reserves(hart.reservation, address).then_some(access(
                hart,
                address,
                4,
                AccessKind::Store,
            ))
        }
        Action::Replace { address, .. } => Some(access(hart, address, 4, AccessKind::Both)),
        _ => None,
    }
}

/// The event of the action.
#[inline(always)]
pub fn event_of(hart: &Hart, action: Action) -> Event
    ensures { result ≡ spec.event_of hart.now action }
{
    match action {
        Action::Trap(cause) => Event::Stopped(cause),
        Action::Exit(code) => Event::Exited(code),
        _ => Event::Moved(access_of(hart, action)),
    }
}

/// Sets a register, but for x0.
#[inline(always)]
pub fn set_register(hart: &mut Hart, register: u8, value: u32)
    ensures { hart.new ≡ record hart.old { registers = registers.set hart.old.registers register value } }
{
    hart.registers.write(register, value);
}

/// What the action does to the hart itself.
#[inline(always)]
pub fn advance(hart: &mut Hart, loaded: u32, action: Action)
    requires { Fits loaded action }
    ensures { hart.new ≡ spec.hart_after loaded hart.old action }
{
    let following = hart.pc.wrapping_add(4);
    match action {
        Action::Trap(cause) => hart.status = Status::Stopped(cause),
        Action::Exit(code) => hart.status = Status::Exited(code),
        Action::Set { rd, value, next } => {
            set_register(hart, rd, value);
            hart.pc = next;
        }
        Action::Load {
            rd,
            size,
            signed,
            ..
        } => {
            set_register(hart, rd, extended(signed, size, loaded));
            hart.pc = following;
        }
        Action::Reserve { rd, address } => {
            set_register(hart, rd, loaded);
            hart.pc = following;
            hart.reservation = Some(address);
        }
        Action::Conditional { rd, address, .. } => {
            let failed = !reserves(hart.reservation, address);
            set_register(hart, rd, u32::from(failed));
            hart.pc = following;
            hart.reservation = None;
        }
        Action::Replace { rd, .. } => {
            set_register(hart, rd, loaded);
            hart.pc = following;
        }
        Action::Store { .. } | Action::Print(_) => hart.pc = following,
    }
}

/// What is left of a hart's reservation after another hart's write.
#[inline(always)]
fn kept(write: &Write, reservation: Option<u32>) -> Option<u32>
    ensures { result ≡ spec.kept (Some write.now) reservation }
{
    match reservation {
        None => None,
        Some(reserved) => {
            let end = u64::from(write.address) + u64::from(write.size);
            let meet = u64::from(write.address) < u64::from(reserved) + 4
                && u64::from(reserved) < end;
            if meet { None } else { Some(reserved) }
        }
    }
}

/// Ends each reservation that a write meets; answers whether one is left.
#[inline(always)]
pub fn see_write(harts: &mut [Hart], write: &Write) -> bool
    ensures harts { harts.new ≡ map (spec.seen_by (Some write.now)) harts.old }
    ensures left { result ≡ any_holds harts.new }
{
    let mut is_held = false;
    for hart in harts.iter_mut() {
        see(hart, write);
        is_held |= hart.reservation.is_some();
    }
    is_held
}

#[inline(always)]
fn see(hart: &mut Hart, write: &Write)
    ensures { hart.new ≡ spec.seen_by (Some write.now) hart.old }
{
    if hart.reservation.is_some() {
        hart.reservation = kept(write, hart.reservation);
    }
}

/// Makes the bytes of a write ready; where that is refused nothing has changed.
pub fn ready<S: ByteStore>(store: &mut S, write: Option<Write>) -> Result<(), NoMemory>
    ensures same { S.memory store.new ≡ S.memory store.old }
    ensures ready { OnOk result (IsReady S.is_ready store.new write) }
    ensures refused { OnErr result (IsTrue S.can_refuse) }
    ensures writes { OnErr result (IsTrue (is_some write)) }
{
    match write {
        None => Ok(()),
        Some(write) => store.ready(write.address, write.size),
    }
}

/// Writes the bytes.
pub fn put<S: ByteStore>(store: &mut S, write: Option<Write>)
    requires able { IsAbleWrite (S.memory store.old) write }
    requires ready { IsReady S.is_ready store.old write }
    ensures { S.memory store.new ≡ spec.memory_after (S.memory store.old) write }
{
    if let Some(write) = write {
        store.store(write.address, write.size, write.value);
    }
}

/// The harts after one of them took its action: each has seen the write, and that one has moved on.
#[inline(always)]
pub fn see_and_advance(harts: &mut [Hart], h: u8, loaded: u32, action: Action, write: Option<Write>)
    requires hart { h < length harts.old }
    requires fits { Fits loaded action }
    ensures { HartsAfter harts.old harts.new h loaded action write }
{
    let own = harts[h as usize].reservation;
    see_all(harts, write);
    move_on(&mut harts[h as usize], own, loaded, action);
}

#[inline(always)]
#[tactic(auto, using(crate::proofs::HartsLemmas::none_seen))]
fn see_all(harts: &mut [Hart], write: Option<Write>)
    ensures { harts.new ≡ map (spec.seen_by write) harts.old }
{
    if let Some(write) = write {
        let _is_held = see_write(harts, &write);
    }
}

/// Advances a hart whose own write has ended no reservation of its own.
#[inline(always)]
fn move_on(hart: &mut Hart, own: Option<u32>, loaded: u32, action: Action)
    requires { Fits loaded action }
    ensures { hart.new ≡ spec.hart_after loaded (record hart.old { reservation = own }) action }
{
    hart.reservation = own;
    advance(hart, loaded, action);
}

/// Whether a hart holds a reservation.
#[inline(never)]
pub fn any_holds(harts: &[Hart]) -> bool
    ensures { result ≡ any_holds harts.now }
{
    harts.iter().any(|hart| hart.reservation.is_some())
}

/// Ends each reservation that the write of an access by hart h meets, but for its own; answers whether one may be left.
pub fn see_access(harts: &mut [Hart], h: u8, access: &Access) -> bool
    requires hart { h < length harts.old }
    requires writes { access.now.write ≡ true }
    ensures sees { Sees harts.old harts.new h (write_of_access access.now) }
    ensures held { result ≡ false → any_holds harts.new ≡ false }
{
    let own = harts[h as usize].reservation;
    let is_held = see_write(harts, &write_of_access(access));
    restore(&mut harts[h as usize], own);
    is_held || own.is_some()
}

/// What an access writes, as far as another hart sees it: where, and not what.
fn write_of_access(access: &Access) -> Write
    requires { access.now.write ≡ true }
    ensures { Some result ≡ write_of_access access.now }
{
    Write {
        address: access.first,
        size: access.size,
        value: 0,
    }
}

fn restore(hart: &mut Hart, own: Option<u32>)
    ensures { hart.new ≡ record hart.old { reservation = own } }
{
    hart.reservation = own;
}

/// Appends the byte that the action prints.
pub fn print(output: &mut Vec<u8>, action: Action)
    requires { IsTrue (is_print action) → vec_len output.old < vec_capacity output.old }
    ensures items { output.new.items ≡ output.old.items ++ spec.printed action }
    ensures len { vec_len output.new ≡ vec_len output.old + length (spec.printed action) }
    ensures capacity { vec_capacity output.new ≡ vec_capacity output.old }
{
    if let Action::Print(byte) = action {
        output.push_reserved(byte);
    }
}
