//! Speed: the common steps, each executed at one place with one look-up an access. `effect` is the meaning's
//! twin; what is not taken here has changed nothing, and is for the functions there.
ghost use Rattle.std.specs.Prelude.{◌≡◌, ◌<◌, true, false, length, slice_get, vec_len, IfSome};
ghost use Rattle.rv_hart.specs.Fetched.{IsWordAt};
ghost use Rattle.rv_hart.specs.Refusals.{is_running_hart};
ghost use Rattle.rv_hart.specs.internal.Able.{HasSize};
ghost use Rattle.rv_hart.specs.internal.AccessKind.{access_of_kind};
ghost use Rattle.rv_hart.specs.internal.Harts.{Sees, any_holds, write_of_access};
ghost use Rattle.rv_hart.specs.internal.Quick.{Begins, BeginsPlain, Fetches, KeepsBack, KeepsBackAt, Tried, TriedAt, attempt_of_access, event_of_attempt, is_reserving};

use crate::access::{Access, AccessKind, Noted};
use crate::act::{act, combined};
use crate::action::Action;
use crate::effect::{advance, is_aligned, reserves, see_access};
use crate::hart::Hart;
use crate::operations::{self, Operation};
use crate::stops::Stops;
use rv_isa::codec::decode_as;
use rv_isa::op::Op;
use rv_memory::laws::memory_is_sound;
use rv_memory::store::{ByteStore, Need};

/// What trying a step came to: nothing, and nothing has changed; a step without an access; the noted access was made; or
/// an LR made the noted access, and its hart holds a reservation. The access is noted apart and not carried here, so that
/// both stay in registers.
#[derive(Clone, Copy)]
pub enum Attempt {
    Nothing,
    Silent,
    Accessed,
    Reserved,
}

/// Takes a step of hart h, which runs and has the word at its pc, where it is a common one, and notes its access; or
/// changes nothing. `reserved` tells whether a hart may hold a reservation: after an LR one does, and only after a write is it
/// asked again. A step without an access asks no more, and what is left for the others
/// reads all anew, so that nothing is kept for it over the call of `moved_from`. `PLACE` is that of `Machine::step_quick`.
#[inline(always)]
pub fn tried<const PLACE: u8, S: ByteStore, P: Stops>(
    store: &mut S,
    harts: &mut Vec<Hart>,
    reserved: &mut bool,
    h: u8,
    word: u32,
    noted: &mut Noted,
    stops: &P,
) -> Attempt
    requires running { is_running_hart (slice_get harts.old.items h) ≡ true }
    requires fetches { IsWordAt harts.old.items (S.memory store.old) h word }
    requires held { reserved.old ≡ false → any_holds harts.old.items ≡ false }
    ensures tried { TriedAt (P.passes stops.now) harts.old.items harts.new.items (S.memory store.old) (S.memory store.new) h (event_of_attempt result noted.new.access) (is_reserving result) }
    ensures kept { KeepsBackAt (S.memory store.old) harts.old.items h result noted.old noted.new }
    ensures held { reserved.new ≡ false → any_holds harts.new.items ≡ false }
    ensures len { vec_len harts.new ≡ vec_len harts.old }
{
    let attempt = moved_from::<PLACE, S, P>(store, &mut harts[h as usize], noted, word, stops);
    if let Attempt::Silent = attempt {
        return Attempt::Silent;
    }
    if let Attempt::Accessed = attempt {
        if *reserved && noted.access.write {
            settle(harts, reserved, h, &noted.access);
        }
        return Attempt::Accessed;
    }
    if let Attempt::Reserved = attempt {
        *reserved = true;
    }
    attempt
}

/// Ends the other harts' reservations that a write meets, and notes whether one may be left.
#[inline(never)]
fn settle(harts: &mut Vec<Hart>, reserved: &mut bool, h: u8, access: &Access)
    requires hart { h < length harts.old.items }
    requires writes { access.now.write ≡ true }
    ensures sees { Sees harts.old.items harts.new.items h (write_of_access access.now) }
    ensures held { reserved.new ≡ false → any_holds harts.new.items ≡ false }
    ensures len { vec_len harts.new ≡ vec_len harts.old }
{
    *reserved = see_access(harts, h, access);
}

/// Takes the step of a hart itself, where its word is a common one's; no other hart has seen its write yet. It is compiled
/// into each place but place 0.
#[inline(always)]
fn moved_from<const PLACE: u8, S: ByteStore, P: Stops>(
    store: &mut S,
    hart: &mut Hart,
    noted: &mut Noted,
    word: u32,
    stops: &P,
) -> Attempt
    requires fetches { Fetches (S.memory store.old) word hart.old }
    ensures tried { Tried (P.passes stops.now) hart.old hart.new (S.memory store.old) (S.memory store.new) (event_of_attempt result noted.new.access) (is_reserving result) }
    ensures kept { KeepsBack (S.memory store.old) hart.old result noted.old noted.new }
{
    if PLACE == 0 {
        moved_apart(store, hart, noted, word, stops)
    } else {
        dispatched::<PLACE, S, P>(store, hart, noted, word, stops)
    }
}

/// The same as a function of its own, with no more arguments than the functions of accesses have, to which it jumps.
#[inline(never)]
fn moved_apart<S: ByteStore, P: Stops>(
    store: &mut S,
    hart: &mut Hart,
    noted: &mut Noted,
    word: u32,
    stops: &P,
) -> Attempt
    requires fetches { Fetches (S.memory store.old) word hart.old }
    ensures tried { Tried (P.passes stops.now) hart.old hart.new (S.memory store.old) (S.memory store.new) (event_of_attempt result noted.new.access) (is_reserving result) }
    ensures kept { KeepsBack (S.memory store.old) hart.old result noted.old noted.new }
{
    dispatched::<0, S, P>(store, hart, noted, word, stops)
}

/// Takes the step of a word, by one jump over the opcode's five upper bits and funct3: each number stands for itself,
/// since a range is compared with apart from the jump. It is compiled apart for each place, so that it is called once
/// and compiled into its caller. No more is asked of
/// the arms than that they try a likely operation, since each tests the word by that operation's row. Each
/// names its operation as a constant, so that it is compiled to the operands and the action of that operation
/// alone. What accesses memory is a function of its own for each operation, since the others need no more registers
/// than a call may use.
#[inline(always)]
fn dispatched<const PLACE: u8, S: ByteStore, P: Stops>(
    store: &mut S,
    hart: &mut Hart,
    noted: &mut Noted,
    word: u32,
    stops: &P,
) -> Attempt
    requires fetches { Fetches (S.memory store.old) word hart.old }
    ensures tried { Tried (P.passes stops.now) hart.old hart.new (S.memory store.old) (S.memory store.new) (event_of_attempt result noted.new.access) (is_reserving result) }
    ensures kept { KeepsBack (S.memory store.old) hart.old result noted.old noted.new }
{
    let is_plain = (word >> 25) % 128 == 0;
    let is_product = word & 0x0200_0000 != 0;
    match (word >> 2) % 32 * 8 + (word >> 12) % 8 {
        0x00 => of_access(load_apart::<operations::Lb, S, P>(store, hart, noted, word, stops)),
        0x01 => of_access(load_apart::<operations::Lh, S, P>(store, hart, noted, word, stops)),
        0x02 => of_access(load_apart::<operations::Lw, S, P>(store, hart, noted, word, stops)),
        0x04 => of_access(load_apart::<operations::Lbu, S, P>(store, hart, noted, word, stops)),
        0x05 => of_access(load_apart::<operations::Lhu, S, P>(store, hart, noted, word, stops)),
        0x18 | 0x19 | 0x1a | 0x1b | 0x1c | 0x1d | 0x1e | 0x1f => set_by(
            store,
            hart,
            Op::Fence,
            noted,
            word,
            stops,
        ),
        0x20 => set_by(store, hart, Op::Addi, noted, word, stops),
        0x21 => set_by(store, hart, Op::Slli, noted, word, stops),
        0x22 => set_by(store, hart, Op::Slti, noted, word, stops),
        0x23 => set_by(store, hart, Op::Sltiu, noted, word, stops),
        0x24 => set_by(store, hart, Op::Xori, noted, word, stops),
        0x25 => if is_plain {
            set_by(store, hart, Op::Srli, noted, word, stops)
        } else {
            set_by(store, hart, Op::Srai, noted, word, stops)
        },
        0x26 => set_by(store, hart, Op::Ori, noted, word, stops),
        0x27 => set_by(store, hart, Op::Andi, noted, word, stops),
        0x28 | 0x29 | 0x2a | 0x2b | 0x2c | 0x2d | 0x2e | 0x2f => set_by(
            store,
            hart,
            Op::Auipc,
            noted,
            word,
            stops,
        ),
        0x40 => of_access(store_apart::<operations::Sb, S, P>(store, hart, noted, word, stops)),
        0x41 => of_access(store_apart::<operations::Sh, S, P>(store, hart, noted, word, stops)),
        0x42 => of_access(store_apart::<operations::Sw, S, P>(store, hart, noted, word, stops)),
        0x5a => exchanged(store, hart, noted, word, stops),
        0x60 => if is_plain {
            set_by(store, hart, Op::Add, noted, word, stops)
        } else if is_product {
            multiplied(store, hart, noted, word, stops)
        } else {
            set_by(store, hart, Op::Sub, noted, word, stops)
        },
        0x61 => if is_product {
            multiplied(store, hart, noted, word, stops)
        } else {
            set_by(store, hart, Op::Sll, noted, word, stops)
        },
        0x62 => if is_product {
            multiplied(store, hart, noted, word, stops)
        } else {
            set_by(store, hart, Op::Slt, noted, word, stops)
        },
        0x63 => if is_product {
            multiplied(store, hart, noted, word, stops)
        } else {
            set_by(store, hart, Op::Sltu, noted, word, stops)
        },
        0x64 => if is_product {
            multiplied(store, hart, noted, word, stops)
        } else {
            set_by(store, hart, Op::Xor, noted, word, stops)
        },
        0x65 => if is_plain {
            set_by(store, hart, Op::Srl, noted, word, stops)
        } else if is_product {
            multiplied(store, hart, noted, word, stops)
        } else {
            set_by(store, hart, Op::Sra, noted, word, stops)
        },
        0x66 => if is_product {
            multiplied(store, hart, noted, word, stops)
        } else {
            set_by(store, hart, Op::Or, noted, word, stops)
        },
        0x67 => if is_product {
            multiplied(store, hart, noted, word, stops)
        } else {
            set_by(store, hart, Op::And, noted, word, stops)
        },
        0x68 | 0x69 | 0x6a | 0x6b | 0x6c | 0x6d | 0x6e | 0x6f => set_by(
            store,
            hart,
            Op::Lui,
            noted,
            word,
            stops,
        ),
        0xc0 => set_by(store, hart, Op::Beq, noted, word, stops),
        0xc1 => set_by(store, hart, Op::Bne, noted, word, stops),
        0xc4 => set_by(store, hart, Op::Blt, noted, word, stops),
        0xc5 => set_by(store, hart, Op::Bge, noted, word, stops),
        0xc6 => set_by(store, hart, Op::Bltu, noted, word, stops),
        0xc7 => set_by(store, hart, Op::Bgeu, noted, word, stops),
        0xc8 => set_by(store, hart, Op::Jalr, noted, word, stops),
        0xd8 | 0xd9 | 0xda | 0xdb | 0xdc | 0xdd | 0xde | 0xdf => set_by(
            store,
            hart,
            Op::Jal,
            noted,
            word,
            stops,
        ),
        _ => Attempt::Nothing,
    }
}

/// Takes the step of a word that may be an LR's, an SC's or an AMO's, which funct5 tells apart.
#[inline(always)]
fn exchanged<S: ByteStore, P: Stops>(
    store: &mut S,
    hart: &mut Hart,
    noted: &mut Noted,
    word: u32,
    stops: &P,
) -> Attempt
    requires fetches { Fetches (S.memory store.old) word hart.old }
    ensures tried { Tried (P.passes stops.now) hart.old hart.new (S.memory store.old) (S.memory store.new) (event_of_attempt result noted.new.access) (is_reserving result) }
    ensures kept { KeepsBack (S.memory store.old) hart.old result noted.old noted.new }
{
    match (word >> 27) % 32 {
        0x00 => of_access(exchange_apart::<operations::AmoaddW, S, P>(
            store, hart, noted, word, stops,
        )),
        0x01 => of_access(exchange_apart::<operations::AmoswapW, S, P>(
            store, hart, noted, word, stops,
        )),
        0x02 => reserve_apart(store, hart, noted, word, stops),
        0x03 => conditional_apart(store, hart, noted, word, stops),
        0x04 => of_access(exchange_apart::<operations::AmoxorW, S, P>(
            store, hart, noted, word, stops,
        )),
        0x08 => of_access(exchange_apart::<operations::AmoorW, S, P>(
            store, hart, noted, word, stops,
        )),
        0x0c => of_access(exchange_apart::<operations::AmoandW, S, P>(
            store, hart, noted, word, stops,
        )),
        0x10 => of_access(exchange_apart::<operations::AmominW, S, P>(
            store, hart, noted, word, stops,
        )),
        0x14 => of_access(exchange_apart::<operations::AmomaxW, S, P>(
            store, hart, noted, word, stops,
        )),
        0x18 => of_access(exchange_apart::<operations::AmominuW, S, P>(
            store, hart, noted, word, stops,
        )),
        0x1c => of_access(exchange_apart::<operations::AmomaxuW, S, P>(
            store, hart, noted, word, stops,
        )),
        _ => Attempt::Nothing,
    }
}

/// The attempt that an access was, which was made or not.
#[inline(always)]
fn of_access(made: bool) -> Attempt
    ensures { result ≡ attempt_of_access made }
{
    if made {
        Attempt::Accessed
    } else {
        Attempt::Nothing
    }
}

/// The action that a hart begins by its word, where the word is of this operation.
#[inline(always)]
fn begun<S: ByteStore>(_store: &S, hart: &Hart, op: Op, word: u32) -> Option<Action>
    requires fetches { Fetches (S.memory _store.now) word hart.now }
    ensures begins { IfSome result (λ action. Begins (S.memory _store.now) action hart.now) }
    ensures sized { IfSome result HasSize }
{
    let Some(instr) = decode_as(op, word) else {
        return None;
    };
    Some(act(&instr, hart))
}

/// Takes the step of a word of this operation, which sets a register.
#[inline(always)]
fn set_by<S: ByteStore, P: Stops>(
    store: &mut S,
    hart: &mut Hart,
    op: Op,
    noted: &mut Noted,
    word: u32,
    stops: &P,
) -> Attempt
    requires fetches { Fetches (S.memory store.old) word hart.old }
    ensures tried { Tried (P.passes stops.now) hart.old hart.new (S.memory store.old) (S.memory store.new) (event_of_attempt result noted.new.access) (is_reserving result) }
    ensures kept { KeepsBack (S.memory store.old) hart.old result noted.old noted.new }
{
    match begun(store, hart, op, word) {
        Some(action) => set(store, hart, action, noted, stops),
        None => Attempt::Nothing,
    }
}

/// Takes the step of a word that may be a product or a quotient, which funct3 tells apart, apart from the jump.
#[inline(never)]
fn multiplied<S: ByteStore, P: Stops>(
    store: &mut S,
    hart: &mut Hart,
    noted: &mut Noted,
    word: u32,
    stops: &P,
) -> Attempt
    requires fetches { Fetches (S.memory store.old) word hart.old }
    ensures tried { Tried (P.passes stops.now) hart.old hart.new (S.memory store.old) (S.memory store.new) (event_of_attempt result noted.new.access) (is_reserving result) }
    ensures kept { KeepsBack (S.memory store.old) hart.old result noted.old noted.new }
{
    match (word >> 12) % 8 {
        0 => set_by(store, hart, Op::Mul, noted, word, stops),
        1 => set_by(store, hart, Op::Mulh, noted, word, stops),
        2 => set_by(store, hart, Op::Mulhsu, noted, word, stops),
        3 => set_by(store, hart, Op::Mulhu, noted, word, stops),
        4 => set_by(store, hart, Op::Div, noted, word, stops),
        5 => set_by(store, hart, Op::Divu, noted, word, stops),
        6 => set_by(store, hart, Op::Rem, noted, word, stops),
        _ => set_by(store, hart, Op::Remu, noted, word, stops),
    }
}

/// Takes the step of a word of this operation, a plain load, apart from the jump.
#[inline(never)]
fn load_apart<O: Operation, S: ByteStore, P: Stops>(
    store: &mut S,
    hart: &mut Hart,
    noted: &mut Noted,
    word: u32,
    stops: &P,
) -> bool
    requires fetches { Fetches (S.memory store.old) word hart.old }
    ensures tried { Tried (P.passes stops.now) hart.old hart.new (S.memory store.old) (S.memory store.new) (event_of_attempt (attempt_of_access result) noted.new.access) (is_reserving (attempt_of_access result)) }
    ensures kept { KeepsBack (S.memory store.old) hart.old (attempt_of_access result) noted.old noted.new }
{
    match begun(store, hart, O::op(), word) {
        Some(action) => loaded(store, hart, action, noted, stops),
        None => false,
    }
}

/// Takes the step of a word of this operation, a plain store, apart from the jump.
#[inline(never)]
fn store_apart<O: Operation, S: ByteStore, P: Stops>(
    store: &mut S,
    hart: &mut Hart,
    noted: &mut Noted,
    word: u32,
    stops: &P,
) -> bool
    requires fetches { Fetches (S.memory store.old) word hart.old }
    ensures tried { Tried (P.passes stops.now) hart.old hart.new (S.memory store.old) (S.memory store.new) (event_of_attempt (attempt_of_access result) noted.new.access) (is_reserving (attempt_of_access result)) }
    ensures kept { KeepsBack (S.memory store.old) hart.old (attempt_of_access result) noted.old noted.new }
{
    match begun(store, hart, O::op(), word) {
        Some(action) => stored(store, hart, action, noted, stops),
        None => false,
    }
}

/// Takes the step of a word of this operation, an AMO, apart from the jump.
#[inline(never)]
fn exchange_apart<O: Operation, S: ByteStore, P: Stops>(
    store: &mut S,
    hart: &mut Hart,
    noted: &mut Noted,
    word: u32,
    stops: &P,
) -> bool
    requires fetches { Fetches (S.memory store.old) word hart.old }
    ensures tried { Tried (P.passes stops.now) hart.old hart.new (S.memory store.old) (S.memory store.new) (event_of_attempt (attempt_of_access result) noted.new.access) (is_reserving (attempt_of_access result)) }
    ensures kept { KeepsBack (S.memory store.old) hart.old (attempt_of_access result) noted.old noted.new }
{
    match begun(store, hart, O::op(), word) {
        Some(action) => replaced(store, hart, action, noted, stops),
        None => false,
    }
}

/// Takes the step of a word that may be an LR's, apart from the jump.
#[inline(never)]
fn reserve_apart<S: ByteStore, P: Stops>(
    store: &mut S,
    hart: &mut Hart,
    noted: &mut Noted,
    word: u32,
    stops: &P,
) -> Attempt
    requires fetches { Fetches (S.memory store.old) word hart.old }
    ensures tried { Tried (P.passes stops.now) hart.old hart.new (S.memory store.old) (S.memory store.new) (event_of_attempt result noted.new.access) (is_reserving result) }
    ensures kept { KeepsBack (S.memory store.old) hart.old result noted.old noted.new }
{
    match begun(store, hart, Op::LrW, word) {
        Some(action) => reserved(store, hart, action, noted, stops),
        None => Attempt::Nothing,
    }
}

/// Takes the step of a word that may be an SC's, apart from the jump.
#[inline(never)]
fn conditional_apart<S: ByteStore, P: Stops>(
    store: &mut S,
    hart: &mut Hart,
    noted: &mut Noted,
    word: u32,
    stops: &P,
) -> Attempt
    requires fetches { Fetches (S.memory store.old) word hart.old }
    ensures tried { Tried (P.passes stops.now) hart.old hart.new (S.memory store.old) (S.memory store.new) (event_of_attempt result noted.new.access) (is_reserving result) }
    ensures kept { KeepsBack (S.memory store.old) hart.old result noted.old noted.new }
{
    match begun(store, hart, Op::ScW, word) {
        Some(action) => stored_if_reserved(store, hart, action, noted, stops),
        None => Attempt::Nothing,
    }
}

/// Takes an action that sets a register.
#[inline(always)]
fn set<S: ByteStore, P: Stops>(
    _store: &mut S,
    hart: &mut Hart,
    action: Action,
    _noted: &mut Noted,
    _stops: &P,
) -> Attempt
    requires begins { Begins (S.memory _store.old) action hart.old }
    ensures tried { Tried (P.passes _stops.now) hart.old hart.new (S.memory _store.old) (S.memory _store.new) (event_of_attempt result _noted.new.access) (is_reserving result) }
    ensures kept { KeepsBack (S.memory _store.old) hart.old result _noted.old _noted.new }
{
    let Action::Set { .. } = action else {
        return Attempt::Nothing;
    };
    advance(hart, 0, action);
    Attempt::Silent
}

/// Takes a plain load that is permitted.
#[inline(always)]
fn loaded<S: ByteStore, P: Stops>(
    store: &mut S,
    hart: &mut Hart,
    action: Action,
    noted: &mut Noted,
    stops: &P,
) -> bool
    requires sized { HasSize action }
    requires begins { Begins (S.memory store.old) action hart.old }
    ensures tried { Tried (P.passes stops.now) hart.old hart.new (S.memory store.old) (S.memory store.new) (event_of_attempt (attempt_of_access result) noted.new.access) (is_reserving (attempt_of_access result)) }
    ensures kept { KeepsBack (S.memory store.old) hart.old (attempt_of_access result) noted.old noted.new }
{
    let Action::Load { address, size, .. } = action else {
        return false;
    };
    if !is_aligned(address, size) {
        return false;
    }
    if !stops.lets_by(hart.pc) {
        keep_back(store, hart, noted, address, size, AccessKind::Load);
        return false;
    }
    let Some(loaded) = store.load_permitted(address, size, Need::Read) else {
        return false;
    };
    note(noted, hart, address, size, AccessKind::Load);
    advance(hart, loaded, action);
    true
}

/// Takes a plain store that is permitted.
#[inline(always)]
fn stored<S: ByteStore, P: Stops>(
    store: &mut S,
    hart: &mut Hart,
    action: Action,
    noted: &mut Noted,
    stops: &P,
) -> bool
    requires sized { HasSize action }
    requires begins { Begins (S.memory store.old) action hart.old }
    ensures tried { Tried (P.passes stops.now) hart.old hart.new (S.memory store.old) (S.memory store.new) (event_of_attempt (attempt_of_access result) noted.new.access) (is_reserving (attempt_of_access result)) }
    ensures kept { KeepsBack (S.memory store.old) hart.old (attempt_of_access result) noted.old noted.new }
{
    memory_is_sound();
    let Action::Store {
        address,
        size,
        value,
    } = action
    else {
        return false;
    };
    if !is_aligned(address, size) {
        return false;
    }
    if !stops.lets_by(hart.pc) {
        keep_back(store, hart, noted, address, size, AccessKind::Store);
        return false;
    }
    if !store.store_permitted(address, size, value, Need::Write) {
        return false;
    }
    note(noted, hart, address, size, AccessKind::Store);
    advance(hart, 0, action);
    true
}

/// Takes an AMO that is permitted.
#[inline(always)]
fn replaced<S: ByteStore, P: Stops>(
    store: &mut S,
    hart: &mut Hart,
    action: Action,
    noted: &mut Noted,
    stops: &P,
) -> bool
    requires begins { Begins (S.memory store.old) action hart.old }
    ensures tried { Tried (P.passes stops.now) hart.old hart.new (S.memory store.old) (S.memory store.new) (event_of_attempt (attempt_of_access result) noted.new.access) (is_reserving (attempt_of_access result)) }
    ensures kept { KeepsBack (S.memory store.old) hart.old (attempt_of_access result) noted.old noted.new }
{
    memory_is_sound();
    let Action::Replace {
        address,
        combine,
        value,
        ..
    } = action
    else {
        return false;
    };
    if !is_aligned(address, 4) || !stops.lets_by(hart.pc) {
        return false;
    }
    let Some(loaded) = store.load_permitted(address, 4, Need::ReadWrite) else {
        return false;
    };
    let stored = combined(combine, loaded, value);
    if !store.store_permitted(address, 4, stored, Need::Write) {
        return false;
    }
    note(noted, hart, address, 4, AccessKind::Both);
    advance(hart, loaded, action);
    true
}

/// Takes an LR that is permitted.
#[inline(always)]
fn reserved<S: ByteStore, P: Stops>(
    store: &mut S,
    hart: &mut Hart,
    action: Action,
    noted: &mut Noted,
    stops: &P,
) -> Attempt
    requires begins { Begins (S.memory store.old) action hart.old }
    ensures tried { Tried (P.passes stops.now) hart.old hart.new (S.memory store.old) (S.memory store.new) (event_of_attempt result noted.new.access) (is_reserving result) }
    ensures kept { KeepsBack (S.memory store.old) hart.old result noted.old noted.new }
{
    let Action::Reserve { address, .. } = action else {
        return Attempt::Nothing;
    };
    if !is_aligned(address, 4) || !stops.lets_by(hart.pc) {
        return Attempt::Nothing;
    }
    let Some(loaded) = store.load_permitted(address, 4, Need::Read) else {
        return Attempt::Nothing;
    };
    note(noted, hart, address, 4, AccessKind::Load);
    advance(hart, loaded, action);
    Attempt::Reserved
}

/// Takes an SC that is permitted: it writes where the hart holds the word's reservation, and else it fails.
#[inline(always)]
fn stored_if_reserved<S: ByteStore, P: Stops>(
    store: &mut S,
    hart: &mut Hart,
    action: Action,
    noted: &mut Noted,
    stops: &P,
) -> Attempt
    requires begins { Begins (S.memory store.old) action hart.old }
    ensures tried { Tried (P.passes stops.now) hart.old hart.new (S.memory store.old) (S.memory store.new) (event_of_attempt result noted.new.access) (is_reserving result) }
    ensures kept { KeepsBack (S.memory store.old) hart.old result noted.old noted.new }
{
    memory_is_sound();
    let Action::Conditional { address, value, .. } = action else {
        return Attempt::Nothing;
    };
    if !is_aligned(address, 4) {
        return Attempt::Nothing;
    }
    if !reserves(hart.reservation, address) {
        if !store.permits(address, 4, Need::Write) {
            return Attempt::Nothing;
        }
        advance(hart, 0, action);
        return Attempt::Silent;
    }
    if !stops.lets_by(hart.pc) || !store.store_permitted(address, 4, value, Need::Write) {
        return Attempt::Nothing;
    }
    note(noted, hart, address, 4, AccessKind::Store);
    advance(hart, 0, action);
    Attempt::Accessed
}

/// Notes the access of a plain load or store that is kept back, if it is permitted, so that who takes the hart's pause need not
/// decode it again.
#[cold]
#[inline(never)]
fn keep_back<S: ByteStore>(
    store: &S,
    hart: &Hart,
    noted: &mut Noted,
    first: u32,
    size: u8,
    kind: AccessKind,
)
    requires { BeginsPlain (S.memory store.now) hart.now first size kind }
    ensures { KeepsBack (S.memory store.now) hart.now Attempt.Nothing noted.old noted.new }
{
    if store.permits(first, size, kind.need()) {
        note(noted, hart, first, size, kind);
        noted.is_kept_back = true;
    }
}

/// Notes an access that the hart makes.
#[inline(always)]
fn note(noted: &mut Noted, hart: &Hart, first: u32, size: u8, kind: AccessKind)
    ensures access { noted.new.access ≡ access_of_kind kind hart.now first size }
    ensures kept { noted.new.is_kept_back ≡ noted.old.is_kept_back }
{
    noted.access.pc = hart.pc;
    noted.access.first = first;
    noted.access.size = size;
    noted.access.read = kind.reads();
    noted.access.write = kind.writes();
}
