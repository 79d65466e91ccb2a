//! Steps that another makes, watched: by what was known of the hart before.
ghost use Rattle.std.specs.Prelude.{◌≡◌, ◌<◌, ℕ, true, false, Some, IfSome, List, length};
ghost use Rattle.rv_hart.specs.Fetched.{IsWordOf};
ghost use Rattle.rv_hart.specs.State.{State};
ghost use Rattle.rv_hart.specs.Step.{step_of};
ghost use Rattle.rv_hart.specs.declared.access.Event.TheVariants.{Moved};
ghost use Rattle.rv_waits.specs.Before.{IsBefore, IsSight};
ghost use Rattle.rv_waits.specs.Watch.{IsWatchOf};
ghost use Rattle.rv_waits.specs.declared.watch.Anchor.{Anchor};
ghost use Rattle.rv_memory.specs.Memory.{IsSize};
ghost use Rattle.rv_waits.specs.internal.Moves.{IsMove, IsSetAt};

use super::{Watch, bytes_of};
use crate::quiet::{FourBytes, first_of, four_bytes, has_bytes, may_write};
use rv_hart::access::{Access, Event};
use rv_hart::laws::{reservations_and_accesses, what_no_step_does};
use rv_hart::machine::Machine;
use rv_isa::codec::decode_as;
use rv_isa::instr::Instr;
use rv_isa::laws::functions_of_the_table;
use rv_isa::op::Op;
use rv_memory::laws::store_keeps_the_rest;
use rv_memory::store::ByteStore;

/// What says of a step, once it is made, whether it changed a byte: its access, where its word writes nothing or the hart has no
/// anchor that it could keep; else the bytes that it was to access, as they were. Of an SC nothing does, and nothing has to of a store of other
/// bytes than those.
#[derive(Clone, Copy)]
pub enum Sight {
    Access,
    Nothing,
    Bytes(u32, FourBytes),
}

/// What is known of a hart before its step: its pc, how many bytes were printed, and what will say whether a byte has changed.
#[derive(Clone, Copy)]
pub struct Before {
    pub pc: u32,
    pub printed: usize,
    pub sight: Sight,
}

impl Watch {
    /// What has to be known of a hart before its step.
    pub fn before<S: ByteStore>(&self, machine: &Machine<S>, h: u8) -> Before
        requires hart { h < length machine.now.state.harts }
        requires anchor { h < length self.now }
        ensures { IsBefore self.now machine.now.state h result }
    {
        Before {
            pc: machine.pc(h),
            printed: machine.output().len(),
            sight: self.sight(machine, h, machine.fetched(h)),
        }
    }

    /// The same where the word at the hart's pc was fetched.
    #[inline(always)]
    pub fn before_word<S: ByteStore>(&self, machine: &Machine<S>, h: u8, word: u32) -> Before
        requires hart { h < length machine.now.state.harts }
        requires anchor { h < length self.now }
        requires word { IsWordOf machine.now.state h word }
        ensures { IsBefore self.now machine.now.state h result }
    {
        Before {
            pc: machine.pc(h),
            printed: machine.output().len(),
            sight: self.sight(machine, h, Some(word)),
        }
    }

    /// What will say whether the step changes a byte, by its word, if that was fetched.
    #[inline(always)]
    fn sight<S: ByteStore>(&self, machine: &Machine<S>, h: u8, word: Option<u32>) -> Sight
        requires hart { h < length machine.now.state.harts }
        requires anchor { h < length self.now }
        requires word { IfSome word (IsWordOf machine.now.state h) }
        ensures { IsSight self.now machine.now.state h result }
    {
        functions_of_the_table();
        if !self.has_anchor(h) {
            return Sight::Access;
        }
        if let Some(word) = word {
            if !may_write(word) {
                return Sight::Access;
            }
            if stores_other(machine, h, word) {
                return Sight::Nothing;
            }
        }
        sight_of_bytes(machine, h)
    }

    /// Whether a hart has an anchor.
    #[inline(always)]
    fn has_anchor(&self, h: u8) -> bool
        requires { h < length self.now }
        ensures { result ≡ false → ¬ IsSetAt self.now h }
    {
        self.anchors[h as usize].is_set
    }

    /// A step of a hart that was made from where `before` is known of.
    #[inline(always)]
    pub fn saw<S: ByteStore>(&mut self, before: Before, machine: &Machine<S>, h: u8, event: Event)
        requires hart { h < length machine.now.state.harts }
        requires anchor { h < length self.old }
        ensures { (s : State) → IsWatchOf self.old s → IsBefore self.old s h before
            → step_of s h ≡ Some (event, machine.now.state) → IsWatchOf self.new machine.now.state }
    {
        match event {
            Event::Moved(access) if is_quiet(before, machine, access) => {
                self.go_on(machine, h, before.pc, access);
            }
            Event::Moved(_) | Event::Exited(_) | Event::Stopped(_) => {
                let bytes = bytes_of(event);
                self.look(h, bytes.first, bytes.size);
            }
        }
    }
}

/// A plain store, and how many bits it writes.
#[derive(Clone, Copy)]
struct PlainStore {
    instr: Instr,
    size: u8,
    /// The bits of its value that it leaves out.
    spare: u32,
}

/// The plain store that a word is, if it is one.
#[inline(always)]
fn plain_store(word: u32) -> Option<PlainStore>
    ensures size { IfSome result (λ it. IsSize it.size) }
    ensures spare { IfSome result (λ it. it.spare < 32) }
{
    if let Some(instr) = decode_as(Op::Sw, word) {
        return Some(PlainStore {
            instr,
            size: 4,
            spare: 0,
        });
    }
    if let Some(instr) = decode_as(Op::Sb, word) {
        return Some(PlainStore {
            instr,
            size: 1,
            spare: 24,
        });
    }
    match decode_as(Op::Sh, word) {
        Some(instr) => Some(PlainStore {
            instr,
            size: 2,
            spare: 16,
        }),
        None => None,
    }
}

/// Whether the word is that of a plain store which will write other bytes than stand there. It spares the look at each byte, and no more: a step of
/// which nothing is known is taken for one that changes bytes.
#[inline(never)]
fn stores_other<S: ByteStore>(machine: &Machine<S>, h: u8, word: u32) -> bool
    requires { h < length machine.now.state.harts }
{
    let Some(store) = plain_store(word) else {
        return false;
    };
    let hart = machine.hart(h);
    let first = hart
        .registers
        .read(store.instr.rs1)
        .wrapping_add(store.instr.imm.cast_unsigned());
    match machine.number(first, store.size) {
        Some(there) => (there ^ hart.registers.read(store.instr.rs2)) << store.spare != 0,
        None => false,
    }
}

/// The bytes that a hart's next step would access, where it is no SC.
#[inline(never)]
fn sight_of_bytes<S: ByteStore>(machine: &Machine<S>, h: u8) -> Sight
    requires { h < length machine.now.state.harts }
    ensures { (anchors : List Anchor) → IsSight anchors machine.now.state h result }
{
    if machine.at_conditional(h) {
        return Sight::Nothing;
    }
    let first = first_of(machine.next_access(h));
    Sight::Bytes(first, four_bytes(machine, first))
}

/// Whether a step that moved on has changed nothing, by what was known before.
#[inline(always)]
fn is_quiet<S: ByteStore>(before: Before, machine: &Machine<S>, access: Option<Access>) -> bool
    ensures { result ≡ true → (anchors : List Anchor) (s : State) (h : ℕ) → IsBefore anchors s h before
        → step_of s h ≡ Some (Moved access, machine.now.state)
        → IsMove anchors s machine.now.state h before.pc access }
{
    store_keeps_the_rest();
    reservations_and_accesses();
    what_no_step_does();
    if machine.output().len() != before.printed {
        return false;
    }
    match before.sight {
        Sight::Access => !writes(access),
        Sight::Nothing => false,
        Sight::Bytes(first, bytes) => has_bytes(machine, first, bytes),
    }
}

/// Whether an access writes.
fn writes(access: Option<Access>) -> bool
    ensures { result ≡ false → IfSome access (λ a. a.write ≡ false) }
{
    match access {
        Some(access) => access.write,
        None => false,
    }
}
