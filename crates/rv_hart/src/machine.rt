ghost use Rattle.std.specs.Prelude.{◌≡◌, true, ◌^◌, ◌≢◌, ℕ, ◌<◌, ◌≤◌, ◌%◌, ◌↔◌, Some, None, length, IsTrue, false, IsSome, IfSome, IfOk, IfErr, OnOk, OnErr, unwrap_or, slice_get, All};
ghost use Rattle.rv_hart.specs.internal.Able.{IsAble};
ghost use Rattle.rv_hart.specs.internal.Machine as machine;
ghost use Rattle.rv_hart.specs.internal.HartAccess as own;
ghost use Rattle.rv_hart.specs.Common.{NotesKept, event_of_common};
ghost use Rattle.rv_hart.specs.Fetched.{IsWordOf};
ghost use Rattle.rv_hart.specs.Locality.{at_conditional, is_conditional};
ghost use Rattle.rv_hart.specs.NextAccess as next;
ghost use Rattle.rv_hart.specs.Refusals as refusals;
ghost use Rattle.rv_hart.specs.Registers.{get};
ghost use Rattle.rv_hart.specs.SomeHart.{SomeHart};
ghost use Rattle.rv_hart.specs.State as state;
ghost use Rattle.rv_hart.specs.Step.{step_of};
ghost use Rattle.rv_hart.specs.StepAnswer.{AnswersStep};
ghost use Rattle.rv_memory.specs.Extent.{IsExtent};
ghost use Rattle.rv_memory.specs.Memory as memory;

use crate::access::{Access, Common, Event, Noted};
use crate::act::register;
use crate::action::Action;
use crate::effect::{
    access_of, action_at, any_holds, event_of, loaded_by, print, put, ready, see_and_advance,
    written_by,
};
use crate::hart::{Hart, Status};
use crate::quick::{Attempt, tried};
use crate::start::{first_harts, store_with_stacks};
use crate::stops::{NoStops, Stops};
use rv_memory::laws::{bytes_stand_where_covered, memory_is_sound};
use rv_memory::region::Region;
use rv_memory::store::{ByteStore, MemFault, Need};
use std::alloc::Global;
use std::marker::Model;

mod share;

/// The most harts of a machine.
pub const MOST_HARTS: u8 = 16;

/// The most bytes that a machine may be made to print.
pub const OUTPUT_LIMIT: u32 = 1_000_000;

/// Why a step is refused, tested in this order: there is no hart of the number; it exited or stopped; it
/// would print a byte that the output has no room for; the store was refused memory.
#[derive(Clone, Copy, Debug)]
pub enum StepFault {
    NoHart,
    NotRunning,
    OutputFull,
    NoMemory,
}

/// 1 to `MOST_HARTS` harts over one memory. `S` keeps the memory's bytes; over a store that is `Steady` a step asks
/// for no memory.
#[derive(Drop)]
pub struct Machine<S: ByteStore> {
    harts: Vec<Hart>,
    store: S,
    output: Vec<u8>,
    limit: u32,
    /// Whether a hart may hold a reservation: where none does, a write ends none.
    reserved: bool,
    /// The access that the last common step of `step` made, if it made one: a place that stays, so that no step makes one.
    noted: Noted,
}

impl<S: ByteStore> Model for Machine<S> {
    ghost use Rattle.rv_hart.specs.State.{Guest};
    ghost use Rattle.rv_hart.specs.internal.Machine.{IsMachine};

    ghost Value = { Guest };

    ghost view = { λ m. record {
      state = record { harts = m.harts.items; memory = S.memory m.store; output = m.output.items };
      limit = m.limit;
    } };

    ghost invariant = { λ m. IsMachine m.harts (S.memory m.store) m.output m.limit m.reserved };
}

impl<S: ByteStore> Machine<S> {
    /// A machine of so many harts (1 to `MOST_HARTS`) with these regions and the harts' stacks, each hart at the
    /// entry, a multiple of 4. It may print `out_limit` bytes, up to 1,000,000. The regions and the stacks
    /// are tested together, as a store tests its regions, before memory is asked for. The regions are lent,
    /// and the store's copy of their bytes is the only one.
    pub fn new(
        alloc: Global,
        regions: &[Region],
        entry: u32,
        harts: u8,
        out_limit: u32,
    ) -> Result<Machine<S>, MemFault>
        requires regions { All IsExtent regions.now }
        requires entry { entry % 4 ≡ 0 }
        requires some { 1 ≤ harts }
        requires within { harts ≤ MOST_HARTS }
        requires limit { out_limit ≤ OUTPUT_LIMIT }
        ensures ok { IfOk result (λ m. m ≡ record {
          state = state.start regions.now entry harts;
          limit = out_limit;
        }) }
        ensures fits { OnOk result
            (memory.fault_of (state.with_stacks regions.now harts) ≡ None) }
        ensures err { IfErr result (λ fault. fault
            ≡ unwrap_or (memory.fault_of (state.with_stacks regions.now harts)) MemFault.NoMemory) }
    {
        memory_is_sound();
        let store: S = store_with_stacks(alloc, regions, harts)?;
        let output = Vec::with_capacity(alloc, out_limit as usize)?;
        let harts = first_harts(alloc, entry, harts)?;
        Ok(Machine {
            harts,
            store,
            output,
            limit: out_limit,
            reserved: false,
            noted: Noted::nothing(),
        })
    }

    /// How many harts there are: 1 to `MOST_HARTS`.
    pub fn harts(&self) -> u8
        ensures value { result ≡ length self.now.state.harts }
        ensures some { 1 ≤ result }
        ensures within { result ≤ MOST_HARTS }
    {
        self.harts.len() as u8
    }

    /// The address of a hart's next instruction.
    pub fn pc(&self, h: u8) -> u32
        requires { h < length self.now.state.harts }
        ensures { SomeHart (λ hart. result ≡ hart.pc) self.now.state h }
    {
        self.harts[h as usize].pc
    }

    /// A hart's register, 0 to 31.
    pub fn register(&self, h: u8, r: u8) -> u32
        requires hart { h < length self.now.state.harts }
        requires register { r ≤ 31 }
        ensures { SomeHart (λ hart. result ≡ get hart.registers r) self.now.state h }
    {
        register(&self.harts[h as usize], r)
    }

    /// Whether a hart runs, and else how it ended.
    pub fn status(&self, h: u8) -> Status
        requires { h < length self.now.state.harts }
        ensures { SomeHart (λ hart. result ≡ hart.status) self.now.state h }
    {
        self.harts[h as usize].status
    }

    /// The address of the word that a hart holds a reservation of.
    pub fn reservation(&self, h: u8) -> Option<u32>
        requires { h < length self.now.state.harts }
        ensures { SomeHart (λ hart. result ≡ hart.reservation) self.now.state h }
    {
        self.harts[h as usize].reservation
    }

    /// The byte at an address, or None outside of every region.
    pub fn byte(&self, address: u32) -> Option<u8>
        ensures { result ≡ memory.byte self.now.state.memory address }
    {
        bytes_stand_where_covered();
        if self.store.permits(address, 1, Need::Nothing) {
            Some(self.store.load(address, 1) as u8)
        } else {
            None
        }
    }

    /// The `size` bytes (1, 2 or 4) from an address on as a little-endian number, looked up once; or None where
    /// they do not lie wholly in one region.
    pub fn number(&self, address: u32, size: u8) -> Option<u32>
        requires { memory.IsSize size }
        ensures value { result ≡ memory.load_permitted self.now.state.memory address size Need.Nothing }
        ensures below { IfSome result (λ value. value < 256 ^ size) }
    {
        self.store.load_permitted(address, size, Need::Nothing)
    }

    /// No byte stands past the last address.
    pub fn no_byte_past_the_last(&self)
        ensures { (address : ℕ) → 2 ^ 32 ≤ address → memory.byte self.now.state.memory address ≡ None }
    {
        let _limit = self.limit;
    }

    /// The bytes printed so far.
    pub fn output(&self) -> &[u8]
        ensures { result.now ≡ self.now.state.output }
    {
        &self.output
    }

    /// Hands out the bytes printed.
    pub fn into_output(self) -> Vec<u8>
        ensures { result.items ≡ self.state.output }
    {
        self.output
    }

    /// The access that a step of the hart would make now; None where it does not run, would trap, or
    /// would access nothing.
    pub fn next_access(&self, h: u8) -> Option<Access>
        requires { h < length self.now.state.harts }
        ensures { result ≡ next.next_access self.now.state h }
    {
        hart_access(&self.store, self.hart(h))
    }

    /// The same where the instruction is a plain load or store, else None.
    pub fn next_plain(&self, h: u8) -> Option<Access>
        requires { h < length self.now.state.harts }
        ensures { result ≡ next.next_plain self.now.state h }
    {
        hart_plain(&self.store, self.hart(h))
    }

    /// Whether the instruction that a hart is at is an SC that would be made, be it one that succeeds or one that fails.
    pub fn at_conditional(&self, h: u8) -> bool
        requires { h < length self.now.state.harts }
        ensures { result ≡ at_conditional self.now.state.memory (slice_get self.now.state.harts h) }
    {
        is_conditional(action_at(&self.store, self.hart(h)))
    }

    /// One step of a hart: its instruction, an exit, or a stop. A refused step changes nothing.
    #[inline(always)]
    pub fn step(&mut self, h: u8) -> Result<Event, StepFault>
        ensures { AnswersStep S.can_refuse self.old self.new h result }
    {
        if self.runs(h) {
            if let Some(event) = self.step_noted(h) {
                return Ok(event);
            }
        }
        self.step_apart(h)
    }

    /// The word at a hart's pc, where the store finds it at once; None says nothing.
    #[inline(always)]
    pub fn fetched(&self, h: u8) -> Option<u32>
        requires { h < length self.now.state.harts }
        ensures { IfSome result (IsWordOf self.now.state h) }
    {
        self.store.fetch_at_once(self.harts[h as usize].pc)
    }

    /// One step of a hart that runs, whose word was fetched, where it is a common one, which moves on, and notes its
    /// access, unless `stops` keeps it back; else nothing has changed. `PLACE` tells the places that call it apart: it is compiled once for each but 0, and into it. What was
    /// noted stays in the caller's place, since an event that is handed on is copied at each step.
    #[inline(always)]
    pub fn step_quick<const PLACE: u8, P: Stops>(
        &mut self,
        h: u8,
        word: u32,
        noted: &mut Noted,
        stops: &P,
    ) -> Common
        requires running { refusals.is_running_hart (slice_get self.old.state.harts h) ≡ true }
        requires word { IsWordOf self.old.state h word }
        ensures step { IfSome (event_of_common result noted.new.access) (λ event.
            step_of self.old.state h ≡ Some (event, self.new.state)) }
        ensures passed { IfSome (event_of_common result noted.new.access) (λ event.
            IfSome (next.accessed event) (λ access. P.passes stops.now access.pc)) }
        ensures silent { IsSome (event_of_common result noted.new.access)
            → refusals.prints self.old.state.memory (slice_get self.old.state.harts h) ≡ false }
        ensures harts { length self.new.state.harts ≡ length self.old.state.harts }
        ensures limit { self.new.limit ≡ self.old.limit }
        ensures kept { NotesKept self.old.state h result noted.old noted.new }
        ensures same { (result ≡ Common.Untaken) → self.new ≡ self.old }
    {
        let attempt = tried::<PLACE, S, P>(
            &mut self.store,
            &mut self.harts,
            &mut self.reserved,
            h,
            word,
            noted,
            stops,
        );
        // These by themselves, since most steps come to them: four cases would be a jump over a table.
        if let Attempt::Silent = attempt {
            return Common::Silent;
        }
        if let Attempt::Accessed = attempt {
            return Common::Accessed;
        }
        match attempt {
            Attempt::Nothing => Common::Untaken,
            Attempt::Silent => Common::Silent,
            Attempt::Accessed | Attempt::Reserved => Common::Accessed,
        }
    }

    /// The same for `step`, as an event.
    #[inline(always)]
    #[tactic(auto, using(crate::proofs::QuickLemmas::running_within))]
    fn step_noted(&mut self, h: u8) -> Option<Event>
        requires { refusals.is_running_hart (slice_get self.old.state.harts h) ≡ true }
        ensures step { IfSome result (λ event.
            step_of self.old.state h ≡ Some (event, self.new.state)) }
        ensures running { IsSome result
            → IsTrue (refusals.is_running_hart (slice_get self.old.state.harts h)) }
        ensures silent { IsSome result
            → refusals.prints self.old.state.memory (slice_get self.old.state.harts h) ≡ false }
        ensures harts { length self.new.state.harts ≡ length self.old.state.harts }
        ensures limit { self.new.limit ≡ self.old.limit }
        ensures same { (result ≡ None) → self.new ≡ self.old }
    {
        let word = self.fetched(h)?;
        let attempt = tried::<0, S, NoStops>(
            &mut self.store,
            &mut self.harts,
            &mut self.reserved,
            h,
            word,
            &mut self.noted,
            &NoStops,
        );
        if let Attempt::Silent = attempt {
            return Some(Event::Moved(None));
        }
        if let Attempt::Accessed = attempt {
            return Some(Event::Moved(Some(self.noted.access)));
        }
        match attempt {
            Attempt::Nothing => None,
            Attempt::Silent => Some(Event::Moved(None)),
            Attempt::Accessed | Attempt::Reserved => Some(Event::Moved(Some(self.noted.access))),
        }
    }

    /// Whether there is such a hart, and it runs.
    #[inline(always)]
    pub fn runs(&self, h: u8) -> bool
        ensures { result ≡ refusals.is_running_hart (slice_get self.now.state.harts h) }
    {
        match self.harts.get(h as usize) {
            Some(hart) => hart.status.is_running(),
            None => false,
        }
    }

    /// `step_any`, with a place of its own for what that answers: the event of `step_quick` stays in registers.
    #[inline(always)]
    fn step_apart(&mut self, h: u8) -> Result<Event, StepFault>
        ensures { AnswersStep S.can_refuse self.old self.new h result }
    {
        let general = self.step_any(h);
        general
    }

    /// One step of a hart, whatever it is.
    #[cold]
    #[inline(never)]
    fn step_any(&mut self, h: u8) -> Result<Event, StepFault>
        ensures { AnswersStep S.can_refuse self.old self.new h result }
    {
        let action = self.tested(h)?;
        self.take(h, action)
    }

    /// What the hart does next, where nothing but memory refuses it.
    fn tested(&self, h: u8) -> Result<Action, StepFault>
        ensures ok { IfOk result (λ action. machine.Takes self.now.state h action) }
        ensures hart { OnOk result (h < length self.now.state.harts) }
        ensures able { IfOk result (λ action. IsAble self.now.state.memory action) }
        ensures no_hart { (result ≡ Err StepFault.NoHart) ↔ (length self.now.state.harts ≤ h) }
        ensures not_running { (result ≡ Err StepFault.NotRunning) ↔ refusals.IsIdle self.now.state h }
        ensures output_full { (result ≡ Err StepFault.OutputFull) ↔ refusals.HasNoRoom self.now h }
        ensures room { IfOk result (λ action. IsTrue (refusals.is_print action)
            → length self.now.state.output < self.now.limit) }
        ensures memory { result ≢ Err StepFault.NoMemory }
    {
        if h as usize >= self.harts.len() {
            return Err(StepFault::NoHart);
        }
        let hart = &self.harts[h as usize];
        if !hart.status.is_running() {
            return Err(StepFault::NotRunning);
        }
        let action = action_at(&self.store, hart);
        if is_print(action) && self.output.len() >= self.limit as usize {
            return Err(StepFault::OutputFull);
        }
        Ok(action)
    }

    /// Takes the action, or changes nothing where the store is refused memory.
    fn take(&mut self, h: u8, action: Action) -> Result<Event, StepFault>
        requires takes { machine.Takes self.old.state h action }
        requires hart { h < length self.old.state.harts }
        requires able { IsAble self.old.state.memory action }
        requires room { IsTrue (refusals.is_print action) → length self.old.state.output < self.old.limit }
        ensures step { IfOk result (λ event.
            step_of self.old.state h ≡ Some (event, self.new.state)) }
        ensures harts { length self.new.state.harts ≡ length self.old.state.harts }
        ensures limit { self.new.limit ≡ self.old.limit }
        ensures err { IfErr result (λ fault. fault ≡ StepFault.NoMemory) }
        ensures no_memory { OnErr result (IsTrue S.can_refuse) }
        ensures writes { OnErr result (IsTrue (next.is_write (next.next_access self.old.state h))) }
        ensures refused { OnErr result (self.new ≡ self.old) }
    {
        memory_is_sound();
        let hart = &self.harts[h as usize];
        let loaded = loaded_by(&self.store, action);
        let write = written_by(loaded, hart, action);
        let event = event_of(hart, action);
        if ready(&mut self.store, write).is_err() {
            return Err(StepFault::NoMemory);
        }
        put(&mut self.store, write);
        see_and_advance(&mut self.harts, h, loaded, action, write);
        self.reserved = any_holds(&self.harts);
        print(&mut self.output, action);
        Ok(event)
    }

    /// A hart: its registers, pc, status and reservation.
    #[inline(always)]
    pub fn hart(&self, h: u8) -> &Hart
        requires { h < length self.now.state.harts }
        ensures { slice_get self.now.state.harts h ≡ Some result.now }
    {
        &self.harts[h as usize]
    }
}

fn hart_access<S: ByteStore>(store: &S, hart: &Hart) -> Option<Access>
    ensures { result ≡ own.hart_access (S.memory store.now) hart.now }
{
    match hart.status {
        Status::Running => access_of(hart, action_at(store, hart)),
        Status::Exited(_) | Status::Stopped(_) => None,
    }
}

fn hart_plain<S: ByteStore>(store: &S, hart: &Hart) -> Option<Access>
    ensures { result ≡ own.hart_plain (S.memory store.now) hart.now }
{
    match hart.status {
        Status::Running => plain_access(hart, action_at(store, hart)),
        Status::Exited(_) | Status::Stopped(_) => None,
    }
}

fn plain_access(hart: &Hart, action: Action) -> Option<Access>
    ensures { result ≡ own.plain_access hart.now action }
{
    match action {
        Action::Load { .. } | Action::Store { .. } => access_of(hart, action),
        _ => None,
    }
}

fn is_conditional(action: Action) -> bool
    ensures { result ≡ is_conditional action }
{
    matches!(action, Action::Conditional { .. })
}

fn is_print(action: Action) -> bool
    ensures { result ≡ refusals.is_print action }
{
    matches!(action, Action::Print(_))
}
