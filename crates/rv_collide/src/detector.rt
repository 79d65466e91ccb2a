//! What detects races: one machine, its breakpoints, and the stored schedule of the calls that it accepted, from any state on.
ghost use Rattle.std.specs.Prelude.{◌≡◌, ℕ, ◌<◌, ◌≤◌, ◌+◌, ◌*◌, [], is_ok, ◌==◌, nat_lt, Ok, Err, Some, None, IfOk, IfErr, OnErr, IfSome, IfNone, if◌then◌else◌, count_by, ◌%◌, false, true, IsTrue, length, slice_get, option_and_then, option_map, is_some, position, remove, slice_index_or, vec_capacity, vec_len};
ghost use Rattle.std.specs.FinSet as set;
ghost use Rattle.std.specs.List.{list_any};
ghost use Rattle.rv_collide.specs.Armed.{armed, arms};
ghost use Rattle.rv_collide.specs.Entries.{steps};
ghost use Rattle.rv_collide.specs.Legal.{IsLegal};
ghost use Rattle.rv_collide.specs.Forced.{forced, Turn, Resume, Arm, Disarm, turn_entry, least_free};
ghost use Rattle.rv_collide.specs.Next.{plain, runs_at};
ghost use Rattle.rv_collide.specs.Numbers.{numbers};
ghost use Rattle.rv_collide.specs.Pause.{only_hart, opening_of, openings};
ghost use Rattle.rv_collide.specs.StateAt.{state_at};
ghost use Rattle.rv_collide.specs.Begun.{added, begun, setting_of};
ghost use Rattle.rv_collide.specs.Verdict.{endings, verdict_of};
ghost use Rattle.rv_collide.specs.Detected as answer;
ghost use Rattle.rv_collide.specs.internal.Core.{IsToldLast, IsUntil, slots_freed, slots_seen};
ghost use Rattle.rv_collide.specs.internal.GoesOn.{GoesOn};
ghost use Rattle.rv_break.specs.Slots as break_slots;
ghost use Rattle.rv_hart.specs.NextAccess.{accessed};
ghost use Rattle.rv_hart.specs.Refusals.{is_running_hart};
ghost use Rattle.rv_hart.specs.Step.{step_of};

use crate::collider::{Finished, Turned};
use crate::ending::{Ending, Verdict};
use crate::entry::Entry;
use crate::laws::schedules;
use crate::number::number_at;
use crate::open_pause::OpenPause;
use crate::plan::Plan;
use crate::refused::Refused;
use rv_break::breakpoints::Breakpoints;
use rv_break::claim::{ARMED_LIMIT, Seen};
use rv_hart::access::{Access, Event, Noted};
use rv_hart::laws::{reservations_and_accesses, what_no_step_does};
use rv_hart::machine::Machine;
use rv_memory::store::{ByteStore, NoMemory};
use std::alloc::Global;
use std::marker::Model;
use std::snapshot::Snapshot;

mod again;
mod quick;
mod sharing;

/// A machine that pauses its harts at armed addresses, with the stored schedule of its calls. To
/// contracts it is that schedule alone, with the state that it began at and its plan: all else follows from them.
#[derive(Drop)]
pub struct Detector<S: ByteStore> {
    /// The machine as it was before the first call.
    begin: Snapshot<Machine<S>>,
    plan: Plan,
    machine: Machine<S>,
    breaks: Breakpoints,
    openings: Vec<OpenPause>,
    entries: Vec<Entry>,
    endings: Vec<Ending>,
    steps: u32,
    arms: u32,
    /// Up to which step each turn is a step that no claim is shown, or 0 where that is not known.
    until: u32,
    /// The access of the last common step, if it made one. None is kept back between the calls.
    noted: Noted,
}

impl<S: ByteStore> Model for Detector<S> {
    ghost use Rattle.std.specs.Prelude.{◌≡◌, false};
    ghost use Rattle.rv_collide.specs.Numbers.{numbers};
    ghost use Rattle.rv_collide.specs.Begun.{Begun, begun, setting_of};
    ghost use Rattle.rv_collide.specs.internal.Core.{IsCore, IsRoomy, IsUntil};

    ghost Value = { Begun };

    ghost view = { λ d. begun d.begin.value.state (numbers d.plan) d.entries.items };

    ghost invariant = { λ d.
        IsCore (setting_of (begun d.begin.value.state (numbers d.plan) d.entries.items)) d.entries.items
        d.machine d.breaks d.openings.items d.endings.items d.steps d.arms
        × IsRoomy (setting_of (begun d.begin.value.state (numbers d.plan) d.entries.items)) d.entries
        d.openings d.endings
        × IsUntil d.plan.steps d.breaks d.openings.items d.until
        × (d.noted.is_kept_back ≡ false) };
}

impl<S: ByteStore> Detector<S> {
    /// A machine that goes on from where it stands, with room to print a byte at each step that is left. Its harts are the
    /// plan's. Room is made for all that the plan allows: `steps + 4 * arms` entries and `arms` endings.
    pub fn begin(alloc: Global, machine: Machine<S>, plan: Plan) -> Result<Detector<S>, NoMemory>
        requires harts { length machine.state.harts ≡ plan.harts }
        requires room { length machine.state.output + plan.steps ≤ machine.limit }
        ensures { IfOk result (λ d. d ≡ begun machine.state (numbers plan) []) }
    {
        let breaks = Breakpoints::new(alloc, plan.slots)?;
        let openings = Vec::with_capacity(alloc, plan.arms as usize)?;
        let entries = Vec::with_capacity(alloc, plan.most_entries() as usize)?;
        let endings = Vec::with_capacity(alloc, plan.arms as usize)?;
        Ok(Detector {
            begin: Snapshot::of(&machine),
            plan,
            machine,
            breaks,
            openings,
            entries,
            endings,
            steps: 0,
            arms: 0,
            until: plan.steps,
            noted: Noted::nothing(),
        })
    }

    /// What holds of each detector: its schedule is legal, no longer than its plan allows, and has a state at its end, where
    /// no more is printed than its steps can have; each of its reports names a conflicting access of another hart within the
    /// pause.
    pub fn facts(&self)
        ensures { answer.AreFacts self.now }
    {
        let _steps = self.steps;
        schedules();
    }

    /// One turn of a hart: a pause where it stands at an armed address and would make a plain load or
    /// store, else one step.
    #[inline(always)]
    pub fn turn(&mut self, h: u8) -> Result<Turned, Refused>
        ensures ok { IfOk result (λ turned. answer.Turns self.old self.new h turned) }
        ensures err { IfErr result (λ fault. answer.IsRefusedTurn self.old h fault S.can_refuse) }
        ensures refused { OnErr result (self.new ≡ self.old) }
    {
        // Apart from one another, since a step that is shown to no claim stays in registers.
        if self.goes_on(h) {
            if self.is_unwatched() {
                if let Some(event) = self.step(h, false) {
                    return Ok(Turned::Stepped(event));
                }
            } else if let Some(event) = self.step(h, true) {
                return Ok(Turned::Stepped(event));
            }
        }
        self.turn_apart(h)
    }

    /// Ends the pause of a hart.
    pub fn resume(&mut self, h: u8) -> Result<Ending, Refused>
        ensures ok { IfOk result (λ ending. answer.Resumes self.old self.new h ending) }
        ensures err { IfErr result (λ fault. forced (setting_of self.old) self.old.entries (Resume h) ≡ Err fault) }
        ensures refused { OnErr result (self.new ≡ self.old) }
    {
        if h >= self.plan().harts {
            return Err(Refused::NoHart);
        }
        match self.opening_place(h) {
            None => Err(Refused::NotPaused),
            Some(place) => {
                self.end(h, place);
                let last = self.endings.len() - 1;
                Ok(self.endings[last])
            }
        }
    }

    /// Arms an address.
    pub fn arm(&mut self, pc: u32) -> Result<(), Refused>
        ensures ok { IfOk result (λ _. answer.Adds self.old self.new (Arm pc) (Entry.Armed pc)) }
        ensures err { IfErr result (λ fault. forced (setting_of self.old) self.old.entries (Arm pc) ≡ Err fault) }
        ensures refused { OnErr result (self.new ≡ self.old) }
    {
        if !self.has_arms_left() {
            return Err(Refused::ArmsSpent);
        }
        if pc % 4 != 0 {
            return Err(Refused::Misaligned);
        }
        if self.is_armed(pc) {
            return Err(Refused::AlreadyArmed);
        }
        if !self.add_armed(pc) {
            return Err(Refused::ArmedFull);
        }
        Ok(())
    }

    /// Disarms an address.
    pub fn disarm(&mut self, pc: u32) -> Result<(), Refused>
        ensures ok { IfOk result (λ _. answer.Adds self.old self.new (Disarm pc) (Entry.Disarmed pc)) }
        ensures err { IfErr result (λ fault. forced (setting_of self.old) self.old.entries (Disarm pc) ≡ Err fault) }
        ensures refused { OnErr result (self.new ≡ self.old) }
    {
        if !self.is_armed(pc) {
            return Err(Refused::NotArmed);
        }
        self.add_disarmed(pc);
        Ok(())
    }

    /// The machine as it is now.
    pub fn machine(&self) -> &Machine<S>
        ensures { state_at (setting_of self.now).start self.now.entries (length self.now.entries) ≡ Some result.now.state }
    {
        &self.machine
    }

    /// The plan.
    pub fn plan(&self) -> Plan
        ensures { numbers result ≡ self.now.plan }
    {
        self.plan
    }

    /// How many entries the stored schedule has.
    pub fn entries(&self) -> u32
        ensures { result ≡ length self.now.entries }
    {
        self.entries.len() as u32
    }

    /// An entry of the stored schedule.
    pub fn entry(&self, n: u32) -> Entry
        requires { n < length self.now.entries }
        ensures { slice_get self.now.entries n ≡ Some result }
    {
        self.entries[n as usize]
    }

    /// How many pauses have ended.
    pub fn endings(&self) -> u32
        ensures { result ≡ length (endings (setting_of self.now).start self.now.entries) }
    {
        self.endings.len() as u32
    }

    /// The ending of a pause, in the order in which they ended.
    pub fn ending(&self, n: u32) -> Ending
        requires { n < length (endings (setting_of self.now).start self.now.entries) }
        ensures { slice_get (endings (setting_of self.now).start self.now.entries) n ≡ Some result }
    {
        self.endings[n as usize]
    }

    /// Whether a hart runs.
    #[inline(always)]
    pub fn runs(&self, h: u8) -> bool
        requires { h < self.now.plan.harts }
        ensures { result ≡ runs_at (setting_of self.now).start self.now.entries (length self.now.entries) h }
    {
        self.machine.status(h).is_running()
    }

    /// Whether no hart is paused.
    #[inline(always)]
    pub fn none_paused(&self) -> bool
        ensures { result ≡ (length (openings self.now.entries) == 0) }
    {
        self.openings.is_empty()
    }

    /// The hart that is paused, where one is and no other.
    #[inline(always)]
    pub fn only_paused(&self) -> Option<u8>
        ensures { result ≡ only_hart (openings self.now.entries) }
    {
        match self.openings.as_slice() {
            [only] => Some(only.hart),
            _ => None,
        }
    }

    /// The place of a hart's open pause.
    pub fn paused(&self, h: u8) -> Option<u32>
        ensures { result ≡ option_map (λ o. o.place) (opening_of self.now.entries h) }
    {
        match place_among(&self.openings, h) {
            None => None,
            Some(place) => Some(self.openings[place].place),
        }
    }

    /// Whether a hart is paused.
    pub fn is_paused(&self, h: u8) -> bool
        ensures { result ≡ is_some (opening_of self.now.entries h) }
    {
        is_one_of(&self.openings, h)
    }

    /// Whether the address is armed.
    pub fn is_armed(&self, pc: u32) -> bool
        ensures { result ≡ set.contains (armed (setting_of self.now).start self.now.entries) pc }
    {
        self.breaks.is_armed(pc)
    }

    /// Hands out what the run leaves.
    pub fn finish(self) -> Finished
        ensures plan { numbers result.plan ≡ self.plan }
        ensures entries { result.entries.items ≡ self.entries }
        ensures legal { IsLegal (setting_of self) result.entries.items }
        ensures endings { result.endings.items ≡ endings (setting_of self).start self.entries }
        ensures output { answer.IsOutput self result.output.items }
    {
        Finished {
            plan: self.plan,
            entries: self.entries,
            endings: self.endings,
            output: self.machine.into_output(),
        }
    }
}

/// The parts of the calls.
impl<S: ByteStore> Detector<S> {
    /// Where the open pause of a hart stands among the open ones.
    fn opening_place(&self, h: u8) -> Option<usize>
        ensures { result ≡ position (λ o. o.hart == h) (openings self.now.entries) }
    {
        place_among(&self.openings, h)
    }

    fn has_steps_left(&self) -> bool
        ensures { result ≡ nat_lt (length (steps self.now.entries)) self.now.plan.steps }
    {
        self.steps < self.plan.steps
    }

    fn has_arms_left(&self) -> bool
        ensures { result ≡ nat_lt (count_by arms self.now.entries) self.now.plan.arms }
    {
        self.arms < self.plan.arms
    }

    /// The access that a hart would make at an armed address, where it is a plain one.
    fn armed_access(&self, h: u8) -> Option<Access>
        requires { h < self.now.plan.harts }
        ensures some { IfSome result (λ access. answer.IsArmedAccess self.now h access) }
        ensures none { IfNone result (turn_entry (setting_of self.now) self.now.entries h
            (plain (setting_of self.now).start self.now.entries (length self.now.entries) h) ≡ Entry.Stepped h) }
    {
        if self.breaks.is_armed(self.machine.pc(h)) {
            self.machine.next_plain(h)
        } else {
            None
        }
    }

    /// Pauses a hart that may take a turn and would make this plain access, if its address is armed; which slot watches it,
    /// if one was free. It is compiled into its two callers, which are called seldom.
    #[inline(always)]
    fn pause(&mut self, h: u8, access: Access) -> Option<Option<u8>>
        requires accepted { is_ok (forced (setting_of self.old) self.old.entries (Turn h)) ≡ true }
        requires plain { plain (setting_of self.old).start self.old.entries (length self.old.entries) h ≡ Some access }
        ensures slot { IfSome result (λ slot. slot ≡ least_free self.old.plan.slots self.old.entries) }
        ensures forced { IfSome result (λ slot.
            forced (setting_of self.old) self.old.entries (Turn h) ≡ Ok (Entry.Paused h slot)) }
        ensures after { IfSome result (λ slot. self.new ≡ added self.old (Entry.Paused h slot)) }
        ensures same { IfNone result (self.new ≡ self.old) }
        ensures unarmed { IfNone result
            (set.contains (armed (setting_of self.old).start self.old.entries) access.pc ≡ false) }
    {
        reservations_and_accesses();
        if !self.breaks.take_code(access.pc) {
            return None;
        }
        let slot = self.breaks.claim(h, access);
        let old = number_at(&self.machine, access.first, access.size);
        self.openings.push_reserved(OpenPause {
            hart: h,
            place: self.entries.len() as u32,
            slot,
            access,
            old,
        });
        self.entries.push_reserved(Entry::Paused(h, slot));
        self.until = 0;
        Some(slot)
    }

    /// The same, whose answer has a place of its own here, so that the event of a step stays in registers.
    #[inline(always)]
    fn turn_apart(&mut self, h: u8) -> Result<Turned, Refused>
        ensures ok { IfOk result (λ turned. answer.Turns self.old self.new h turned) }
        ensures err { IfErr result (λ fault. answer.IsRefusedTurn self.old h fault S.can_refuse) }
        ensures refused { OnErr result (self.new ≡ self.old) }
    {
        let turned = self.turn_by_tests(h);
        turned
    }

    /// A turn, with each refusal tested.
    #[cold]
    #[inline(never)]
    fn turn_by_tests(&mut self, h: u8) -> Result<Turned, Refused>
        ensures ok { IfOk result (λ turned. answer.Turns self.old self.new h turned) }
        ensures err { IfErr result (λ fault. answer.IsRefusedTurn self.old h fault S.can_refuse) }
        ensures refused { OnErr result (self.new ≡ self.old) }
    {
        if h >= self.plan().harts {
            return Err(Refused::NoHart);
        }
        if !self.runs(h) {
            return Err(Refused::NotRunning);
        }
        if self.is_paused(h) {
            return Err(Refused::Paused);
        }
        if !self.has_steps_left() {
            return Err(Refused::StepsSpent);
        }
        match self.armed_access(h) {
            Some(access) => match self.pause(h, access) {
                Some(slot) => Ok(Turned::Paused(slot)),
                None => unreachable!(),
            },
            None => match self.step(h, true) {
                Some(event) => Ok(Turned::Stepped(event)),
                None => Err(Refused::NoMemory),
            },
        }
    }

    /// Whether each turn of a hart that runs is a step, and shown to no claim.
    #[inline(always)]
    fn is_free(&self) -> bool
        ensures unwatched { result ≡ true → openings self.now.entries ≡ [] }
        ensures goes_on { result ≡ true → (h : ℕ) → GoesOn self.now h }
    {
        self.steps < self.until
    }

    /// Whether no pause is open, as none is where each turn is free.
    #[inline(always)]
    fn is_unwatched(&self) -> bool
        ensures { result ≡ true → openings self.now.entries ≡ [] }
    {
        self.is_free() || self.openings.is_empty()
    }

    /// Whether a turn of the hart is a step, if there is such a hart and it runs. Mostly one comparison tells.
    #[inline(always)]
    fn goes_on(&self, h: u8) -> bool
        ensures { result ≡ true → GoesOn self.now h }
    {
        self.is_free() || self.has_steps_left() && !self.is_paused(h) && self.passes(h)
    }

    /// Whether no turn of the hart pauses it now, as far as one look tells.
    #[inline(always)]
    fn passes(&self, h: u8) -> bool
        ensures { result ≡ true → turn_entry (setting_of self.now) self.now.entries h
            (plain (setting_of self.now).start self.now.entries (length self.now.entries) h) ≡ Entry.Stepped h }
    {
        if self.breaks.is_unarmed() {
            return true;
        }
        h < self.plan.harts && !self.may_stand_armed(h)
    }

    /// Whether a hart may stand at an armed address, which one look tells. It mostly does where it may.
    #[inline(always)]
    fn may_stand_armed(&self, h: u8) -> bool
        requires { h < self.now.plan.harts }
        ensures { result ≡ false → turn_entry (setting_of self.now) self.now.entries h
            (plain (setting_of self.now).start self.now.entries (length self.now.entries) h) ≡ Entry.Stepped h }
    {
        self.breaks.may_be_armed(self.machine.pc(h))
    }

    /// Lets a hart make a step, if there is such a hart and it runs. The claims are shown its access where there may be
    /// claims.
    #[inline(always)]
    fn step(&mut self, h: u8, is_watched: bool) -> Option<Event>
        requires goes_on { GoesOn self.old h }
        requires unwatched { is_watched ≡ false → openings self.old.entries ≡ [] }
        ensures forced { IfSome result (λ _.
            forced (setting_of self.old) self.old.entries (Turn h) ≡ Ok (Entry.Stepped h)) }
        ensures event { IfSome result (λ event. answer.IsEvent self.old h event) }
        ensures after { IfSome result (λ _. self.new ≡ added self.old (Entry.Stepped h)) }
        ensures none { IfNone result (self.new ≡ self.old) }
        ensures memory { IfNone result
            (forced (setting_of self.old) self.old.entries (Turn h) ≡ Ok (Entry.Stepped h) → IsTrue S.can_refuse) }
    {
        reservations_and_accesses();
        what_no_step_does();
        let event = match stepped(&mut self.machine, h) {
            Some(event) => event,
            None => return None,
        };
        let place = self.entries.len() as u32;
        show(&mut self.breaks, is_watched, place, h, event);
        self.steps += 1;
        self.entries.push_reserved(Entry::Stepped(h));
        Some(event)
    }

    /// Arms an address that is not armed, where fewer than the most are; answers whether it did.
    fn add_armed(&mut self, pc: u32) -> bool
        requires left { IsTrue (nat_lt (count_by arms self.old.entries) self.old.plan.arms) }
        requires aligned { pc % 4 ≡ 0 }
        requires absent { set.contains (armed (setting_of self.old).start self.old.entries) pc ≡ false }
        ensures room { result ≡ nat_lt (set.len (armed (setting_of self.old).start self.old.entries)) ARMED_LIMIT }
        ensures after { self.new ≡ (if result then added self.old (Entry.Armed pc) else self.old) }
    {
        if !self.breaks.arm(pc) {
            return false;
        }
        self.arms += 1;
        self.entries.push_reserved(Entry::Armed(pc));
        self.until = 0;
        true
    }

    /// Disarms an armed address.
    fn add_disarmed(&mut self, pc: u32)
        requires { set.contains (armed (setting_of self.old).start self.old.entries) pc ≡ true }
        ensures { self.new ≡ added self.old (Entry.Disarmed pc) }
    {
        let _was_armed = self.breaks.disarm(pc);
        self.entries.push_reserved(Entry::Disarmed(pc));
        self.until = until(self.plan, &self.breaks, &self.openings);
    }

    /// Ends the open pause of a hart, which stands at a place among the open ones. Its ending is the last one then; it is not
    /// answered, since not each caller wants the copy.
    #[cold]
    #[inline(never)]
    fn end(&mut self, h: u8, place: usize)
        requires forced { forced (setting_of self.old) self.old.entries (Resume h) ≡ Ok (Entry.Resumed h) }
        requires placed { position (λ o. o.hart == h) (openings self.old.entries) ≡ Some place }
        ensures told { IsToldLast self.old self.new }
        ensures after { self.new ≡ added self.old (Entry.Resumed h) }
    {
        reservations_and_accesses();
        let open = taken_out(&mut self.openings, place);
        let new = number_at(&self.machine, open.access.first, open.access.size);
        let seen = released(&mut self.breaks, open.slot);
        let ending = ending_of(open, self.entries.len() as u32, seen, new);
        self.entries.push_reserved(Entry::Resumed(h));
        self.endings.push_reserved(ending);
        self.until = until(self.plan, &self.breaks, &self.openings);
    }
}

/// A step of a hart.
#[inline(always)]
fn stepped<S: ByteStore>(machine: &mut Machine<S>, h: u8) -> Option<Event>
    ensures step { IfSome result (λ event. step_of machine.old.state h ≡ Some (event, machine.new.state)) }
    ensures harts { length machine.new.state.harts ≡ length machine.old.state.harts }
    ensures limit { machine.new.limit ≡ machine.old.limit }
    ensures none { IfNone result (machine.new ≡ machine.old) }
    ensures memory { IfNone result (is_running_hart (slice_get machine.old.state.harts h) ≡ true
        → length machine.old.state.output < machine.old.limit → IsTrue S.can_refuse) }
{
    match machine.step(h) {
        Ok(event) => Some(event),
        Err(_) => None,
    }
}

/// The plan's steps where no pause is open and no address armed, else 0.
fn until(plan: Plan, breaks: &Breakpoints, openings: &[OpenPause]) -> u32
    ensures { IsUntil plan.steps breaks.now openings.now result }
{
    match openings {
        [] if breaks.is_unarmed() => plan.steps,
        _ => 0,
    }
}

/// Shows the claims what a step accessed, where there may be claims.
#[inline(always)]
fn show(breaks: &mut Breakpoints, is_watched: bool, place: u32, h: u8, event: Event)
    requires { is_watched ≡ false
        → (seen : Seen) → break_slots.slots_after seen breaks.old.slots ≡ breaks.old.slots }
    ensures { breaks.new ≡ record breaks.old {
      slots = slots_seen (option_map (λ access. record { place = place; hart = h; access = access })
          (accessed event)) breaks.old.slots;
    } }
{
    if !is_watched {
        return;
    }
    if let Event::Moved(Some(access)) = event {
        breaks.see(place, h, access);
    }
}

/// Whether one of the open pauses is the hart's. With four pauses, one for each slot of most plans,
/// no loop is run.
fn is_one_of(openings: &[OpenPause], h: u8) -> bool
    ensures { result ≡ list_any (λ p. p.hart == h) openings.now }
{
    match openings {
        [] => false,
        [only] => only.hart == h,
        [a, b, c, d] => a.hart == h || b.hart == h || c.hart == h || d.hart == h,
        _ => openings.iter().any(|p| p.hart == h),
    }
}

/// Where the open pause of a hart stands. Mostly one is open and no other.
fn place_among(openings: &[OpenPause], h: u8) -> Option<usize>
    ensures { result ≡ position (λ p. p.hart == h) openings.now }
{
    match openings {
        [only] if only.hart == h => Some(0),
        _ => openings.iter().position(|p| p.hart == h),
    }
}

/// Takes out the open pause at a place. The last one, as it mostly is, leaves by itself.
#[inline(always)]
fn taken_out(openings: &mut Vec<OpenPause>, place: usize) -> OpenPause
    requires { place < vec_len openings.old }
    ensures value { result ≡ slice_index_or openings.old.items place result }
    ensures items { openings.new.items ≡ remove openings.old.items place }
    ensures capacity { vec_capacity openings.new ≡ vec_capacity openings.old }
{
    if place + 1 == openings.len() {
        if let Some(last) = openings.pop() {
            return last;
        }
    }
    removed(openings, place)
}

/// The same, wherever it stands. It is a call of its own, since it is rare and long.
#[cold]
#[inline(never)]
fn removed(openings: &mut Vec<OpenPause>, place: usize) -> OpenPause
    requires { place < vec_len openings.old }
    ensures value { result ≡ slice_index_or openings.old.items place result }
    ensures items { openings.new.items ≡ remove openings.old.items place }
    ensures capacity { vec_capacity openings.new ≡ vec_capacity openings.old }
{
    openings.remove(place)
}

/// Frees the data breakpoint of a pause, if one watched it; what it has seen.
fn released(breaks: &mut Breakpoints, slot: Option<u8>) -> Option<Seen>
    requires { IfSome slot (λ s. break_slots.IsClaimed breaks.old.slots s) }
    ensures seen { result ≡ option_and_then (break_slots.seen_at breaks.old.slots) slot }
    ensures after { breaks.new ≡ record breaks.old { slots = slots_freed slot breaks.old.slots } }
{
    match slot {
        None => None,
        Some(slot) => breaks.release(slot),
    }
}

fn ending_of(pause: OpenPause, resumed_at: u32, seen: Option<Seen>, new: u32) -> Ending
    ensures { result ≡ record {
      hart = pause.hart;
      paused_at = pause.place;
      resumed_at = resumed_at;
      access = pause.access;
      slot = pause.slot;
      verdict = verdict_of seen (pause.old == new);
      old = pause.old;
      new = new;
    } }
{
    Ending {
        hart: pause.hart,
        paused_at: pause.place,
        resumed_at,
        access: pause.access,
        slot: pause.slot,
        verdict: verdict(seen, pause.old == new),
        old: pause.old,
        new,
    }
}

fn verdict(seen: Option<Seen>, same: bool) -> Verdict
    ensures { result ≡ verdict_of seen same }
{
    match seen {
        Some(seen) => Verdict::Hit(seen),
        None => {
            if same {
                Verdict::Quiet
            } else {
                Verdict::Changed
            }
        }
    }
}
