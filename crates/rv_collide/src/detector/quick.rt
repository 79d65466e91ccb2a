//! Speed: the turn that is nearly each turn, a common step of a hart that may take a turn. `turn` is its twin: where
//! this makes a step `turn` would make the same, and where it makes none nothing has changed.
ghost use Rattle.std.specs.Prelude.{◌≡◌, ◌≢◌, ◌<◌, [], IfSome, Some, false, is_ok, length, option_and_then, option_map, slice_get, true};
ghost use Rattle.std.specs.FinSet as set;
ghost use Rattle.rv_break.specs.Slots as slots;
ghost use Rattle.rv_collide.specs.Detected as answer;
ghost use Rattle.rv_collide.specs.Forced.{Turn, forced};
ghost use Rattle.rv_collide.specs.declared.collider.Turned.TheVariants as turned;
ghost use Rattle.rv_collide.specs.Next.{plain};
ghost use Rattle.rv_collide.specs.Pause.{openings};
ghost use Rattle.rv_collide.specs.Begun.{setting_of};
ghost use Rattle.rv_collide.specs.internal.Core.{slots_seen};
ghost use Rattle.rv_collide.specs.internal.GoesOn.{GoesOn};
ghost use Rattle.rv_hart.specs.Common.{NotesKept, event_of_common};
ghost use Rattle.rv_hart.specs.Fetched.{IsWordOf};
ghost use Rattle.rv_hart.specs.NextAccess.{accessed};
ghost use Rattle.rv_hart.specs.Refusals.{is_running_hart};
ghost use Rattle.rv_hart.specs.Step.{step_of};

use super::Detector;
use crate::entry::Entry;
use rv_break::breakpoints::Breakpoints;
use rv_break::claim::Seen;
use rv_hart::access::{Access, Common, Noted};
use rv_hart::laws::{reservations_and_accesses, what_no_step_does};
use rv_hart::machine::Machine;
use rv_hart::stops::NoStops;
use rv_memory::store::ByteStore;

impl<S: ByteStore> Detector<S> {
    /// The word at a hart's pc, where it is found at once; None says nothing. A caller who has something else to do may do
    /// it between this and the turn: the word is there when the turn needs it.
    #[inline(always)]
    pub fn fetched(&self, h: u8) -> Option<u32>
        requires { h < self.now.plan.harts }
        ensures { IfSome result (answer.IsWord self.now h) }
    {
        self.machine.fetched(h)
    }

    /// A turn of a hart that may take one and whose word was fetched: true after its step, where that is a common one, and then
    /// the hart runs on. Else the hart may be paused, where it would make a plain access at an armed address; or nothing
    /// has changed. Where it is not watched, no pause is open and no address armed, and so it stays; neither is asked then. `PLACE`
    /// is that of `Machine::step_quick`.
    #[inline(always)]
    pub fn turn_quick<const PLACE: u8>(&mut self, h: u8, word: u32, is_watched: bool) -> bool
        requires accepted { is_ok (forced (setting_of self.old) self.old.entries (Turn h)) ≡ true }
        requires word { answer.IsWord self.old h word }
        requires free { is_watched ≡ false → answer.IsFree self.old }
        ensures steps { result ≡ true → answer.StepsOn self.old self.new h }
        ensures other { result ≡ false → answer.MayPause self.old self.new h }
        ensures free { result ≡ true → answer.IsFree self.old → answer.IsFree self.new }
    {
        self.step_on::<PLACE>(h, word, is_watched, true)
    }

    /// The step that a turn of a hart is, where it is a common one; its word is fetched here. Else nothing has changed: a hart is
    /// not paused by this. It is for a turn now and then: the step is a call, and not compiled into its caller.
    #[inline(always)]
    pub fn step_quick(&mut self, h: u8) -> bool
        requires hart { h < self.old.plan.harts }
        requires accepted { is_ok (forced (setting_of self.old) self.old.entries (Turn h)) ≡ true }
        ensures steps { result ≡ true → answer.StepsOn self.old self.new h }
        ensures same { result ≡ false → self.new ≡ self.old }
    {
        match self.fetched(h) {
            None => false,
            Some(word) => self.step_on::<0>(h, word, true, false),
        }
    }

    /// The step that a turn of a hart is, where it is a common one and its word was fetched. What it accessed is noted in the caller's place,
    /// so that whoever watches each step need not ask what it was. Else nothing has changed: a hart is not paused by this.
    #[inline(always)]
    pub fn step_noted(&mut self, h: u8, word: u32, noted: &mut Noted) -> Common
        requires hart { h < self.old.plan.harts }
        requires word { answer.IsWord self.old h word }
        ensures steps { IfSome (event_of_common result noted.new.access) (λ event. answer.Turns self.old self.new h (turned.Stepped event)) }
        ensures same { (result ≡ Common.Untaken) → self.new ≡ self.old }
    {
        reservations_and_accesses();
        what_no_step_does();
        if !self.runs(h) {
            return Common::Untaken;
        }
        if !self.goes_on(h) {
            return Common::Untaken;
        }
        let common = common_step::<0, S>(&mut self.machine, &self.breaks, true, h, word, noted);
        if let Common::Untaken = common {
            return Common::Untaken;
        }
        let place = self.entries.len() as u32;
        show_noted(&mut self.breaks, true, place, h, common, &noted.access);
        self.steps += 1;
        self.entries.push_reserved(Entry::Stepped(h));
        common
    }

    /// Lets a hart that may take a turn make a common step. Where addresses may be armed or pauses open, its access is kept
    /// back at an armed address, and shown to the claims; a plain one pauses the hart where `may_pause` says so. `PLACE` is
    /// that of `Machine::step_quick`.
    #[inline(always)]
    pub(super) fn step_on<const PLACE: u8>(
        &mut self,
        h: u8,
        word: u32,
        is_watched: bool,
        may_pause: bool,
    ) -> bool
        requires accepted { is_ok (forced (setting_of self.old) self.old.entries (Turn h)) ≡ true }
        requires goes_on { is_watched ≡ false → GoesOn self.old h }
        requires unwatched { is_watched ≡ false → openings self.old.entries ≡ [] }
        requires word { answer.IsWord self.old h word }
        ensures steps { result ≡ true → answer.StepsOn self.old self.new h }
        ensures other { result ≡ false → answer.MayPause self.old self.new h }
        ensures same { result ≡ false → may_pause ≡ false → self.new ≡ self.old }
    {
        reservations_and_accesses();
        what_no_step_does();
        let common = common_step::<PLACE, S>(
            &mut self.machine,
            &self.breaks,
            is_watched,
            h,
            word,
            &mut self.noted,
        );
        if let Common::Untaken = common {
            if self.noted.is_kept_back {
                // by its parts, since a copy would be made at each step
                let Access {
                    pc,
                    first,
                    size,
                    read,
                    write,
                } = self.noted.access;
                self.noted.is_kept_back = false;
                if may_pause {
                    self.pause_kept(h, pc, first, size, read, write);
                }
            }
            return false;
        }
        let place = self.entries.len() as u32;
        show_noted(
            &mut self.breaks,
            is_watched,
            place,
            h,
            common,
            &self.noted.access,
        );
        self.steps += 1;
        self.entries.push_reserved(Entry::Stepped(h));
        true
    }

    /// Pauses a hart that may take a turn and would make this plain access, if its address is armed.
    #[cold]
    #[inline(never)]
    fn pause_kept(&mut self, h: u8, pc: u32, first: u32, size: u8, read: bool, write: bool)
        requires accepted { is_ok (forced (setting_of self.old) self.old.entries (Turn h)) ≡ true }
        requires plain { plain (setting_of self.old).start self.old.entries (length self.old.entries) h
            ≡ Some (record { pc = pc; first = first; size = size; read = read; write = write }) }
        ensures { answer.MayPause self.old self.new h }
    {
        let access = Access {
            pc,
            first,
            size,
            read,
            write,
        };
        let _paused = self.pause(h, access);
    }
}

/// A common step of a hart that runs and whose word was fetched. Where it is watched it makes no access at an address that
/// may be armed.
#[inline(always)]
fn common_step<const PLACE: u8, S: ByteStore>(
    machine: &mut Machine<S>,
    breaks: &Breakpoints,
    is_watched: bool,
    h: u8,
    word: u32,
    noted: &mut Noted,
) -> Common
    requires running { is_running_hart (slice_get machine.old.state.harts h) ≡ true }
    requires word { IsWordOf machine.old.state h word }
    ensures step { IfSome (event_of_common result noted.new.access) (λ event.
        step_of machine.old.state h ≡ Some (event, machine.new.state)) }
    ensures passed { is_watched ≡ true → IfSome (event_of_common result noted.new.access) (λ event.
        IfSome (accessed event) (λ access. set.contains breaks.now.armed access.pc ≡ false)) }
    ensures kept { NotesKept machine.old.state h result noted.old noted.new }
    ensures harts { length machine.new.state.harts ≡ length machine.old.state.harts }
    ensures limit { machine.new.limit ≡ machine.old.limit }
    ensures same { (result ≡ Common.Untaken) → machine.new ≡ machine.old }
{
    if is_watched {
        machine.step_quick::<PLACE, Breakpoints>(h, word, noted, breaks)
    } else {
        machine.step_quick::<PLACE, NoStops>(h, word, noted, &NoStops)
    }
}

/// Shows the claims the access that a common step noted, where it is watched. The access stays in its place: a step
/// that made none copies none.
#[inline(always)]
fn show_noted(
    breaks: &mut Breakpoints,
    is_watched: bool,
    place: u32,
    h: u8,
    common: Common,
    noted: &Access,
)
    requires { is_watched ≡ false
        → (seen : Seen) → slots.slots_after seen breaks.old.slots ≡ breaks.old.slots }
    ensures { breaks.new ≡ record breaks.old {
      slots = slots_seen (option_map (λ access. record { place = place; hart = h; access = access })
          (option_and_then accessed (event_of_common common noted.now))) breaks.old.slots;
    } }
{
    if !is_watched {
        return;
    }
    if let Common::Accessed = common {
        breaks.see(place, h, *noted);
    }
}
