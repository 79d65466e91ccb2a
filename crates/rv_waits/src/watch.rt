//! Which harts wait, told as they step.
ghost use Rattle.std.specs.Prelude.{◌≡◌, ◌<◌, ◌*◌, ◌↔◌, ℕ, true, false, None, Some, Ok, IfOk, IfSome, IsTrue, length, min};
ghost use Rattle.rv_hart.specs.NextAccess.{accessed};
ghost use Rattle.rv_hart.specs.State.{State};
ghost use Rattle.rv_hart.specs.Step.{step_of};
ghost use Rattle.rv_hart.specs.StepAnswer.{AnswersStep};
ghost use Rattle.rv_waits.specs.Round.{IsRound};
ghost use Rattle.rv_waits.specs.Touched.{covers};
ghost use Rattle.rv_waits.specs.Touches.{Loads, Touches};
ghost use Rattle.rv_waits.specs.internal.Anchored.{IsGoneOn, IsLooked, IsNew};
ghost use Rattle.rv_waits.specs.internal.Moves.{IsMove, WritesAmong};

use crate::quiet::{Told, told_step};
use crate::round::{Round, Seen, see};
use crate::touched::{Range, meets, touched_at};
use rv_hart::access::{Access, Common, Event, Noted};
use rv_hart::hart::Hart;
use rv_hart::laws::{steps_are_local, what_no_step_does};
use rv_hart::machine::{Machine, StepFault};
use rv_hart::stops::NoStops;
use rv_memory::laws::store_keeps_the_rest;
use rv_memory::store::{ByteStore, NoMemory};
use std::alloc::Global;
use std::marker::Model;

mod before;

pub use before::{Before, Sight};

/// The fewest and the most steps after which an anchor is set anew.
const FEWEST: u32 = 4;

const MOST: u32 = 4096;

/// The most steps that a hart which has changed something goes without an anchor.
const LONGEST_REST: u32 = 64;

/// A hart as it was, where `is_set`, and what its steps since then loaded and touched: so many, all quiet ones. Where it is not
/// set the hart rests, for so many steps that change nothing. After `most` steps the anchor is set anew; `rest` is how many the
/// next rest lasts.
#[derive(Clone, Copy)]
pub struct Anchor {
    pub is_set: bool,
    pub steps: u32,
    pub most: u32,
    pub rest: u32,
    pub hart: Hart,
    pub seen: Seen,
}

/// An anchor of each hart of a machine, all of whose steps it makes. A step costs little more than the machine's, since it looks
/// at bytes only where an anchored hart may write.
#[derive(Drop)]
pub struct Watch {
    anchors: Vec<Anchor>,
    noted: Noted,
}

impl Model for Watch {
    ghost use Rattle.std.specs.Prelude.{List};
    ghost use Rattle.rv_waits.specs.declared.watch.Anchor.{Anchor};

    ghost Value = { List Anchor };

    ghost view = { λ w. w.anchors.items };
}

impl Watch {
    ghost use Rattle.rv_waits.specs.Watch.{IsWatchOf};

    /// Of a machine as it is now.
    pub fn new<S: ByteStore>(alloc: Global, machine: &Machine<S>) -> Result<Watch, NoMemory>
        ensures { IfOk result (λ watch. IsWatchOf watch machine.now.state) }
    {
        let mut anchors = Vec::with_capacity(alloc, machine.harts() as usize)?;
        for h in 0..machine.harts() {
            anchors.push(anchor_at(machine.hart(h), FEWEST, FEWEST))?;
        }
        Ok(Watch {
            anchors,
            noted: Noted::nothing(),
        })
    }

    /// One step of a hart, as the machine makes it, and watched.
    #[inline(always)]
    pub fn step<S: ByteStore>(
        &mut self,
        machine: &mut Machine<S>,
        h: u8,
    ) -> Result<Event, StepFault>
        requires hart { h < length machine.old.state.harts }
        requires watch { IsWatchOf self.old machine.old.state }
        ensures step { AnswersStep S.can_refuse machine.old machine.new h result }
        ensures watch { IsWatchOf self.new machine.new.state }
    {
        if let Some(event) = self.step_quick(machine, h) {
            return Ok(event);
        }
        self.step_apart(machine, h)
    }

    /// The same where it is a common step; else nothing has changed.
    #[inline(always)]
    fn step_quick<S: ByteStore>(&mut self, machine: &mut Machine<S>, h: u8) -> Option<Event>
        requires hart { h < length machine.old.state.harts }
        requires watch { IsWatchOf self.old machine.old.state }
        ensures step { IfSome result (λ event. AnswersStep S.can_refuse machine.old machine.new h (Ok event)) }
        ensures watch { IsWatchOf self.new machine.new.state }
        ensures same { (result ≡ None) → machine.new ≡ machine.old }
    {
        if !machine.runs(h) {
            return None;
        }
        let word = machine.fetched(h)?;
        let before = self.before_word(machine, h, word);
        let common = machine.step_quick::<0, NoStops>(h, word, &mut self.noted, &NoStops);
        if let Common::Silent = common {
            let event = Event::Moved(None);
            self.saw(before, machine, h, event);
            return Some(event);
        }
        if let Common::Accessed = common {
            let event = Event::Moved(Some(self.noted.access));
            self.saw(before, machine, h, event);
            return Some(event);
        }
        None
    }

    /// The same, whatever the step is.
    #[cold]
    #[inline(never)]
    fn step_apart<S: ByteStore>(
        &mut self,
        machine: &mut Machine<S>,
        h: u8,
    ) -> Result<Event, StepFault>
        requires hart { h < length machine.old.state.harts }
        requires watch { IsWatchOf self.old machine.old.state }
        ensures step { AnswersStep S.can_refuse machine.old machine.new h result }
        ensures watch { IsWatchOf self.new machine.new.state }
    {
        let pc = machine.pc(h);
        match told_step(machine, h) {
            Told::Quiet(access) => {
                self.go_on(machine, h, pc, access);
                Ok(Event::Moved(access))
            }
            Told::Loud(event) => {
                let bytes = bytes_of(event);
                self.look(h, bytes.first, bytes.size);
                Ok(event)
            }
            Told::Refused(fault) => Err(fault),
        }
    }

    /// The round of a hart, where it is seen to wait in the machine's state: it stands where its anchor does. None says nothing.
    /// The round may go over the same loop several times. Most steps lead to another pc than the anchor's, which is all that is looked
    /// at then.
    #[inline(always)]
    pub fn round<S: ByteStore>(&self, machine: &Machine<S>, h: u8) -> Option<Round>
        requires hart { h < length machine.now.state.harts }
        requires watch { IsWatchOf self.now machine.now.state }
        ensures round { IfSome result (λ round. IsRound machine.now.state h round.steps) }
        ensures polls { IfSome result (λ round. IsTrue round.polls ↔ Loads h round.steps machine.now.state) }
        ensures touched { IfSome result (λ round.
            (address : ℕ) → Touches h round.steps machine.now.state address → covers round.touched address ≡ true) }
    {
        if self.anchors[h as usize].hart.pc != machine.pc(h) {
            return None;
        }
        self.round_at_anchor(machine, h)
    }

    /// The same where it stands at the anchor's pc.
    #[inline(never)]
    fn round_at_anchor<S: ByteStore>(&self, machine: &Machine<S>, h: u8) -> Option<Round>
        requires hart { h < length machine.now.state.harts }
        requires watch { IsWatchOf self.now machine.now.state }
        ensures round { IfSome result (λ round. IsRound machine.now.state h round.steps) }
        ensures polls { IfSome result (λ round. IsTrue round.polls ↔ Loads h round.steps machine.now.state) }
        ensures touched { IfSome result (λ round.
            (address : ℕ) → Touches h round.steps machine.now.state address → covers round.touched address ≡ true) }
    {
        steps_are_local();
        store_keeps_the_rest();
        let anchor = &self.anchors[h as usize];
        if !anchor.is_set
            || anchor.steps == 0
            || !anchor.hart.is_same_but_reservation(machine.hart(h))
        {
            return None;
        }
        Some(Round {
            steps: anchor.steps,
            polls: anchor.seen.polls,
            touched: anchor.seen.touched,
        })
    }

    /// After a step of a hart that changed nothing.
    #[inline(always)]
    fn go_on<S: ByteStore>(&mut self, machine: &Machine<S>, h: u8, pc: u32, access: Option<Access>)
        requires anchor { h < length self.old }
        requires hart { h < length machine.now.state.harts }
        ensures { (before : State) → IsWatchOf self.old before → IsMove self.old before machine.now.state h pc access
            → IsWatchOf self.new machine.now.state }
    {
        steps_are_local();
        store_keeps_the_rest();
        what_no_step_does();
        gone_on(&mut self.anchors[h as usize], machine.hart(h), pc, access);
    }

    /// After another step of a hart, which wrote no more than these bytes: it rests, and so does each that touched one of them.
    #[inline(never)]
    fn look(&mut self, h: u8, first: u32, size: u8)
        ensures { (before after : State) (event : Event) → IsWatchOf self.old before
            → step_of before h ≡ Some (event, after) → WritesAmong first size (accessed event)
            → IsWatchOf self.new after }
    {
        steps_are_local();
        store_keeps_the_rest();
        what_no_step_does();
        for k in 0..self.anchors.len() {
            looked(&mut self.anchors[k], k == h as usize, first, size);
        }
    }
}

/// An anchor of a hart as it is.
fn anchor_at(hart: &Hart, most: u32, rest: u32) -> Anchor
    ensures { IsNew hart.now result }
{
    Anchor {
        is_set: true,
        steps: 0,
        most,
        rest,
        hart: *hart,
        seen: Seen {
            polls: false,
            touched: touched_at(hart.pc),
        },
    }
}

/// A hart's anchor after its step that changed nothing; anew where it has stood, or the hart has rested, for long.
#[inline(always)]
fn gone_on(anchor: &mut Anchor, hart: &Hart, pc: u32, access: Option<Access>)
    ensures { IsGoneOn anchor.old hart.now pc access anchor.new }
{
    if anchor.steps >= anchor.most {
        set_anew(anchor, hart);
        return;
    }
    anchor.steps += 1;
    if anchor.is_set {
        see(&mut anchor.seen, pc, access);
    }
}

/// The anchor of a hart as it is, for twice as many steps. Rests are short again once it stood for longer than any of them.
#[cold]
#[inline(never)]
fn set_anew(anchor: &mut Anchor, hart: &Hart)
    ensures { IsNew hart.now anchor.new }
{
    let most = doubled(anchor.most, MOST);
    let rest = if anchor.most > LONGEST_REST {
        FEWEST
    } else {
        anchor.rest
    };
    *anchor = anchor_at(hart, most, rest);
}

/// Twice as many, and no more than `most`.
fn doubled(count: u32, most: u32) -> u32
    ensures { result ≡ min (2 * count) most }
{
    count.saturating_mul(2).min(most)
}

/// A hart's anchor after a step: it is given up where the step is its own, for longer each time, or wrote what it touched.
fn looked(anchor: &mut Anchor, is_own: bool, first: u32, size: u8)
    ensures { IsLooked anchor.old is_own first size anchor.new }
{
    if !anchor.is_set {
        return;
    }
    if is_own {
        give_up(anchor, anchor.rest);
        anchor.rest = doubled(anchor.rest, LONGEST_REST);
    } else if meets(&anchor.seen.touched, first, size) {
        give_up(anchor, FEWEST);
    }
}

/// The hart rests for so many steps.
fn give_up(anchor: &mut Anchor, most: u32)
    ensures { anchor.new.is_set ≡ false }
{
    anchor.is_set = false;
    anchor.steps = 0;
    anchor.most = most;
}

/// The bytes that a step accessed, none where it accessed nothing.
fn bytes_of(event: Event) -> Range
    ensures { WritesAmong result.first result.size (accessed event) }
{
    match event {
        Event::Moved(Some(access)) => Range {
            first: access.first,
            size: access.size,
        },
        Event::Moved(None) | Event::Exited(_) | Event::Stopped(_) => Range { first: 0, size: 0 },
    }
}
