//! Probes: from the middle of a walk on, one hart at a time is held at one of two instructions, while others go on.
ghost use Rattle.std.specs.Prelude.{◌≡◌, ◌+◌, ◌<◌, ◌≤◌, ◌^◌, ◌-◌, [], true, false, None, IfOk, IfSome, IfNone, OnOk, length, option_map};
ghost use Rattle.rv_collide.specs.Begun.{begun, setting_of};
ghost use Rattle.rv_collide.specs.Legal.{IsLegal};
ghost use Rattle.rv_collide.specs.Numbers.{numbers};
ghost use Rattle.rv_collide.specs.Plan.{most_entries};
ghost use Rattle.rv_collide.specs.Verdict.{endings};
ghost use Rattle.rv_hart.specs.State.{State};
ghost use Rattle.rv_walk.specs.Burst.{MayRest};
ghost use Rattle.rv_walk.specs.Probe.{IsAimedAt, IsProbe};
ghost use Rattle.rv_walk.specs.internal.Probing.{IsFurther, IsNow, IsReady, MayLetGo, holds};

use crate::course::FEW_TURNS;
use crate::near_pair::Addresses;
use crate::sites::Sites;
use rv_collide::collider::{Finished, Turned};
use rv_collide::detector::Detector;
use rv_collide::ending::Verdict;
use rv_collide::list_laws::longer_lists;
use rv_drive::driver_laws::open_pauses;
use rv_hart::access::{Common, Event, Noted};
use rv_memory::store::{ByteStore, NoMemory};
use rv_sample::Generator;
use rv_waits::laws::numbers_in_a_circle;
use rv_waits::watch::Watch;
use std::alloc::Global;
use std::marker::Model;

/// What came of a probe, from the least to the most: no hart came to one of its instructions; one did, but only while all others
/// that run waited; one was held there.
#[derive(Clone, Copy, PartialEq, Eq, PartialOrd, Ord)]
pub enum Reached {
    Never,
    OthersWaited,
    Held,
}

/// What a probe leaves, and whether it ended where harts run and none may go.
#[derive(Drop)]
pub struct Probed {
    pub finished: Finished,
    pub reached: Reached,
    pub rests: bool,
}

/// A hart that is held, and how many steps of others are left of its pause.
#[derive(Clone, Copy)]
pub struct Held {
    pub hart: u8,
    pub left: u32,
}

/// A detector that holds harts at two instructions, one hart at a time, and knows which harts wait.
#[derive(Drop)]
struct Prober<'a, S: ByteStore> {
    addresses: Addresses,
    sites: &'a Sites,
    detector: Detector<S>,
    watch: Watch,
    held: Option<Held>,
    reached: Reached,
    /// The access of the last common step, if it made one.
    noted: Noted,
}

impl<'a, S: ByteStore> Model for Prober<'a, S> {
    ghost use Rattle.rv_walk.specs.internal.Probing.{IsProbing, Probing};

    ghost Value = { Probing };

    ghost view = { λ p. record {
      aim = record { addresses = p.addresses; sites = p.sites.now };
      core = p.detector;
      held = p.held;
    } };

    ghost invariant = { λ p. IsProbing (record {
      aim = record { addresses = p.addresses; sites = p.sites.now };
      core = p.detector;
      held = p.held;
    }) p.watch };
}

/// Goes on from where a detector stands, of whose schedule there is no entry yet, and holds a hart that comes to one of two
/// instructions, where that is a site: one at a time, where another hart may go, each such time with an even chance, so that later
/// rounds of a loop are held too. Harts take turns in bursts, as in a walk. It is over when a pause has ended in a report, or
/// when no hart may go; all pauses have ended then.
pub fn probe<S: ByteStore>(
    alloc: Global,
    detector: Detector<S>,
    addresses: Addresses,
    sites: &Sites,
    words: &mut Generator,
) -> Result<Probed, NoMemory>
    requires none { detector.entries ≡ [] }
    requires more { words.old.taken + 2 ^ 34 < 2 ^ 64 }
    ensures plan { IfOk result (λ probed. numbers probed.finished.plan ≡ detector.plan) }
    ensures few { IfOk result (λ probed. length probed.finished.entries.items ≤ most_entries detector.plan) }
    ensures legal { IfOk result (λ probed. IsLegal (setting_of detector) probed.finished.entries.items) }
    ensures endings { IfOk result (λ probed.
        probed.finished.endings.items ≡ endings detector.start probed.finished.entries.items) }
    ensures probe { IfOk result (λ probed. IsProbe (record { addresses = addresses; sites = sites.now })
        (begun detector.start detector.plan probed.finished.entries.items)) }
{
    let mut probe = Prober::begin(alloc, detector, addresses, sites)?;
    'rounds: loop {
        probe.is_short();
        if let Some(h) = probe.next(words.next()) {
            let turns = 1 + words.next() % FEW_TURNS;
            probe.burst(h, turns, words)?;
            probe.is_short();
        } else {
            if probe.is_at_end() {
                return Ok(probe.finish());
            }
            probe.is_short();
        }
    }
}

impl<'a, S: ByteStore> Prober<'a, S> {
    fn begin(
        alloc: Global,
        detector: Detector<S>,
        addresses: Addresses,
        sites: &'a Sites,
    ) -> Result<Prober<'a, S>, NoMemory>
        requires { detector.entries ≡ [] }
        ensures { IfOk result (λ probe. probe ≡ record {
          aim = record { addresses = addresses; sites = sites.now };
          core = detector;
          held = None;
        }) }
    {
        let watch = Watch::new(alloc, detector.machine())?;
        Ok(Prober {
            addresses,
            sites,
            detector,
            watch,
            held: None,
            reached: Reached::Never,
            noted: Noted::nothing(),
        })
    }

    /// Its schedule is no longer than its plan allows.
    fn is_short(&self)
        ensures few { length self.now.core.entries ≤ most_entries self.now.core.plan }
        ensures short { most_entries self.now.core.plan < 2 ^ 21 }
    {
        self.detector.facts();
        let _plan = self.detector.plan();
    }

    /// Whether the open pause has lasted as long as the plan wants, or all steps are made.
    #[inline(always)]
    fn is_due(&self) -> bool
        ensures due { result ≡ true → MayLetGo self.now }
        ensures left { result ≡ false → IfSome self.now.held (λ held. 1 ≤ held.left) }
    {
        let has_lasted = match self.held {
            Some(held) => held.left == 0,
            None => false,
        };
        has_lasted || self.detector.steps_left() == 0
    }

    /// Whether a hart is held.
    #[inline(always)]
    fn holds(&self, h: u8) -> bool
        ensures { result ≡ holds self.now.held h }
    {
        match self.held {
            Some(held) => held.hart == h,
            None => false,
        }
    }

    /// Whether a hart runs, is not held, and isn't seen to wait.
    #[inline(always)]
    fn goes(&self, h: u8) -> bool
        requires { h < self.now.core.plan.harts }
        ensures free { result ≡ true → holds self.now.held h ≡ false }
        ensures rests { result ≡ false → holds self.now.held h ≡ false
            → (s : State) → IsNow self.now.core s → MayRest s h }
    {
        self.detector.facts();
        if self.holds(h) {
            return false;
        }
        let machine = self.detector.machine();
        machine.runs(h) && self.watch.round(machine, h).is_none()
    }

    /// The first hart from a number on, in a circle, that may take a turn. Where there is none, or a pause is due, the one that is
    /// open may end.
    fn next(&self, from: u32) -> Option<u8>
        ensures ready { IfSome result (IsReady self.now) }
        ensures none { IfNone result (MayLetGo self.now) }
    {
        numbers_in_a_circle();
        if self.is_due() {
            return None;
        }
        self.detector.facts();
        let harts = u32::from(self.detector.plan().harts);
        for passed in 0..harts {
            let h = ((from % harts + passed) % harts) as u8;
            if self.goes(h) {
                return Some(h);
            }
        }
        None
    }

    /// Whether a hart may take a turn still.
    fn is_ready(&self, h: u8) -> bool
        requires { h < self.now.core.plan.harts }
        ensures { result ≡ true → IsReady self.now h }
    {
        !self.is_due() && self.goes(h)
    }

    /// Whether another hart than this one may take a turn.
    fn another_goes(&self, h: u8) -> bool {
        for other in 0..self.detector.plan().harts {
            if other != h && self.goes(other) {
                return true;
            }
        }
        false
    }

    /// Turns of a hart, one at least: so many, fewer where it is held, ends or is seen to wait, or where a pause is due.
    fn burst(&mut self, h: u8, turns: u32, words: &mut Generator) -> Result<(), NoMemory>
        requires ready { IsReady self.old h }
        requires some { 1 ≤ turns }
        requires more { words.old.taken + 2 ^ 33 < 2 ^ 64 }
        ensures further { IsFurther self.old self.new }
        ensures longer { OnOk result (length self.old.core.entries < length self.new.core.entries) }
        ensures words { words.new ≡ record words.old { taken = words.new.taken } }
        ensures few { words.new.taken + length self.old.core.entries
            ≤ words.old.taken + length self.new.core.entries + 1 }
    {
        for _ in 0..turns {
            if !self.hold(h, words)? {
                self.advance(h)?;
            }
            if !self.is_ready(h) {
                return Ok(());
            }
        }
        Ok(())
    }

    /// Holds a hart that stands at one of the instructions, where none is held, another may go, and the word says so. Whether its
    /// turn was made.
    fn hold(&mut self, h: u8, words: &mut Generator) -> Result<bool, NoMemory>
        requires ready { IsReady self.old h }
        requires more { words.old.taken + 1 < 2 ^ 64 }
        ensures further { IsFurther self.old self.new }
        ensures longer { IfOk result (λ made. made ≡ true → length self.old.core.entries < length self.new.core.entries) }
        ensures same { IfOk result (λ made. made ≡ false → self.new ≡ self.old) }
        ensures words { words.new ≡ record words.old { taken = words.new.taken } }
        ensures few { words.new.taken ≤ words.old.taken + 1 }
    {
        if self.held.is_some() {
            return Ok(false);
        }
        let Some(pc) = self.aim(h) else {
            return Ok(false);
        };
        if !self.another_goes(h) {
            self.reached = self.reached.max(Reached::OthersWaited);
            return Ok(false);
        }
        if words.next() % 2 == 1 {
            return Ok(false);
        }
        self.arm_and_advance(h, pc)
    }

    /// The address that a hart stands at, where it is one of the instructions, and a site, and its next access a plain one.
    #[inline(always)]
    fn aim(&self, h: u8) -> Option<u32>
        requires { h < self.now.core.plan.harts }
        ensures { IfSome result (IsAimedAt self.now.aim) }
    {
        self.detector.facts();
        let machine = self.detector.machine();
        let pc = machine.pc(h);
        if pc != self.addresses.lesser && pc != self.addresses.greater {
            return None;
        }
        if self.sites.contains(pc) && machine.next_plain(h).is_some() {
            Some(pc)
        } else {
            None
        }
    }

    /// Arms an address, where that is allowed, and lets a hart take a turn. Whether it did.
    fn arm_and_advance(&mut self, h: u8, pc: u32) -> Result<bool, NoMemory>
        requires ready { IsReady self.old h }
        requires aim { IsAimedAt self.old.aim pc }
        ensures further { IsFurther self.old self.new }
        ensures longer { IfOk result (λ made. made ≡ true → length self.old.core.entries < length self.new.core.entries) }
        ensures same { IfOk result (λ made. made ≡ false → self.new ≡ self.old) }
    {
        if !self.arm(h, pc) {
            return Ok(false);
        }
        self.advance(h)?;
        Ok(true)
    }

    /// Arms an address for a hart, where that is allowed.
    fn arm(&mut self, h: u8, pc: u32) -> bool
        requires ready { IsReady self.old h }
        requires aim { IsAimedAt self.old.aim pc }
        ensures ready { IsReady self.new h }
        ensures further { IsFurther self.old self.new }
        ensures longer { result ≡ true → length self.old.core.entries < length self.new.core.entries }
        ensures same { result ≡ false → self.new ≡ self.old }
    {
        longer_lists();
        open_pauses();
        self.detector.arm(pc).is_ok()
    }

    /// A turn of a hart: its pause where it stands at an armed address, else its step.
    #[inline(always)]
    fn advance(&mut self, h: u8) -> Result<(), NoMemory>
        requires ready { IsReady self.old h }
        ensures further { IsFurther self.old self.new }
        ensures longer { OnOk result (length self.old.core.entries < length self.new.core.entries) }
    {
        if self.advance_quick(h) {
            return Ok(());
        }
        self.advance_apart(h)
    }

    /// The same by a common step, if it is one; else nothing has changed.
    #[inline(always)]
    fn advance_quick(&mut self, h: u8) -> bool
        requires ready { IsReady self.old h }
        ensures further { IsFurther self.old self.new }
        ensures longer { result ≡ true → length self.old.core.entries < length self.new.core.entries }
        ensures same { result ≡ false → self.new ≡ self.old }
    {
        longer_lists();
        open_pauses();
        self.detector.facts();
        let machine = self.detector.machine();
        let Some(word) = machine.fetched(h) else {
            return false;
        };
        let before = self.watch.before_word(machine, h, word);
        let common = self.detector.step_noted(h, word, &mut self.noted);
        if let Common::Silent = common {
            self.detector.facts();
            let event = Event::Moved(None);
            self.watch.saw(before, self.detector.machine(), h, event);
            count_down(&mut self.held);
            return true;
        }
        if let Common::Accessed = common {
            self.detector.facts();
            let event = Event::Moved(Some(self.noted.access));
            self.watch.saw(before, self.detector.machine(), h, event);
            count_down(&mut self.held);
            return true;
        }
        false
    }

    /// A turn of a hart, whatever it is.
    #[inline(never)]
    fn advance_apart(&mut self, h: u8) -> Result<(), NoMemory>
        requires ready { IsReady self.old h }
        ensures further { IsFurther self.old self.new }
        ensures longer { OnOk result (length self.old.core.entries < length self.new.core.entries) }
    {
        longer_lists();
        open_pauses();
        self.detector.facts();
        let before = self.watch.before(self.detector.machine(), h);
        match self.detector.turn(h) {
            Ok(Turned::Stepped(event)) => {
                self.detector.facts();
                self.watch.saw(before, self.detector.machine(), h, event);
                count_down(&mut self.held);
                Ok(())
            }
            Ok(Turned::Paused(_)) => {
                if self.held.is_none() {
                    self.held = Some(Held {
                        hart: h,
                        left: self.detector.plan().pause,
                    });
                    self.reached = Reached::Held;
                }
                Ok(())
            }
            // A hart that is ready is refused a turn for want of memory alone.
            Err(_) => Err(NoMemory),
        }
    }

    /// Ends the pause that is open. Whether the probe is over: no pause was open, or it ended in a report.
    fn is_at_end(&mut self) -> bool
        requires { MayLetGo self.old }
        ensures further { IsFurther self.old self.new }
        ensures longer { result ≡ false → length self.old.core.entries < length self.new.core.entries }
    {
        let Some(held) = self.held else {
            return true;
        };
        self.held = None;
        match self.detector.resume(held.hart) {
            Ok(ending) => ending.verdict != Verdict::Quiet,
            Err(_) => unreachable!(),
        }
    }

    /// Whether harts run, and none of them may go.
    fn rests(&self) -> bool {
        let mut some_runs = false;
        for h in 0..self.detector.plan().harts {
            if self.goes(h) {
                return false;
            }
            some_runs = some_runs || self.detector.runs(h);
        }
        some_runs
    }

    fn finish(self) -> Probed
        ensures plan { numbers result.finished.plan ≡ self.entry.core.plan }
        ensures few { length result.finished.entries.items ≤ most_entries self.entry.core.plan }
        ensures legal { IsLegal (setting_of self.entry.core) result.finished.entries.items }
        ensures endings { result.finished.endings.items ≡ endings self.entry.core.start result.finished.entries.items }
        ensures probe { IsProbe self.entry.aim (begun self.entry.core.start self.entry.core.plan result.finished.entries.items) }
    {
        self.is_short();
        let rests = self.rests();
        Probed {
            finished: self.detector.finish(),
            reached: self.reached,
            rests,
        }
    }
}

/// One step of others less is left of a pause.
#[inline(always)]
fn count_down(held: &mut Option<Held>)
    ensures { held.new ≡ option_map (λ (it : Held). record it { left = it.left - 1 }) held.old }
{
    if let Some(held) = held {
        held.left = held.left.saturating_sub(1);
    }
}
