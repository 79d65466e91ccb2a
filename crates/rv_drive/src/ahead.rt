//! What a driver does next: which harts are able, which pause is due, and a draw.
//!
//! Speed: a turn asks neither of all harts. Both are looked up anew where a pause or a hart ends, or the steps are
//! spent. Where a pause begins its hart alone is noted, and neither another turn nor a draw changes them.
ghost use Rattle.std.specs.Prelude.{◌≡◌, ◌+◌, ◌<◌, ◌≤◌, ◌==◌, ◌^◌, [], ◌∷◌, ◌++◌, filter, length, nat_lt, not, set, slice_get, slice_index, true, is_some, if◌then◌else◌, Ok, Some, IfOk, IfSome, vec_capacity};
ghost use Rattle.rv_drive.specs.Sampling.{drew, sampling_of};
ghost use Rattle.rv_drive.specs.internal.Kept.{IsAhead, IsKept};
ghost use Rattle.rv_drive.specs.Able as spec;
ghost use Rattle.rv_drive.specs.Able.{able, due, is_able, is_due};
ghost use Rattle.rv_collide.specs.Entries.{steps};
ghost use Rattle.rv_collide.specs.Answers.{Resumes, Turns};
ghost use Rattle.rv_collide.specs.Next.{runs_at};
ghost use Rattle.rv_collide.specs.Pause.{opening_of, openings};
ghost use Rattle.rv_collide.specs.Stored.{setting_of};

use crate::driver_laws::{accepted_calls, open_pauses};
use rv_collide::collider::{Collider, Turned};
use rv_collide::ending::Ending;
use rv_collide::list_laws::longer_lists;
use rv_hart::laws::what_no_step_does;
use rv_hart::machine::MOST_HARTS;
use rv_memory::flat::Flat;
use rv_memory::store::NoMemory;
use rv_sample::{Generator, Sampler};
use std::alloc::Global;

mod picker;
mod turns;

/// A core, how many steps its harts have made, for each hart how many had been made when it was last paused,
/// the able harts in ascending order, and before how many steps no pause has lasted as long as the plan wants.
#[derive(Drop)]
pub(crate) struct Ahead {
    pub collider: Collider<Flat>,
    pub made: u32,
    pub made_at: [u32; MOST_HARTS as usize],
    able: Vec<u8>,
    earliest: u32,
}

impl Ahead {
    pub fn new(alloc: Global, collider: Collider<Flat>) -> Result<Ahead, NoMemory>
        requires { collider.entries ≡ [] }
        ensures collider { IfOk result (λ driver. driver.collider ≡ collider) }
        ensures driver { IfOk result IsAhead }
    {
        let able = Vec::with_capacity(alloc, usize::from(MOST_HARTS))?;
        let mut driver = Ahead {
            collider,
            made: 0,
            made_at: [0; MOST_HARTS as usize],
            able,
            earliest: 0,
        };
        driver.look();
        Ok(driver)
    }

    /// Looks anew which harts are able, and when a pause may be due.
    #[cold]
    #[inline(never)]
    fn look(&mut self)
        requires kept { IsKept self.old.collider.entries self.old.made self.old.made_at }
        requires room { MOST_HARTS ≤ vec_capacity self.old.able }
        ensures driver { IsAhead self.new }
        ensures collider { self.new.collider ≡ self.old.collider }
    {
        let plan = self.collider.plan();
        let are_left = self.made < plan.steps;
        self.able.clear();
        self.earliest = u32::MAX;
        if are_left && self.collider.none_paused() {
            note_running(&mut self.able, &self.collider, plan.harts);
            return;
        }
        for h in 0..plan.harts {
            self.note(h, are_left);
        }
    }

    /// Notes of the next hart when its pause is due, or that it is able, where steps are left.
    #[inline(always)]
    fn note(&mut self, h: u8, are_left: bool)
        requires kept { IsKept self.old.collider.entries self.old.made self.old.made_at }
        requires hart { h < MOST_HARTS }
        requires within { h < self.old.collider.plan.harts }
        requires left { are_left ≡ nat_lt self.old.made self.old.collider.plan.steps }
        requires room { length self.old.able.items < vec_capacity self.old.able }
        ensures able { self.new.able.items ≡ self.old.able.items
            ++ (if is_able (setting_of self.old.collider) self.old.collider.entries h then h ∷ [] else []) }
        ensures room { vec_capacity self.new.able ≡ vec_capacity self.old.able }
        ensures sooner { self.new.earliest ≤ self.old.earliest }
        ensures end { is_some (opening_of self.old.collider.entries h) ≡ true
            → self.new.earliest ≤ slice_index self.old.made_at h + self.old.collider.plan.pause }
        ensures others { self.new ≡ record self.old { able = self.new.able; earliest = self.new.earliest } }
    {
        if self.is_open(h) {
            self.earliest = self.earliest.min(self.end(h));
        } else if are_left && self.collider.runs(h) {
            self.able.push_reserved(h);
        }
    }

    /// Notes that the hart is paused from now on. No other hart changes, so none is asked.
    fn hold(&mut self, h: u8)
        requires hart { h < MOST_HARTS }
        requires harts { length self.old.made_at ≡ MOST_HARTS }
        ensures made_at { self.new.made_at ≡ set self.old.made_at h self.old.made }
        ensures able { self.new.able.items ≡ filter (λ k. not (k == h)) self.old.able.items }
        ensures room { vec_capacity self.new.able ≡ vec_capacity self.old.able }
        ensures sooner { self.new.earliest ≤ self.old.earliest }
        ensures end { self.new.earliest ≤ self.old.made + self.old.collider.plan.pause }
        ensures others { self.new ≡ record self.old {
          made_at = self.new.made_at;
          able = self.new.able;
          earliest = self.new.earliest;
        } }
    {
        self.made_at[usize::from(h)] = self.made;
        self.earliest = self.earliest.min(self.end(h));
        self.able.retain(|other| *other != h);
    }

    /// Before how many steps a hart's pause has not lasted as long as the plan wants.
    fn end(&self, h: u8) -> u32
        requires hart { h < MOST_HARTS }
        requires harts { length self.now.made_at ≡ MOST_HARTS }
        ensures { result ≤ slice_index self.now.made_at h + self.now.collider.plan.pause }
    {
        self.made_at[usize::from(h)].saturating_add(self.collider.plan().pause)
    }

    /// Whether a hart runs.
    fn runs(&self, h: u8) -> bool
        ensures { result ≡ runs_at (setting_of self.now.collider).start self.now.collider.entries
            (length self.now.collider.entries) h }
    {
        let machine = self.collider.machine();
        if h >= machine.harts() {
            return false;
        }
        machine.status(h).is_running()
    }

    /// Whether a hart is paused.
    pub fn is_open(&self, h: u8) -> bool
        ensures { result ≡ is_some (opening_of self.now.collider.entries h) }
    {
        self.collider.is_paused(h)
    }

    /// Whether a hart may be given a turn.
    #[tactic(auto, unfolding(crate::specs::Able::is_able))]
    pub fn is_able(&self, h: u8) -> bool
        requires { IsKept self.now.collider.entries self.now.made self.now.made_at }
        ensures { result ≡ is_able (setting_of self.now.collider) self.now.collider.entries h }
    {
        if !self.runs(h) || self.is_open(h) {
            return false;
        }
        self.made < self.collider.plan().steps
    }

    /// How many harts are able.
    pub fn count(&self) -> u32
        requires { IsAhead self.now }
        ensures { result ≡ length (able (setting_of self.now.collider) self.now.collider.entries) }
    {
        let _plan = self.collider.plan();
        self.able.len() as u32
    }

    /// The able hart at an index, in ascending order.
    pub fn nth(&self, index: u32) -> Option<u8>
        requires { IsAhead self.now }
        ensures { result ≡ slice_get (able (setting_of self.now.collider) self.now.collider.entries) index }
    {
        self.able.get(index as usize).copied()
    }

    /// Whether the pause of a hart is due to end.
    pub fn is_due(&self, h: u8) -> bool
        requires driver { IsAhead self.now }
        requires hart { h < MOST_HARTS }
        ensures { result ≡ is_due (setting_of self.now.collider) self.now.collider.entries h }
    {
        if !self.is_open(h) {
            return false;
        }
        self.has_lasted(h)
    }

    /// The same of a paused hart. It is not able, so each able one is another.
    #[inline(always)]
    fn has_lasted(&self, h: u8) -> bool
        requires driver { IsAhead self.now }
        requires hart { h < MOST_HARTS }
        requires paused { is_some (opening_of self.now.collider.entries h) ≡ true }
        ensures { result ≡ is_due (setting_of self.now.collider) self.now.collider.entries h }
    {
        let since = self.made.saturating_sub(self.made_at[usize::from(h)]);
        self.collider.plan().pause <= since || self.able.is_empty()
    }

    /// The lowest hart whose pause is due.
    pub fn due(&self) -> Option<u8>
        requires { IsAhead self.now }
        ensures value { result ≡ due (setting_of self.now.collider) self.now.collider.entries }
        ensures hart { IfSome result (λ h. h < self.now.collider.plan.harts) }
        ensures due { IfSome result (λ h. is_due (setting_of self.now.collider) self.now.collider.entries h ≡ true) }
    {
        if !self.able.is_empty() && self.made < self.earliest {
            return None;
        }
        self.first_due()
    }

    /// The same, where the paused harts are asked. Mostly one is paused and no other.
    #[inline(always)]
    fn first_due(&self) -> Option<u8>
        requires { IsAhead self.now }
        ensures value { result ≡ due (setting_of self.now.collider) self.now.collider.entries }
        ensures hart { IfSome result (λ h. h < self.now.collider.plan.harts) }
        ensures due { IfSome result (λ h. is_due (setting_of self.now.collider) self.now.collider.entries h ≡ true) }
    {
        if let Some(h) = self.collider.only_paused() {
            if h < self.collider.plan().harts {
                return if self.has_lasted(h) { Some(h) } else { None };
            }
        }
        self.lowest_due()
    }

    /// The same, where every hart is asked.
    #[cold]
    #[inline(never)]
    fn lowest_due(&self) -> Option<u8>
        requires { IsAhead self.now }
        ensures value { result ≡ due (setting_of self.now.collider) self.now.collider.entries }
        ensures hart { IfSome result (λ h. h < self.now.collider.plan.harts) }
        ensures due { IfSome result (λ h. is_due (setting_of self.now.collider) self.now.collider.entries h ≡ true) }
    {
        for h in 0..self.collider.plan().harts {
            if self.is_due(h) {
                return Some(h);
            }
        }
        None
    }

    /// A draw: the next word picks a site, which is armed where that is allowed.
    pub fn draw(&mut self, sampler: &Sampler, words: &mut Generator)
        requires driver { IsAhead self.old }
        requires more { words.old.taken + 1 < 2 ^ 64 }
        ensures driver { IsAhead self.new }
        ensures words { words.new ≡ record words.old { taken = words.old.taken + 1 } }
        ensures entries { self.new.collider ≡ drew (sampling_of sampler.now words.old.seed words.old.stream)
            words.old.taken self.old.collider }
    {
        open_pauses();
        longer_lists();
        let word = words.next();
        if let Some(site) = sampler.pick(word) {
            let _armed = self.collider.arm(site);
        }
    }

    /// A turn of an able hart.
    pub fn turn(&mut self, h: u8) -> Turned
        requires driver { IsAhead self.old }
        requires hart { h < self.old.collider.plan.harts }
        requires able { is_able (setting_of self.old.collider) self.old.collider.entries h ≡ true }
        ensures driver { IsAhead self.new }
        ensures turns { Turns self.old.collider self.new.collider h result }
    {
        open_pauses();
        longer_lists();
        accepted_calls();
        what_no_step_does();
        let plan = self.collider.plan();
        match self.collider.turn(h) {
            Ok(Turned::Stepped(event)) => {
                self.made += 1;
                if self.made >= plan.steps || !self.collider.runs(h) {
                    self.look();
                }
                Turned::Stepped(event)
            }
            Ok(Turned::Paused(slot)) => {
                self.hold(h);
                Turned::Paused(slot)
            }
            Err(_) => unreachable!(),
        }
    }

    /// Ends the pause of a hart, which is due.
    pub fn resume(&mut self, h: u8) -> Ending
        requires driver { IsAhead self.old }
        requires hart { h < self.old.collider.plan.harts }
        requires due { is_due (setting_of self.old.collider) self.old.collider.entries h ≡ true }
        ensures driver { IsAhead self.new }
        ensures resumes { Resumes self.old.collider self.new.collider h result }
    {
        open_pauses();
        match self.collider.resume(h) {
            Ok(ending) => {
                self.look();
                ending
            }
            Err(_) => unreachable!(),
        }
    }
}

/// Notes the harts that run, of so many, where no hart is paused and steps are left: these are able then.
fn note_running(able: &mut Vec<u8>, collider: &Collider<Flat>, harts: u8)
    requires empty { able.old.items ≡ [] }
    requires room { MOST_HARTS ≤ vec_capacity able.old }
    requires harts { harts ≡ collider.now.plan.harts }
    requires few { harts ≤ MOST_HARTS }
    requires unpaused { openings collider.now.entries ≡ [] }
    requires left { nat_lt (length (steps collider.now.entries)) collider.now.plan.steps ≡ true }
    ensures able { able.new.items ≡ spec.able (setting_of collider.now) collider.now.entries }
    ensures room { vec_capacity able.new ≡ vec_capacity able.old }
{
    for h in 0..harts {
        if collider.runs(h) {
            able.push_reserved(h);
        }
    }
}
