//! A core as a driver has it: which harts are able, which pauses are due, and a draw.
ghost use Rattle.std.specs.Prelude.{◌≡◌, ◌+◌, ◌<◌, ◌^◌, [], true, length, slice_get, IfOk, OnOk, OnErr, IfSome, IfNone, ◌≤◌, None};
ghost use Rattle.rv_drive.specs.Able.{able, due, is_able, is_due};
ghost use Rattle.rv_collide.specs.Answers.{Resumes, Turns};
ghost use Rattle.rv_drive.specs.Draws.{draws, first_draws};
ghost use Rattle.rv_collide.specs.Numbers.{numbers};
ghost use Rattle.rv_collide.specs.Stored.{setting_of};
ghost use Rattle.rv_drive.specs.Sampling.{begun, drew, sampling_of};
ghost use Rattle.rv_drive.specs.Turns.{TakesTurns};
ghost use Rattle.rv_sample.specs.Generator.{word_at};

use crate::ahead::Ahead;
use rv_collide::collider::{Collider, Turned};
use rv_collide::ending::Ending;
use rv_collide::plan::Plan;
use rv_elf::Image;
use rv_memory::flat::Flat;
use rv_memory::store::NoMemory;
use rv_sample::{Generator, Sampler};
use std::alloc::Global;
use std::marker::Model;

/// How many addresses are drawn before the first turn.
const FIRST_DRAWS: u32 = 16;

/// A core with what a driver counts beside it. To contracts it is the core alone. A draw is made by the words
/// and the sites that it is lent.
#[derive(Drop)]
pub struct Driver {
    ahead: Ahead,
}

impl Model for Driver {
    ghost use Rattle.rv_collide.specs.Stored.{Stored};
    ghost use Rattle.rv_drive.specs.internal.Kept.{IsAhead};

    ghost Value = { Stored };

    ghost view = { λ d. d.ahead.collider };

    ghost invariant = { λ d. IsAhead d.ahead };
}

impl Driver {
    /// The image's core with the plan's harts, after the first draws: the first of the words, of which none was
    /// taken, each pick a site of the sampler. All room is made here.
    #[tactic(auto, using(crate::proofs::FirstLemmas::begun_is))]
    pub fn open(
        alloc: Global,
        image: &Image,
        plan: Plan,
        sampler: &Sampler,
        words: &mut Generator,
    ) -> Result<Driver, NoMemory>
        requires { words.old.taken ≡ 0 }
        ensures core { IfOk result (λ driver. driver ≡ begun image.now (numbers plan)
            (sampling_of sampler.now words.old.seed words.old.stream)) }
        ensures words { OnOk result (words.new ≡ record words.old { taken = first_draws }) }
        ensures refused { OnErr result (words.new ≡ words.old) }
    {
        let mut driver = Driver::new(alloc, Collider::new(alloc, image, plan)?)?;
        driver.first_draws(sampler, words);
        Ok(driver)
    }

    /// A driver of a core of which nothing has been done.
    fn new(alloc: Global, collider: Collider<Flat>) -> Result<Driver, NoMemory>
        requires { collider.entries ≡ [] }
        ensures { IfOk result (λ driver. driver ≡ collider) }
    {
        Ok(Driver {
            ahead: Ahead::new(alloc, collider)?,
        })
    }

    /// The draws before the first turn.
    fn first_draws(&mut self, sampler: &Sampler, words: &mut Generator)
        requires none { self.old.entries ≡ [] }
        requires taken { words.old.taken ≡ 0 }
        ensures core { self.new ≡ record self.old {
          entries = draws (setting_of self.old) (sampling_of sampler.now words.old.seed words.old.stream) first_draws;
        } }
        ensures words { words.new ≡ record words.old { taken = first_draws } }
    {
        for _ in 0..FIRST_DRAWS {
            self.draw(sampler, words);
        }
    }

    /// The core.
    #[inline(always)]
    pub fn collider(&self) -> &Collider<Flat>
        ensures { result.now ≡ self.now }
    {
        &self.ahead.collider
    }

    /// Hands the core out.
    pub fn into_collider(self) -> Collider<Flat>
        ensures { result ≡ self }
    {
        self.ahead.collider
    }

    /// Whether a hart may be given a turn.
    pub fn is_able(&self, h: u8) -> bool
        ensures { result ≡ is_able (setting_of self.now) self.now.entries h }
    {
        self.ahead.is_able(h)
    }

    /// How many harts are able.
    #[inline(always)]
    pub fn count(&self) -> u32
        ensures { result ≡ length (able (setting_of self.now) self.now.entries) }
    {
        self.ahead.count()
    }

    /// The able hart at an index, in ascending order.
    #[inline(always)]
    pub fn nth(&self, index: u32) -> Option<u8>
        ensures value { result ≡ slice_get (able (setting_of self.now) self.now.entries) index }
        ensures hart { IfSome result (λ h. h < self.now.plan.harts) }
        ensures able { IfSome result (λ h. is_able (setting_of self.now) self.now.entries h ≡ true) }
        ensures none { IfNone result (length (able (setting_of self.now) self.now.entries) ≤ index) }
    {
        self.ahead.nth(index)
    }

    /// Whether the pause of a hart of the plan is due to end.
    pub fn is_due(&self, h: u8) -> bool
        requires { h < self.now.plan.harts }
        ensures { result ≡ is_due (setting_of self.now) self.now.entries h }
    {
        let _plan = self.ahead.collider.plan();
        self.ahead.is_due(h)
    }

    /// The lowest hart whose pause is due.
    #[inline(always)]
    pub fn due(&self) -> Option<u8>
        ensures value { result ≡ due (setting_of self.now) self.now.entries }
        ensures hart { IfSome result (λ h. h < self.now.plan.harts) }
        ensures due { IfSome result (λ h. is_due (setting_of self.now) self.now.entries h ≡ true) }
    {
        self.ahead.due()
    }

    /// A draw: the next word picks a site, which is armed where that is allowed.
    pub fn draw(&mut self, sampler: &Sampler, words: &mut Generator)
        requires { words.old.taken + 1 < 2 ^ 64 }
        ensures words { words.new ≡ record words.old { taken = words.old.taken + 1 } }
        ensures core { self.new ≡ drew (sampling_of sampler.now words.old.seed words.old.stream)
            words.old.taken self.old }
    {
        self.ahead.draw(sampler, words);
    }

    /// A turn of an able hart.
    #[inline(always)]
    pub fn turn(&mut self, h: u8) -> Turned
        requires hart { h < self.old.plan.harts }
        requires able { is_able (setting_of self.old) self.old.entries h ≡ true }
        ensures { Turns self.old self.new h result }
    {
        self.ahead.turn(h)
    }

    /// Turns of the able harts that the next words pick, one at least, where no pause is due; then it may be that
    /// something else is next.
    #[inline(always)]
    pub fn turns(&mut self, words: &mut Generator)
        requires undue { due (setting_of self.old) self.old.entries ≡ None }
        requires some { 0 < length (able (setting_of self.old) self.old.entries) }
        requires more { words.old.taken + 2 ^ 32 < 2 ^ 64 }
        ensures turns { TakesTurns self.old self.new
            (word_at words.old.seed words.old.stream) words.old.taken words.new.taken }
        ensures words { words.new ≡ record words.old { taken = words.new.taken } }
        ensures one { words.old.taken < words.new.taken }
    {
        self.ahead.turns(words);
    }

    /// Ends the pause of a hart, which is due.
    pub fn resume(&mut self, h: u8) -> Ending
        requires hart { h < self.old.plan.harts }
        requires due { is_due (setting_of self.old) self.old.entries h ≡ true }
        ensures { Resumes self.old self.new h result }
    {
        self.ahead.resume(h)
    }
}
