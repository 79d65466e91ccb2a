//! The value that workers share under a lock.
ghost use Rattle.std.specs.Prelude.{◌≡◌, ◌↔◌, ◌<◌, false, true, map, length, is_some, IsTrue, IfOk, IfErr, IfSome, IfNone};
ghost use Rattle.rv_drive.specs.Able.{due, is_due};
ghost use Rattle.rv_collide.specs.Numbers.{numbers};
ghost use Rattle.rv_collide.specs.Stored.{setting_of};
ghost use Rattle.rv_locked.specs.Own.{AreCopies, AreOwn, IsStray};
ghost use Rattle.rv_drive.specs.Sampling.{opened};
ghost use Rattle.rv_locked.specs.Watched.{Ends, IsHistory, IsLeft, Takes, watch};

use crate::own::first_stray;
use crate::same::{same_image, same_plan};
use rv_collide::collider::{Collider, Finished, Turned};
use rv_collide::ending::Ending;
use rv_collide::plan::Plan;
use rv_drive::driver::Driver;
use rv_drive::driver_laws::draws_owed;
use rv_elf::Image;
use rv_hart::access::Event;
use rv_memory::flat::Flat;
use rv_memory::store::NoMemory;
use rv_sample::{Generator, Sampler};
use std::alloc::Global;
use std::marker::Model;

/// What a call for a hart's turn did: a step of the hart, its pause, or nothing, since the hart isn't able.
#[derive(Clone, Copy)]
pub enum Taken {
    Stepped(Event),
    Paused,
    Over,
}

/// The hart whose list of places is not the schedule's, or hart 0 where the image, the plan or the seed is
/// another.
#[derive(Clone, Copy)]
pub struct Stray {
    pub hart: u8,
}

/// A core with the draws of its seed, as workers share it. Its pauses end when they are due, and each
/// resumption is followed by its draw. It carries copies of its image, plan and seed, and a flag that the run
/// is broken off.
#[derive(Drop)]
pub struct Watched {
    driver: Driver,
    sampler: Sampler,
    words: Generator,
    image: Image,
    seed: u64,
    is_broken_off: bool,
}

impl Model for Watched {
    ghost use Rattle.rv_locked.specs.Watched.{Watch, watch};
    ghost use Rattle.rv_locked.specs.internal.Watching.{IsWatching};

    ghost Value = { Watch };

    ghost view = { λ w. watch w.driver w.seed w.is_broken_off };

    ghost invariant = { λ w.
        IsWatching w.driver w.sampler w.words w.image w.seed };
}

impl Watched {
    /// The image's core with the plan's harts, after the first draws of the seed.
    pub fn new(alloc: Global, image: &Image, plan: Plan, seed: u64) -> Result<Watched, NoMemory>
        ensures { IfOk result (λ w. w ≡ watch (opened image.now (numbers plan) seed) seed false) }
    {
        draws_owed();
        let sampler = Sampler::sites(alloc, image, &[])?;
        let mut words = Generator::new(seed, 0);
        let driver = Driver::open(alloc, image, plan, &sampler, &mut words)?;
        let image = image.copy(alloc)?;
        Ok(Watched {
            driver,
            sampler,
            words,
            image,
            seed,
            is_broken_off: false,
        })
    }

    /// What holds of the value whenever the lock is got.
    pub fn facts(&self)
        ensures { IsHistory self.now }
    {
        self.driver.collider().facts();
    }

    /// A turn of a hart, where it is able: where it runs, isn't paused and steps are left.
    pub fn take_turn(&mut self, h: u8) -> Taken
        requires { h < self.old.core.plan.harts }
        ensures core { Takes self.old.core self.new.core h result }
        ensures seed { self.new.seed ≡ self.old.seed }
        ensures flag { self.new.broken_off ≡ self.old.broken_off }
    {
        draws_owed();
        if !self.driver.is_able(h) {
            return Taken::Over;
        }
        match self.driver.turn(h) {
            Turned::Stepped(event) => Taken::Stepped(event),
            Turned::Paused(_) => Taken::Paused,
        }
    }

    /// Ends the pause of a hart, where it is due, and makes the draw that follows.
    pub fn end_pause(&mut self, h: u8) -> Option<Ending>
        requires { h < self.old.core.plan.harts }
        ensures some { IfSome result (λ told. Ends self.old.core self.new.core self.old.seed h told) }
        ensures undue { IfNone result (is_due (setting_of self.old.core) self.old.core.entries h ≡ false) }
        ensures stays { IfNone result (self.new.core ≡ self.old.core) }
        ensures seed { self.new.seed ≡ self.old.seed }
        ensures flag { self.new.broken_off ≡ self.old.broken_off }
    {
        draws_owed();
        self.driver.collider().facts();
        let _plan = self.driver.collider().plan();
        if !self.driver.is_due(h) {
            return None;
        }
        let ending = self.driver.resume(h);
        self.driver.draw(&self.sampler, &mut self.words);
        Some(ending)
    }

    /// Notes that the run is broken off.
    pub fn break_off(&mut self)
        ensures { self.new ≡ record self.old { broken_off = true } }
    {
        self.is_broken_off = true;
    }

    /// Whether the run is broken off.
    pub fn broken_off(&self) -> bool
        ensures { result ≡ self.now.broken_off }
    {
        self.is_broken_off
    }

    /// Whether some pause is due to end.
    pub(crate) fn is_any_due(&self) -> bool
        ensures { result ≡ is_some (due (setting_of self.now.core) self.now.core.entries) }
    {
        self.driver.due().is_some()
    }

    /// Whether the pause of a hart is due to end.
    pub(crate) fn is_due(&self, h: u8) -> bool
        requires { h < self.now.core.plan.harts }
        ensures { result ≡ is_due (setting_of self.now.core) self.now.core.entries h }
    {
        self.driver.is_due(h)
    }

    /// The core.
    pub fn collider(&self) -> &Collider<Flat>
        ensures { result.now ≡ self.now.core }
    {
        self.driver.collider()
    }

    /// What the run leaves, where the value's copies are this image, this plan and this seed, and each hart's
    /// list has the places of just that hart's turns and resumptions, and the hart is neither paused nor able.
    /// The caller gives one list for each hart of the plan.
    pub fn finish(
        self,
        image: &Image,
        plan: Plan,
        seed: u64,
        places: &[Vec<u32>],
    ) -> Result<Finished, Stray>
        requires { length places.now ≡ plan.harts }
        ensures copies { IfOk result (λ _. AreCopies self image.now (numbers plan) seed) }
        ensures own { IfOk result (λ _. AreOwn self.core (map (λ p. p.items) places.now)) }
        ensures left { IfOk result (λ told. IsLeft self.core told) }
        ensures stray { IfErr result (λ stray. IsStray self image.now (numbers plan) seed
            (map (λ p. p.items) places.now) stray.hart) }
    {
        match self.stray_in(image, plan, seed, places) {
            None => Ok(self.driver.into_collider().finish()),
            Some(hart) => Err(Stray { hart }),
        }
    }

    /// The hart that `finish` answers as the stray.
    fn stray_in(&self, image: &Image, plan: Plan, seed: u64, places: &[Vec<u32>]) -> Option<u8>
        requires { length places.now ≡ plan.harts }
        ensures copies { IfNone result (AreCopies self.now image.now (numbers plan) seed) }
        ensures own { IfNone result (AreOwn self.now.core (map (λ p. p.items) places.now)) }
        ensures stray { IfSome result (λ hart. IsStray self.now image.now (numbers plan) seed
            (map (λ p. p.items) places.now) hart) }
    {
        if !self.has_copies(image, plan, seed) {
            return Some(0);
        }
        first_stray(&self.driver, places)
    }

    fn has_copies(&self, image: &Image, plan: Plan, seed: u64) -> bool
        ensures { IsTrue result ↔ AreCopies self.now image.now (numbers plan) seed }
    {
        same_image(&self.image, image)
            && same_plan(self.driver.collider().plan(), plan)
            && self.seed == seed
    }
}
