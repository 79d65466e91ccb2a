//! Speed: the turns of `Detector` that are made without a test of each refusal.
ghost use Rattle.std.specs.Prelude.{◌≡◌, ◌<◌, IfSome, false, is_ok, true};
ghost use Rattle.rv_collide.specs.Answers as answer;
ghost use Rattle.rv_collide.specs.Forced.{Turn, forced};
ghost use Rattle.rv_collide.specs.Stored.{setting_of};

use super::Collider;
use rv_memory::store::ByteStore;

impl<S: ByteStore> Collider<S> {
    /// The word at a hart's pc, where it is found at once; None says nothing. A caller who has something else to do may do
    /// it between this and the turn: the word is there when the turn needs it.
    #[inline(always)]
    pub fn fetched(&self, h: u8) -> Option<u32>
        requires { h < self.now.plan.harts }
        ensures { IfSome result (answer.IsWord self.now h) }
    {
        self.detector.fetched(h)
    }

    /// A turn of a hart that may take one and whose word was fetched: true after its step, where that is a common one, and then
    /// the hart runs on. Else the hart may be paused, where it would make a plain access at an armed address; or nothing
    /// has changed. Where it is not watched, no pause is open and no address armed, and so it stays; neither is asked then. `PLACE`
    /// is that of `Machine::step_quick`.
    #[inline(always)]
    pub fn turn_quick<const PLACE: u8>(&mut self, h: u8, word: u32, is_watched: bool) -> bool
        requires accepted { is_ok (forced (setting_of self.old) self.old.entries (Turn h)) ≡ true }
        requires word { answer.IsWord self.old h word }
        requires free { is_watched ≡ false → answer.IsFree self.old }
        ensures steps { result ≡ true → answer.StepsOn self.old self.new h }
        ensures other { result ≡ false → answer.MayPause self.old self.new h }
        ensures free { result ≡ true → answer.IsFree self.old → answer.IsFree self.new }
    {
        self.detector.turn_quick::<PLACE>(h, word, is_watched)
    }

    /// The step that a turn of a hart is, where it is a common one; its word is fetched here. Else nothing has changed: a hart is
    /// not paused by this. It is for a turn now and then: the step is a call, and not compiled into its caller.
    #[inline(always)]
    pub fn step_quick(&mut self, h: u8) -> bool
        requires hart { h < self.old.plan.harts }
        requires accepted { is_ok (forced (setting_of self.old) self.old.entries (Turn h)) ≡ true }
        ensures steps { result ≡ true → answer.StepsOn self.old self.new h }
        ensures same { result ≡ false → self.new ≡ self.old }
    {
        self.detector.step_quick(h)
    }
}
