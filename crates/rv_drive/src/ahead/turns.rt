//! Speed: turns in a row. What is asked before each turn elsewhere is asked here once: before so many steps no pause
//! is due, and the able harts stay as they are. `turn` is the plain form, one turn.
ghost use Rattle.std.specs.Prelude.{◌≡◌, ◌+◌, ◌<◌, ◌≤◌, ◌^◌, length, false, true, IfNone, IfSome, IsSome, None, Some};
ghost use Rattle.rv_drive.specs.Able.{due, is_able};
ghost use Rattle.rv_drive.specs.Drawn.{picked_hart};
ghost use Rattle.rv_drive.specs.Turns.{TakesTurns};
ghost use Rattle.rv_drive.specs.internal.Kept.{AddsTurn, IsAhead, IsOwed, IsTurnOf, IsUnstepped, StaysAhead};
ghost use Rattle.rv_collide.specs.Answers.{IsFree};
ghost use Rattle.rv_collide.specs.Stored.{setting_of};
ghost use Rattle.rv_sample.specs.Generator.{word_at};

use super::Ahead;
use super::picker::Picker;
use crate::driver_laws::{accepted_calls, open_pauses};
use rv_collide::list_laws::longer_lists;
use rv_hart::laws::what_no_step_does;
use rv_sample::Generator;

impl Ahead {
    /// Turns of the able harts that the next words pick, one at least; then it may be that something else is next.
    pub fn turns(&mut self, words: &mut Generator)
        requires driver { IsAhead self.old }
        requires undue { due (setting_of self.old.collider) self.old.collider.entries ≡ None }
        requires some { 0 < length self.old.able.items }
        requires more { words.old.taken + 2 ^ 32 < 2 ^ 64 }
        ensures driver { IsAhead self.new }
        ensures turns { TakesTurns self.old.collider self.new.collider
            (word_at words.old.seed words.old.stream) words.old.taken words.new.taken }
        ensures words { words.new ≡ record words.old { taken = words.new.taken } }
        ensures one { words.old.taken < words.new.taken }
    {
        let picker = Picker::new(self.count());
        // Two rows, each with a step compiled into it: where no pause is open and no address armed, no turn asks for either.
        if self.collider.is_free_of_breaks() {
            self.row::<1>(words, picker, false);
        } else {
            self.row::<2>(words, picker, true);
        }
    }

    /// A row of turns. The hart of each turn is picked within the turn ahead of it. `PLACE` is that of `Machine::step_quick`.
    #[inline(always)]
    fn row<const PLACE: u8>(&mut self, words: &mut Generator, picker: Picker, is_watched: bool)
        requires driver { IsAhead self.old }
        requires undue { due (setting_of self.old.collider) self.old.collider.entries ≡ None }
        requires some { 0 < length self.old.able.items }
        requires count { picker ≡ length self.old.able.items }
        requires more { words.old.taken + 2 ^ 32 < 2 ^ 64 }
        requires free { is_watched ≡ false → IsFree self.old.collider }
        ensures driver { IsAhead self.new }
        ensures turns { TakesTurns self.old.collider self.new.collider
            (word_at words.old.seed words.old.stream) words.old.taken words.new.taken }
        ensures words { words.new ≡ record words.old { taken = words.new.taken } }
        ensures one { words.old.taken < words.new.taken }
    {
        let mut left = self.undue();
        let mut h = self.picked(words, &picker);
        let _taken = words.next();
        while let Some(next) = self.turn_quick::<PLACE>(h, left, words, &picker, is_watched) {
            left -= 1;
            h = next;
            let _taken = words.next();
        }
        if left == 0 {
            self.take_last(h);
        } else {
            self.end_turn(h);
        }
    }

    /// What is left of a turn that was no common step: its pause is noted, or it is taken. This and the next two are calls of
    /// their own, since what they look up is not to be held in registers by the turns of a row.
    #[cold]
    #[inline(never)]
    fn end_turn(&mut self, h: u8)
        requires owed { IsOwed self.old h }
        ensures driver { IsAhead self.new }
        ensures turns { AddsTurn self.old self.new h }
    {
        open_pauses();
        longer_lists();
        let _plan = self.collider.plan();
        if self.is_open(h) {
            self.hold(h);
        } else {
            self.turn_in_full(h);
        }
    }

    /// The last turn of a row, which was not tried yet: a pause may be due after it.
    #[cold]
    #[inline(never)]
    fn take_last(&mut self, h: u8)
        requires driver { IsAhead self.old }
        requires hart { h < self.old.collider.plan.harts }
        requires able { is_able (setting_of self.old.collider) self.old.collider.entries h ≡ true }
        ensures driver { IsAhead self.new }
        ensures turns { IsTurnOf self.old.collider self.new.collider h }
    {
        if !self.step_apart(h) {
            self.turn_in_full(h);
        }
    }

    /// A turn of an able hart, whatever it is.
    #[cold]
    #[inline(never)]
    fn turn_in_full(&mut self, h: u8)
        requires driver { IsAhead self.old }
        requires hart { h < self.old.collider.plan.harts }
        requires able { is_able (setting_of self.old.collider) self.old.collider.entries h ≡ true }
        ensures driver { IsAhead self.new }
        ensures turns { IsTurnOf self.old.collider self.new.collider h }
    {
        let _turned = self.turn(h);
    }

    /// A turn of an able hart, where it is a common step after which steps are left: the same harts stay able. Else nothing has
    /// changed.
    #[inline(always)]
    fn step_apart(&mut self, h: u8) -> bool
        requires driver { IsAhead self.old }
        requires hart { h < self.old.collider.plan.harts }
        requires able { is_able (setting_of self.old.collider) self.old.collider.entries h ≡ true }
        ensures steps { result ≡ true → StaysAhead self.old self.new h }
        ensures same { result ≡ false → self.new ≡ self.old }
    {
        open_pauses();
        accepted_calls();
        what_no_step_does();
        let plan = self.collider.plan();
        if plan.steps - self.made < 2 || !self.collider.step_quick(h) {
            return false;
        }
        self.made += 1;
        true
    }

    /// After how many steps more no pause is due yet and steps are left, if a hart is able.
    fn undue(&self) -> u32
        ensures pauses { 0 < result → self.now.made + result < self.now.earliest }
        ensures steps { 0 < result → self.now.made + result < self.now.collider.plan.steps }
        ensures few { result < 2 ^ 32 }
    {
        let plan = self.collider.plan();
        let end = self.earliest.min(plan.steps);
        end.saturating_sub(self.made.saturating_add(1))
    }

    /// The able hart that the next word picks, which is not taken yet.
    #[inline(always)]
    fn picked(&self, words: &Generator, picker: &Picker) -> u8
        requires driver { IsAhead self.now }
        requires some { 0 < length self.now.able.items }
        requires count { picker.now ≡ length self.now.able.items }
        ensures { picked_hart (setting_of self.now.collider) self.now.collider.entries
            (word_at words.now.seed words.now.stream words.now.taken) ≡ Some result }
    {
        self.able[picker.pick(words.peek()) as usize]
    }

    /// A turn of an able hart that is a common step, after which no pause is due and steps are left: the same harts stay
    /// able. It answers the hart that the next word picks, which is picked after the hart's own
    /// word was asked for and before its step is made: a processor can't foresee to which instruction a step jumps, and what
    /// is picked is there when it has jumped. Else the hart may be paused, which is not noted yet; or nothing has changed.
    #[inline(always)]
    fn turn_quick<const PLACE: u8>(
        &mut self,
        h: u8,
        left: u32,
        words: &Generator,
        picker: &Picker,
        is_watched: bool,
    ) -> Option<u8>
        requires driver { IsAhead self.old }
        requires some { 0 < length self.old.able.items }
        requires count { picker.now ≡ length self.old.able.items }
        requires hart { h < self.old.collider.plan.harts }
        requires able { is_able (setting_of self.old.collider) self.old.collider.entries h ≡ true }
        requires left { 0 < left → self.old.made + 1 < self.old.collider.plan.steps }
        requires free { is_watched ≡ false → IsFree self.old.collider }
        ensures more { IsSome result → 0 < left }
        ensures steps { IsSome result → StaysAhead self.old self.new h }
        ensures next { IfSome result (λ next. picked_hart (setting_of self.old.collider) self.old.collider.entries
            (word_at words.now.seed words.now.stream words.now.taken) ≡ Some next) }
        ensures other { IfNone result (IsUnstepped self.old self.new h) }
        ensures untried { left ≡ 0 → self.new ≡ self.old }
        ensures free { IsSome result → IsFree self.old.collider → IsFree self.new.collider }
    {
        open_pauses();
        accepted_calls();
        what_no_step_does();
        let _plan = self.collider.plan();
        if left == 0 {
            return None;
        }
        let Some(word) = self.collider.fetched(h) else {
            return None;
        };
        let next = self.picked(words, picker);
        if !self.collider.turn_quick::<PLACE>(h, word, is_watched) {
            return None;
        }
        self.made += 1;
        Some(next)
    }
}
