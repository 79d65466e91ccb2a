//! How far a walk goes: whose turn is next and how long it goes on is drawn, until it is over.
ghost use Rattle.std.specs.Prelude.{◌≡◌, ◌+◌, ◌*◌, ◌^◌, ◌<◌, ◌≤◌, min, nat_le, None, IfOk, IfSome, IfNone, if◌then◌else◌, length};
ghost use Rattle.rv_waits.specs.Stuck.{Runs};
ghost use Rattle.rv_walk.specs.Burst.{AllMayRest};
ghost use Rattle.rv_hart.specs.State.{State};
ghost use Rattle.rv_walk.specs.Course as spec;
ghost use Rattle.rv_walk.specs.Over.{IsOver};
ghost use Rattle.rv_walk.specs.Walked.{GoesOn, IsAt};

use crate::walk::Walk;
use rv_memory::store::{ByteStore, NoMemory};
use rv_sample::Generator;

/// The most steps of a walk, so that a schedule has room for what comes after them.
pub const MOST_WALKED: u32 = 900_000;

/// The most turns of a burst, in walks that change harts often.
pub const FEW_TURNS: u32 = 8;

/// And in those that don't.
pub const MANY_TURNS: u32 = 64;

/// How a walk is over: no hart runs; all that run wait; the steps that it may have are made; or it has gone far enough.
#[derive(Clone, Copy, Debug, PartialEq, Eq)]
pub enum Over {
    NoneRuns,
    AllWait,
    MostSteps,
    FarEnough,
}

/// How far a walk goes: how many steps it makes at least where two harts or more are awake, and how many turns a burst has at most,
/// each at least 1.
#[derive(Clone, Copy)]
pub struct Course {
    pub steps: u32,
    pub burst: u32,
}

/// The number of a run's four, counted from 1.
pub fn four_of(run: u32) -> u32
    ensures { result ≡ spec.four_of run }
{
    run / 4 + 1
}

/// How many times 2 divides a number, at most 10 times.
fn twos(n: u64) -> u32
    ensures is { result ≡ spec.twos n }
    ensures few { result ≤ 10 }
{
    [2u64, 4, 8, 16, 32, 64, 128, 256, 512, 1024]
        .iter()
        .filter(|power| n % **power == 0)
        .count() as u32
}

/// The length at a number, counted from 1: 1,000 to 1,000,000 steps.
pub fn steps_at(n: u64) -> u32
    ensures is { result ≡ spec.steps_at n }
    ensures some { 1000 ≤ result }
    ensures few { result ≤ 1_000_000 }
{
    (1000 * 2u32.pow(twos(n))).min(1_000_000)
}

/// The most turns of a burst in the walk of a run.
pub fn burst_of(run: u32) -> u32
    ensures is { result ≡ spec.burst_of run }
    ensures some { 1 ≤ result }
{
    let four = four_of(run);
    if four / 2u32.pow(twos(u64::from(four)) + 1) % 2 == 0 {
        FEW_TURNS
    } else {
        MANY_TURNS
    }
}

/// How many steps were made in bursts at whose begin two or more harts were awake, and at how many of them it is asked next whether
/// the walk has gone far enough.
#[derive(Clone, Copy)]
struct SharedSteps {
    made: u32,
    asked_at: u32,
}

/// Goes on with a walk until it is over. A word picks the hart from whose number on the next is looked for, and the next word how many
/// turns its burst has. When the steps with two or more harts awake come to the course's, and at each doubling of them, the walk has gone far
/// enough where these are at least half of all its steps and it has seen a near pair.
pub fn go<S: ByteStore>(
    walk: &mut Walk<'_, S>,
    course: Course,
    words: &mut Generator,
) -> Result<Over, NoMemory>
    requires some_turn { 1 ≤ course.burst }
    requires more { words.old.taken + 2 ^ 34 < 2 ^ 64 }
    ensures over { IfOk result (λ over. (s : State) → IsAt walk.new s → IsOver walk.new s over) }
    ensures walk { GoesOn walk.old walk.new }
    ensures words { words.new ≡ record words.old { taken = words.new.taken } }
{
    let mut shared = SharedSteps {
        made: 0,
        asked_at: course.steps,
    };
    'bursts: loop {
        let _left = walk.left();
        let Some(h) = walk.next_from(words.next()) else {
            return Ok(at_rest(walk));
        };
        let turns = 1 + words.next() % course.burst;
        if let Some(over) = go_one(walk, h, turns, &mut shared)? {
            return Ok(over);
        }
    }
}

/// How a walk is over in which each hart may rest.
fn at_rest<S: ByteStore>(walk: &Walk<'_, S>) -> Over
    requires { (s : State) → IsAt walk.now s → AllMayRest s }
    ensures { (s : State) → IsAt walk.now s → IsOver walk.now s result }
{
    let machine = walk.machine();
    for h in 0..machine.harts() {
        if machine.runs(h) {
            return Over::AllWait;
        }
    }
    Over::NoneRuns
}

/// One burst of a hart that runs, in pieces, so that it is asked in time whether the walk has gone far enough. It may be over.
fn go_one<S: ByteStore>(
    walk: &mut Walk<'_, S>,
    h: u8,
    turns: u32,
    shared: &mut SharedSteps,
) -> Result<Option<Over>, NoMemory>
    requires runs { (s : State) → IsAt walk.old s → Runs s h }
    requires some { 1 ≤ turns }
    ensures over { IfOk result (λ over. IfSome over (λ it. (s : State) → IsAt walk.new s → IsOver walk.new s it)) }
    ensures further { IfOk result (λ over. over ≡ None → length walk.old.harts < length walk.new.harts) }
    ensures few { length walk.new.harts ≤ walk.new.most }
    ensures walk { GoesOn walk.old walk.new }
{
    let is_shared = walk.next_from(u32::from(h) + 1) != Some(h);
    let mut left = turns;
    'pieces: loop {
        if let Some(over) = over_now(walk, shared) {
            return Ok(Some(over));
        }
        let most = shared.most(left, walk.left(), is_shared);
        let made = walk.burst(h, most)?;
        shared.add(made, is_shared);
        left -= made;
        if left == 0 || !walk.goes(h) {
            return Ok(None);
        }
    }
}

/// Whether the walk is over before a further step: its steps are made, or it is asked now and the walk has gone far enough.
fn over_now<S: ByteStore>(walk: &Walk<'_, S>, shared: &mut SharedSteps) -> Option<Over>
    ensures over { IfSome result (λ it. (s : State) → IsAt walk.now s → IsOver walk.now s it) }
    ensures left { IfNone result (length walk.now.harts < walk.now.most) }
    ensures few { length walk.now.harts ≤ walk.now.most }
{
    if walk.left() == 0 {
        return Some(Over::MostSteps);
    }
    if shared.made >= shared.asked_at {
        if shared.are_half(walk) && walk.has_near_pair() {
            return Some(Over::FarEnough);
        }
        shared.asked_at = shared.asked_at.saturating_mul(2);
    }
    None
}

impl SharedSteps {
    /// Whether they are at least half of all.
    fn are_half<S: ByteStore>(&self, walk: &Walk<'_, S>) -> bool
        ensures { result ≡ nat_le (length walk.now.harts) (2 * self.now.made) }
    {
        walk.harts().len() as u64 <= 2 * u64::from(self.made)
    }

    /// How many of so many turns may be made before it is asked again, one at least.
    fn most(&self, turns: u32, left: u32, is_shared: bool) -> u32
        requires turns { 1 ≤ turns }
        requires left { 1 ≤ left }
        ensures some { 1 ≤ result }
        ensures turns { result ≤ turns }
        ensures left { result ≤ left }
    {
        let most = turns.min(left);
        if is_shared {
            most.min(self.asked_at.saturating_sub(self.made).max(1))
        } else {
            most
        }
    }

    /// So many turns were made.
    fn add(&mut self, turns: u32, is_shared: bool)
        ensures { self.new ≡ record self.old { made = if is_shared then min (self.old.made + turns) u32.MAX else self.old.made } }
    {
        if is_shared {
            self.made = self.made.saturating_add(turns);
        }
    }
}
