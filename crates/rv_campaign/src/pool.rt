//! Jobs that workers share, each a thread of its own, which take one job after another.
ghost use Rattle.std.specs.Prelude.{◌≡◌, ◌<◌, ◌≤◌, None, Some, length, All, IfOk, replicate, slice_get, slice_set};
ghost use Rattle.std.specs.Thread.{IsSend, IsSync};
ghost use Rattle.rv_campaign.specs.Pool.{AreMade};
ghost use Rattle.rv_campaign.specs.internal.Slots.{AreSlots};

use rv_memory::store::NoMemory;
use std::alloc::{AllocError, AllocFailed, Global};
use std::marker::{Send, Sync};
use std::sync::Wait;
use std::sync::atomic::{AtomicU64, Ordering};
use std::thread;
use std::thread::{Promise, Threads};

/// Jobs, by their places. For contracts alone it names how many there are, and what may be made at a place.
pub trait Jobs: Sync {
    ghost use Rattle.std.specs.Prelude.{ℕ};

    type Made: Send + Drop;

    ghost jobs: { Self → ℕ };

    ghost makes: { Self → ℕ → Self.Made → Type 0 };

    /// How many jobs there are.
    fn count(&self) -> u32
        ensures { result ≡ jobs self.now };

    /// How much work the job at a place is at most, in any measure: the greatest are taken first.
    fn size(&self, place: u32) -> u32;

    /// Makes the job at a place.
    fn make(&self, alloc: Global, place: u32) -> Result<Self::Made, NoMemory>
        requires { place < jobs self.now }
        ensures { IfOk result (λ made. makes self.now place made) };
}

/// Why jobs are not made: growth was refused, or a worker could not be started.
#[derive(Clone, Copy, Drop, PartialEq, Eq)]
pub enum PoolFault {
    NoMemory,
    NoThread,
}

impl From<NoMemory> for PoolFault {
    fn from(_: NoMemory) -> PoolFault {
        PoolFault::NoMemory
    }
}

impl From<AllocError> for PoolFault {
    fn from(_: AllocError) -> PoolFault {
        PoolFault::NoMemory
    }
}

impl<T: Drop> From<AllocFailed<T>> for PoolFault {
    fn from(_: AllocFailed<T>) -> PoolFault {
        PoolFault::NoMemory
    }
}

/// A job that is to be made. In their order the longest come first: how much shorter it is than the longest could be, and its
/// place.
#[derive(Clone, Copy, Drop, PartialEq, Eq, PartialOrd, Ord)]
struct Turn {
    shorter: u32,
    place: u32,
}

/// What was made at a place.
#[derive(Drop)]
struct Done<T> {
    place: u32,
    made: T,
}

/// The jobs of a worker, which are what it promises.
#[derive(Drop)]
struct Share<'a, J: Jobs> {
    jobs: &'a J,
}

impl<'a, J: Jobs> Promise<Result<Vec<Done<J::Made>>, NoMemory>> for Share<'a, J> {
    ghost kept_by = { λ p told. IfOk told (λ done. All (λ one. J.makes p.jobs.now one.place one.made) done.items) };
}

/// What is made of jobs, in the order of their places, whatever the number of workers (1 to 16). Each worker is a thread of its
/// own, and takes one job after another, the longest first, since their lengths may differ by a thousand. All have ended before
/// the answer.
pub fn all_made<R: Threads + Wait, J: Jobs>(
    rt: &R,
    alloc: Global,
    jobs: &J,
    workers: u8,
) -> Result<Vec<J::Made>, PoolFault>
    requires { workers ≤ 16 }
    ensures { IfOk result (λ made. AreMade (J.makes jobs.now) (J.jobs jobs.now) made.items) }
{
    let turns = longest_first(alloc, jobs)?;
    let next = AtomicU64::new(0);
    let done = done_by(rt, alloc, jobs, &turns, &next, workers)?;
    Ok(in_order(alloc, jobs, done)?)
}

/// The jobs in the order in which they are taken.
fn longest_first<J: Jobs>(alloc: Global, jobs: &J) -> Result<Vec<Turn>, NoMemory> {
    let mut turns = Vec::new(alloc);
    for place in 0..jobs.count() {
        let shorter = u32::MAX - jobs.size(place);
        turns.push(Turn { shorter, place })?;
    }
    turns.sort()?;
    Ok(turns)
}

/// The place of the job that is next, which no other worker has taken, if there is one left.
fn taken(turns: &[Turn], next: &AtomicU64) -> Option<u32> {
    let turn = next.fetch_add(1, Ordering::SeqCst);
    Some(turns.get(usize::try_from(turn).ok()?)?.place)
}

/// The jobs that a worker takes.
fn share_of<J: Jobs>(
    alloc: Global,
    jobs: &J,
    turns: &[Turn],
    next: &AtomicU64,
) -> Result<Vec<Done<J::Made>>, NoMemory>
    ensures { IfOk result (λ done. All (λ one. J.makes jobs.now one.place one.made) done.items) }
{
    let mut done = Vec::new(alloc);
    for _ in 0..turns.len() {
        let Some(place) = taken(turns, next) else {
            return Ok(done);
        };
        if place < jobs.count() {
            let made = jobs.make(alloc, place)?;
            done.push(Done { place, made })?;
        }
    }
    Ok(done)
}

/// What so many workers have made, each a thread of its own: all have ended before the answer.
fn done_by<R: Threads + Wait, J: Jobs>(
    rt: &R,
    alloc: Global,
    jobs: &J,
    turns: &[Turn],
    next: &AtomicU64,
    workers: u8,
) -> Result<Vec<Done<J::Made>>, PoolFault>
    ensures { IfOk result (λ done. All (λ one. J.makes jobs.now one.place one.made) done.items) }
{
    if workers == 0 {
        return Ok(Vec::new(alloc));
    }
    thread::scope(
        thread::scope_env(),
        rt,
        |scope| -> Result<Vec<Done<J::Made>>, PoolFault>
            requires { IsSync J.row × IsSend J.Made.row × (0 < workers) }
            ensures { IfOk result (λ done. All (λ one. J.makes jobs.entry.now one.place one.made) done.items) }
        {
            let started = scope.spawn_with(
                Share { jobs },
                move || -> Result<Vec<Done<J::Made>>, NoMemory> {
                    share_of(alloc, jobs, turns, next)
                },
            );
            let Ok(started) = started else {
                return Err(PoolFault::NoThread);
            };
            let others = done_by(rt, alloc, jobs, turns, next, workers - 1);
            let mut done = started.join(rt)?;
            done.append(&mut others?)?;
            Ok(done)
        },
    )
}

/// So many empty slots.
fn empty_slots<T: Drop>(alloc: Global, count: u32) -> Result<Vec<Option<T>>, NoMemory>
    ensures { IfOk result (λ slots. slots.items ≡ replicate count None) }
{
    let mut slots = Vec::with_capacity(alloc, count as usize)?;
    for _ in 0..count {
        slots.push(None)?;
    }
    Ok(slots)
}

/// Puts what was made at a place into its slot, where there is one.
fn put<T: Drop>(slots: &mut Vec<Option<T>>, place: usize, made: T)
    ensures { slots.new.items ≡ slice_set slots.old.items place (Some made) }
{
    if place < slots.len() {
        slots[place] = Some(made);
    }
}

/// Takes what a slot holds.
fn take<T>(slots: &mut Vec<Option<T>>, place: usize) -> Option<T>
    requires { place < length slots.old.items }
    ensures value { slice_get slots.old.items place ≡ Some result }
    ensures rest { slots.new.items ≡ slice_set slots.old.items place None }
{
    slots[place].take()
}

/// The slots of the jobs with what was made of them.
fn filled<J: Jobs>(
    alloc: Global,
    jobs: &J,
    mut done: Vec<Done<J::Made>>,
) -> Result<Vec<Option<J::Made>>, NoMemory>
    requires { All (λ one. J.makes jobs.now one.place one.made) done.items }
    ensures slots { IfOk result (λ slots. AreSlots (J.makes jobs.now) slots.items) }
    ensures count { IfOk result (λ slots. length slots.items ≡ J.jobs jobs.now) }
{
    let mut slots: Vec<Option<J::Made>> = empty_slots(alloc, jobs.count())?;
    while let Some(one) = done.pop() {
        put(&mut slots, one.place as usize, one.made);
    }
    Ok(slots)
}

/// What was made at a place: what its slot holds. No job is missing, since each turn is taken once; should one be, it would be
/// made here.
fn made_at<J: Jobs>(
    alloc: Global,
    jobs: &J,
    slots: &mut Vec<Option<J::Made>>,
    place: u32,
) -> Result<J::Made, NoMemory>
    requires place { place < J.jobs jobs.now }
    requires count { length slots.old.items ≡ J.jobs jobs.now }
    requires slots { AreSlots (J.makes jobs.now) slots.old.items }
    ensures made { IfOk result (λ one. J.makes jobs.now place one) }
    ensures slots { AreSlots (J.makes jobs.now) slots.new.items }
    ensures count { length slots.new.items ≡ J.jobs jobs.now }
{
    match take(slots, place as usize) {
        Some(one) => Ok(one),
        None => jobs.make(alloc, place),
    }
}

/// What was made, in the order of the places.
fn in_order<J: Jobs>(
    alloc: Global,
    jobs: &J,
    done: Vec<Done<J::Made>>,
) -> Result<Vec<J::Made>, NoMemory>
    requires { All (λ one. J.makes jobs.now one.place one.made) done.items }
    ensures { IfOk result (λ made. AreMade (J.makes jobs.now) (J.jobs jobs.now) made.items) }
{
    let mut slots = filled(alloc, jobs, done)?;
    let mut made = Vec::with_capacity(alloc, slots.len())?;
    for place in 0..jobs.count() {
        let one = made_at(alloc, jobs, &mut slots, place)?;
        made.push(one)?;
    }
    Ok(made)
}
