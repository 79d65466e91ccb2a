//! A run by threads.
ghost use Rattle.std.specs.Prelude.{◌≡◌, ◌≤◌, ◌+◌, ◌*◌, [], length, vec_capacity, IfOk, IfErr};
ghost use Rattle.std.specs.Thread.{IsSend, IsSync};
ghost use Rattle.rv_collide.specs.Numbers.{numbers};
ghost use Rattle.rv_locked.specs.Threaded.{IsThreaded, IsToldBy};
ghost use Rattle.rv_locked.specs.internal.Rooms.{HaveRoom};
ghost use Rattle.rv_locked.specs.declared.threads.RunFault.TheVariants.{NoMemory as OutOfMemory};

use crate::watched::Watched;
use crate::worker::{Left, Record, Shared, work};
use rv_collide::collider::Finished;
use rv_collide::plan::Plan;
use rv_drive::gate::Gate;
use rv_elf::Image;
use rv_memory::store::NoMemory;
use std::alloc::Global;
use std::sync::{Mutex, Wait};
use std::thread;
use std::thread::Threads;

/// Why a threaded run is refused: want of memory; a worker that couldn't be started; a gate that refused a
/// hart, with its value; or a worker whose places aren't the schedule's entries of its hart. Of several that
/// were met the first is told.
#[derive(Debug, Drop)]
pub enum RunFault<S> {
    NoMemory,
    NoThread,
    GateClosed(u8, S),
    Stray(u8),
}

impl<S> From<NoMemory> for RunFault<S> {
    ghost from_gives = { λ _ fault. fault ≡ OutOfMemory };

    fn from(_: NoMemory) -> RunFault<S> {
        RunFault::NoMemory
    }
}

/// A list with room for so many.
fn room<T>(alloc: Global, count: usize) -> Result<Vec<T>, NoMemory>
    ensures none { IfOk result (λ list. list.items ≡ []) }
    ensures room { IfOk result (λ list. count ≤ vec_capacity list) }
{
    Ok(Vec::with_capacity(alloc, count)?)
}

/// A list for each hart, with room for the places of all its entries: of its steps, and of the pauses and
/// resumptions, of which there are no more than arms.
fn places(alloc: Global, plan: Plan) -> Result<Vec<Vec<u32>>, NoMemory>
    ensures count { IfOk result (λ lists. length lists.items ≡ plan.harts) }
    ensures room { IfOk result (λ lists. HaveRoom (plan.steps + 2 * plan.arms) lists.items) }
{
    let count = plan.steps as usize + 2 * plan.arms as usize;
    let mut lists = room(alloc, usize::from(plan.harts))?;
    for _ in 0..plan.harts {
        let list = room(alloc, count)?;
        lists.push(list)?;
    }
    Ok(lists)
}

/// Room for what is gathered once the workers have ended.
#[derive(Drop)]
struct Rooms<G: Gate> {
    records: Vec<Record<G>>,
    lists: Vec<Vec<u32>>,
}

impl<G: Gate> Rooms<G> {
    fn new(alloc: Global, plan: Plan) -> Result<Rooms<G>, NoMemory> {
        let harts = usize::from(plan.harts);
        let records = room(alloc, harts)?;
        let lists = room(alloc, harts)?;
        Ok(Rooms { records, lists })
    }
}

/// Adds within the room that was made before the first worker started.
fn keep<T: Drop>(kept: &mut Vec<T>, item: T) {
    if kept.len() < kept.capacity() {
        kept.push_reserved(item);
    }
}

/// The records of all workers in the order of their harts, where each was started.
fn records_of<G: Gate>(
    left: Vec<Mutex<Option<Record<G>>>>,
    records: Vec<Record<G>>,
) -> Option<Vec<Record<G>>> {
    let mut records = records;
    for place in left {
        let record = place.into_inner()?;
        keep(&mut records, record);
    }
    Some(records)
}

/// The workers' lists of places in the order of their harts, where no gate was shut.
fn lists_of<G: Gate>(
    records: Vec<Record<G>>,
    lists: Vec<Vec<u32>>,
) -> Result<Vec<Vec<u32>>, RunFault<G::Shut>>
    ensures { IfErr result (λ fault. IsToldBy G.shuts fault) }
{
    let mut lists = lists;
    for record in records {
        match record.into_places() {
            Ok(places) => keep(&mut lists, places),
            Err((hart, shut)) => return Err(RunFault::GateClosed(hart, shut)),
        }
    }
    Ok(lists)
}

/// What the locked value leaves where each worker's places are the schedule's entries of its hart.
fn finished<G: Gate>(
    image: &Image,
    plan: Plan,
    seed: u64,
    watched: Watched,
    lists: &[Vec<u32>],
) -> Result<Finished, RunFault<G::Shut>>
    requires { length lists.now ≡ plan.harts }
    ensures ok { IfOk result (λ told. IsThreaded image.now (numbers plan) seed told) }
    ensures err { IfErr result (λ fault. IsToldBy G.shuts fault) }
{
    watched.facts();
    match watched.finish(image, plan, seed, lists) {
        Ok(told) => Ok(told),
        Err(stray) => Err(RunFault::Stray(stray.hart)),
    }
}

/// A list of places for each hart, where each had a worker and no gate was shut.
fn gathered<G: Gate>(
    plan: Plan,
    left: Vec<Mutex<Option<Record<G>>>>,
    rooms: Rooms<G>,
) -> Result<Vec<Vec<u32>>, RunFault<G::Shut>>
    ensures ok { IfOk result (λ lists. length lists.items ≡ plan.harts) }
    ensures err { IfErr result (λ fault. IsToldBy G.shuts fault) }
{
    let Rooms { records, lists } = rooms;
    let Some(records) = records_of(left, records) else {
        return Err(RunFault::NoThread);
    };
    let lists = lists_of(records, lists)?;
    if lists.len() != usize::from(plan.harts) {
        return Err(RunFault::NoThread);
    }
    Ok(lists)
}

/// What is told of a run whose workers have ended.
fn told<G: Gate>(
    image: &Image,
    plan: Plan,
    seed: u64,
    left: Left<G>,
    rooms: Rooms<G>,
) -> Result<Finished, RunFault<G::Shut>>
    ensures ok { IfOk result (λ told. IsThreaded image.now (numbers plan) seed told) }
    ensures err { IfErr result (λ fault. IsToldBy G.shuts fault) }
{
    let Left { watched, records } = left;
    let lists = gathered(plan, records, rooms)?;
    finished::<G>(image, plan, seed, watched, &lists)
}

/// Starts a worker for each list of places, and waits until all have ended. Where one can't be started, the
/// run is broken off, and no other is started.
fn start_all<R: Threads + Wait + Sync, G: Gate>(
    rt: &R,
    shared: &Shared<G>,
    gate: &G,
    places: Vec<Vec<u32>>,
) {
    thread::scope(
        thread::scope_env(),
        rt,
        |scope|
            requires { IsSync R.row × IsSync G.row × IsSend G.Shut.row }
        {
            let mut h = 0u8;
            for list in places {
                let started = scope.spawn(move || work(rt, shared, gate, h, list));
                if started.is_err() {
                    shared.break_off(rt);
                    break;
                }
                h = h.saturating_add(1);
            }
        },
    );
}

/// One run of the image by as many threads as the plan has harts, each of which enters the gate before each
/// turn. All room is made before the first of them starts, and all have ended before it answers.
pub fn run_threads<R: Threads + Wait + Sync, G: Gate>(
    rt: &R,
    alloc: Global,
    image: &Image,
    plan: Plan,
    seed: u64,
    gate: &G,
) -> Result<Finished, RunFault<G::Shut>>
    ensures ok { IfOk result (λ told. IsThreaded image.now (numbers plan) seed told) }
    ensures err { IfErr result (λ fault. IsToldBy G.shuts fault) }
{
    let places = places(alloc, plan)?;
    let rooms = Rooms::new(alloc, plan)?;
    let shared = Shared::new(alloc, image, plan, seed)?;
    start_all(rt, &shared, gate, places);
    told(image, plan, seed, shared.into_left(), rooms)
}
