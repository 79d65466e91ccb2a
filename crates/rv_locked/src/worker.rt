//! The workers: one a hart, each in a thread of its own.
ghost use Rattle.std.specs.Prelude.{IfErr, IfSome};

use crate::seats::{PATIENCE, Pace, Seats};
use crate::watched::{Taken, Watched};
use rv_collide::plan::Plan;
use rv_drive::gate::Gate;
use rv_elf::Image;
use rv_hart::access::Event;
use rv_memory::store::NoMemory;
use std::alloc::Global;
use std::marker::Model;
use std::sync::{Mutex, MutexGuard, Wait};

/// What the workers share: the locked value, the seats in which they stand aside, and where each of them leaves its
/// record.
#[derive(Drop)]
pub(crate) struct Shared<G: Gate> {
    watched: Mutex<Watched>,
    seats: Seats,
    records: Vec<Mutex<Option<Record<G>>>>,
}

/// What a worker leaves: the places of the entries that it made, and the value that its gate refused it with.
#[derive(Drop)]
pub(crate) struct Record<G: Gate> {
    hart: u8,
    places: Vec<u32>,
    shut: Option<G::Shut>,
}

impl<G: Gate> Model for Record<G> {
    ghost use Rattle.std.specs.Prelude.{IfSome};

    ghost Value = { Unit {0} };

    ghost view = { λ _. tt };

    ghost invariant = { λ r. IfSome r.shut (λ value. G.shuts r.hart value) };
}

/// What a worker does next.
#[derive(Clone, Copy)]
enum Next {
    Enter,
    Wait,
    End,
}

/// What a shared run leaves once its workers have ended: the locked value, and the record of each worker that
/// was started.
#[derive(Drop)]
pub(crate) struct Left<G: Gate> {
    pub watched: Watched,
    pub records: Vec<Mutex<Option<Record<G>>>>,
}

impl<G: Gate> Record<G> {
    /// What a worker leaves that ended.
    fn over(hart: u8, places: Vec<u32>) -> Record<G> {
        Record {
            hart,
            places,
            shut: None,
        }
    }

    /// What a worker leaves whose gate refused it.
    fn refused(hart: u8, places: Vec<u32>, shut: G::Shut) -> Record<G>
        requires { G.shuts hart shut }
    {
        Record {
            hart,
            places,
            shut: Some(shut),
        }
    }

    /// The places; or, where the gate was shut, the hart and the gate's value.
    pub fn into_places(self) -> Result<Vec<u32>, (u8, G::Shut)>
        ensures { IfErr result (λ refused. G.shuts refused.0 refused.1) }
    {
        let Record { hart, places, shut } = self;
        match shut {
            None => Ok(places),
            Some(shut) => Err((hart, shut)),
        }
    }
}

/// A place for the record of each worker, with none in it.
fn empty_records<G: Gate>(
    alloc: Global,
    harts: u8,
) -> Result<Vec<Mutex<Option<Record<G>>>>, NoMemory> {
    let mut records = Vec::with_capacity(alloc, usize::from(harts))?;
    for _ in 0..harts {
        records.push(Mutex::new(None))?;
    }
    Ok(records)
}

impl<G: Gate> Shared<G> {
    /// What the workers of a run share, one for each hart. All room is made here.
    pub fn new(alloc: Global, image: &Image, plan: Plan, seed: u64) -> Result<Shared<G>, NoMemory> {
        let seats = Seats::new(alloc, plan.harts)?;
        let records = empty_records(alloc, plan.harts)?;
        let watched = Watched::new(alloc, image, plan, seed)?;
        Ok(Shared {
            watched: Mutex::new(watched),
            seats,
            records,
        })
    }

    pub fn into_left(self) -> Left<G> {
        let Shared {
            watched,
            seats: _,
            records,
        } = self;
        Left {
            watched: watched.into_inner(),
            records,
        }
    }

    /// Breaks the run off, and wakes all who wait.
    pub fn break_off<R: Wait>(&self, rt: &R) {
        let mut guard = self.watched.lock(rt);
        guard.break_off();
        drop(guard);
        self.seats.call_all();
    }

    /// Workers begin one after the other, hart 0's first.
    fn begin<R: Wait>(&self, rt: &R, h: u8, pace: &mut Pace) {
        if h != 0 {
            self.seats.stand(rt, h, pace);
        }
    }

    /// Calls another worker and stands aside, unless none stands aside and none is coming.
    fn hand_over<R: Wait>(&self, rt: &R, h: u8, pace: &mut Pace) {
        self.seats.sit(h);
        let is_called = self.seats.call_next(h);
        if is_called {
            pace.called();
        }
        if is_called || (pace.is_patient() && self.seats.is_another_coming(h)) {
            self.seats.stand(rt, h, pace);
        } else {
            self.seats.rise(h);
            pace.renew();
        }
    }

    /// The lock. A worker whose turns in a row are spent lets another go on first, and so does one that finds the lock
    /// taken: its holder goes on.
    fn lock<R: Wait>(&self, rt: &R, h: u8, pace: &mut Pace) -> MutexGuard<'_, Watched> {
        if pace.is_spent() {
            self.hand_over(rt, h, pace);
        }
        if let Some(guard) = self.watched.try_lock() {
            return guard;
        }
        self.seats.sit(h);
        // The holder may have looked for one to call before this worker sat.
        if let Some(guard) = self.watched.try_lock() {
            self.seats.rise(h);
            return guard;
        }
        self.seats.stand(rt, h, pace);
        self.watched.lock(rt)
    }

    /// The lock at a moment when no pause is due, unless the worker of one that is due doesn't come.
    fn lock_for_turn<R: Wait>(&self, rt: &R, h: u8, pace: &mut Pace) -> MutexGuard<'_, Watched> {
        let mut guard = self.lock(rt, h, pace);
        for _ in 0..PATIENCE {
            if !guard.is_any_due() || guard.broken_off() || !pace.is_patient() {
                return guard;
            }
            self.seats.sit(h);
            drop(guard);
            self.seats.stand(rt, h, pace);
            guard = self.watched.lock(rt);
        }
        guard
    }

    /// One turn of a hart under the lock. Where a pause is due by then its worker is called, and else, where this one
    /// doesn't go on, the next.
    fn turn<R: Wait>(&self, rt: &R, h: u8, pace: &mut Pace, places: &mut Vec<u32>) -> Next {
        let mut guard = self.lock_for_turn(rt, h, pace);
        pace.count();
        let next = taken(&mut guard, h, places);
        let is_due = guard.is_any_due();
        if is_due {
            self.call_due(&guard, pace);
        }
        drop(guard);
        if next == Next::End {
            self.seats.end(h);
        }
        if is_due {
            self.seats.wake_called();
        } else if next != Next::Enter {
            self.seats.call_next(h);
        }
        next
    }

    /// Calls the workers whose pauses are due.
    #[cold]
    fn call_due(&self, watched: &Watched, pace: &mut Pace) {
        for h in 0..watched.collider().plan().harts {
            if watched.is_due(h) && self.seats.call_paused(h) {
                pace.called();
            }
        }
    }

    /// Waits until the hart's pause is due, and ends it.
    fn wait<R: Wait>(&self, rt: &R, h: u8, pace: &mut Pace, places: &mut Vec<u32>) -> Next {
        for _ in rt.forever() {
            let mut guard = self.watched.lock(rt);
            if let Some(next) = ended(&mut guard, h, places) {
                self.seats.rise(h);
                pace.renew();
                return next;
            }
            // Under the lock: no turn makes the pause due before its worker can be called.
            self.seats.pause(h);
            drop(guard);
            self.seats.wait(rt, h);
        }
        unreachable!()
    }

    /// Leaves a hart's record.
    fn leave<R: Wait>(&self, rt: &R, h: u8, record: Record<G>) {
        if let Some(place) = self.records.get(usize::from(h)) {
            *place.lock(rt) = Some(record);
        }
    }
}

/// A turn, noted with the place of its entry.
fn taken(watched: &mut Watched, h: u8, places: &mut Vec<u32>) -> Next {
    if watched.broken_off() || h >= watched.collider().plan().harts {
        return Next::End;
    }
    let place = watched.collider().entries();
    match watched.take_turn(h) {
        Taken::Over => Next::End,
        Taken::Paused => {
            note(places, place);
            Next::Wait
        }
        Taken::Stepped(event) => {
            note(places, place);
            match event {
                Event::Moved(_) => Next::Enter,
                Event::Exited(_) | Event::Stopped(_) => Next::End,
            }
        }
    }
}

/// The end of the hart's pause where it is due, noted with the place of its entry; or the end of the worker
/// where the run is broken off.
fn ended(watched: &mut Watched, h: u8, places: &mut Vec<u32>) -> Option<Next> {
    if watched.broken_off() || h >= watched.collider().plan().harts {
        return Some(Next::End);
    }
    let place = watched.collider().entries();
    let _ending = watched.end_pause(h)?;
    note(places, place);
    Some(Next::Enter)
}

/// Adds a place within the room that was made before the first worker started.
fn note(places: &mut Vec<u32>, place: u32) {
    if places.len() < places.capacity() {
        places.push_reserved(place);
    }
}

/// The turns of one hart, and its record: it enters the gate before each turn and leaves it after the lock is
/// let go.
fn turns<R: Wait, G: Gate>(
    rt: &R,
    shared: &Shared<G>,
    gate: &G,
    h: u8,
    places: Vec<u32>,
) -> Record<G> {
    let mut places = places;
    let mut pace = Pace::new();
    shared.begin(rt, h, &mut pace);
    for _ in rt.forever() {
        if let Err(shut) = gate.enter(h) {
            shared.break_off(rt);
            return Record::refused(h, places, shut);
        }
        let next = shared.turn(rt, h, &mut pace, &mut places);
        gate.leave(h);
        let next = match next {
            Next::Wait => shared.wait(rt, h, &mut pace, &mut places),
            Next::Enter | Next::End => next,
        };
        if next == Next::End {
            return Record::over(h, places);
        }
    }
    unreachable!()
}

/// The work of one hart, which leaves its record.
pub(crate) fn work<R: Wait, G: Gate>(
    rt: &R,
    shared: &Shared<G>,
    gate: &G,
    h: u8,
    places: Vec<u32>,
) {
    let record = turns(rt, shared, gate, h, places);
    shared.leave(rt, h, record);
}
