//! Who goes on: a seat for each worker, in which it stands aside until it is called.
//!
//! Mostly one worker makes turns. After some tens of them it stands aside and calls the next that does, and where a
//! turn makes a pause due, the worker of that pause is called. The lock alone keeps the locked value safe: what
//! stands here decides only who asks for it. A worker always takes its seat before it calls another, which may at
//! once get its processor.
use rv_memory::store::NoMemory;
use std::alloc::Global;
use std::sync::Wait;
use std::sync::atomic::{AtomicU64, Ordering};
use std::time::Duration;

/// How many turns a worker makes in a row before it calls another.
const BURST: u32 = 64;

/// How often in a row a worker stands aside without being called before it no longer waits for one that was called
/// or is at its gate.
pub(crate) const PATIENCE: u32 = 7;

/// How long a worker that was called last time stands aside at most, in nanoseconds. With each time in vain it is
/// twice as long.
const REST: u64 = 200_000;

/// What a seat says of its worker.
#[derive(Clone, Copy)]
enum Seat {
    /// It is at its gate or makes turns.
    Away,
    /// It stands aside, or has not started.
    Aside,
    /// Its hart is paused, and it waits until the pause is due.
    Paused,
    /// It was called, and has not gone on yet.
    Called,
    /// It has ended.
    Ended,
}

impl Seat {
    fn word(self) -> u32 {
        match self {
            Seat::Away => 0,
            Seat::Aside => 1,
            Seat::Paused => 2,
            Seat::Called => 3,
            Seat::Ended => 4,
        }
    }
}

/// How a worker goes on: how many turns it has left before it calls another, and how often in a row it has stood
/// aside without being called.
#[derive(Clone, Copy)]
pub(crate) struct Pace {
    left: u32,
    in_vain: u32,
}

impl Pace {
    pub fn new() -> Pace {
        Pace {
            left: BURST,
            in_vain: 0,
        }
    }

    /// Notes a turn that is about to be made.
    pub fn count(&mut self) {
        self.left = self.left.saturating_sub(1);
    }

    /// Whether another is to go on.
    pub fn is_spent(&self) -> bool {
        self.left == 0
    }

    /// Begins turns in a row.
    pub fn renew(&mut self) {
        self.left = BURST;
    }

    /// Notes that the worker has called another, which is no longer at its gate and so will come.
    pub fn called(&mut self) {
        self.in_vain = 0;
    }

    /// Whether the worker still waits for one that may be held up.
    pub fn is_patient(&self) -> bool {
        self.in_vain < PATIENCE
    }

    /// How long it stands aside at most.
    fn rest(&self) -> Duration {
        Duration::from_nanos(REST << self.in_vain.min(PATIENCE))
    }

    /// Notes whether it was called after it stood aside.
    fn stood(&mut self, is_called: bool) {
        self.in_vain = if is_called {
            0
        } else {
            self.in_vain.saturating_add(1)
        };
        self.renew();
    }
}

/// The seats of all workers, and how often one was called.
#[derive(Drop)]
pub(crate) struct Seats {
    harts: u8,
    seats: Vec<AtomicU64>,
    calls: AtomicU64,
}

impl Seats {
    /// A seat for each hart, of which hart 0's worker is to begin.
    pub fn new(alloc: Global, harts: u8) -> Result<Seats, NoMemory> {
        let mut seats = Vec::with_capacity(alloc, usize::from(harts))?;
        for h in 0..harts {
            let seat = if h == 0 { Seat::Away } else { Seat::Aside };
            seats.push(AtomicU64::new(u64::from(seat.word())))?;
        }
        Ok(Seats {
            harts,
            seats,
            calls: AtomicU64::new(0),
        })
    }

    fn says(&self, h: u8, seat: Seat) -> bool {
        match self.seats.get(usize::from(h)) {
            Some(word) => word.load(Ordering::SeqCst) == u64::from(seat.word()),
            None => false,
        }
    }

    fn set(&self, h: u8, seat: Seat) {
        if let Some(word) = self.seats.get(usize::from(h)) {
            word.store(u64::from(seat.word()), Ordering::SeqCst);
        }
    }

    /// Changes a seat that says one thing to say another, and answers whether it has.
    fn turn(&self, h: u8, from: Seat, to: Seat) -> bool {
        let (from, to) = (u64::from(from.word()), u64::from(to.word()));
        match self.seats.get(usize::from(h)) {
            Some(word) => word
                .compare_exchange(from, to, Ordering::SeqCst, Ordering::SeqCst)
                .is_ok(),
            None => false,
        }
    }

    fn wake(&self, h: u8) {
        if let Some(word) = self.seats.get(usize::from(h)) {
            word.wake_one();
        }
    }

    /// A worker goes on.
    pub fn rise(&self, h: u8) {
        self.set(h, Seat::Away);
    }

    /// A worker is about to stand aside, so that it can be called.
    pub fn sit(&self, h: u8) {
        self.turn(h, Seat::Away, Seat::Aside);
    }

    /// A worker is about to wait until its hart's pause is due.
    pub fn pause(&self, h: u8) {
        self.set(h, Seat::Paused);
    }

    /// A worker has ended.
    pub fn end(&self, h: u8) {
        self.set(h, Seat::Ended);
    }

    /// Calls the next worker after this one that stands aside, and answers whether there was one.
    pub fn call_next(&self, h: u8) -> bool {
        let after = h.saturating_add(1)..self.harts;
        let before = 0..h.min(self.harts);
        for other in after.chain(before) {
            if self.turn(other, Seat::Aside, Seat::Called) {
                self.calls.fetch_add(1, Ordering::SeqCst);
                self.wake(other);
                return true;
            }
        }
        false
    }

    /// Calls a worker whose pause is due, and answers whether it waits for that; `wake_called` is to follow.
    pub fn call_paused(&self, h: u8) -> bool {
        let is_called = self.turn(h, Seat::Paused, Seat::Called);
        if is_called {
            self.calls.fetch_add(1, Ordering::SeqCst);
        }
        is_called
    }

    /// Wakes all who were called.
    pub fn wake_called(&self) {
        for h in 0..self.harts {
            if self.says(h, Seat::Called) {
                self.wake(h);
            }
        }
    }

    /// Calls and wakes all.
    pub fn call_all(&self) {
        for h in 0..self.harts {
            self.set(h, Seat::Called);
            self.wake(h);
        }
    }

    /// Whether a worker other than this one was called or is at its gate, and may soon make a turn.
    pub fn is_another_coming(&self, h: u8) -> bool {
        for other in 0..self.harts {
            if other != h && (self.says(other, Seat::Away) || self.says(other, Seat::Called)) {
                return true;
            }
        }
        false
    }

    /// Stands aside until the worker is called, or until none was called for as long as it is patient.
    pub fn stand<R: Wait>(&self, rt: &R, h: u8, pace: &mut Pace) {
        let mut calls = self.calls.load(Ordering::SeqCst);
        for _ in rt.forever() {
            self.rest(rt, h, pace.rest());
            let is_called = self.says(h, Seat::Called);
            let seen = self.calls.load(Ordering::SeqCst);
            if is_called || seen == calls {
                self.rise(h);
                pace.stood(is_called);
                return;
            }
            calls = seen;
        }
    }

    /// Sleeps while the seat says that the hart is paused.
    pub fn wait<R: Wait>(&self, rt: &R, h: u8) {
        if let Some(word) = self.seats.get(usize::from(h)) {
            word.park(rt, Seat::Paused.word());
        }
    }

    /// Sleeps while the seat says that its worker stands aside, and no longer than this.
    fn rest<R: Wait>(&self, rt: &R, h: u8, most: Duration) {
        if let Some(word) = self.seats.get(usize::from(h)) {
            word.park_timeout(rt, Seat::Aside.word(), most);
        }
    }
}
