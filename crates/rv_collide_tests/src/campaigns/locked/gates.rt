//! Gates that hold a worker up till others have come or gone, or that shut.
ghost use Rattle.std.specs.Prelude.{◌≡◌, IfErr};

use rv_locked::gate::Gate;
use std::alloc::{AllocError, Global};
use std::sync::atomic::{AtomicU64, Ordering};
use std::thread::yield_now;

/// How often a gate looks before it gives up.
const LOOKS: u32 = 1_000_000;

/// What a gate refuses with: the hart, and a number of the gate's own.
#[derive(Clone, Copy, Debug, Drop, PartialEq, Eq)]
pub struct Shut {
    pub hart: u8,
    pub number: u64,
}

/// Whether a count reaches a number, where other threads run between looks.
fn reaches(count: &AtomicU64, number: u64) -> bool {
    for _ in 0..LOOKS {
        if count.load(Ordering::SeqCst) >= number {
            return true;
        }
        yield_now();
    }
    false
}

/// Lets a worker's n-th call in once each worker has called n times.
#[derive(Drop)]
pub struct Meets {
    counts: Vec<AtomicU64>,
}

impl Meets {
    pub fn new(alloc: Global, harts: u8) -> Result<Meets, AllocError> {
        let mut counts = Vec::new(alloc);
        for _ in 0..harts {
            counts.push(AtomicU64::new(0))?;
        }
        Ok(Meets { counts })
    }

    /// Notes a call, and answers how many the hart has made.
    fn comes(&self, hart: u8) -> u64 {
        match self.counts.get(usize::from(hart)) {
            Some(count) => count.fetch_add(1, Ordering::SeqCst).saturating_add(1),
            None => u64::MAX,
        }
    }

    fn all_reach(&self, number: u64) -> bool {
        for count in self.counts.as_slice() {
            if !reaches(count, number) {
                return false;
            }
        }
        true
    }
}

impl Gate for Meets {
    type Shut = Shut;

    ghost shuts = { λ hart shut. shut.hart ≡ hart };

    fn enter(&self, hart: u8) -> Result<(), Shut>
        ensures { IfErr result (λ shut. shut.hart ≡ hart) }
    {
        let number = self.comes(hart);
        if self.all_reach(number) {
            return Ok(());
        }
        Err(Shut { hart, number })
    }

    fn leave(&self, _hart: u8) {}
}

/// Holds one hart's first call till the others have left a number of times, and refuses that hart after a
/// number of calls.
#[derive(Drop)]
pub struct Holds {
    held: u8,
    until: u64,
    most: u64,
    came: AtomicU64,
    left: AtomicU64,
}

impl Holds {
    pub fn new(held: u8, until: u64, most: u64) -> Holds {
        Holds {
            held,
            until,
            most,
            came: AtomicU64::new(0),
            left: AtomicU64::new(0),
        }
    }

    /// How often the held hart was let in or refused, and how often the others have left.
    pub fn counts(&self) -> (u64, u64) {
        (
            self.came.load(Ordering::SeqCst),
            self.left.load(Ordering::SeqCst),
        )
    }
}

impl Gate for Holds {
    type Shut = Shut;

    ghost shuts = { λ hart shut. shut.hart ≡ hart };

    fn enter(&self, hart: u8) -> Result<(), Shut>
        ensures { IfErr result (λ shut. shut.hart ≡ hart) }
    {
        if hart != self.held {
            return Ok(());
        }
        let number = self.came.fetch_add(1, Ordering::SeqCst).saturating_add(1);
        if number > self.most || !reaches(&self.left, self.until) {
            return Err(Shut { hart, number });
        }
        Ok(())
    }

    fn leave(&self, hart: u8) {
        if hart != self.held {
            self.left.fetch_add(1, Ordering::SeqCst);
        }
    }
}

/// Refuses each call after a number of calls by any hart, and counts the harts' calls and leaves.
#[derive(Drop)]
pub struct Counts {
    most: u64,
    came: AtomicU64,
    left: AtomicU64,
}

impl Counts {
    pub fn new(most: u64) -> Counts {
        Counts {
            most,
            came: AtomicU64::new(0),
            left: AtomicU64::new(0),
        }
    }

    /// How many calls were let in, and how many have left.
    pub fn counts(&self) -> (u64, u64) {
        (
            self.came.load(Ordering::SeqCst).min(self.most),
            self.left.load(Ordering::SeqCst),
        )
    }
}

impl Gate for Counts {
    type Shut = Shut;

    ghost shuts = { λ hart shut. shut.hart ≡ hart };

    fn enter(&self, hart: u8) -> Result<(), Shut>
        ensures { IfErr result (λ shut. shut.hart ≡ hart) }
    {
        let number = self.came.fetch_add(1, Ordering::SeqCst).saturating_add(1);
        if number > self.most {
            return Err(Shut { hart, number });
        }
        Ok(())
    }

    fn leave(&self, _hart: u8) {
        self.left.fetch_add(1, Ordering::SeqCst);
    }
}

/// Keeps hart 1 out till hart 0 calls `leave` for the fourth time, and hart 0 in that call till hart 1 has
/// left four times.
#[derive(Drop)]
pub struct Keeps {
    left: AtomicU64,
    others_left: AtomicU64,
}

impl Keeps {
    pub fn new() -> Keeps {
        Keeps {
            left: AtomicU64::new(0),
            others_left: AtomicU64::new(0),
        }
    }

    /// How often hart 0 and hart 1 have left.
    pub fn counts(&self) -> (u64, u64) {
        (
            self.left.load(Ordering::SeqCst),
            self.others_left.load(Ordering::SeqCst),
        )
    }
}

impl Gate for Keeps {
    type Shut = Shut;

    ghost shuts = { λ hart shut. shut.hart ≡ hart };

    fn enter(&self, hart: u8) -> Result<(), Shut>
        ensures { IfErr result (λ shut. shut.hart ≡ hart) }
    {
        if hart == 0 || reaches(&self.left, 4) {
            return Ok(());
        }
        Err(Shut { hart, number: 0 })
    }

    fn leave(&self, hart: u8) {
        if hart != 0 {
            self.others_left.fetch_add(1, Ordering::SeqCst);
            return;
        }
        let number = self.left.fetch_add(1, Ordering::SeqCst).saturating_add(1);
        if number == 4 {
            reaches(&self.others_left, 4);
        }
    }
}
