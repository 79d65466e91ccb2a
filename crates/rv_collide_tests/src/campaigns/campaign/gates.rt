//! A gate that holds a worker up till others have come, and one that shuts and counts.
ghost use Rattle.std.specs.Prelude.{◌≡◌, IfErr};

use rv_drive::gate::Gate;
use std::alloc::{AllocError, Global};
use std::sync::atomic::{AtomicU64, Ordering};
use std::thread::yield_now;

/// How often a gate looks before it gives up.
const LOOKS: u32 = 1_000_000;

/// What a gate refuses with: the worker, and how often it came.
#[derive(Clone, Copy, Debug, Drop, PartialEq, Eq)]
pub struct Shut {
    pub worker: u8,
    pub calls: u64,
}

/// Whether a count reaches a number, where other threads run between looks.
fn reaches(count: &AtomicU64, number: u64) -> bool {
    for _ in 0..LOOKS {
        if count.load(Ordering::SeqCst) >= number {
            return true;
        }
        yield_now();
    }
    false
}

/// Adds one to a worker's count, and answers how many there are.
fn count(counts: &[AtomicU64], worker: u8) -> u64 {
    match counts.get(usize::from(worker)) {
        Some(count) => count.fetch_add(1, Ordering::SeqCst).saturating_add(1),
        None => 0,
    }
}

fn zeros(alloc: Global, workers: u8) -> Result<Vec<AtomicU64>, AllocError> {
    let mut counts = Vec::new(alloc);
    for _ in 0..workers {
        counts.push(AtomicU64::new(0))?;
    }
    Ok(counts)
}

fn numbers(alloc: Global, counts: &[AtomicU64]) -> Result<Vec<u64>, AllocError> {
    let mut numbers = Vec::new(alloc);
    for count in counts {
        numbers.push(count.load(Ordering::SeqCst))?;
    }
    Ok(numbers)
}

/// Lets a worker's n-th call in once each worker has called n times.
#[derive(Drop)]
pub struct Meets {
    counts: Vec<AtomicU64>,
}

impl Meets {
    pub fn new(alloc: Global, workers: u8) -> Result<Meets, AllocError> {
        Ok(Meets {
            counts: zeros(alloc, workers)?,
        })
    }

    fn all_reach(&self, number: u64) -> bool {
        for count in self.counts.as_slice() {
            if !reaches(count, number) {
                return false;
            }
        }
        true
    }
}

impl Gate for Meets {
    type Shut = Shut;

    ghost shuts = { λ worker shut. shut.worker ≡ worker };

    fn enter(&self, worker: u8) -> Result<(), Shut>
        ensures { IfErr result (λ shut. shut.worker ≡ worker) }
    {
        let calls = count(&self.counts, worker);
        if self.all_reach(calls) {
            return Ok(());
        }
        Err(Shut { worker, calls })
    }

    fn leave(&self, _worker: u8) {}
}

/// Refuses one worker's call of a number, and counts the calls that were let in and those that have left, of each
/// worker.
#[derive(Drop)]
pub struct Shuts {
    worker: u8,
    call: u64,
    came: Vec<AtomicU64>,
    left: Vec<AtomicU64>,
}

impl Shuts {
    pub fn new(alloc: Global, workers: u8, worker: u8, call: u64) -> Result<Shuts, AllocError> {
        Ok(Shuts {
            worker,
            call,
            came: zeros(alloc, workers)?,
            left: zeros(alloc, workers)?,
        })
    }

    /// How often each worker came, the refused call too.
    pub fn came(&self, alloc: Global) -> Result<Vec<u64>, AllocError> {
        numbers(alloc, &self.came)
    }

    /// How often each worker has left.
    pub fn left(&self, alloc: Global) -> Result<Vec<u64>, AllocError> {
        numbers(alloc, &self.left)
    }
}

impl Gate for Shuts {
    type Shut = Shut;

    ghost shuts = { λ worker shut. shut.worker ≡ worker };

    fn enter(&self, worker: u8) -> Result<(), Shut>
        ensures { IfErr result (λ shut. shut.worker ≡ worker) }
    {
        let calls = count(&self.came, worker);
        if worker == self.worker && calls == self.call {
            return Err(Shut { worker, calls });
        }
        Ok(())
    }

    fn leave(&self, worker: u8) {
        count(&self.left, worker);
    }
}
