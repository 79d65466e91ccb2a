//! How the harts of all runs ended.
ghost use Rattle.std.specs.Prelude.{◌≡◌, OnOk};
ghost use Rattle.rv_search.specs.Tally as spec;

use crate::end::{End, Way};
use crate::tally::kinds::Kinds;
use rv_memory::store::NoMemory;
use std::alloc::Global;
use std::marker::Model;

/// Exits by code, traps by cause and address, harts that waited, and those that had no steps left.
#[derive(Drop)]
pub struct Ended {
    exits: Kinds,
    stops: Kinds,
    waits: Kinds,
    out_of_steps: u64,
}

impl Model for Ended {
    ghost use Rattle.rv_search.specs.Tally.{Ended as HowEnded};

    ghost Value = { HowEnded };

    ghost view = { λ e. record { exits = e.exits; stops = e.stops; waits = e.waits; out_of_steps = e.out_of_steps } };
}

impl Ended {
    pub fn new(alloc: Global) -> Ended
        ensures { result ≡ spec.nothing.ended }
    {
        Ended {
            exits: Kinds::new(alloc),
            stops: Kinds::new(alloc),
            waits: Kinds::new(alloc),
            out_of_steps: 0,
        }
    }

    /// The codes that harts exited with.
    pub fn exits(&self) -> &Kinds
        ensures { result.now ≡ self.now.exits }
    {
        &self.exits
    }

    /// The causes that harts were stopped for, and where.
    pub fn stops(&self) -> &Kinds
        ensures { result.now ≡ self.now.stops }
    {
        &self.stops
    }

    /// Where harts polled for ever, and those that were parked.
    pub fn waits(&self) -> &Kinds
        ensures { result.now ≡ self.now.waits }
    {
        &self.waits
    }

    /// How many harts had no steps left.
    pub fn out_of_steps(&self) -> u64
        ensures { result ≡ self.now.out_of_steps }
    {
        self.out_of_steps
    }

    /// Counts how one more hart ended.
    fn add(&mut self, end: End) -> Result<(), NoMemory>
        ensures { OnOk result (self.new ≡ spec.ended_with self.old end) }
    {
        match end.way() {
            Way::Exit => self.exits.add(end)?,
            Way::Trap => self.stops.add(end)?,
            Way::Wait => self.waits.add(end)?,
            Way::Spent => self.out_of_steps = self.out_of_steps.saturating_add(1),
        }
        Ok(())
    }

    /// Counts how the harts of one more run ended. Where growth is refused, some are counted.
    pub fn add_all(&mut self, ends: &[End]) -> Result<(), NoMemory>
        ensures { OnOk result (self.new ≡ spec.all_ended self.old ends.now) }
    {
        for end in ends {
            self.add(*end)?;
        }
        Ok(())
    }
}
