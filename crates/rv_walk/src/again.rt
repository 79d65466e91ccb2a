//! A walk gone over again, so that probes begin in its middle.
ghost use Rattle.std.specs.Prelude.{◌≡◌, ◌+◌, ◌<◌, ◌≤◌, ◌^◌, IfOk, OnOk, length};
ghost use Rattle.rv_collide.specs.Numbers.{numbers};
ghost use Rattle.rv_walk.specs.Again.{IsForkAt};

use rv_collide::detector::Detector;
use rv_collide::entry::Entry;
use rv_collide::plan::Plan;
use rv_hart::laws::what_no_step_does;
use rv_hart::machine::{Machine, OUTPUT_LIMIT};
use rv_memory::store::{ByteStore, Fork, NoMemory};
use rv_stuck::{StuckEnd, stuck_end};
use std::alloc::Global;
use std::marker::Model;
use std::snapshot::Snapshot;

/// A machine that makes the steps of a walk again, up to a place. To contracts it is the walk's list, with the state that it
/// began at, and the place.
#[derive(Drop)]
pub struct Again<'a, S: Fork> {
    begin: Snapshot<Machine<S>>,
    harts: &'a [u8],
    machine: Machine<S>,
    place: u32,
}

impl<'a, S: Fork> Model for Again<'a, S> {
    ghost use Rattle.rv_walk.specs.Again.{Gone};
    ghost use Rattle.rv_walk.specs.internal.Going.{IsGoing};

    ghost Value = { Gone };

    ghost view = { λ a. record { start = a.begin.value.state; harts = a.harts.now; place = a.place } };

    ghost invariant = { λ a. IsGoing (record { start = a.begin.value.state; harts = a.harts.now; place = a.place }) a.machine };
}

impl<'a, S: Fork> Again<'a, S> {
    /// From the machine that the walk began at, with room to print a byte at each of its steps.
    pub fn begin(machine: Machine<S>, harts: &'a [u8]) -> Again<'a, S>
        requires { length machine.state.output + length harts.now ≤ machine.limit }
        ensures { result ≡ record { start = machine.state; harts = harts.now; place = 0 } }
    {
        Again {
            begin: Snapshot::of(&machine),
            harts,
            machine,
            place: 0,
        }
    }

    /// How many of the walk's steps have been made again.
    pub fn place(&self) -> u32
        ensures place { result ≡ self.now.place }
        ensures within { result ≤ length self.now.harts }
    {
        self.place
    }

    /// How many steps the walk has, as far as a place can be a number of 32 bits.
    pub fn steps(&self) -> u32
        ensures { result ≤ length self.now.harts }
    {
        u32::try_from(self.harts.len()).unwrap_or(0)
    }

    /// A detector that goes on from the state at a place of the walk, where it has not come past that.
    pub fn fork_at(
        &mut self,
        alloc: Global,
        place: u32,
        plan: Plan,
    ) -> Result<Detector<S>, NoMemory>
        requires ahead { self.old.place ≤ place }
        requires within { place ≤ length self.old.harts }
        requires harts { length self.old.start.harts ≡ plan.harts }
        requires room { length self.old.start.output + place + plan.steps ≤ OUTPUT_LIMIT }
        ensures walk { self.new ≡ record self.old { place = self.new.place } }
        ensures there { OnOk result (self.new.place ≡ place) }
        ensures fork { IfOk result (IsForkAt self.old.start self.old.harts place (numbers plan)) }
    {
        self.go_to(place)?;
        let printed = self.machine.output().len() as u32;
        let machine = self.machine.share(printed + plan.steps)?;
        Detector::begin(alloc, machine, plan)
    }

    /// The machine behind so many of the entries of a part that begins where the walk has been gone over to, with room to print a byte at
    /// each of them all; none where a machine may not print as much.
    pub fn machine_behind(
        &mut self,
        entries: &[Entry],
        count: usize,
    ) -> Result<Option<Machine<S>>, NoMemory>
        ensures { self.new ≡ self.old }
    {
        let printed = self.machine.output().len();
        let limit = printed
            .saturating_add(entries.len())
            .min(OUTPUT_LIMIT as usize);
        // No machine has printed more.
        if printed > limit {
            return Ok(None);
        }
        let mut machine = self.machine.share(limit as u32)?;
        make_steps(&mut machine, &entries[..count.min(entries.len())])?;
        Ok(Some(machine))
    }

    /// What each hart does behind such entries from where the walk has been gone over to, where all that run are seen to wait then.
    pub fn stuck_behind(
        &mut self,
        alloc: Global,
        entries: &[Entry],
    ) -> Result<Option<StuckEnd>, NoMemory>
        ensures { self.new ≡ self.old }
    {
        match self.machine_behind(entries, entries.len())? {
            Some(mut machine) => stuck_end(alloc, &mut machine),
            None => Ok(None),
        }
    }

    /// Makes the steps before a place.
    fn go_to(&mut self, place: u32) -> Result<(), NoMemory>
        requires ahead { self.old.place ≤ place }
        requires within { place ≤ length self.old.harts }
        ensures walk { self.new ≡ record self.old { place = self.new.place } }
        ensures there { OnOk result (self.new.place ≡ place) }
    {
        while self.place < place {
            self.step()?;
        }
        Ok(())
    }

    /// Makes the next step.
    fn step(&mut self) -> Result<(), NoMemory>
        requires ahead { self.old.place < length self.old.harts }
        requires small { self.old.place + 1 < 2 ^ 32 }
        ensures walk { self.new ≡ record self.old { place = self.new.place } }
        ensures next { OnOk result (self.new.place ≡ self.old.place + 1) }
    {
        what_no_step_does();
        let h = self.harts[self.place as usize];
        // A hart that stepped in the walk steps here, where memory is not refused.
        if self.machine.step(h).is_err() {
            return Err(NoMemory);
        }
        self.place += 1;
        Ok(())
    }
}

/// Makes the steps that are among entries.
fn make_steps<S: ByteStore>(machine: &mut Machine<S>, entries: &[Entry]) -> Result<(), NoMemory> {
    for entry in entries {
        let Entry::Stepped(h) = *entry else {
            continue;
        };
        // A hart that stepped in the probe steps here, where memory is not refused.
        if machine.step(h).is_err() {
            return Err(NoMemory);
        }
    }
    Ok(())
}
