//! A copy of a machine that goes on by itself.
ghost use Rattle.std.specs.Prelude.{◌≡◌, ◌+◌, ◌<◌, ◌≤◌, ◌-◌, ◌^◌, [], true, IfOk, IfNone, IfSome, OnOk, length};
ghost use Rattle.rv_hart.specs.Run.{run};
ghost use Rattle.rv_waits.specs.Stuck.{Runs};
ghost use Rattle.rv_waits.specs.Turn.{AllMayRest, IsNextFrom};
ghost use Rattle.rv_orders.specs.internal.Gone.{IsBurst, IsDriven, IsFar, IsOneMore};

use rv_hart::access::Event;
use rv_hart::laws::what_no_step_does;
use rv_hart::machine::{Machine, StepFault};
use rv_memory::store::{ByteStore, NoMemory};
use rv_sample::Generator;
use rv_waits::turn;
use rv_waits::watch::Watch;
use std::alloc::Global;
use std::marker::Model;
use std::snapshot::Snapshot;

/// The most turns of a burst.
const MOST_TURNS: u32 = 16;

/// A machine that runs without pauses, knows which of its harts wait, and keeps the list of the harts that stepped, and of the words
/// of memory that they wrote.
#[derive(Drop)]
pub(crate) struct Runner<S: ByteStore> {
    /// The machine as it was before the first step.
    begin: Snapshot<Machine<S>>,
    machine: Machine<S>,
    watch: Watch,
    most: u32,
    harts: Vec<u8>,
    written: Vec<u32>,
}

/// What a runner leaves.
#[derive(Drop)]
pub(crate) struct Left<S: ByteStore> {
    pub machine: Machine<S>,
    pub harts: Vec<u8>,
    pub written: Vec<u32>,
}

impl<S: ByteStore> Model for Runner<S> {
    ghost use Rattle.rv_orders.specs.internal.Gone.{Gone, IsGone};

    ghost Value = { Gone };

    ghost view = { λ r. record { start = r.begin.value.state; harts = r.harts.items; state = r.machine.state; most = r.most } };

    ghost invariant = { λ r. IsGone
        (record { start = r.begin.value.state; harts = r.harts.items; state = r.machine.state; most = r.most })
        r.machine r.watch };
}

impl<S: ByteStore> Runner<S> {
    /// From where a machine stands, for so many steps at most, with room to print a byte at each.
    pub(crate) fn begin(
        alloc: Global,
        machine: Machine<S>,
        most: u32,
    ) -> Result<Runner<S>, NoMemory>
        requires { length machine.state.output + most ≤ machine.limit }
        ensures { IfOk result (λ runner. runner ≡ record {
          start = machine.state;
          harts = [];
          state = machine.state;
          most = most;
        }) }
    {
        let watch = Watch::new(alloc, &machine)?;
        Ok(Runner {
            begin: Snapshot::of(&machine),
            machine,
            watch,
            most,
            harts: Vec::new(alloc),
            written: Vec::new(alloc),
        })
    }

    /// How many steps it may still make.
    fn left(&self) -> u32
        ensures left { result ≡ self.now.most - length self.now.harts }
        ensures within { length self.now.harts ≤ self.now.most }
        ensures small { self.now.most < 2 ^ 32 }
    {
        self.most - self.harts.len() as u32
    }

    /// Whether a hart runs and isn't seen to wait.
    #[inline(always)]
    fn goes(&self, h: u8) -> bool
        ensures { result ≡ true → Runs self.now.state h }
    {
        turn::goes(&self.machine, &self.watch, h)
    }

    /// The first hart from a number on, in a circle, that runs and isn't seen to wait.
    fn next_from(&self, from: u32) -> Option<u8>
        ensures next { IfSome result (IsNextFrom self.now.state from) }
        ensures none { IfNone result (AllMayRest self.now.state) }
    {
        turn::next_from(&self.machine, &self.watch, from)
    }

    /// Goes on by the words of the trial of that number, until no hart may go, or its steps are made. Whether no hart may. A word picks the
    /// hart from whose number on the next is looked for, and the next word how many turns its burst has.
    pub(crate) fn go(&mut self, number: u32) -> Result<bool, NoMemory>
        ensures driven { OnOk result (IsDriven self.old self.new number) }
        ensures far { IfOk result (IsFar self.new) }
    {
        let mut words = Generator::new(0, u64::from(number));
        'bursts: loop {
            let left = self.left();
            let Some(h) = self.next_from(words.next()) else {
                return Ok(true);
            };
            if left == 0 {
                return Ok(false);
            }
            let turns = 1 + words.next() % MOST_TURNS;
            self.burst(h, turns)?;
        }
    }

    /// Turns of a hart that runs, one at least: so many, fewer where it ends or is seen to wait, or where all steps are made.
    fn burst(&mut self, h: u8, turns: u32) -> Result<(), NoMemory>
        requires runs { Runs self.old.state h }
        requires left { length self.old.harts < self.old.most }
        requires some { 1 ≤ turns }
        ensures { OnOk result (IsBurst self.old self.new h turns) }
    {
        for _ in 0..turns {
            self.step(h)?;
            if self.left() == 0 || !self.goes(h) {
                return Ok(());
            }
        }
        Ok(())
    }

    /// One step of a hart that runs.
    #[inline(always)]
    pub(crate) fn step(&mut self, h: u8) -> Result<(), NoMemory>
        requires runs { Runs self.old.state h }
        requires left { length self.old.harts < self.old.most }
        ensures { OnOk result (IsOneMore self.old self.new h) }
    {
        what_no_step_does();
        self.harts.reserve(1)?;
        let event = match self.watch.step(&mut self.machine, h) {
            Ok(event) => event,
            Err(fault) => return Err(memory_of(fault)),
        };
        self.harts.push_reserved(h);
        note(&mut self.written, event)
    }

    /// Hands out what it leaves. Its steps lead to its state.
    pub(crate) fn finish(self) -> Left<S>
        ensures harts { result.harts.items ≡ self.harts }
        ensures state { result.machine.state ≡ self.state }
        ensures leads { run self.start self.harts ≡ Some self.state }
        ensures few { length self.harts ≤ self.most }
    {
        Left {
            machine: self.machine,
            harts: self.harts,
            written: self.written,
        }
    }
}

/// The aligned word that a step wrote is noted, once in a row. An access lies in one.
#[inline(always)]
fn note(written: &mut Vec<u32>, event: Event) -> Result<(), NoMemory> {
    if let Event::Moved(Some(access)) = event {
        let word = access.first / 4;
        if access.write && written.last() != Some(&word) {
            written.push(word)?;
        }
    }
    Ok(())
}

/// Want of memory, where no other fault is left.
fn memory_of(fault: StepFault) -> NoMemory
    requires { fault ≡ StepFault.NoMemory }
{
    match fault {
        StepFault::NoMemory => NoMemory,
        StepFault::NoHart | StepFault::NotRunning | StepFault::OutputFull => unreachable!(),
    }
}
