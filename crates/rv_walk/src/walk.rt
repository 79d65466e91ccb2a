//! A walk, burst by burst.
ghost use Rattle.std.specs.Prelude.{◌≡◌, ◌+◌, ◌-◌, ◌^◌, ◌<◌, ◌≤◌, [], true, false, IsTrue, IfOk, OnErr, OnOk, IfSome, IfNone, Some, length, ◌⊎◌, ℕ};
ghost use Rattle.rv_hart.specs.Run.{run};
ghost use Rattle.rv_hart.specs.State.{State};
ghost use Rattle.rv_stuck.specs.StuckEnd.{IsStuckEnd};
ghost use Rattle.rv_waits.specs.Stuck.{Runs};
ghost use Rattle.rv_walk.specs.Burst.{AllMayRest, IsNextFrom, IsShortened, MayRest, longer};
ghost use Rattle.rv_walk.specs.Rounds.{IsPolled};
ghost use Rattle.rv_walk.specs.NearPair.{IsNearPair};
ghost use Rattle.rv_walk.specs.Told.{AreTold};
ghost use Rattle.rv_walk.specs.Walked.{IsAt};

use crate::accesses::Accesses;
use crate::code::Executed;
use crate::near_pair::NearPair;
use crate::sites::Sites;
use rv_break::claim::Seen;
use rv_hart::access::Event;
use rv_hart::laws::{reservations_and_accesses, what_no_step_does};
use rv_hart::machine::{Machine, StepFault};
use rv_memory::store::{ByteStore, Fork, NoMemory};
use rv_stuck::{StuckEnd, stuck_end};
use rv_waits::round::Round;
use rv_waits::turn;
use rv_waits::watch::Watch;
use std::alloc::Global;
use std::marker::Model;
use std::snapshot::Snapshot;

/// A machine that runs without pauses, with the list of the harts that stepped, and the near pairs that it has seen. To contracts it is
/// that list, with the state that it began at: all else follows from them.
#[derive(Drop)]
pub struct Walk<'a, S: ByteStore> {
    /// The machine as it was before the first step.
    begin: Snapshot<Machine<S>>,
    sites: &'a Sites,
    most: u32,
    machine: Machine<S>,
    watch: Watch,
    harts: Vec<u8>,
    accesses: Accesses,
    executed: Executed<'a>,
}

/// What a walk leaves: the harts that stepped, in their order, its near pairs, and the numbers of the words of code that it
/// executed beside those that were counted before.
#[derive(Drop)]
pub struct WalkLeft {
    pub harts: Vec<u8>,
    pub pairs: Vec<NearPair>,
    pub words: Vec<u32>,
}

impl<'a, S: ByteStore> Model for Walk<'a, S> {
    ghost use Rattle.rv_walk.specs.Walked.{Walked};
    ghost use Rattle.rv_walk.specs.internal.Inside.{IsInside};

    ghost Value = { Walked };

    ghost view = { λ w. record { start = w.begin.value.state; harts = w.harts.items; most = w.most; sites = w.sites.now } };

    ghost invariant = { λ w. IsInside
        (record { start = w.begin.value.state; harts = w.harts.items; most = w.most; sites = w.sites.now })
        w.machine w.watch w.harts w.accesses };
}

impl<'a, S: ByteStore> Walk<'a, S> {
    /// A walk from where a machine stands, of so many steps at most, with room to print a byte at each. Its room is made here, but for
    /// that of the accesses that it keeps and of the words that it executes.
    pub fn begin(
        alloc: Global,
        machine: Machine<S>,
        most: u32,
        sites: &'a Sites,
        executed: Executed<'a>,
    ) -> Result<Walk<'a, S>, NoMemory>
        requires { length machine.state.output + most ≤ machine.limit }
        ensures { IfOk result (λ walk. walk ≡ record {
          start = machine.state;
          harts = [];
          most = most;
          sites = sites.now;
        }) }
    {
        let watch = Watch::new(alloc, &machine)?;
        let harts = Vec::with_capacity(alloc, most as usize)?;
        let accesses = Accesses::new(alloc)?;
        Ok(Walk {
            begin: Snapshot::of(&machine),
            sites,
            most,
            machine,
            watch,
            harts,
            accesses,
            executed,
        })
    }

    /// What holds of each walk: its steps lead to a state.
    pub fn facts(&self)
        ensures { (end : State) × (run self.now.start self.now.harts ≡ Some end) }
    {
        let _ = &self.begin;
    }

    /// The machine as it is now.
    pub fn machine(&self) -> &Machine<S>
        ensures { IsAt self.now result.now.state }
    {
        &self.machine
    }

    /// The harts that stepped, in their order.
    pub fn harts(&self) -> &[u8]
        ensures { result.now ≡ self.now.harts }
    {
        &self.harts
    }

    /// How many steps it may still make.
    pub fn left(&self) -> u32
        ensures left { result ≡ self.now.most - length self.now.harts }
        ensures within { length self.now.harts ≤ self.now.most }
        ensures small { self.now.most < 2 ^ 32 }
    {
        self.most - self.harts.len() as u32
    }

    /// Whether a hart runs and isn't seen to wait. One that waits may be seen to some steps later.
    pub fn goes(&self, h: u8) -> bool
        ensures runs { result ≡ true → (s : State) → IsAt self.now s → Runs s h }
        ensures rests { result ≡ false → (s : State) → IsAt self.now s → MayRest s h }
    {
        turn::goes(&self.machine, &self.watch, h)
    }

    /// The round of a hart that runs and is seen to wait.
    pub fn round(&self, h: u8) -> Option<Round>
        ensures { IfSome result (λ round. (s : State) → IsAt self.now s → IsPolled s h round) }
    {
        if self.machine.runs(h) {
            self.watch.round(&self.machine, h)
        } else {
            None
        }
    }

    /// The first hart from a number on, in a circle, that runs and isn't seen to wait.
    pub fn next_from(&self, from: u32) -> Option<u8>
        ensures next { IfSome result (λ h. (s : State) → IsAt self.now s → IsNextFrom s from h) }
        ensures none { IfNone result ((s : State) → IsAt self.now s → AllMayRest s) }
    {
        turn::next_from(&self.machine, &self.watch, from)
    }

    /// Turns of a hart that runs, one at least: so many, fewer where it ends or is seen to wait. How many it made. Where memory is
    /// refused it has made some, none maybe, and the walk may go on.
    pub fn burst(&mut self, h: u8, most: u32) -> Result<u32, NoMemory>
        requires runs { (s : State) → IsAt self.old s → Runs s h }
        requires some { 1 ≤ most }
        requires left { length self.old.harts + most ≤ self.old.most }
        ensures walk { IfOk result (λ turns. self.new ≡ longer self.old h turns) }
        ensures some { IfOk result (λ turns. 1 ≤ turns) }
        ensures within { IfOk result (λ turns. turns ≤ most) }
        ensures ends { IfOk result (λ turns. (turns ≡ most) ⊎ ((s : State) → IsAt self.new s → MayRest s h)) }
        ensures refused { OnErr result (IsShortened self.old self.new h most) }
    {
        for turn in 0..most {
            self.step(h)?;
            if !self.goes(h) {
                return Ok(turn + 1);
            }
        }
        Ok(most)
    }

    /// One step of a hart that runs.
    #[inline(always)]
    fn step(&mut self, h: u8) -> Result<(), NoMemory>
        requires runs { (s : State) → IsAt self.old s → Runs s h }
        requires left { length self.old.harts < self.old.most }
        ensures steps { OnOk result (self.new ≡ longer self.old h 1) }
        ensures refused { OnErr result (IsShortened self.old self.new h 1) }
    {
        self.mark(h)?;
        self.advance(h)
    }

    /// The word at the pc of a hart that runs is executed.
    #[inline(always)]
    fn mark(&mut self, h: u8) -> Result<(), NoMemory>
        requires { (s : State) → IsAt self.old s → Runs s h }
        ensures { self.new ≡ self.old }
    {
        self.executed.mark(self.machine.pc(h))
    }

    /// One step of a hart that runs, whose word was marked.
    #[inline(always)]
    fn advance(&mut self, h: u8) -> Result<(), NoMemory>
        requires runs { (s : State) → IsAt self.old s → Runs s h }
        requires left { length self.old.harts < self.old.most }
        ensures steps { OnOk result (self.new ≡ longer self.old h 1) }
        ensures refused { OnErr result (IsShortened self.old self.new h 1) }
    {
        what_no_step_does();
        reservations_and_accesses();
        let event = match self.watch.step(&mut self.machine, h) {
            Ok(event) => event,
            Err(fault) => return Err(memory_of(fault)),
        };
        let place = self.harts.len() as u32;
        self.harts.push_reserved(h);
        if let Event::Moved(Some(access)) = event {
            let seen = Seen {
                place,
                hart: h,
                access,
            };
            self.accesses.see(seen, self.sites)?;
        }
        Ok(())
    }

    /// Whether it has seen a near pair.
    pub fn has_near_pair(&self) -> bool
        ensures { IsTrue result → (pair : NearPair) × IsNearPair self.now pair }
    {
        !self.accesses.closest.is_empty()
    }

    /// Hands out what it leaves. Of the near pairs with the same two addresses that it saw the closest is told, and of equally close ones
    /// the first; it sees those whose first access is among the last `MOST_KEPT` of its word by different hart and instruction.
    pub fn finish(self, alloc: Global) -> Result<WalkLeft, NoMemory>
        ensures harts { IfOk result (λ left. left.harts.items ≡ self.entry.harts) }
        ensures pairs { IfOk result (λ left. AreTold self.entry left.pairs.items) }
    {
        let pairs = self.accesses.closest.sorted(alloc)?;
        Ok(WalkLeft {
            harts: self.harts,
            pairs,
            words: self.executed.into_new(),
        })
    }
}

impl<'a, S: Fork> Walk<'a, S> {
    /// What each hart does, where all that run are seen to wait.
    pub fn stuck_end(&mut self, alloc: Global) -> Result<Option<StuckEnd>, NoMemory>
        ensures same { self.new ≡ self.old }
        ensures stuck { IfOk result (λ end. IfSome end (λ it. (s : State) → IsAt self.old s → IsStuckEnd s it)) }
    {
        stuck_end(alloc, &mut self.machine)
    }
}

/// Want of memory, where no other fault is left.
fn memory_of(fault: StepFault) -> NoMemory
    requires { fault ≡ StepFault.NoMemory }
{
    match fault {
        StepFault::NoMemory => NoMemory,
        StepFault::NoHart | StepFault::NotRunning | StepFault::OutputFull => unreachable!(),
    }
}
