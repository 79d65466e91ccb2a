//! The core: what detects races from an image's start on, and the stored schedule of the calls that it accepted.
ghost use Rattle.std.specs.Prelude.{◌≡◌, ◌<◌, [], ◌==◌, Err, ◌≤◌, Some, IfOk, IfErr, OnErr, length, slice_get, option_map, is_some};
ghost use Rattle.std.specs.FinSet as set;
ghost use Rattle.rv_collide.specs.Answers as answer;
ghost use Rattle.rv_collide.specs.Armed.{armed};
ghost use Rattle.rv_collide.specs.Forced.{forced, Resume, Arm, Disarm};
ghost use Rattle.rv_collide.specs.Next.{runs_at};
ghost use Rattle.rv_collide.specs.Numbers.{numbers};
ghost use Rattle.rv_collide.specs.Pause.{only_hart, opening_of, openings};
ghost use Rattle.rv_collide.specs.StateAt.{state_at};
ghost use Rattle.rv_collide.specs.Stored.{setting_of, stored};
ghost use Rattle.rv_collide.specs.Verdict.{endings};
ghost use Rattle.rv_hart.specs.State.{start as first_state};

use crate::detector::Detector;
use crate::ending::Ending;
use crate::entry::Entry;
use crate::laws::schedules;
use crate::plan::Plan;
use crate::refused::Refused;
use rv_elf::Image;
use rv_hart::access::Event;
use rv_hart::machine::{MOST_HARTS, Machine, OUTPUT_LIMIT};
use rv_memory::store::{ByteStore, MemFault, NoMemory};
use std::alloc::Global;
use std::marker::Model;
use std::snapshot::Snapshot;

mod again;
mod forking;
mod quick;
mod sharing;

/// What an accepted turn was: a step of the hart, or its pause with the slot that watches it, if one was
/// free.
#[derive(Clone, Copy)]
pub enum Turned {
    Stepped(Event),
    Paused(Option<u8>),
}

/// A detector that begins at an image's start. To contracts it is its stored schedule alone, with its image and its plan: all
/// else follows from them.
#[derive(Drop)]
pub struct Collider<S: ByteStore> {
    image: Snapshot<Image>,
    detector: Detector<S>,
}

/// What a run leaves.
#[derive(Drop)]
pub struct Finished {
    pub plan: Plan,
    pub entries: Vec<Entry>,
    pub endings: Vec<Ending>,
    pub output: Vec<u8>,
}

impl<S: ByteStore> Model for Collider<S> {
    ghost use Rattle.std.specs.Prelude.{◌≡◌};
    ghost use Rattle.rv_collide.specs.Stored.{Stored, stored};
    ghost use Rattle.rv_hart.specs.State.{start as first_state};

    ghost Value = { Stored };

    ghost view = { λ c. stored c.image.value c.detector.plan c.detector.entries };

    ghost invariant = { λ c.
        c.detector.start ≡ first_state c.image.value.segments c.image.value.entry c.detector.plan.harts };
}

impl<S: ByteStore> Collider<S> {
    /// A machine of the image with the plan's harts, all at the entry. Room is made for all that the plan
    /// allows: `steps + 4 * arms` entries, `arms` endings, `steps` bytes of output.
    pub fn new(alloc: Global, image: &Image, plan: Plan) -> Result<Collider<S>, NoMemory>
        ensures { IfOk result (λ c. c ≡ stored image.now (numbers plan) []) }
    {
        let machine = machine_of(alloc, image, plan.harts, plan.steps)?;
        Ok(Collider {
            image: Snapshot::of(image),
            detector: Detector::begin(alloc, machine, plan)?,
        })
    }

    /// What holds of each core: its schedule is legal, no longer than its plan allows, and has a state at
    /// its end; its harts' reservations are held by what was done before; each of its reports names a
    /// conflicting access of another hart within the pause.
    pub fn facts(&self)
        ensures { answer.AreFacts self.now }
    {
        self.detector.facts();
        schedules();
    }

    /// One turn of a hart: a pause where it stands at an armed address and would make a plain load or
    /// store, else one step.
    #[inline(always)]
    pub fn turn(&mut self, h: u8) -> Result<Turned, Refused>
        ensures ok { IfOk result (λ turned. answer.Turns self.old self.new h turned) }
        ensures err { IfErr result (λ fault. answer.IsRefusedTurn self.old h fault S.can_refuse) }
        ensures refused { OnErr result (self.new ≡ self.old) }
    {
        self.detector.turn(h)
    }

    /// Ends the pause of a hart.
    pub fn resume(&mut self, h: u8) -> Result<Ending, Refused>
        ensures ok { IfOk result (λ ending. answer.Resumes self.old self.new h ending) }
        ensures err { IfErr result (λ fault. forced (setting_of self.old) self.old.entries (Resume h) ≡ Err fault) }
        ensures refused { OnErr result (self.new ≡ self.old) }
    {
        self.detector.resume(h)
    }

    /// Arms an address.
    pub fn arm(&mut self, pc: u32) -> Result<(), Refused>
        ensures ok { IfOk result (λ _. answer.Adds self.old self.new (Arm pc) (Entry.Armed pc)) }
        ensures err { IfErr result (λ fault. forced (setting_of self.old) self.old.entries (Arm pc) ≡ Err fault) }
        ensures refused { OnErr result (self.new ≡ self.old) }
    {
        self.detector.arm(pc)
    }

    /// Disarms an address.
    pub fn disarm(&mut self, pc: u32) -> Result<(), Refused>
        ensures ok { IfOk result (λ _. answer.Adds self.old self.new (Disarm pc) (Entry.Disarmed pc)) }
        ensures err { IfErr result (λ fault. forced (setting_of self.old) self.old.entries (Disarm pc) ≡ Err fault) }
        ensures refused { OnErr result (self.new ≡ self.old) }
    {
        self.detector.disarm(pc)
    }

    /// The machine as it is now.
    pub fn machine(&self) -> &Machine<S>
        ensures { state_at (setting_of self.now).start self.now.entries (length self.now.entries) ≡ Some result.now.state }
    {
        self.detector.machine()
    }

    /// The plan.
    pub fn plan(&self) -> Plan
        ensures { numbers result ≡ self.now.plan }
    {
        self.detector.plan()
    }

    /// How many entries the stored schedule has.
    pub fn entries(&self) -> u32
        ensures { result ≡ length self.now.entries }
    {
        self.detector.entries()
    }

    /// An entry of the stored schedule.
    pub fn entry(&self, n: u32) -> Entry
        requires { n < length self.now.entries }
        ensures { slice_get self.now.entries n ≡ Some result }
    {
        self.detector.entry(n)
    }

    /// How many pauses have ended.
    pub fn endings(&self) -> u32
        ensures { result ≡ length (endings (setting_of self.now).start self.now.entries) }
    {
        self.detector.endings()
    }

    /// The ending of a pause, in the order in which they ended.
    pub fn ending(&self, n: u32) -> Ending
        requires { n < length (endings (setting_of self.now).start self.now.entries) }
        ensures { slice_get (endings (setting_of self.now).start self.now.entries) n ≡ Some result }
    {
        self.detector.ending(n)
    }

    /// Whether a hart runs.
    #[inline(always)]
    pub fn runs(&self, h: u8) -> bool
        requires { h < self.now.plan.harts }
        ensures { result ≡ runs_at (setting_of self.now).start self.now.entries (length self.now.entries) h }
    {
        self.detector.runs(h)
    }

    /// Whether no hart is paused.
    #[inline(always)]
    pub fn none_paused(&self) -> bool
        ensures { result ≡ (length (openings self.now.entries) == 0) }
    {
        self.detector.none_paused()
    }

    /// The hart that is paused, where one is and no other.
    #[inline(always)]
    pub fn only_paused(&self) -> Option<u8>
        ensures { result ≡ only_hart (openings self.now.entries) }
    {
        self.detector.only_paused()
    }

    /// The place of a hart's open pause.
    pub fn paused(&self, h: u8) -> Option<u32>
        ensures { result ≡ option_map (λ o. o.place) (opening_of self.now.entries h) }
    {
        self.detector.paused(h)
    }

    /// Whether a hart is paused.
    pub fn is_paused(&self, h: u8) -> bool
        ensures { result ≡ is_some (opening_of self.now.entries h) }
    {
        self.detector.is_paused(h)
    }

    /// Whether the address is armed.
    pub fn is_armed(&self, pc: u32) -> bool
        ensures { result ≡ set.contains (armed (setting_of self.now).start self.now.entries) pc }
    {
        self.detector.is_armed(pc)
    }

    /// Hands out what the run leaves.
    pub fn finish(self) -> Finished
        ensures plan { numbers result.plan ≡ self.plan }
        ensures entries { result.entries.items ≡ self.entries }
        ensures endings { result.endings.items ≡ endings (setting_of self).start self.entries }
        ensures output { answer.IsOutput self result.output.items }
    {
        self.detector.finish()
    }
}

/// The machine of an image as it begins, with so many harts (1 to 16), which may print so many bytes (up to 1,000,000). What an
/// image is leaves no fault but want of memory.
pub fn machine_of<S: ByteStore>(
    alloc: Global,
    image: &Image,
    harts: u8,
    limit: u32,
) -> Result<Machine<S>, NoMemory>
    requires some { 1 ≤ harts }
    requires within { harts ≤ MOST_HARTS }
    requires limit { limit ≤ OUTPUT_LIMIT }
    ensures state { IfOk result (λ m. m.state ≡ first_state image.now.segments image.now.entry harts) }
    ensures limit { IfOk result (λ m. m.limit ≡ limit) }
{
    let segments = image.segments();
    match Machine::new(alloc, segments, image.entry(), harts, limit) {
        Ok(machine) => Ok(machine),
        Err(fault) => Err(no_memory(fault)),
    }
}

/// Want of memory, where no other fault is left.
fn no_memory(fault: MemFault) -> NoMemory
    requires { fault ≡ MemFault.NoMemory }
{
    match fault {
        MemFault::NoMemory => NoMemory,
        MemFault::PastEnd | MemFault::Overlap | MemFault::TooLarge => unreachable!(),
    }
}
