//! A legal schedule, through which a machine goes without the core.
ghost use Rattle.std.specs.Prelude.{◌≡◌, ◌+◌, ◌^◌, ◌<◌, ◌≤◌, [], Some, IfOk, OnOk, OnErr, length, slice_get};
ghost use Rattle.rv_collide.specs.Legal.{IsLegal};
ghost use Rattle.rv_collide.specs.Made.{made};
ghost use Rattle.rv_collide.specs.Numbers.{numbers};
ghost use Rattle.rv_collide.specs.Stored.{setting_of, stored};
ghost use Rattle.rv_debug.specs.internal.Session.{StandsAt};
ghost use Rattle.rv_hart.specs.NextAccess.{accessed};

use rv_collide::entry::Entry;
use rv_collide::plan::Plan;
use rv_collide::walk_laws::steps_of_legal_schedules;
use rv_elf::Image;
use rv_hart::access::{Access, Event};
use rv_hart::laws::what_no_step_does;
use rv_hart::machine::{Machine, StepFault};
use rv_memory::paged::Paged;
use rv_memory::store::NoMemory;
use std::marker::Model;
use std::snapshot::Snapshot;

/// The legal schedule of an image and a plan. The image is remembered for contracts alone, without its bytes.
#[derive(Drop)]
pub(crate) struct Schedule {
    image: Snapshot<Image>,
    plan: Plan,
    entries: Vec<Entry>,
    count: u32,
}

impl Model for Schedule {
    ghost use Rattle.std.specs.Prelude.{◌≡◌, length};
    ghost use Rattle.rv_collide.specs.Legal.{IsLegal};
    ghost use Rattle.rv_collide.specs.Numbers.{numbers};
    ghost use Rattle.rv_collide.specs.Stored.{Stored, setting_of, stored};

    ghost Value = { Stored };

    ghost view = { λ s. stored s.image.value (numbers s.plan) s.entries.items };

    ghost invariant = { λ s. IsLegal (setting_of (stored s.image.value (numbers s.plan) s.entries.items)) s.entries.items
        × (s.count ≡ length s.entries.items) };
}

impl Schedule {
    pub(crate) fn new(image: &Image, plan: Plan, entries: Vec<Entry>, count: u32) -> Schedule
        requires legal { IsLegal (setting_of (stored image.now (numbers plan) [])) entries.items }
        requires counted { count ≡ length entries.items }
        ensures { result ≡ stored image.now (numbers plan) entries.items }
    {
        Schedule {
            image: Snapshot::of(image),
            plan,
            entries,
            count,
        }
    }

    /// What holds of each: it is legal, and a word counts its entries.
    pub(crate) fn facts(&self)
        ensures legal { IsLegal (setting_of self.now) self.now.entries }
        ensures few { length self.now.entries < 2 ^ 32 }
    {
        let _count = self.count;
    }

    /// Its entries.
    pub(crate) fn entries(&self) -> &[Entry]
        ensures { result.now ≡ self.now.entries }
    {
        self.entries.as_slice()
    }

    /// How many entries there are.
    pub(crate) fn count(&self) -> u32
        ensures { result ≡ length self.now.entries }
    {
        self.count
    }

    /// Its plan.
    pub(crate) fn plan(&self) -> Plan
        ensures { numbers result ≡ self.now.plan }
    {
        self.plan
    }

    /// How many steps the plan allows.
    pub(crate) fn steps(&self) -> u32
        ensures value { result ≡ self.now.plan.steps }
        ensures within { result ≤ 1_000_000 }
    {
        self.plan.steps
    }

    /// Goes on by the entry of a place. What it accessed, if it is a step that did. Where memory is refused the machine
    /// stays.
    pub(crate) fn advance(
        &self,
        machine: &mut Machine<Paged>,
        place: u32,
    ) -> Result<Option<Access>, NoMemory>
        requires within { place < length self.now.entries }
        requires here { StandsAt self.now place machine.old }
        ensures after { OnOk result (StandsAt self.now (place + 1) machine.new) }
        ensures access { IfOk result (λ access. access ≡ made (setting_of self.now).start self.now.entries place) }
        ensures refused { OnErr result (machine.new ≡ machine.old) }
    {
        steps_of_legal_schedules();
        match self.entries[place as usize] {
            Entry::Stepped(h) => self.step(machine, place, h),
            _ => Ok(None),
        }
    }

    /// Makes the step of a hart, which is the entry of the place.
    fn step(
        &self,
        machine: &mut Machine<Paged>,
        place: u32,
        h: u8,
    ) -> Result<Option<Access>, NoMemory>
        requires there { slice_get self.now.entries place ≡ Some (Entry.Stepped h) }
        requires here { StandsAt self.now place machine.old }
        ensures after { OnOk result (StandsAt self.now (place + 1) machine.new) }
        ensures access { IfOk result (λ access. access ≡ made (setting_of self.now).start self.now.entries place) }
        ensures refused { OnErr result (machine.new ≡ machine.old) }
    {
        steps_of_legal_schedules();
        what_no_step_does();
        self.facts();
        match machine.step(h) {
            Ok(event) => Ok(accessed(event)),
            Err(fault) => Err(refused(fault)),
        }
    }

    /// Goes on from a place to a later one. Where memory is refused the machine stands at some place between.
    pub(crate) fn walk(
        &self,
        machine: &mut Machine<Paged>,
        from: u32,
        to: u32,
    ) -> Result<(), NoMemory>
        requires forwards { from ≤ to }
        requires within { to ≤ length self.now.entries }
        requires here { StandsAt self.now from machine.old }
        ensures { OnOk result (StandsAt self.now to machine.new) }
    {
        for place in from..to {
            let _access = self.advance(machine, place)?;
        }
        Ok(())
    }
}

/// Want of memory is the one fault of a step that is a legal schedule's.
fn refused(_fault: StepFault) -> NoMemory
    requires { _fault ≡ StepFault.NoMemory }
{
    NoMemory
}

fn accessed(event: Event) -> Option<Access>
    ensures { result ≡ accessed event }
{
    match event {
        Event::Moved(access) => access,
        Event::Exited(_) | Event::Stopped(_) => None,
    }
}
