//! Looking at other places of a schedule while the session stays at its own.
ghost use Rattle.std.specs.Prelude.{◌≡◌, ◌+◌, ◌<◌, ◌≤◌, IfOk, OnOk, length};
ghost use Rattle.rv_collide.specs.Made.{made};
ghost use Rattle.rv_debug.specs.Placed.{moved, setting};
ghost use Rattle.rv_debug.specs.Visited.{IsVisit};

use crate::checkpoints::machine_at;
use crate::session::Session;
use rv_collide::walk_laws::steps_of_legal_schedules;
use rv_hart::access::Access;
use rv_hart::machine::Machine;
use rv_memory::paged::Paged;
use rv_memory::store::NoMemory;
use std::marker::Model;

/// A second machine of a session, at a place of its schedule. To contracts it is the place and the machine.
#[derive(Drop)]
pub struct Visit {
    place: u32,
    machine: Machine<Paged>,
}

impl Model for Visit {
    ghost use Rattle.rv_debug.specs.Visited.{Visited};

    ghost Value = { Visited };

    ghost view = { λ v. record { place = v.place; machine = v.machine } };
}

impl Visit {
    /// The place.
    pub fn place(&self) -> u32
        ensures { result ≡ self.now.place }
    {
        self.place
    }

    /// The machine there.
    pub fn machine(&self) -> &Machine<Paged>
        ensures { result.now ≡ self.now.machine }
    {
        &self.machine
    }
}

impl Session {
    /// A visit of the session's own place. It takes no step.
    pub fn visit_here(&mut self) -> Result<Visit, NoMemory>
        ensures ok { IfOk result (λ visit. IsVisit self.old self.old.place visit) }
        ensures same { self.new ≡ self.old }
    {
        steps_of_legal_schedules();
        self.schedule.facts();
        let machine = self.machine.share(self.schedule.steps())?;
        Ok(Visit {
            place: self.place,
            machine,
        })
    }

    /// A visit of a place, by the entries from the nearest checkpoint on: at most 1,023 of them.
    pub fn visit(&mut self, n: u32) -> Result<Visit, NoMemory>
        requires { n ≤ length self.old.entries }
        ensures ok { IfOk result (λ visit. IsVisit self.old n visit) }
        ensures same { self.new ≡ self.old }
    {
        let machine = machine_at(&self.schedule, &mut self.checkpoints, n)?;
        Ok(Visit { place: n, machine })
    }

    /// A visit goes on by the entry at its place. What that accessed, if it is a step that did.
    pub fn pass_on(&self, visit: &mut Visit) -> Result<Option<Access>, NoMemory>
        requires here { IsVisit self.now visit.old.place visit.old }
        requires before { visit.old.place < length self.now.entries }
        ensures after { OnOk result (IsVisit self.now (visit.old.place + 1) visit.new) }
        ensures access { IfOk result (λ access. access ≡ made (setting self.now).start self.now.entries visit.old.place) }
    {
        let _count = self.schedule.count();
        let access = self.schedule.advance(&mut visit.machine, visit.place)?;
        visit.place += 1;
        Ok(access)
    }

    /// The session goes to where a visit of it stands. It takes no step.
    pub fn settle(&mut self, visit: Visit)
        requires { IsVisit self.old visit.place visit }
        ensures { self.new ≡ moved self.old visit.place }
    {
        self.machine = visit.machine;
        self.place = visit.place;
    }
}
