//! A session: a stored schedule at one of its places.
pub mod visit;

ghost use Rattle.std.specs.Prelude.{◌≡◌, ◌⊎◌, ◌↔◌, ◌+◌, ◌-◌, ◌<◌, ◌≤◌, [], Err, Some, None, IfOk, IfErr, IsSome, OnOk, OnErr, length, map};
ghost use Rattle.std.specs.String.{string_bytes};
ghost use Rattle.rv_collide.specs.Legal.{IsLegal};
ghost use Rattle.rv_collide.specs.Made.{made};
ghost use Rattle.rv_collide.specs.Numbers.{numbers};
ghost use Rattle.rv_collide.specs.Replays.{IsReplayFault};
ghost use Rattle.rv_collide.specs.Stored.{setting_of, stored};
ghost use Rattle.rv_collide.specs.Verdict.{endings};
ghost use Rattle.rv_hart.specs.State.{State};
ghost use Rattle.rv_debug.specs.Answers as answer;
ghost use Rattle.rv_debug.specs.Placed.{moved, placed, setting, state, SomeState};
ghost use Rattle.rv_debug.specs.declared.session.SessionFault.TheVariants as fault_is;

use crate::checkpoints::{Passed, machine_at, pass_over};
use crate::finding::next_touch;
use crate::hart_view::HartView;
use crate::listing::{has_lines, lines_of};
use crate::schedule::Schedule;
use crate::shown::{bytes_of, has_bytes, view_of};
use rv_collide::ending::Ending;
use rv_collide::entry::Entry;
use rv_collide::plan::Plan;
use rv_collide::replay::ReplayFault;
use rv_collide::walk_laws::steps_of_legal_schedules;
use rv_elf::Image;
use rv_hart::access::Access;
use rv_hart::machine::Machine;
use rv_memory::paged::Paged;
use rv_memory::store::NoMemory;
use std::alloc::Global;
use std::marker::Model;

/// Why a command is not answered. Each leaves the session at its place.
#[derive(Clone, Copy)]
pub enum SessionFault {
    /// There is no such place in the schedule.
    NoPlace = 1,
    /// There is no hart of the number.
    NoHart = 2,
    /// One of the bytes lies in no region or past the last address; or a listing is asked for from an
    /// address that is no multiple of 4.
    NoBytes = 3,
    /// No entry from the place on touches the byte.
    NotFound = 4,
    /// A growth was refused.
    NoMemory = 5,
}

impl From<NoMemory> for SessionFault {
    ghost from_gives = { λ _ fault. fault ≡ fault_is.NoMemory };

    fn from(_: NoMemory) -> SessionFault {
        SessionFault::NoMemory
    }
}

/// A legal schedule of an image and a plan, at one of its places: place n is the moment after the first n
/// entries, from 0 to their number. To contracts it is those four; what it shows is the state there.
#[derive(Drop)]
pub struct Session {
    schedule: Schedule,
    place: u32,
    /// The machine at the place.
    machine: Machine<Paged>,
    /// Machines at the places that are multiples of 1,024.
    checkpoints: Vec<Machine<Paged>>,
    /// The endings of all its pauses.
    endings: Vec<Ending>,
}

impl Model for Session {
    ghost use Rattle.rv_debug.specs.Placed.{Placed, placed};
    ghost use Rattle.rv_debug.specs.internal.Session.{IsSession};

    ghost Value = { Placed };

    ghost view = { λ s. placed s.schedule.image s.schedule.plan s.schedule.entries s.place };

    ghost invariant = { λ s. IsSession s.schedule s.place s.machine s.checkpoints.items s.endings.items };
}

impl Session {
    /// A session of the schedule at place 0; or the first entry that is not what its call would add there.
    pub fn new(
        alloc: Global,
        image: &Image,
        plan: Plan,
        entries: Vec<Entry>,
    ) -> Result<Session, ReplayFault>
        ensures ok { IfOk result (λ s. s ≡ placed image.now (numbers plan) entries.items 0) }
        ensures legal { OnOk result (IsLegal (setting_of (stored image.now (numbers plan) [])) entries.items) }
        ensures err { IfErr result (λ fault.
            IsReplayFault (setting_of (stored image.now (numbers plan) [])) entries.items fault) }
    {
        let Passed {
            mut checkpoints,
            endings,
            count,
        } = pass_over(alloc, image, plan, &entries)?;
        let schedule = Schedule::new(image, plan, entries, count);
        match machine_at(&schedule, &mut checkpoints, 0) {
            Err(_) => Err(ReplayFault::NoMemory),
            Ok(machine) => Ok(Session {
                schedule,
                place: 0,
                machine,
                checkpoints,
                endings,
            }),
        }
    }

    /// What holds of each session: its schedule is legal, and there is a state at its place.
    pub fn facts(&self)
        ensures legal { IsLegal (setting self.now) self.now.entries }
        ensures within { self.now.place ≤ length self.now.entries }
        ensures state { IsSome (state self.now) }
    {
        self.schedule.facts();
        let _place = self.place;
        let _machine = self.machine();
    }

    /// The place.
    pub fn place(&self) -> u32
        ensures value { result ≡ self.now.place }
        ensures within { result ≤ length self.now.entries }
    {
        let _count = self.schedule.count();
        self.place
    }

    /// How many entries the schedule has.
    pub fn count(&self) -> u32
        ensures { result ≡ length self.now.entries }
    {
        self.schedule.count()
    }

    /// The entries of the schedule.
    pub fn entries(&self) -> &[Entry]
        ensures { result.now ≡ self.now.entries }
    {
        self.schedule.entries()
    }

    /// Its plan.
    pub fn plan(&self) -> Plan
        ensures { numbers result ≡ self.now.plan }
    {
        self.schedule.plan()
    }

    /// The endings of its pauses, in the order in which they ended.
    pub fn endings(&self) -> &[Ending]
        ensures { result.now ≡ endings (setting self.now).start self.now.entries }
    {
        self.endings.as_slice()
    }

    /// Goes to a place.
    pub fn go(&mut self, n: u32) -> Result<(), SessionFault>
        ensures ok { OnOk result (self.new ≡ moved self.old n) }
        ensures no_place { (result ≡ Err SessionFault.NoPlace) ↔ (length self.old.entries < n) }
        ensures err { IfErr result (λ fault. (fault ≡ SessionFault.NoPlace) ⊎ (fault ≡ SessionFault.NoMemory)) }
        ensures refused { OnErr result (self.new ≡ self.old) }
    {
        if n > self.schedule.count() {
            return Err(SessionFault::NoPlace);
        }
        self.put(n)
    }

    /// Goes one place forwards.
    pub fn forward(&mut self) -> Result<(), SessionFault>
        ensures ok { OnOk result (self.new ≡ moved self.old (self.old.place + 1)) }
        ensures no_place { (result ≡ Err SessionFault.NoPlace) ↔ (length self.old.entries ≡ self.old.place) }
        ensures err { IfErr result (λ fault. (fault ≡ SessionFault.NoPlace) ⊎ (fault ≡ SessionFault.NoMemory)) }
        ensures refused { OnErr result (self.new ≡ self.old) }
    {
        if self.place == self.schedule.count() {
            return Err(SessionFault::NoPlace);
        }
        let _access = self.pass()?;
        Ok(())
    }

    /// Goes on by the entry at the place. What it accessed, if it is a step that did.
    pub fn pass(&mut self) -> Result<Option<Access>, NoMemory>
        requires { self.old.place < length self.old.entries }
        ensures ok { OnOk result (self.new ≡ moved self.old (self.old.place + 1)) }
        ensures access { IfOk result (λ access. access ≡ made (setting self.old).start self.old.entries self.old.place) }
        ensures refused { OnErr result (self.new ≡ self.old) }
    {
        let _count = self.schedule.count();
        let access = self.schedule.advance(&mut self.machine, self.place)?;
        self.place += 1;
        Ok(access)
    }

    /// Goes one place backwards.
    pub fn back(&mut self) -> Result<(), SessionFault>
        ensures ok { OnOk result (self.new ≡ moved self.old (self.old.place - 1)) }
        ensures no_place { (result ≡ Err SessionFault.NoPlace) ↔ (self.old.place ≡ 0) }
        ensures err { IfErr result (λ fault. (fault ≡ SessionFault.NoPlace) ⊎ (fault ≡ SessionFault.NoMemory)) }
        ensures refused { OnErr result (self.new ≡ self.old) }
    {
        if self.place == 0 {
            return Err(SessionFault::NoPlace);
        }
        let before = self.place - 1;
        self.put(before)
    }

    /// Goes to one of the schedule's places, by its entries from the nearest checkpoint on.
    fn put(&mut self, n: u32) -> Result<(), SessionFault>
        requires { n ≤ length self.old.entries }
        ensures ok { OnOk result (self.new ≡ moved self.old n) }
        ensures err { IfErr result (λ fault. fault ≡ SessionFault.NoMemory) }
        ensures refused { OnErr result (self.new ≡ self.old) }
    {
        self.machine = machine_at(&self.schedule, &mut self.checkpoints, n)?;
        self.place = n;
        Ok(())
    }

    /// A hart at the place.
    pub fn registers(&self, h: u32) -> Result<HartView, SessionFault>
        ensures ok { IfOk result (λ view. answer.ShowsHart self.now h view) }
        ensures err { IfErr result (λ fault. (fault ≡ SessionFault.NoHart) × answer.HasNoHart self.now h) }
    {
        let machine = self.machine();
        if h >= u32::from(machine.harts()) {
            return Err(SessionFault::NoHart);
        }
        Ok(view_of(machine, h as u8))
    }

    /// The bytes from an address on, at the place: 1 to 256 of them.
    pub fn bytes(&self, alloc: Global, address: u32, len: u32) -> Result<Vec<u8>, SessionFault>
        requires some { 1 ≤ len }
        requires few { len ≤ 256 }
        ensures ok { IfOk result (λ bytes. SomeState (λ (s : State). answer.bytes_from s.memory address len ≡ Some bytes.items) self.now) }
        ensures err { IfErr result (λ fault. ((fault ≡ SessionFault.NoBytes) × answer.HasNoBytes self.now address len)
            ⊎ ((fault ≡ SessionFault.NoMemory) × answer.HasBytes self.now address len)) }
    {
        let machine = self.machine();
        if !has_bytes(machine, address, len) {
            return Err(SessionFault::NoBytes);
        }
        Ok(bytes_of(alloc, machine, address, len)?)
    }

    /// The lines of the words from an address on, at the place: 1 to 64 of them, each without its line feed.
    pub fn list(&self, alloc: Global, address: u32, count: u32) -> Result<Vec<String>, SessionFault>
        requires some { 1 ≤ count }
        requires few { count ≤ 64 }
        ensures ok { IfOk result (λ lines. SomeState (λ (s : State). answer.lines_from s.memory address count ≡ Some (map (λ line. string_bytes line) lines.items)) self.now) }
        ensures err { IfErr result (λ fault. ((fault ≡ SessionFault.NoBytes) × answer.HasNoLines self.now address count)
            ⊎ ((fault ≡ SessionFault.NoMemory) × answer.HasLines self.now address count)) }
    {
        let machine = self.machine();
        if !has_lines(machine, address, count) {
            return Err(SessionFault::NoBytes);
        }
        Ok(lines_of(alloc, machine, address, count)?)
    }

    /// The least place, from the present one on, whose entry's access touches the byte. The session goes to
    /// the place after it.
    pub fn find(&mut self, address: u32) -> Result<u32, SessionFault>
        ensures ok { IfOk result (λ found. answer.IsFirstTouch self.old address found) }
        ensures after { IfOk result (λ found. self.new ≡ moved self.old (found + 1)) }
        ensures err { IfErr result (λ fault. (fault ≡ SessionFault.NoMemory)
            ⊎ ((fault ≡ SessionFault.NotFound) × answer.HasNoTouch self.old address)) }
        ensures refused { OnErr result (self.new ≡ self.old) }
    {
        steps_of_legal_schedules();
        self.schedule.facts();
        let mut other = self.machine.share(self.schedule.steps())?;
        match next_touch(&self.schedule, &mut other, self.place, address)? {
            None => Err(SessionFault::NotFound),
            Some(found) => {
                self.machine = other;
                self.place = found + 1;
                Ok(found)
            }
        }
    }

    /// The machine at the place.
    pub fn machine(&self) -> &Machine<Paged>
        ensures { state self.now ≡ Some result.now.state }
    {
        &self.machine
    }
}
