//! A legal schedule is told again, entry by entry.
ghost use Rattle.std.specs.Prelude.{◌≡◌, ◌+◌, ◌<◌, ◌≤◌, [], IfOk, Ok, take, length};
ghost use Rattle.rv_collide.specs.Forced.{forced};
ghost use Rattle.rv_collide.specs.Legal.{call_of, IsLegal};
ghost use Rattle.rv_collide.specs.Made.{made};
ghost use Rattle.rv_collide.specs.Numbers.{numbers};
ghost use Rattle.rv_collide.specs.Stored.{added, setting_of, stored};
ghost use Rattle.rv_collide.specs.Told.{IsToldUpTo};
ghost use Rattle.rv_collide.specs.internal.Told.{accessed_by};
ghost use Rattle.rv_hart.specs.NextAccess.{accessed};

use crate::collider::{Collider, Turned};
use crate::entry::Entry;
use crate::plan::Plan;
use rv_elf::Image;
use rv_hart::access::{Access, Event};
use rv_memory::flat::Flat;
use rv_memory::store::NoMemory;
use std::alloc::Global;

/// The core after the first `n` entries of a legal schedule.
pub fn collider_at(
    alloc: Global,
    image: &Image,
    plan: Plan,
    entries: &[Entry],
    n: u32,
) -> Result<Collider<Flat>, NoMemory>
    requires legal { IsLegal (setting_of (stored image.now (numbers plan) [])) entries.now }
    requires within { n ≤ length entries.now }
    ensures { IfOk result (λ c. c ≡ stored image.now (numbers plan) (take n entries.now)) }
{
    let mut collider = Collider::new(alloc, image, plan)?;
    for i in 0..n {
        let _access = advance(&mut collider, entries, i);
    }
    Ok(collider)
}

/// Goes on by one entry of a legal schedule, of which the core has been told the entries before it. What that
/// entry accessed, if it is a step that did.
pub fn advance(collider: &mut Collider<Flat>, entries: &[Entry], place: u32) -> Option<Access>
    requires legal { IsLegal (setting_of collider.old) entries.now }
    requires within { place < length entries.now }
    requires here { IsToldUpTo collider.old entries.now place }
    ensures after { collider.new ≡ stored collider.old.image collider.old.plan (take (place + 1) entries.now) }
    ensures access { result ≡ made (setting_of collider.old).start entries.now place }
{
    add(collider, entries[place as usize])
}

/// Makes the call of an entry that it is forced to add; what its step accessed, if it is a step that did.
fn add(collider: &mut Collider<Flat>, entry: Entry) -> Option<Access>
    requires { forced (setting_of collider.old) collider.old.entries (call_of entry) ≡ Ok entry }
    ensures after { collider.new ≡ added collider.old entry }
    ensures access { result ≡ accessed_by collider.old entry }
{
    match entry {
        Entry::Stepped(h) => step(collider, h),
        Entry::Paused(h, slot) => {
            pause(collider, h, slot);
            None
        }
        Entry::Resumed(h) => {
            resume(collider, h);
            None
        }
        Entry::Armed(pc) => {
            arm(collider, pc);
            None
        }
        Entry::Disarmed(pc) => {
            disarm(collider, pc);
            None
        }
    }
}

fn step(collider: &mut Collider<Flat>, h: u8) -> Option<Access>
    requires { forced (setting_of collider.old) collider.old.entries (call_of (Entry.Stepped h)) ≡ Ok (Entry.Stepped h) }
    ensures after { collider.new ≡ added collider.old (Entry.Stepped h) }
    ensures access { result ≡ accessed_by collider.old (Entry.Stepped h) }
{
    match collider.turn(h) {
        Ok(Turned::Stepped(event)) => accessed(event),
        Ok(Turned::Paused(_)) => unreachable!(),
        Err(_) => unreachable!(),
    }
}

fn pause(collider: &mut Collider<Flat>, h: u8, slot: Option<u8>)
    requires { forced (setting_of collider.old) collider.old.entries (call_of (Entry.Paused h slot)) ≡ Ok (Entry.Paused h slot) }
    ensures { collider.new ≡ added collider.old (Entry.Paused h slot) }
{
    match collider.turn(h) {
        Ok(_) => {}
        Err(_) => unreachable!(),
    }
}

fn resume(collider: &mut Collider<Flat>, h: u8)
    requires { forced (setting_of collider.old) collider.old.entries (call_of (Entry.Resumed h)) ≡ Ok (Entry.Resumed h) }
    ensures { collider.new ≡ added collider.old (Entry.Resumed h) }
{
    match collider.resume(h) {
        Ok(_) => {}
        Err(_) => unreachable!(),
    }
}

fn arm(collider: &mut Collider<Flat>, pc: u32)
    requires { forced (setting_of collider.old) collider.old.entries (call_of (Entry.Armed pc)) ≡ Ok (Entry.Armed pc) }
    ensures { collider.new ≡ added collider.old (Entry.Armed pc) }
{
    match collider.arm(pc) {
        Ok(()) => {}
        Err(_) => unreachable!(),
    }
}

fn disarm(collider: &mut Collider<Flat>, pc: u32)
    requires { forced (setting_of collider.old) collider.old.entries (call_of (Entry.Disarmed pc)) ≡ Ok (Entry.Disarmed pc) }
    ensures { collider.new ≡ added collider.old (Entry.Disarmed pc) }
{
    match collider.disarm(pc) {
        Ok(()) => {}
        Err(_) => unreachable!(),
    }
}

fn accessed(event: Event) -> Option<Access>
    ensures { result ≡ accessed event }
{
    match event {
        Event::Moved(access) => access,
        Event::Exited(_) | Event::Stopped(_) => None,
    }
}
