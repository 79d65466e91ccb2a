//! A stored schedule is told again.
ghost use Rattle.std.specs.Prelude.{◌≡◌, ◌≢◌, ◌⊎◌, ◌≤◌, [], IfOk, IfErr, OnOk, length, take};
ghost use Rattle.rv_collide.specs.Answers as answer;
ghost use Rattle.rv_collide.specs.Forced.{forced, Turn};
ghost use Rattle.rv_collide.specs.Legal.{IsLegal, call_of};
ghost use Rattle.rv_collide.specs.Numbers.{numbers};
ghost use Rattle.rv_collide.specs.Replays.{IsReplayFault, IsWhy, turned_entry};
ghost use Rattle.rv_collide.specs.Stored.{setting_of, stored};
ghost use Rattle.rv_collide.specs.Told.{IsToldUpTo};

use crate::collider::{Collider, Turned};
use crate::entry::Entry;
use crate::plan::Plan;
use crate::refused::Refused;
use rv_elf::Image;
use rv_memory::store::ByteStore;
use std::alloc::Global;
use thiserror::Error;

/// Why an entry is not what a call would add there: the call is refused, or it adds another entry. The
/// first is told by the refusal's name.
#[derive(Clone, Copy, Debug, PartialEq, Eq, Error)]
pub enum Why {
    #[error("{0}")]
    Refused(Refused),
    #[error("Differs")]
    Differs,
}

/// Why a list of entries is no schedule of an image and a plan: the first entry that is not what a call
/// would add there; or memory was refused.
#[derive(Clone, Copy, Debug)]
pub enum ReplayFault {
    NoMemory,
    Entry { place: u32, why: Why },
}

/// The core after the calls of a list of entries, where each of them is what its call adds.
pub fn replay<S: ByteStore>(
    alloc: Global,
    image: &Image,
    plan: Plan,
    entries: &[Entry],
) -> Result<Collider<S>, ReplayFault>
    ensures ok { IfOk result (λ c. c ≡ stored image.now (numbers plan) entries.now) }
    ensures legal { OnOk result (IsLegal (setting_of (stored image.now (numbers plan) [])) entries.now) }
    ensures err { IfErr result (λ fault. IsReplayFault (setting_of (stored image.now (numbers plan) [])) entries.now fault) }
{
    let mut collider = match Collider::new(alloc, image, plan) {
        Ok(collider) => collider,
        Err(_) => return Err(ReplayFault::NoMemory),
    };
    replay_up_to(&mut collider, entries, entries.len())?;
    collider.facts();
    Ok(collider)
}

/// Goes on with the calls of a list of entries, up to a place, where each of them is what its call adds. The core was
/// told the entries before another place. Where it answers a fault, the entries before that fault were told.
pub fn replay_up_to<S: ByteStore>(
    collider: &mut Collider<S>,
    entries: &[Entry],
    until: usize,
) -> Result<(), ReplayFault>
    requires here { IsToldUpTo collider.old entries.now (length collider.old.entries) }
    requires forwards { length collider.old.entries ≤ until }
    requires within { until ≤ length entries.now }
    ensures ok { OnOk result (collider.new ≡ stored collider.old.image collider.old.plan (take until entries.now)) }
    ensures err { IfErr result (λ fault. IsReplayFault (setting_of collider.old) entries.now fault) }
{
    let begin = collider.entries() as usize;
    let mut i = collider.steps_again(entries, begin, until);
    while i < until {
        collider.facts();
        let place = collider.entries();
        if let Err(why) = again(collider, entries[i]) {
            return Err(fault_at(place, why));
        }
        i = collider.steps_again(entries, i + 1, until);
    }
    Ok(())
}

/// The fault of a place, where memory was not refused.
fn fault_at(place: u32, why: Why) -> ReplayFault
    ensures { (result ≡ ReplayFault.NoMemory)
        ⊎ ((result ≡ ReplayFault.Entry place why) × (why ≢ Why.Refused Refused.NoMemory)) }
{
    match why {
        Why::Refused(Refused::NoMemory) => ReplayFault::NoMemory,
        _ => ReplayFault::Entry { place, why },
    }
}

/// Makes the call of an entry, and tells where it is refused or adds another entry.
fn again<S: ByteStore>(collider: &mut Collider<S>, entry: Entry) -> Result<(), Why>
    ensures ok { IfOk result (λ _. answer.Adds collider.old collider.new (call_of entry) entry) }
    ensures err { IfErr result (λ why. (why ≡ Why.Refused Refused.NoMemory)
        ⊎ IsWhy (forced (setting_of collider.old) collider.old.entries (call_of entry)) entry why) }
{
    match entry {
        Entry::Stepped(h) => turn_again(collider, h, entry),
        Entry::Paused(h, _) => turn_again(collider, h, entry),
        Entry::Resumed(h) => match collider.resume(h) {
            Ok(_) => Ok(()),
            Err(refused) => Err(Why::Refused(refused)),
        },
        Entry::Armed(pc) => match collider.arm(pc) {
            Ok(()) => Ok(()),
            Err(refused) => Err(Why::Refused(refused)),
        },
        Entry::Disarmed(pc) => match collider.disarm(pc) {
            Ok(()) => Ok(()),
            Err(refused) => Err(Why::Refused(refused)),
        },
    }
}

fn turn_again<S: ByteStore>(collider: &mut Collider<S>, h: u8, entry: Entry) -> Result<(), Why>
    ensures ok { IfOk result (λ _. answer.Adds collider.old collider.new (Turn h) entry) }
    ensures err { IfErr result (λ why. (why ≡ Why.Refused Refused.NoMemory)
        ⊎ IsWhy (forced (setting_of collider.old) collider.old.entries (Turn h)) entry why) }
{
    match collider.turn(h) {
        Err(refused) => Err(Why::Refused(refused)),
        Ok(turned) => {
            if turned_entry(h, turned) == entry {
                Ok(())
            } else {
                Err(Why::Differs)
            }
        }
    }
}

fn turned_entry(h: u8, turned: Turned) -> Entry
    ensures { result ≡ turned_entry h turned }
{
    match turned {
        Turned::Stepped(_) => Entry::Stepped(h),
        Turned::Paused(slot) => Entry::Paused(h, slot),
    }
}
