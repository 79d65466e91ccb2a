//! Whether a worker's record of places is the hart's own.
ghost use Rattle.std.specs.Prelude.{◌≡◌, ◌↔◌, ◌<◌, ◌≤◌, map, length, IsTrue, IfNone, IfSome, is_some};
ghost use Rattle.rv_collide.specs.Pause.{opening_of};
ghost use Rattle.rv_hart.specs.declared.machine.TheConstants.{MOST_HARTS};
ghost use Rattle.rv_locked.specs.Own.{AreOwn, IsLeastStray, IsOwn, is_of, own_places};

use rv_collide::collider::Collider;
use rv_collide::entry::Entry;
use rv_drive::driver::Driver;
use rv_memory::flat::Flat;

/// The least hart whose list is not its own.
pub(crate) fn first_stray(driver: &Driver, places: &[Vec<u32>]) -> Option<u8>
    requires { length places.now ≤ MOST_HARTS }
    ensures none { IfNone result (AreOwn driver.now (map (λ p. p.items) places.now)) }
    ensures some { IfSome result (λ hart. IsLeastStray driver.now (map (λ p. p.items) places.now) hart) }
{
    for h in 0..places.len() {
        let list = places[h].as_slice();
        if !is_own(driver, h as u8, list) {
            return Some(h as u8);
        }
    }
    None
}

/// Whether the list has the places of the hart's own entries, and the hart is neither paused nor able.
fn is_own(driver: &Driver, h: u8, list: &[u32]) -> bool
    ensures { IsTrue result ↔ IsOwn driver.now h list.now }
{
    are_places(driver.collider(), h, list) && !is_open(driver, h) && !driver.is_able(h)
}

fn is_open(driver: &Driver, h: u8) -> bool
    ensures { result ≡ is_some (opening_of driver.now.entries h) }
{
    driver.collider().paused(h).is_some()
}

/// Whether the list has the places of the hart's own entries.
fn are_places(collider: &Collider<Flat>, h: u8, list: &[u32]) -> bool
    ensures { IsTrue result ↔ (list.now ≡ own_places collider.now.entries h) }
{
    let mut met = 0;
    for place in 0..collider.entries() {
        if is_of(h, collider.entry(place)) {
            if met >= list.len() || list[met] != place {
                return false;
            }
            met += 1;
        }
    }
    met == list.len()
}

/// Whether an entry is a turn of the hart or the end of its pause.
fn is_of(h: u8, entry: Entry) -> bool
    ensures { result ≡ is_of h entry }
{
    match entry {
        Entry::Stepped(other) | Entry::Resumed(other) => other == h,
        Entry::Paused(other, _) => other == h,
        Entry::Armed(_) | Entry::Disarmed(_) => false,
    }
}
