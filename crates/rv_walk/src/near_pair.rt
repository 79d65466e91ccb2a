//! Near pairs.
ghost use Rattle.std.specs.Prelude.{◌≡◌, ◌↔◌, ◌-◌, ◌+◌, ◌<◌, ◌≤◌, ◌⊎◌, IsTrue};
ghost use Rattle.std.specs.List.{Contains};
ghost use Rattle.rv_walk.specs.NearPair.{AreNear};

use crate::sites::Sites;
use rv_break::claim::Seen;

/// The most steps from the first access of a near pair to the second.
pub const FAR: u32 = 4000;

/// How many accesses a walk keeps of an aligned word, by different hart and instruction.
pub const MOST_KEPT: u32 = 8;

/// Two accesses that a walk made, the first before the second: of different harts, of bytes that both have, at least one a write.
#[derive(Clone, Copy, PartialEq, Eq)]
pub struct NearPair {
    pub first: Seen,
    pub second: Seen,
}

/// The addresses of two instructions, the lesser first. They may be the same.
#[derive(Clone, Copy, PartialEq, Eq, PartialOrd, Ord, Hash)]
pub struct Addresses {
    pub lesser: u32,
    pub greater: u32,
}

/// Whether two accesses of a walk are near: made by different harts, the second at most `FAR` steps after the first, in conflict, and
/// one of them that of a site.
#[inline(always)]
pub fn are_near(first: &Seen, second: &Seen, sites: &Sites) -> bool
    ensures { IsTrue result ↔ AreNear sites.now first.now second.now }
{
    if first.hart == second.hart || !is_soon(first, second) {
        return false;
    }
    first.access.conflicts(&second.access) && is_at(first, second, sites)
}

#[inline(always)]
fn is_soon(first: &Seen, second: &Seen) -> bool
    ensures { IsTrue result ↔ (first.now.place < second.now.place) × (second.now.place ≤ first.now.place + FAR) }
{
    first.place < second.place && second.place - first.place <= FAR
}

/// Whether one of the accesses is that of a site.
#[inline(always)]
fn is_at(first: &Seen, second: &Seen, sites: &Sites) -> bool
    ensures { IsTrue result ↔ (Contains sites.now first.now.access.pc ⊎ Contains sites.now second.now.access.pc) }
{
    sites.contains(first.access.pc) || sites.contains(second.access.pc)
}

impl NearPair {
    ghost use Rattle.rv_walk.specs.Told.{addresses_of};

    /// The addresses of its instructions.
    pub fn addresses(&self) -> Addresses
        ensures { result ≡ addresses_of self.now }
    {
        let first = self.first.access.pc;
        let second = self.second.access.pc;
        Addresses {
            lesser: first.min(second),
            greater: first.max(second),
        }
    }

    /// How many steps after the first the second was made.
    pub fn distance(&self) -> u32
        ensures { result ≡ self.now.second.place - self.now.first.place }
    {
        self.second.place.saturating_sub(self.first.place)
    }
}
