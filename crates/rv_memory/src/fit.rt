//! Whether regions make a store, tested before anything is allocated.
ghost use Rattle.std.specs.Prelude.{◌≡◌, ◌≤◌, ◌+◌, ◌++◌, ◌^◌, min, nat_lt, sum_by};
ghost use Rattle.std.specs.List.{list_any};
ghost use Rattle.rv_memory.specs.Extent.{end_of as spec_end_of};
ghost use Rattle.rv_memory.specs.Memory as spec;

use crate::region::Region;
use crate::store::{LIMIT, MemFault};

/// The address that follows the region's last one.
#[inline]
pub(crate) fn end_of(region: &Region) -> u64
    ensures { result ≡ region.now.start + region.now.len }
{
    u64::from(region.start) + u64::from(region.len)
}

/// The first test that the regions of two lists fail together.
#[tactic(auto, using(crate::proofs::Both::fault_of_both_lists))]
pub(crate) fn fault_of_both(first: &[Region], second: &[Region]) -> Option<MemFault>
    ensures { result ≡ spec.fault_of (first.now ++ second.now) }
{
    if one_ends_past(first) || one_ends_past(second) {
        return Some(MemFault::PastEnd);
    }
    if overlap(first) || overlap(second) || meet(first, second) {
        return Some(MemFault::Overlap);
    }
    if sum_of(second, sum_of(first, 0)) > LIMIT {
        return Some(MemFault::TooLarge);
    }
    None
}

/// Whether some region ends past 2^32.
fn one_ends_past(regions: &[Region]) -> bool
    ensures { result ≡ list_any (λ e. nat_lt (2 ^ 32) (spec_end_of e)) regions.now }
{
    regions.iter().any(|region| 1 << 32 < end_of(region))
}

fn meets(a: &Region, b: &Region) -> bool
    ensures { result ≡ spec.meets a.now b.now }
{
    u64::from(a.start) < end_of(b) && u64::from(b.start) < end_of(a)
}

fn meets_some(first: &Region, others: &[Region]) -> bool
    ensures { result ≡ list_any (spec.meets first.now) others.now }
{
    others.iter().any(|other| meets(first, other))
}

/// Whether some two of the regions share an address.
fn overlap(regions: &[Region]) -> bool
    ensures { result ≡ spec.overlaps regions.now }
{
    let mut rest = regions;
    while let [first, after @ ..] = rest {
        if meets_some(first, after) {
            return true;
        }
        rest = after;
    }
    false
}

/// The sum of the lengths and of a number before, up to one more than `LIMIT`.
fn sum_of(regions: &[Region], before: u64) -> u64
    requires { before ≤ LIMIT + 1 }
    ensures { result ≡ min (before + sum_by (λ e. e.len) regions.now) (LIMIT + 1) }
{
    let mut sum = before;
    for region in regions {
        sum = (sum + u64::from(region.len)).min(LIMIT + 1);
    }
    sum
}

/// Whether some region of the first list shares an address with one of the second.
fn meet(first: &[Region], second: &[Region]) -> bool
    ensures { result ≡ list_any (λ e. list_any (spec.meets e) second.now) first.now }
{
    first.iter().any(|region| meets_some(region, second))
}
