//! Which accesses meet the bytes of a report.
ghost use Rattle.std.specs.Prelude.{◌≡◌};
ghost use Rattle.rv_explain.specs.Meeting as spec;
ghost use Rattle.rv_hart.specs.Conflict.{meets};

use rv_collide::ending::Ending;
use rv_hart::access::Access;

/// Whether the two accesses share a byte.
fn meets(one: &Access, other: &Access) -> bool
    ensures { result ≡ meets one.now other.now }
{
    let end = u64::from(one.first) + u64::from(one.size);
    let other_end = u64::from(other.first) + u64::from(other.size);
    u64::from(one.first.max(other.first)) < end.min(other_end)
}

/// Whether a step has met the bytes of the report.
pub(crate) fn met(paused: &Access, access: &Option<Access>) -> bool
    ensures { result ≡ spec.met paused.now access.now }
{
    match access {
        Some(access) => meets(paused, access),
        None => false,
    }
}

/// Whether a step has written one of them.
pub(crate) fn wrote(paused: &Access, access: &Option<Access>) -> bool
    ensures { result ≡ spec.wrote paused.now access.now }
{
    match access {
        Some(access) => access.write && meets(paused, access),
        None => false,
    }
}

pub(crate) fn is_within(told: &Ending, place: u32) -> bool
    ensures { result ≡ spec.is_within told.now place }
{
    told.paused_at < place && place < told.resumed_at
}
