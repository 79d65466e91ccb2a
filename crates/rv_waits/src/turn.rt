//! Whose turn is next, where harts that are seen to wait are passed over.
ghost use Rattle.std.specs.Prelude.{◌≡◌, ◌<◌, true, false, IfNone, IfSome, length};
ghost use Rattle.rv_waits.specs.Stuck.{Runs};
ghost use Rattle.rv_waits.specs.Turn.{AllMayRest, IsNextFrom, MayRest};
ghost use Rattle.rv_waits.specs.Watch.{IsWatchOf};

use crate::watch::Watch;
use rv_hart::machine::Machine;
use rv_memory::store::ByteStore;

/// Whether a hart runs and isn't seen to wait. One that waits may be seen to some steps later.
#[inline(always)]
pub fn goes<S: ByteStore>(machine: &Machine<S>, watch: &Watch, h: u8) -> bool
    requires { IsWatchOf watch.now machine.now.state }
    ensures runs { result ≡ true → Runs machine.now.state h }
    ensures rests { result ≡ false → MayRest machine.now.state h }
{
    machine.runs(h) && watch.round(machine, h).is_none()
}

/// The first hart from a number on, in a circle, that runs and isn't seen to wait.
pub fn next_from<S: ByteStore>(machine: &Machine<S>, watch: &Watch, from: u32) -> Option<u8>
    requires { IsWatchOf watch.now machine.now.state }
    ensures next { IfSome result (IsNextFrom machine.now.state from) }
    ensures none { IfNone result (AllMayRest machine.now.state) }
{
    let harts = u32::from(machine.harts());
    for passed in 0..harts {
        let h = ((from % harts + passed) % harts) as u8;
        if goes(machine, watch, h) {
            return Some(h);
        }
    }
    None
}
