//! What a caller keeps of the runs of a campaign.
ghost use Rattle.std.specs.Prelude.{IfOk};

use rv_collide::collider::Collider;
use rv_memory::flat::Flat;
use rv_memory::store::NoMemory;
use std::alloc::Global;
use std::marker::{Send, Sync};

/// What a caller keeps of each run. The worker that has made a run keeps it, so that what else the run has, which is far
/// larger, is let go before the worker makes another. For contracts alone it names what may be kept of a core.
pub trait Keep: Sync {
    ghost use Rattle.rv_collide.specs.Stored.{Stored};

    type Kept: Send + Drop;

    ghost keeps: { Self → Stored → Self.Kept → Type 0 };

    /// What is kept of a run, whose core this is at its end.
    fn keep(&self, alloc: Global, core: Collider<Flat>) -> Result<Self::Kept, NoMemory>
        ensures { IfOk result (λ kept. keeps self.now core kept) };
}
