//! A run that goes on apart from another.
ghost use Rattle.std.specs.Prelude.{◌≡◌, ◌+◌, ◌≤◌, IfOk, length};
ghost use Rattle.rv_collide.specs.Entries.{steps};
ghost use Rattle.rv_collide.specs.Joined.{IsForked};
ghost use Rattle.rv_collide.specs.Numbers.{numbers};

use super::Collider;
use crate::detector::Detector;
use crate::plan::{MOST_STEPS, Plan};
use rv_memory::store::{Fork, NoMemory};
use std::alloc::Global;

impl<S: Fork> Collider<S> {
    /// A detector that goes on from the state that the core is at, under a plan of the same harts: of what was done it has no
    /// entry, so that a fork costs the same after ten steps and after a million. What it leaves is told from the image's start
    /// by `join::joined`, where no pause is open and no address armed here. From then on the two go on apart: pages of memory are
    /// shared, each until one of the two writes there, and flat regions are copied. The core stays as it is, also where memory
    /// is refused.
    pub fn fork(&mut self, alloc: Global, plan: Plan) -> Result<Detector<S>, NoMemory>
        requires harts { plan.harts ≡ self.old.plan.harts }
        requires room { length (steps self.old.entries) + plan.steps ≤ MOST_STEPS }
        ensures same { self.new ≡ self.old }
        ensures forked { IfOk result (λ fork. IsForked self.old (numbers plan) fork) }
    {
        self.detector.facts();
        let printed = self.machine().output().len() as u32;
        let machine = self.detector.share_machine(printed + plan.steps)?;
        Detector::begin(alloc, machine, plan)
    }
}
