//! A second machine as the core's own is now.
ghost use Rattle.std.specs.Prelude.{◌≡◌, Some, IfOk, length};
ghost use Rattle.rv_collide.specs.StateAt.{state_at};
ghost use Rattle.rv_collide.specs.Stored.{setting_of};

use super::Collider;
use crate::walk_laws::steps_of_legal_schedules;
use rv_hart::machine::Machine;
use rv_memory::store::{Fork, NoMemory};

impl<S: Fork> Collider<S> {
    /// A second machine as the core's own is now, which has no room to print more. The core stays as it is, also where
    /// memory is refused.
    pub fn share_machine(&mut self) -> Result<Machine<S>, NoMemory>
        ensures same { self.new ≡ self.old }
        ensures equal { IfOk result (λ copy.
            state_at (setting_of self.old).start self.old.entries (length self.old.entries) ≡ Some copy.state) }
    {
        self.facts();
        steps_of_legal_schedules();
        let _plan = self.plan();
        let printed = self.machine().output().len() as u32;
        self.detector.share_machine(printed)
    }
}
