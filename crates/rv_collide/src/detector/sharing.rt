//! A second machine as a detector's own is now.
ghost use Rattle.std.specs.Prelude.{◌≡◌, ◌≤◌, Some, IfOk, length};
ghost use Rattle.rv_collide.specs.Begun.{setting_of};
ghost use Rattle.rv_collide.specs.StateAt.{state_at};
ghost use Rattle.rv_hart.specs.State.{State};

use super::Detector;
use rv_hart::machine::{Machine, OUTPUT_LIMIT};
use rv_memory::store::{Fork, NoMemory};

impl<S: Fork> Detector<S> {
    /// A second machine as the detector's own is now, which may print `out_limit` bytes. The detector stays as it is, also
    /// where memory is refused.
    pub(crate) fn share_machine(&mut self, out_limit: u32) -> Result<Machine<S>, NoMemory>
        requires limit { out_limit ≤ OUTPUT_LIMIT }
        requires printed { (s : State)
            → state_at (setting_of self.old).start self.old.entries (length self.old.entries) ≡ Some s
            → length s.output ≤ out_limit }
        ensures same { self.new ≡ self.old }
        ensures limit { IfOk result (λ copy. copy.limit ≡ out_limit) }
        ensures equal { IfOk result (λ copy.
            state_at (setting_of self.old).start self.old.entries (length self.old.entries) ≡ Some copy.state) }
    {
        self.machine.share(out_limit)
    }
}
