//! Laws of a pause's bytes, in a user's words. The function's contract is the laws.
ghost use Rattle.rv_collide.specs.ChangedLaws as law;

use rv_hart::laws::{reservations_and_accesses, what_no_step_does};

/// Where the bytes of the access that a paused hart would have made differ between the pause and its end,
/// another hart made an access within the pause that writes one of them: so wherever the verdict is
/// `Changed`. A pause that a data breakpoint watched never ends with that verdict.
pub fn changes_of_a_pause()
    ensures bytes { law.ChangesAreWritten }
    ensures verdict { law.ChangedIsWritten }
    ensures watched { law.WatchedIsNeverChanged }
{
    what_no_step_does();
    reservations_and_accesses();
}
