//! Laws for a machine that goes through a schedule without the core. The function's contract is the laws.
ghost use Rattle.rv_collide.specs.WalkLaws as law;

use rv_hart::laws::{reservations_and_accesses, what_no_step_does};

/// A machine that stands at a place of a legal schedule comes to the next one by the step of the entry there, which
/// its hart can make and which has room to print; where the entry is no step, it stands there already. No more bytes
/// are printed than the plan has steps.
pub fn steps_of_legal_schedules()
    ensures steps { law.StepsLeadOn }
    ensures others { law.OthersStay }
    ensures few { law.StepsPrintFew }
{
    what_no_step_does();
    reservations_and_accesses();
}
