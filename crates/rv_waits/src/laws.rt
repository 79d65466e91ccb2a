//! Laws of waiting. Each function's contract is the law.
ghost use Rattle.rv_waits.specs.CircleLaw.{CircleLaw};
ghost use Rattle.rv_waits.specs.StuckLaw.{StuckForEver};
ghost use Rattle.rv_waits.specs.TouchedLaw.{WaitsUntilTouched, WaitsAfterItsSteps};

use rv_hart::laws::{reservations_and_accesses, steps_are_local, what_no_step_does};
use rv_memory::laws::store_keeps_the_rest;

/// From a stuck state on, whatever harts step, in whatever order and however often, each byte, the output and each hart's
/// status stay as they are, and the machine is stuck still.
pub fn stuck_for_ever()
    ensures { StuckForEver }
{
    steps_are_local();
    what_no_step_does();
    reservations_and_accesses();
    store_keeps_the_rest();
}

/// In a circle of n numbers each is reached from any number on, before the circle is closed.
pub fn numbers_in_a_circle()
    ensures { CircleLaw }
{}

/// A hart that waits goes on waiting: after a step of another hart that changes no byte of its round's instructions and
/// accesses, and after its own steps.
pub fn waits_until_touched()
    ensures others { WaitsUntilTouched }
    ensures own { WaitsAfterItsSteps }
{
    steps_are_local();
    what_no_step_does();
    store_keeps_the_rest();
}
