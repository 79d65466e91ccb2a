//! Laws of schedules, in a user's words. Each function's contract is the law.
ghost use Rattle.rv_collide.specs.Laws as law;
ghost use Rattle.rv_collide.specs.Texts as text;

use rv_hart::laws::reservations_and_accesses;

/// Pauses, resumptions and breakpoints change no register, byte or reservation: only the steps of harts do.
/// A report names an access of another hart within the pause, which conflicts with the one that the paused
/// hart would have made; and where another hart made such an access within a watched pause, there is a report. A legal schedule has a state at each of its places. A
/// hart holds a reservation just where its LR was its last LR or SC and no other hart has written the word
/// since.
pub fn schedules()
    ensures same_steps { law.SameStepsSameState }
    ensures reports { law.ReportsAreRaces }
    ensures complete { law.ConflictsAreReported }
    ensures states { law.LegalHasStates }
    ensures reservations { law.ReservationsAreHeld }
{
    reservations_and_accesses();
}

/// What the pauses of a legal schedule lead to: a hart that is paused would have made an access, and each
/// resumption ends a pause of its hart, so that there is one ending for each of them, in their order.
pub fn pauses_of_legal_schedules()
    ensures accesses { law.PausesHaveAccesses }
    ensures endings { law.ResumptionsHaveEndings }
    ensures each { law.OneEndingForEach }
{}

/// The text of endings with one more of them is their text and the line of that one, so that it can be written
/// ending by ending.
pub fn one_ending_more()
    ensures { text.OneEndingMore }
{}
