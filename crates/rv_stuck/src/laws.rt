//! Laws of stuck ends. Each function's contract is the law.
ghost use Rattle.rv_stuck.specs.StuckEndLaws.{KeysAreUnique, PollsWhereItLoads, ReadsAreEachOnce, StuckEndsAreStuck};

/// A machine that has a stuck end is stuck: from then on nothing ever changes, whoever steps (`rv_waits`).
pub fn stuck_ends_are_stuck()
    ensures { StuckEndsAreStuck }
{}

/// A hart polls, by its act, exactly where the steps of its round load data, as LR and an AMO do too. The ranges that it reads are
/// those of its accesses that read, each once, in ascending order.
pub fn acts_are_of_rounds()
    ensures polls { PollsWhereItLoads }
    ensures reads { ReadsAreEachOnce }
{}

/// Two stuck ends whose keys are equal are of harts that do the same.
pub fn keys_are_unique()
    ensures { KeysAreUnique }
{}
