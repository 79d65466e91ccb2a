//! Laws of drivers and of seeded runs, in a user's words. Each function's contract is the laws.
ghost use Rattle.rv_drive.specs.DriverLaws as law;

use rv_collide::list_laws::longer_lists;

/// An image, a plan, the words of a generator and the sites that they pick make one seeded run at most. Such a
/// run is a legal schedule, in which no pause ends before it is due and only its draws arm addresses, and it
/// ends where no pause is open and no hart is able.
pub fn seeded_runs()
    ensures one { law.OneRunAtMost }
    ensures legal { law.DrawnIsLegal }
    ensures long { law.DrawnIsLong }
    ensures arms { law.DrawnIsArmedByDraws }
    ensures ended { law.DrawnHasEnded }
{}

/// What an entry does to the open pauses: each goes on, and counts the steps of other harts, but the one that
/// it ends; or it begins one.
pub fn open_pauses()
    ensures { law.PausesGoOn }
{
    longer_lists();
}

/// What a driver may do: what a call adds is of the call's kind, a pause that is due may be ended, and an able
/// hart may take a turn.
pub fn accepted_calls()
    ensures kind { law.AddsItsKind }
    ensures due { law.DueIsResumed }
    ensures able { law.AbleTakesTurn }
{}

/// What the draws owe: at first what the first draws add, each of which arms an address; once they stand in the
/// list, the draw that a resumption asks for, and nothing else. Entries that take words count them.
pub fn draws_owed()
    ensures { law.DrawsGoOn }
{}
