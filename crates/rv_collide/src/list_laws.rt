//! Laws of lists that are one entry longer. The function's contract is the laws.
ghost use Rattle.rv_collide.specs.ListLaws as law;

/// What an entry does to the list's open pauses: a resumption ends just the one of its hart, and every other
/// entry leaves them open.
pub fn longer_lists()
    ensures stay { law.OthersStayOpen }
    ensures ends { law.ResumptionEndsOne }
{}
