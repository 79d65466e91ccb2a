//! Laws of a run that goes on from the middle of another. The function's contract is the laws.
ghost use Rattle.rv_collide.specs.Joined as law;

/// Entries behind a prefix, at whose end no pause is open and no address armed, are told from the state there: the same
/// machine, the same accesses, pauses and verdicts, at places that are greater by the prefix's length. So a list that is legal
/// from that state is, behind the prefix, legal from the prefix's start, under each plan that has room for both; and a
/// legal list is legal under a plan with fewer steps and arms, down to what it needs, which is no more than its plan has.
pub fn joined_lists()
    ensures joined { law.ListsJoin }
    ensures legal { law.JoinedIsLegal }
    ensures room { law.RoomIsEnough }
    ensures needs { law.LegalNeedsNoMore }
{}
