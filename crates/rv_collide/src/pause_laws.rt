//! Laws of pauses that have ended, in a user's words. The function's contract is the law.
ghost use Rattle.rv_collide.specs.PauseLaws as law;

/// In a legal schedule a pause ends after it began. Its hart stood at a plain load or store, and makes no step until
/// the pause has ended.
pub fn pauses_that_ended()
    ensures { law.PausesLast }
{}
