//! Laws of talks, in a user's words. Each function's contract is the law.
ghost use Rattle.rv_debug.specs.TalkLaws as law;

/// The answers to given lines, from a session at a place, are the same in any two talks, up to the first line that
/// just one of them answers with `fault 5 NoMemory`.
pub fn talks()
    ensures { law.TalksAreOne }
{}
