//! What the rules of the classes come to. The function's contract is the laws.
ghost use Rattle.rv_prune.specs.ClassLaws as law;

/// A range is touched exactly where some address is a byte of both. Through a flag's mask the old and the
/// new value are one.
pub fn classes()
    ensures touching { law.TouchingIsSharing }
    ensures flags { law.FlagsLookSame }
{}
