//! Laws of the lists of walks. The function's contract is the law.
ghost use Rattle.rv_walk.specs.WalkLaws.{StepsAreAPrefix};

/// Steps of harts that lead from one state to another are a legal schedule, from whose end a probe may go on.
pub fn steps_are_a_prefix()
    ensures { StepsAreAPrefix }
{}
