//! The second access of a report, as `specs/Second.antt` has it.
ghost use Rattle.std.specs.Prelude.{◌≡◌, ◌<◌, IfSome};
ghost use Rattle.rv_break.specs.declared.claim.Seen.{Seen};
ghost use Rattle.rv_collide.specs.declared.ending.Verdict.TheVariants.{Hit};
ghost use Rattle.rv_races.specs.Second as spec;

use rv_break::claim::Seen;
use rv_collide::ending::{Ending, Verdict};

/// The paused access, as if it had been made.
pub fn own_access(told: &Ending) -> Seen
    ensures { result ≡ spec.own_access told.now }
{
    Seen {
        place: told.paused_at,
        hart: told.hart,
        access: told.access,
    }
}

/// The second access of a report.
pub fn second_of(told: &Ending, last: Option<Seen>) -> Seen
    requires starts { told.now.paused_at < told.now.resumed_at }
    requires hit { (seen : Seen) → told.now.verdict ≡ Hit seen → seen.place < told.now.resumed_at }
    requires last { IfSome last (λ seen. seen.place < told.now.resumed_at) }
    ensures value { result ≡ spec.second_of told.now last told.now.verdict }
    ensures before { result.place < told.now.resumed_at }
{
    match told.verdict {
        Verdict::Hit(seen) => seen,
        Verdict::Changed => last.unwrap_or(own_access(told)),
        Verdict::Quiet => own_access(told),
    }
}
