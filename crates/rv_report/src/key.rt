//! What a row is about.
ghost use Rattle.std.specs.Prelude.{◌≡◌};
ghost use Rattle.rv_report.specs.Races as spec;

use rv_collide::ending::{Ending, Verdict};

/// The key of a row: the addresses of the two instructions whose accesses met, the lower first; of an
/// ending that only found its bytes changed the paused instruction's address alone.
#[derive(Clone, Copy, PartialEq, Eq, Hash)]
pub struct Key {
    pub first: u32,
    pub second: Option<u32>,
}

/// The key of an ending, unless it is quiet.
pub fn key_of(ending: &Ending) -> Option<Key>
    ensures { result ≡ spec.key_of ending.now.access ending.now.verdict }
{
    let pc = ending.access.pc;
    match ending.verdict {
        Verdict::Hit(seen) => Some(Key {
            first: pc.min(seen.access.pc),
            second: Some(pc.max(seen.access.pc)),
        }),
        Verdict::Changed => Some(Key {
            first: pc,
            second: None,
        }),
        Verdict::Quiet => None,
    }
}
