//! Whose steps stop a run that goes on.
ghost use Rattle.std.specs.Prelude.{◌≡◌};
ghost use Rattle.rv_retrace.specs.Going as spec;

use rv_hart::machine::MOST_HARTS;

/// Some of the harts: whether each is one of them.
pub type Harts = [bool; MOST_HARTS as usize];

/// Of the harts, which may stop the run, and which of those are to make a step.
#[derive(Clone, Copy)]
pub struct Aims {
    pub among: Harts,
    pub stepping: Harts,
}

/// Whether a hart is one of some.
pub(crate) fn is_one(harts: &Harts, hart: u8) -> bool
    ensures { result ≡ spec.is_one harts.now hart }
{
    match harts.get(hart as usize) {
        Some(is) => *is,
        None => false,
    }
}
